//! The calls on a handle.

ghost use Rattle.std.specs.Prelude.{◌≡◌, ◌≢◌, ◌∷◌, [], Some, None};
ghost use Rattle.marker_grammar.specs.Refused.{IsNoMarker};
ghost use Rattle.pep508_markers.specs.Machine as machine;
ghost use Rattle.pep508_markers.specs.Machine.{conjunction, disjunction, negation};
ghost use Rattle.pep508_markers.specs.Text.{TextOverflows};
ghost use Rattle.foreign_calls.specs.declared.answer.Answer.TheVariants.{BufferTooSmall, Done, Invalid, NumberTooLarge, Shut};
ghost use Rattle.foreign_markers.specs.Interner.{empty_state, state};
ghost use Rattle.foreign_markers.specs.Made.{HasFirst, HasMarkerOf, HasOneMore, SetsEnvironment};
ghost use Rattle.foreign_markers.specs.Refused.{Always, Refuses, TakesArguments, TakesEnvironment, TakesLooks, TakesMemory};
ghost use Rattle.foreign_markers.specs.Told.{HasAnswer, HasCount, HasValueIn, IsTrueThere, WouldWriteText, WritesText};

use crate::handle::Handle;
use crate::markers::Markers;
use foreign_calls::{Answer, Environment, Options, Settings, hand_over};
use std::alloc::Global;

// Beginning and ending.
impl Handle {
    /// Opens the handle with an interner without markers. An open handle loses the markers it had.
    pub fn begin(&mut self, alloc: Global, options: &[Options<'_>]) -> Answer
        ensures done { result ≡ Done → state self.new.value ≡ Some empty_state }
        ensures kept { result ≢ Done → state self.new.value ≡ state self.old.value }
    {
        let settings = match Settings::of(options) {
            Ok(settings) => settings,
            Err(answer) => return answer,
        };
        match Box::new(alloc, Markers::new(alloc, &settings)) {
            Ok(markers) => {
                self.put(alloc, Handle::of(markers));
                Answer::Done
            }
            Err(_) => Answer::OutOfMemory,
        }
    }

    /// Frees the interner with its markers, and shuts the handle. A shut handle stays shut.
    pub fn end(&mut self, alloc: Global)
        ensures { self.new.value ≡ None }
    {
        self.put(alloc, Handle::shut());
    }

    /// Writes how many markers have a number.
    #[tactic(auto, using(crate::proofs::HandleLaws::laws))]
    pub fn mark(&mut self, count: &mut usize) -> Answer
        ensures done { result ≡ Done → HasCount count.new self.old }
        ensures same { state self.new.value ≡ state self.old.value }
        ensures kept { result ≢ Done → count.new ≡ count.old }
        ensures refused { result ≢ Done → (result ≡ Shut) × (self.old.value ≡ None) }
    {
        let Some(markers) = self.markers() else {
            return Answer::Shut;
        };
        *count = markers.count();
        Answer::Done
    }

    /// Removes the markers from this number on, with their nodes.
    #[tactic(auto, using(crate::proofs::HandleLaws::laws))]
    pub fn release(&mut self, count: usize) -> Answer
        ensures done { result ≡ Done → HasFirst count self.old self.new }
        ensures kept { result ≢ Done → self.new.value ≡ None }
        ensures refused { result ≢ Done → (result ≡ Shut) × (self.old.value ≡ None) }
    {
        let Some(markers) = self.markers() else {
            return Answer::Shut;
        };
        markers.release(count);
        Answer::Done
    }
}

// Calls that make a marker, or set the environment.
impl Handle {
    /// Sets the environment, with extras, in which `is_true` evaluates, instead of the one before.
    #[tactic(auto, using(crate::proofs::HandleLaws::laws))]
    pub fn set_environment(
        &mut self,
        alloc: Global,
        environment: &Environment<'_>,
        extras: &[&[u8]],
    ) -> Answer
        ensures done { result ≡ Done → SetsEnvironment environment.now extras.now
            self.old self.new }
        ensures kept { result ≢ Done → state self.new.value ≡ state self.old.value }
        ensures refused { result ≢ Done → Refuses TakesArguments [] self.old result }
    {
        let Some(markers) = self.markers() else {
            return Answer::Shut;
        };
        match markers.set_environment(alloc, environment, extras) {
            Ok(()) => Answer::Done,
            Err(answer) => answer,
        }
    }

    /// Parses a marker, and writes its number.
    #[tactic(auto, using(crate::proofs::HandleLaws::laws))]
    pub fn parse(&mut self, text: &[u8], number: &mut usize) -> Answer
        ensures done { result ≡ Done → HasMarkerOf text.now number.new self.old self.new }
        ensures kept { result ≢ Done → state self.new.value ≡ state self.old.value }
        ensures number { result ≢ Done → number.new ≡ number.old }
        ensures invalid { result ≡ Invalid → IsNoMarker text.now }
        ensures too_large { result ≡ NumberTooLarge → TextOverflows text.now }
        ensures shut { self.old.value ≡ None → result ≡ Shut }
    {
        let Some(markers) = self.markers() else {
            return Answer::Shut;
        };
        match markers.parse(text) {
            Ok(parsed) => {
                *number = parsed;
                Answer::Done
            }
            Err(answer) => answer,
        }
    }

    /// Writes the number of a new marker that is true where both are.
    #[tactic(auto, using(crate::proofs::HandleLaws::laws))]
    pub fn and(&mut self, a: usize, b: usize, number: &mut usize) -> Answer
        ensures done { result ≡ Done → HasOneMore (conjunction a b) number.new self.old self.new }
        ensures kept { result ≢ Done → state self.new.value ≡ state self.old.value }
        ensures number { result ≢ Done → number.new ≡ number.old }
        ensures refused { result ≢ Done → Refuses TakesMemory (a ∷ b ∷ []) self.old result }
    {
        let Some(markers) = self.markers() else {
            return Answer::Shut;
        };
        match markers.and(a, b) {
            Ok(both) => {
                *number = both;
                Answer::Done
            }
            Err(answer) => answer,
        }
    }

    /// Writes the number of a new marker that is true where one of two is.
    #[tactic(auto, using(crate::proofs::HandleLaws::laws))]
    pub fn or(&mut self, a: usize, b: usize, number: &mut usize) -> Answer
        ensures done { result ≡ Done → HasOneMore (disjunction a b) number.new self.old self.new }
        ensures kept { result ≢ Done → state self.new.value ≡ state self.old.value }
        ensures number { result ≢ Done → number.new ≡ number.old }
        ensures refused { result ≢ Done → Refuses TakesMemory (a ∷ b ∷ []) self.old result }
    {
        let Some(markers) = self.markers() else {
            return Answer::Shut;
        };
        match markers.or(a, b) {
            Ok(either) => {
                *number = either;
                Answer::Done
            }
            Err(answer) => answer,
        }
    }

    /// Writes the number of a new marker that is true where the given one is not.
    #[tactic(auto, using(crate::proofs::HandleLaws::laws))]
    pub fn not(&mut self, a: usize, number: &mut usize) -> Answer
        ensures done { result ≡ Done → HasOneMore (negation a) number.new self.old self.new }
        ensures kept { result ≢ Done → state self.new.value ≡ state self.old.value }
        ensures number { result ≢ Done → number.new ≡ number.old }
        ensures refused { result ≢ Done → Refuses TakesMemory (a ∷ []) self.old result }
    {
        let Some(markers) = self.markers() else {
            return Answer::Shut;
        };
        match markers.not(a) {
            Ok(negation) => {
                *number = negation;
                Answer::Done
            }
            Err(answer) => answer,
        }
    }
}

// Questions about markers.
impl Handle {
    /// Writes whether two markers agree at every valuation.
    #[tactic(auto, using(crate::proofs::HandleLaws::laws))]
    pub fn equal(&mut self, a: usize, b: usize, value: &mut bool) -> Answer
        ensures done { result ≡ Done → HasAnswer (machine.equal a b) value.new self.old }
        ensures same { state self.new.value ≡ state self.old.value }
        ensures kept { result ≢ Done → value.new ≡ value.old }
        ensures refused { result ≢ Done → Refuses Always (a ∷ b ∷ []) self.old result }
    {
        let Some(markers) = self.markers() else {
            return Answer::Shut;
        };
        match markers.equal(a, b) {
            Ok(equal) => {
                *value = equal;
                Answer::Done
            }
            Err(answer) => answer,
        }
    }

    /// Writes whether two markers are disjoint: no valuation satisfies both.
    #[tactic(auto, using(crate::proofs::HandleLaws::laws))]
    pub fn disjoint(&mut self, a: usize, b: usize, value: &mut bool) -> Answer
        ensures done { result ≡ Done → HasAnswer (machine.disjoint a b) value.new self.old }
        ensures same { state self.new.value ≡ state self.old.value }
        ensures kept { result ≢ Done → value.new ≡ value.old }
        ensures refused { result ≢ Done → Refuses TakesLooks (a ∷ b ∷ []) self.old result }
    {
        let Some(markers) = self.markers() else {
            return Answer::Shut;
        };
        match markers.disjoint(a, b) {
            Ok(disjoint) => {
                *value = disjoint;
                Answer::Done
            }
            Err(answer) => answer,
        }
    }

    /// Writes whether a marker is true in an environment with these extras.
    #[tactic(auto, using(crate::proofs::HandleLaws::laws))]
    pub fn evaluate(
        &mut self,
        alloc: Global,
        number: usize,
        environment: &Environment<'_>,
        extras: &[&[u8]],
        value: &mut bool,
    ) -> Answer
        ensures done { result ≡ Done
            → HasValueIn number environment.now extras.now value.new self.old }
        ensures same { state self.new.value ≡ state self.old.value }
        ensures kept { result ≢ Done → value.new ≡ value.old }
        ensures refused { result ≢ Done → Refuses TakesArguments (number ∷ []) self.old result }
    {
        let Some(markers) = self.markers() else {
            return Answer::Shut;
        };
        match markers.evaluate(alloc, number, environment, extras) {
            Ok(holds) => {
                *value = holds;
                Answer::Done
            }
            Err(answer) => answer,
        }
    }

    /// Writes whether a marker is true in the environment that was set.
    #[tactic(auto, using(crate::proofs::HandleLaws::laws))]
    pub fn is_true(&mut self, number: usize, value: &mut bool) -> Answer
        ensures done { result ≡ Done → IsTrueThere number value.new self.old }
        ensures same { state self.new.value ≡ state self.old.value }
        ensures kept { result ≢ Done → value.new ≡ value.old }
        ensures refused { result ≢ Done → Refuses TakesEnvironment (number ∷ []) self.old result }
    {
        let Some(markers) = self.markers() else {
            return Answer::Shut;
        };
        match markers.is_true(number) {
            Ok(holds) => {
                *value = holds;
                Answer::Done
            }
            Err(answer) => answer,
        }
    }

    /// Writes the text of a marker, which is empty if it is true everywhere.
    #[tactic(auto, using(crate::proofs::HandleLaws::laws))]
    pub fn text(&mut self, number: usize, buffer: &mut [u8], needed: &mut usize) -> Answer
        ensures done { result ≡ Done → WritesText number buffer.old buffer.new needed.new self.old }
        ensures too_small { result ≡ BufferTooSmall
            → WouldWriteText number buffer.old buffer.new needed.new self.old }
        ensures same { state self.new.value ≡ state self.old.value }
        ensures kept { result ≢ Done → buffer.new ≡ buffer.old }
        ensures none { result ≢ Done → result ≢ BufferTooSmall → needed.new ≡ 0 }
        ensures refused { result ≢ Done → result ≢ BufferTooSmall
            → Refuses TakesMemory (number ∷ []) self.old result }
    {
        *needed = 0;
        let Some(markers) = self.markers() else {
            return Answer::Shut;
        };
        match markers.text(number) {
            Ok(text) => hand_over(text.as_bytes(), buffer, needed),
            Err(answer) => answer,
        }
    }
}
