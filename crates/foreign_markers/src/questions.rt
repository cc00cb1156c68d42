//! Questions about markers by number, which change none.

ghost use Rattle.std.specs.Prelude.{◌≡◌, ◌∷◌, [], IfErr, IfOk, string_bytes};
ghost use Rattle.pep508_markers.specs.Machine as machine;
ghost use Rattle.pep508_markers.specs.Machine.{Tells};
ghost use Rattle.foreign_calls.specs.Environment.{bytes_of};
ghost use Rattle.foreign_calls.specs.Refused.{IsOfArguments};
ghost use Rattle.foreign_markers.specs.Interner.{HasValueAt, HasValueThere, state_of};
ghost use Rattle.foreign_markers.specs.Last.{IsLast};
ghost use Rattle.foreign_markers.specs.Numbers.{HasText, truths_of};
ghost use Rattle.foreign_markers.specs.Refused.{Always, IsRefused, TakesArguments, TakesEnvironment, TakesLooks, TakesMemory};

use crate::markers::Markers;
use crate::read::ReadEnvironment;
use foreign_calls::{Answer, Environment, marker_text, read_names};
use std::alloc::Global;

// Reads the environment of these values, if they are not those of the one that was read last.
fn read_again(
    alloc: Global,
    last: &mut Option<ReadEnvironment>,
    values: &Environment<'_>,
) -> Result<(), Answer>
    ensures given { IfOk result (λ done. IsLast values.now last.new) }
    ensures refused { IfErr result IsOfArguments }
{
    if let Some(read) = last {
        if read.has(values) {
            return Ok(());
        }
    }
    *last = Some(ReadEnvironment::read(alloc, values)?);
    Ok(())
}

impl Markers {
    /// Returns whether two markers agree at every valuation.
    #[tactic(auto, using(crate::proofs::NumberLaws::missing_two))]
    pub fn equal(&self, a: usize, b: usize) -> Result<bool, Answer>
        ensures told { IfOk result (Tells (truths_of self.now) (machine.equal a b)) }
        ensures refused { IfErr result (IsRefused Always (a ∷ b ∷ []) (state_of self.now)) }
    {
        let Some((left, right)) = self.two_trees(a, b) else {
            return Err(Answer::NoSuchMarker);
        };
        Ok(self.interner.equivalent(left, right))
    }

    /// Returns whether two markers are never true together, or `TooComplex` if that takes more
    /// looks than the settings allow.
    #[tactic(auto, using(crate::proofs::NumberLaws::separating))]
    pub fn disjoint(&self, a: usize, b: usize) -> Result<bool, Answer>
        ensures told { IfOk result (Tells (truths_of self.now) (machine.disjoint a b)) }
        ensures refused { IfErr result (IsRefused TakesLooks (a ∷ b ∷ []) (state_of self.now)) }
    {
        let Some((left, right)) = self.two_trees(a, b) else {
            return Err(Answer::NoSuchMarker);
        };
        match left.is_disjoint_within(&self.interner, right, self.looks) {
            Some(disjoint) => Ok(disjoint),
            None => Err(Answer::TooComplex),
        }
    }

    /// Returns whether a marker is true in an environment with these extras.
    #[tactic(auto, using(crate::proofs::NumberLaws::evaluating))]
    pub fn evaluate(
        &mut self,
        alloc: Global,
        number: usize,
        values: &Environment<'_>,
        extras: &[&[u8]],
    ) -> Result<bool, Answer>
        ensures told { IfOk result (λ value. HasValueAt number values.now (bytes_of extras.now)
            value (truths_of self.old)) }
        ensures refused { IfErr result
            (IsRefused TakesArguments (number ∷ []) (state_of self.old)) }
        ensures markers { truths_of self.new ≡ truths_of self.old }
        ensures environment { self.new.environment ≡ self.old.environment }
    {
        let Some(tree) = self.tree(number) else {
            return Err(Answer::NoSuchMarker);
        };
        let names = read_names(alloc, extras)?;
        read_again(alloc, &mut self.last_read, values)?;
        match &self.last_read {
            Some(read) => Ok(tree.evaluate(&self.interner, &read.environment, &names)),
            None => unreachable!(),
        }
    }

    /// Returns whether a marker is true in the environment that was set, or `NoEnvironment` if none
    /// was.
    #[tactic(auto, using(crate::proofs::NumberLaws::asking))]
    pub fn is_true(&self, number: usize) -> Result<bool, Answer>
        ensures told { IfOk result (λ value. HasValueThere number value (state_of self.now)) }
        ensures refused { IfErr result
            (IsRefused TakesEnvironment (number ∷ []) (state_of self.now)) }
    {
        let Some(tree) = self.tree(number) else {
            return Err(Answer::NoSuchMarker);
        };
        match &self.environment {
            Some(known) => Ok(tree.evaluate(&self.interner, &known.environment, &known.extras)),
            None => Err(Answer::NoEnvironment),
        }
    }

    /// Returns the text of a marker, which is empty if it is true everywhere.
    #[tactic(auto, using(crate::proofs::NumberLaws::printing))]
    pub fn text(&self, number: usize) -> Result<String, Answer>
        ensures written { IfOk result
            (λ text. HasText (truths_of self.now) number (string_bytes text)) }
        ensures refused { IfErr result (IsRefused TakesMemory (number ∷ []) (state_of self.now)) }
    {
        let Some(tree) = self.tree(number) else {
            return Err(Answer::NoSuchMarker);
        };
        marker_text(tree, &self.interner)
    }
}
