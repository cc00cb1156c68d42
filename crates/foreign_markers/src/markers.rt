//! Markers of one interner by number.

ghost use Rattle.std.specs.Prelude.{◌≡◌, ◌<◌, ◌≤◌, IfSome, OnErr, OnOk, Some, length, slice_get, vec_capacity, vec_len};
ghost use Rattle.marker_graph.specs.Contents.{IsKept};
ghost use Rattle.marker_graph.specs.Mark.{HoldsUpTo};
ghost use Rattle.std.specs.List.Sorted.{IsNonDecreasingBy};
ghost use Rattle.foreign_markers.specs.Held.{AreBeforeNumber, AreGrowths, AreHeld, IsReleasedTo, MayHaveMore};

use crate::read::ReadEnvironment;
use foreign_calls::{
    Answer, Environment, Settings, out_of_memory, parse_marker, read_environment, read_names,
    read_text,
};
use marker_environment::MarkerEnvironment;
use marker_graph::{Interner, Mark, MarkerTree};
use pep508_names::ExtraName;
use std::alloc::{AllocError, Global};

// How far the interner had grown before it made the nodes of the marker of this number.
#[derive(Clone, Copy)]
pub(crate) struct Growth {
    pub(crate) number: usize,
    pub(crate) before: Mark,
}

// An environment with extras, as it was read.
#[derive(Drop)]
pub(crate) struct KnownEnvironment {
    pub(crate) environment: MarkerEnvironment,
    pub(crate) extras: Vec<ExtraName>,
}

/// Markers in one interner, numbered from 0, and the environment that was set.
#[derive(Drop)]
pub struct Markers {
    // (first, since most calls read them)
    pub(crate) trees: Vec<MarkerTree>,
    // One for each marker that had new nodes, in the order of their numbers.
    pub(crate) growths: Vec<Growth>,
    pub(crate) interner: Interner,
    pub(crate) environment: Option<KnownEnvironment>,
    // The environment that `evaluate` read last: most markers are asked in the same.
    pub(crate) last_read: Option<ReadEnvironment>,
    pub(crate) looks: usize,
    ghost held: { AreHeld interner trees.items },
    ghost grown: { AreGrowths trees.items growths.items },
}

// Makes room for one more. Calls that are seldom made stay out of their callers, which then have a
// small frame.
#[inline(never)]
fn grow<T>(items: &mut Vec<T>) -> Result<(), AllocError>
    ensures room { OnOk result (vec_len items.new < vec_capacity items.new) }
    ensures kept { items.new.items ≡ items.old.items }
{
    items.reserve(1)
}

// Makes room for one more, if there is none.
#[inline(always)]
fn make_room<T>(items: &mut Vec<T>) -> Result<(), AllocError>
    ensures room { OnOk result (vec_len items.new < vec_capacity items.new) }
    ensures kept { items.new.items ≡ items.old.items }
{
    if items.len() < items.capacity() {
        return Ok(());
    }
    grow(items)
}

// Makes room for one more marker and one more growth.
#[inline(always)]
fn make_rooms(trees: &mut Vec<MarkerTree>, growths: &mut Vec<Growth>) -> Result<(), AllocError>
    ensures trees { OnOk result (vec_len trees.new < vec_capacity trees.new) }
    ensures growths { OnOk result (vec_len growths.new < vec_capacity growths.new) }
    ensures kept { (trees.new.items ≡ trees.old.items) × (growths.new.items ≡ growths.old.items) }
{
    make_room(trees)?;
    make_room(growths)
}

// Adds a growth, if the interner has grown since its mark. There is room for it.
#[inline(always)]
fn note(growths: &mut Vec<Growth>, growth: Growth, now: Mark)
    requires { vec_len growths.old < vec_capacity growths.old }
    ensures { MayHaveMore growth growths.old.items growths.new.items }
{
    if now != growth.before {
        growths.push_reserved(growth);
    }
}

// How many of the growths came before this number.
fn count_before(growths: &[Growth], number: usize) -> usize
    requires { IsNonDecreasingBy (λ growth. growth.number) growths.now }
    ensures within { result ≤ length growths.now }
    ensures parted { AreBeforeNumber number growths.now result }
{
    growths.partition_point(|growth| growth.number < number)
}

// The growth at an index, if there is one.
fn growth_at(growths: &[Growth], index: usize) -> Option<Growth>
    ensures { IfSome result (λ growth. slice_get growths.now index ≡ Some growth) }
{
    growths.get(index).copied()
}

// Removes the nodes made since a growth, if there is one.
fn release_to(interner: &mut Interner, first: Option<Growth>)
    ensures kept { IsKept interner.new interner.old }
    ensures held { IsReleasedTo first interner.old interner.new }
{
    if let Some(growth) = first {
        interner.release(growth.before);
    }
}

// Removes the nodes made since the mark, for which there was no memory or no room.
#[inline(never)]
fn give_back(interner: &mut Interner, before: Mark)
    ensures kept { IsKept interner.new interner.old }
    ensures held { HoldsUpTo before interner.old interner.new }
{
    interner.release(before);
}

impl Markers {
    ghost use Rattle.std.specs.Prelude.{◌⊎◌, ◌∷◌, [], IfErr, IfNone, IfOk, take};
    ghost use Rattle.marker_graph.specs.Contents.{IsHeld, truth};
    ghost use Rattle.pep508_markers.specs.Machine.{Holds, Makes, conjunction, disjunction, negation};
    ghost use Rattle.foreign_calls.specs.Marker.{Says};
    ghost use Rattle.foreign_calls.specs.Environment.{bytes_of};
    ghost use Rattle.foreign_calls.specs.Refused.{IsMarkerRefusal, IsOfArguments, IsOutOfMemory};
    ghost use Rattle.foreign_markers.specs.Held.{AreBefore};
    ghost use Rattle.foreign_markers.specs.Interner.{IsSetTo, empty_state, state_of};
    ghost use Rattle.foreign_markers.specs.Numbers.{Adds, truths_of};
    ghost use Rattle.foreign_markers.specs.Refused.{IsRefused, TakesMemory};

    /// Returns an interner without markers and without an environment, with the key and the limits
    /// of the settings.
    #[tactic(auto, using(crate::proofs::NumberLaws::beginning))]
    pub fn new(alloc: Global, settings: &Settings<'_>) -> Markers
        ensures { state_of result ≡ empty_state }
    {
        Markers {
            interner: settings.interner(alloc),
            trees: Vec::new(alloc),
            growths: Vec::new(alloc),
            environment: None,
            last_read: None,
            looks: settings.looks(),
        }
    }

    /// Parses a marker, and returns its number.
    #[tactic(auto, using(crate::proofs::NumberLaws::parsing))]
    pub fn parse(&mut self, text: &[u8]) -> Result<usize, Answer>
        ensures added { IfOk result
            (Adds (Says text.now) (truths_of self.old) (truths_of self.new)) }
        ensures refused { IfErr result (IsMarkerRefusal text.now) }
        ensures kept { OnErr result (truths_of self.new ≡ truths_of self.old) }
        ensures environment { self.new.environment ≡ self.old.environment }
    {
        let text = read_text(text)?;
        let before = self.interner.mark();
        match parse_marker(text, &mut self.interner) {
            Ok(tree) => self.add(tree, before),
            Err(answer) => Err(answer),
        }
    }

    /// Returns the number of a new marker that is true where both are.
    #[tactic(auto, using(crate::proofs::NumberLaws::joining))]
    pub fn and(&mut self, a: usize, b: usize) -> Result<usize, Answer>
        ensures added { IfOk result
            (Adds (λ f. Makes (truths_of self.old) (conjunction a b) f [])
            (truths_of self.old) (truths_of self.new)) }
        ensures refused { IfErr result (IsRefused TakesMemory (a ∷ b ∷ []) (state_of self.old)) }
        ensures kept { OnErr result (truths_of self.new ≡ truths_of self.old) }
        ensures environment { self.new.environment ≡ self.old.environment }
    {
        let Some((left, right)) = self.two_trees(a, b) else {
            return Err(Answer::NoSuchMarker);
        };
        let before = self.interner.mark();
        let mut both = left;
        match both.and(&mut self.interner, right) {
            Ok(()) => self.add(both, before),
            Err(_) => Err(self.undo(before)),
        }
    }

    /// Returns the number of a new marker that is true where one of two is.
    #[tactic(auto, using(crate::proofs::NumberLaws::joining))]
    pub fn or(&mut self, a: usize, b: usize) -> Result<usize, Answer>
        ensures added { IfOk result
            (Adds (λ f. Makes (truths_of self.old) (disjunction a b) f [])
            (truths_of self.old) (truths_of self.new)) }
        ensures refused { IfErr result (IsRefused TakesMemory (a ∷ b ∷ []) (state_of self.old)) }
        ensures kept { OnErr result (truths_of self.new ≡ truths_of self.old) }
        ensures environment { self.new.environment ≡ self.old.environment }
    {
        let Some((left, right)) = self.two_trees(a, b) else {
            return Err(Answer::NoSuchMarker);
        };
        let before = self.interner.mark();
        let mut either = left;
        match either.or(&mut self.interner, right) {
            Ok(()) => self.add(either, before),
            Err(_) => Err(self.undo(before)),
        }
    }

    /// Returns the number of a new marker that is true where the given one is not.
    #[tactic(auto, using(crate::proofs::NumberLaws::negating))]
    pub fn not(&mut self, number: usize) -> Result<usize, Answer>
        ensures added { IfOk result
            (Adds (λ f. Makes (truths_of self.old) (negation number) f [])
            (truths_of self.old) (truths_of self.new)) }
        ensures refused { IfErr result (IsRefused TakesMemory (number ∷ []) (state_of self.old)) }
        ensures kept { OnErr result (truths_of self.new ≡ truths_of self.old) }
        ensures environment { self.new.environment ≡ self.old.environment }
    {
        let Some(tree) = self.tree(number) else {
            return Err(Answer::NoSuchMarker);
        };
        self.add_known(tree.negate())
    }

    /// Returns how many markers have a number: the number of the next one.
    #[tactic(auto, using(crate::proofs::NumberLaws::count_is))]
    pub fn count(&self) -> usize
        ensures { result ≡ length (truths_of self.now) }
    {
        self.trees.len()
    }

    /// Removes the markers from this number on, with their nodes.
    pub fn release(&mut self, count: usize)
        ensures first { truths_of self.new ≡ take count (truths_of self.old) }
        ensures environment { self.new.environment ≡ self.old.environment }
    {
        let growths = self.growths.as_slice();
        let first = count_before(growths, count);
        release_to(&mut self.interner, growth_at(growths, first));
        self.growths.truncate(first);
        self.trees.truncate(count);
    }

    /// Sets the environment, with extras, in which `is_true` evaluates, instead of the one before.
    #[tactic(auto, using(crate::proofs::NumberLaws::setting))]
    pub fn set_environment(
        &mut self,
        alloc: Global,
        values: &Environment<'_>,
        extras: &[&[u8]],
    ) -> Result<(), Answer>
        ensures set { IfOk result
            (λ done. IsSetTo values.now (bytes_of extras.now) self.new.environment) }
        ensures refused { IfErr result IsOfArguments }
        ensures kept { OnErr result (self.new.environment ≡ self.old.environment) }
        ensures markers { truths_of self.new ≡ truths_of self.old }
    {
        let environment = read_environment(alloc, values)?;
        let extras = read_names(alloc, extras)?;
        self.environment = Some(KnownEnvironment {
            environment,
            extras,
        });
        Ok(())
    }

    // The marker of a number.
    #[tactic(auto, using(crate::proofs::NumberLaws::looking_up))]
    pub(crate) fn tree(&self, number: usize) -> Option<MarkerTree>
        ensures found { IfSome result
            (λ tree. Holds (truths_of self.now) number (truth self.now.interner tree)) }
        ensures held { IfSome result (IsHeld self.now.interner) }
        ensures missing { IfNone result (length (truths_of self.now) ≤ number) }
    {
        self.trees.get(number).copied()
    }

    // The markers of two numbers.
    pub(crate) fn two_trees(&self, a: usize, b: usize) -> Option<(MarkerTree, MarkerTree)>
        ensures first { IfSome result
            (λ trees. Holds (truths_of self.now) a (truth self.now.interner trees.0)) }
        ensures second { IfSome result
            (λ trees. Holds (truths_of self.now) b (truth self.now.interner trees.1)) }
        ensures held { IfSome result
            (λ trees. IsHeld self.now.interner trees.0 × IsHeld self.now.interner trees.1) }
        ensures missing { IfNone result
            ((length (truths_of self.now) ≤ a) ⊎ (length (truths_of self.now) ≤ b)) }
    {
        // (one test serves for both)
        if a.max(b) >= self.trees.len() {
            return None;
        }
        Some((self.trees[a], self.trees[b]))
    }

    // Gives a marker the next number. If there is no memory for it, its nodes, made since the mark,
    // are removed.
    fn add(&mut self, tree: MarkerTree, before: Mark) -> Result<usize, Answer>
        requires held { IsHeld self.old.interner tree }
        requires before { AreBefore before self.old.trees.items }
        ensures added { IfOk result (Adds (λ f. f ≡ truth self.old.interner tree)
            (truths_of self.old) (truths_of self.new)) }
        ensures refused { IfErr result (λ answer. answer ≡ Answer.OutOfMemory) }
        ensures kept { OnErr result (truths_of self.new ≡ truths_of self.old) }
        ensures environment { self.new.environment ≡ self.old.environment }
    {
        let Ok(()) = make_rooms(&mut self.trees, &mut self.growths) else {
            give_back(&mut self.interner, before);
            return Err(Answer::OutOfMemory);
        };
        let number = self.trees.len();
        note(
            &mut self.growths,
            Growth { number, before },
            self.interner.mark(),
        );
        self.trees.push_reserved(tree);
        Ok(number)
    }

    // Gives a marker of nodes that others have the next number.
    fn add_known(&mut self, tree: MarkerTree) -> Result<usize, Answer>
        requires { IsHeld self.old.interner tree }
        ensures added { IfOk result (Adds (λ f. f ≡ truth self.old.interner tree)
            (truths_of self.old) (truths_of self.new)) }
        ensures refused { IfErr result (λ answer. answer ≡ Answer.OutOfMemory) }
        ensures kept { OnErr result (truths_of self.new ≡ truths_of self.old) }
        ensures environment { self.new.environment ≡ self.old.environment }
    {
        let Ok(()) = make_room(&mut self.trees) else {
            return Err(Answer::OutOfMemory);
        };
        let number = self.trees.len();
        self.trees.push_reserved(tree);
        Ok(number)
    }

    // Gives back the nodes made since the mark, and says why.
    #[tactic(auto, using(crate::proofs::NumberLaws::still_held))]
    fn undo(&mut self, before: Mark) -> Answer
        requires { AreBefore before self.old.trees.items }
        ensures refused { IsOutOfMemory result }
        ensures kept { truths_of self.new ≡ truths_of self.old }
        ensures environment { self.new.environment ≡ self.old.environment }
    {
        give_back(&mut self.interner, before);
        out_of_memory(&self.interner)
    }
}
