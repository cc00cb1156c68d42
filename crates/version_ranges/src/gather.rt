//! Functions made from sets of points, and sets made from functions.
ghost use Rattle.std.specs.Prelude.{◌≡◌, ◌<◌, [], map, IfOk, OnOk, vec_len, if◌then◌else◌};
ghost use Rattle.std.specs.Set.{ClonesAreEqual};
ghost use Rattle.version_ranges.specs.Bounds.{IsCloned, HasValuesOf, all_bounds, all_cuts, all_sets};
ghost use Rattle.version_ranges.specs.Cuts.{IsMerged};
ghost use Rattle.version_ranges.specs.Gather.{ArePast, AreTurned, IsGathered, IsPast, IsPlace, IsSplitBy, KeepsSets, joined, with_turn};

use crate::cut::Cut;
use crate::cuts::{Cuts, last_of};
use crate::ranges::Ranges;
use indexmap::IndexSet;
use std::alloc::{AllocError, Global};
use std::hash::Hash;

impl<T: Ord + Drop, V: Eq + Clone> Cuts<T, V> {
    /// Returns the function with one value at the points of a set, and another at all other points.
    /// The cuts of the set are moved into the function.
    pub fn from_ranges(ranges: Ranges<T>, inside: V, outside: V) -> Result<Self, AllocError>
        requires value_clones { ClonesAreEqual V.eq V.is_clone }
        ensures value { IfOk result (IsSplitBy T.cmp V.eq ranges inside outside) }
        ensures merged { IfOk result (IsMerged V.eq) }
        ensures bounds { IfOk result (HasValuesOf all_bounds ranges all_cuts) }
    {
        let Cuts {
            first: is_first_inside,
            rest: steps,
        } = ranges.cuts;
        let alloc = *steps.allocator();
        if inside == outside {
            return Ok(Cuts::constant(alloc, outside));
        }
        let mut rest = Vec::with_capacity(alloc, steps.len())?;
        let first = either(is_first_inside, &inside, &outside).clone()?;
        let mut steps = steps.into_iter();
        while let Some((cut, is_inside)) = steps.next() {
            let value = either(is_inside, &inside, &outside).clone()?;
            rest.push((cut, value))?;
        }
        Ok(Cuts { first, rest })
    }
}

// One of two values.
fn either<'a, V>(flag: bool, inside: &'a V, outside: &'a V) -> &'a V
    ensures { result.now ≡ (if flag then inside.now else outside.now) }
{
    if flag { inside } else { outside }
}

impl<T: Ord + Clone, V: Eq + Hash> Cuts<T, V> {
    /// Returns each value of the function with the set of the points that have it, in the order of
    /// their first points. The bounds of the sets are those of the function.
    pub fn gather(&self, alloc: Global) -> Result<Vec<(&V, Ranges<T>)>, AllocError>
        requires clones { ClonesAreEqual T.eq T.is_clone }
        ensures gathered { IfOk result (λ r. IsGathered T.cmp V.eq self.now r.items) }
        ensures bounds { IfOk result (λ r. IsCloned T.is_clone all_cuts self.now all_sets r.items) }
    {
        let mut places = IndexSet::new(alloc);
        let mut pairs = Vec::new(alloc);
        let mut current = place_of(
            &mut places,
            &mut pairs,
            Ranges::constant(alloc, true),
            &self.first,
        )?;
        for step in &self.rest {
            let place = place_of(
                &mut places,
                &mut pairs,
                Ranges::constant(alloc, false),
                &step.1,
            )?;
            pass(&mut pairs, current, place, &step.0)?;
            current = place;
        }
        Ok(pairs)
    }
}

// The place of a value among the values. A new value is added with a set.
fn place_of<'a, T: Ord + Drop, V: Eq + Hash>(
    places: &mut IndexSet<&'a V>,
    pairs: &mut Vec<(&'a V, Ranges<T>)>,
    set: Ranges<T>,
    value: &'a V,
) -> Result<usize, AllocError>
    requires { places.old.keys ≡ map (λ q. q.0) pairs.old.items }
    ensures keys { OnOk result (places.new.keys ≡ map (λ q. q.0) pairs.new.items) }
    ensures pairs { OnOk result (pairs.new.items ≡ joined V.eq pairs.old.items (value.entry, set)) }
    ensures found { IfOk result (λ i. IsPlace V.eq (λ q. q.0.now) pairs.new.items i value.now) }
{
    let (place, added) = match places.insert_full(value) {
        Ok(answer) => answer,
        Err(_) => return Err(AllocError),
    };
    if added {
        pairs.push((value, set))?;
    }
    Ok(place)
}

// Ends the set at one place at a cut, and continues the one at another place.
fn pass<T: Ord + Clone, V>(
    pairs: &mut Vec<(&V, Ranges<T>)>,
    from: usize,
    to: usize,
    cut: &Cut<T>,
) -> Result<(), AllocError>
    requires clones { ClonesAreEqual T.eq T.is_clone }
    requires from { from < vec_len pairs.old }
    requires to { to < vec_len pairs.old }
    requires past { ArePast T.cmp pairs.old.items cut.now }
    ensures turned { OnOk result (AreTurned T.cmp from to cut.now pairs.old.items pairs.new.items) }
    ensures bounds { OnOk result (KeepsSets T.is_clone cut.now pairs.old.items pairs.new.items) }
{
    if from == to {
        return Ok(());
    }
    pairs[from].1.turn(cut.clone()?)?;
    pairs[to].1.turn(cut.clone()?)?;
    Ok(())
}

impl<T: Ord + Drop> Ranges<T> {
    // All points, or none.
    fn constant(alloc: Global, inside: bool) -> Self
        ensures first { result.cuts.first ≡ inside }
        ensures rest { result.cuts.rest.items ≡ [] }
    {
        Ranges {
            cuts: Cuts {
                first: inside,
                rest: Vec::new(alloc),
            },
        }
    }

    // Adds the points from a cut after all others on that were not in the set, and removes those
    // that were.
    fn turn(&mut self, cut: Cut<T>) -> Result<(), AllocError>
        requires { IsPast T.cmp self.old cut }
        ensures first { OnOk result (self.new.cuts.first ≡ self.old.cuts.first) }
        ensures rest { OnOk result (self.new.cuts.rest.items ≡ with_turn self.old cut) }
    {
        let cuts = &mut self.cuts;
        let inside = !*last_of(&cuts.first, &cuts.rest);
        cuts.rest.push((cut, inside))?;
        Ok(())
    }
}
