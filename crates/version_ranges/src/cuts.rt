//! Functions of the points of an order that are constant between cuts.
ghost use Rattle.std.specs.Prelude.{◌≡◌, None, true};
ghost use Rattle.version_ranges.specs.Steps.{ascends, last_value};
ghost use Rattle.version_ranges.specs.Cut.{cut_cmp};

use crate::cut::Cut;
use std::alloc::{AllocError, Global};

/// A function of the points of an order that is constant between cuts.
#[derive(PartialEq, Eq, Hash, Drop)]
pub struct Cuts<T: Ord, V> {
    // The value before all cuts: there is one more value than cuts.
    pub(crate) first: V,
    // Each cut with the value from it on.
    pub(crate) rest: Vec<(Cut<T>, V)>,
    pub ghost ascending: { ascends (cut_cmp T.cmp) None rest.items ≡ true },
}

impl<T: Ord, V> Cuts<T, V> {
    ghost use Rattle.std.specs.Prelude.{◌≡◌, ◌+◌, ◌<◌, Bool, true, vec_len};
    ghost use Rattle.version_ranges.specs.Bounds.{all_cuts};
    ghost use Rattle.version_ranges.specs.Point.{Point, at};
    ghost use Rattle.version_ranges.specs.Cuts.{value_of, piece_count, IsValueOfPiece};

    /// Returns the function with the same value at every point.
    pub fn constant(alloc: Global, value: V) -> Self
        ensures value { (p : Point T) → value_of T.cmp result p ≡ value }
        ensures count { piece_count result ≡ 1 }
        ensures bounds { (test : T → Bool) → all_cuts test result ≡ true }
    {
        Cuts {
            first: value,
            rest: Vec::new(alloc),
        }
    }

    /// Returns how many pieces there are.
    pub fn piece_count(&self) -> usize
        ensures { result ≡ piece_count self.now }
    {
        self.rest.len() + 1
    }

    /// Returns the value of the function at a value of the order.
    pub fn at(&self, value: &T) -> &V
        ensures { result.now ≡ value_of T.cmp self.now (at value.now) }
    {
        let passed = self.rest.partition_point(|step| !step.0.is_after(value));
        self.piece_value(passed)
    }

    /// Returns the value before all cuts.
    pub fn leftmost_value(&self) -> &V
        ensures { IsValueOfPiece T.cmp self.now 0 result.now }
    {
        self.piece_value(0)
    }

    // The value of the piece at an index.
    pub(crate) fn piece_value(&self, index: usize) -> &V
        requires { index < piece_count self.now }
        ensures { IsValueOfPiece T.cmp self.now index result.now }
    {
        if index == 0 {
            &self.first
        } else {
            &self.rest[index - 1].1
        }
    }
}

impl<V> Cuts<String, V> {
    ghost use Rattle.version_ranges.specs.Point.{at};
    ghost use Rattle.version_ranges.specs.Cuts.{text_value};

    /// Returns the value of the function at a text, without a `String`.
    pub fn at_str(&self, text: &str) -> &V
        ensures { result.now ≡ text_value self.now (at text.now) }
    {
        let passed = self.rest.partition_point(|step| !step.0.is_after_str(text));
        self.piece_value(passed)
    }
}

impl<T: Ord + Drop, V: Drop> Cuts<T, V> {
    ghost use Rattle.std.specs.Prelude.{IfOk, ◌≡◌, vec_len};
    ghost use Rattle.version_ranges.specs.Bounds.{HasValuesOf, all_cuts};
    ghost use Rattle.version_ranges.specs.Cuts.{piece_count, HasValuesInOrder, IsMerged};

    /// Returns the pieces with these values in order, one for each piece. Neighbors with equal
    /// values are joined.
    #[inline(always)]
    pub fn with_values<W: Eq + Drop>(self, values: Vec<W>) -> Result<Cuts<T, W>, AllocError>
        requires { vec_len values ≡ piece_count self }
        ensures value { IfOk result (λ r. HasValuesInOrder T.cmp W.eq self values.items r) }
        ensures merged { IfOk result (IsMerged W.eq) }
        ensures bounds { IfOk result (HasValuesOf all_cuts self all_cuts) }
    {
        let Cuts {
            first: _,
            rest: steps,
        } = self;
        let mut rest = Vec::with_capacity(*steps.allocator(), steps.len())?;
        let mut steps = steps.into_iter();
        let mut values = values.into_iter();
        let Some(first) = values.next() else {
            unreachable!()
        };
        while let Some((cut, _)) = steps.next() {
            let Some(value) = values.next() else {
                unreachable!()
            };
            if value != *last_of(&first, &rest) {
                rest.push((cut, value))?;
            }
        }
        Ok(Cuts { first, rest })
    }
}

// The value after all cuts.
pub(crate) fn last_of<'a, T, V>(first: &'a V, rest: &'a [(Cut<T>, V)]) -> &'a V
    ensures { result.now ≡ last_value first.now rest.now }
{
    match rest.split_last() {
        Some((step, _)) => &step.1,
        None => first,
    }
}
