//! Sets of points that are unions of intervals.
ghost use Rattle.std.specs.Prelude.{◌≡◌, ◌&&◌, not, MatchOption};
ghost use Rattle.std.specs.declared.ops.Bound.TheVariants.{Unbounded};
ghost use Rattle.version_ranges.specs.Cut.{lower_of, upper_of};
ghost use mathlib.Core.Bool.{beq};
ghost use Rattle.version_ranges.specs.Cuts.{IsMerged};

use crate::combine::Taken;
use crate::cut::Cut;
use crate::cuts::Cuts;
use std::alloc::{AllocError, Global};
use std::ops::Bound;

/// A set of the points of an order that is a union of intervals.
///
/// Sets with the same points are equal by `==`: intervals that touch are always joined, and no
/// other value of the order is needed to compare them.
#[derive(PartialEq, Eq, Hash, Drop)]
pub struct Ranges<T: Ord> {
    pub(crate) cuts: Cuts<T, bool>,
    pub ghost merged: { IsMerged beq cuts },
}

impl<T: Ord> Ranges<T> {
    ghost use Rattle.std.specs.Prelude.{◌≡◌, Bool, true, false, IfOk, IfSome, IfNone, IsTrue, ◌↔◌};
    ghost use Rattle.version_ranges.specs.Bounds.{all_bounds};
    ghost use Rattle.version_ranges.specs.Point.{Point, at, is_value};
    ghost use Rattle.version_ranges.specs.Ranges.{contains_point, IsSet};

    /// Returns the empty set.
    pub fn empty(alloc: Global) -> Self
        ensures set { (p : Point T) → contains_point T.cmp result p ≡ false }
        ensures bounds { (test : T → Bool) → all_bounds test result ≡ true }
    {
        Ranges {
            cuts: Cuts::constant(alloc, false),
        }
    }

    /// Returns the set of all points.
    pub fn full(alloc: Global) -> Self
        ensures set { (p : Point T) → contains_point T.cmp result p ≡ true }
        ensures bounds { (test : T → Bool) → all_bounds test result ≡ true }
    {
        Ranges {
            cuts: Cuts::constant(alloc, true),
        }
    }

    /// Returns whether the set is empty.
    pub fn is_empty(&self) -> bool
        ensures { IsTrue result ↔ ((p : Point T) → contains_point T.cmp self.now p ≡ false) }
    {
        !self.cuts.first && self.cuts.rest.is_empty()
    }

    /// Returns the value of a set of exactly one value, or `None` for any other set.
    pub fn as_singleton(&self) -> Option<&T>
        ensures single { IfSome result (λ v. IsSet T.cmp self.now (is_value T.cmp v.now)) }
        ensures other { IfNone result ((v : T) → ¬ IsSet T.cmp self.now (is_value T.cmp v)) }
    {
        let steps: &[(Cut<T>, bool)] = &self.cuts.rest;
        if steps.len() != 2 {
            return None;
        }
        let begin = &steps[0].0;
        let end = &steps[1].0;
        if is_around(self.cuts.first, begin, end) {
            Some(&begin.value)
        } else {
            None
        }
    }

    /// Returns whether a value is in the set.
    pub fn contains(&self, value: &T) -> bool
        ensures { result ≡ contains_point T.cmp self.now (at value.now) }
    {
        *self.cuts.at(value)
    }
}

impl<T: Ord + Drop> Ranges<T> {
    ghost use Rattle.std.specs.Prelude.{◌≡◌, IfOk};
    ghost use Rattle.version_ranges.specs.Bounds.{IsBoundedAt, IsBoundedBy};
    ghost use Rattle.std.specs.declared.cmp.Ordering.TheVariants.{Less};
    ghost use Rattle.std.specs.declared.ops.Bound.TheVariants.{Included, Excluded, Unbounded};
    ghost use Rattle.version_ranges.specs.Cut.{cut_cmp, is_in_half, is_in_span};
    ghost use Rattle.version_ranges.specs.Ranges.{IsInterval, IsSet};

    /// Returns the set between two bounds, which may be empty.
    pub fn from_range_bounds(
        alloc: Global,
        bounds: (Bound<T>, Bound<T>),
    ) -> Result<Self, AllocError>
        ensures set { IfOk result (λ r. IsInterval T.cmp bounds.0 bounds.1 r) }
        ensures bounds { IfOk result (λ r. IsBoundedAt bounds.0 bounds.1 r) }
    {
        let (lower, upper) = bounds;
        match (begin_of(lower), end_of(upper)) {
            (None, None) => Ok(Ranges::full(alloc)),
            (Some(begin), None) => Ranges::half_line(alloc, false, begin),
            (None, Some(end)) => Ranges::half_line(alloc, true, end),
            (Some(begin), Some(end)) => {
                if begin < end {
                    Ranges::between(alloc, begin, end)
                } else {
                    Ok(Ranges::empty(alloc))
                }
            }
        }
    }

    /// Returns the set of a value and all after it.
    pub fn higher_than(alloc: Global, value: T) -> Result<Self, AllocError>
        ensures set { IfOk result (λ r. IsInterval T.cmp (Included value) Unbounded r) }
        ensures bounds { IfOk result (λ r. IsBoundedBy value r) }
    {
        Ranges::from_range_bounds(alloc, (Bound::Included(value), Bound::Unbounded))
    }

    /// Returns the set of all after a value.
    pub fn strictly_higher_than(alloc: Global, value: T) -> Result<Self, AllocError>
        ensures set { IfOk result (λ r. IsInterval T.cmp (Excluded value) Unbounded r) }
        ensures bounds { IfOk result (λ r. IsBoundedBy value r) }
    {
        Ranges::from_range_bounds(alloc, (Bound::Excluded(value), Bound::Unbounded))
    }

    /// Returns the set of a value and all before it.
    pub fn lower_than(alloc: Global, value: T) -> Result<Self, AllocError>
        ensures set { IfOk result (λ r. IsInterval T.cmp Unbounded (Included value) r) }
        ensures bounds { IfOk result (λ r. IsBoundedBy value r) }
    {
        Ranges::from_range_bounds(alloc, (Bound::Unbounded, Bound::Included(value)))
    }

    /// Returns the set of all before a value.
    pub fn strictly_lower_than(alloc: Global, value: T) -> Result<Self, AllocError>
        ensures set { IfOk result (λ r. IsInterval T.cmp Unbounded (Excluded value) r) }
        ensures bounds { IfOk result (λ r. IsBoundedBy value r) }
    {
        Ranges::from_range_bounds(alloc, (Bound::Unbounded, Bound::Excluded(value)))
    }

    // The points before a cut if `first` is true, otherwise those from it on.
    fn half_line(alloc: Global, first: bool, cut: Cut<T>) -> Result<Self, AllocError>
        ensures set { IfOk result (λ r. IsSet T.cmp r (is_in_half T.cmp first cut)) }
        ensures bounds { IfOk result (λ r. IsBoundedBy cut.value r) }
    {
        let mut rest = Vec::with_capacity(alloc, 1)?;
        rest.push((cut, !first))?;
        Ok(Ranges {
            cuts: Cuts { first, rest },
        })
    }

    // The points from one cut to a later one.
    fn between(alloc: Global, begin: Cut<T>, end: Cut<T>) -> Result<Self, AllocError>
        requires { cut_cmp T.cmp begin end ≡ Less }
        ensures set { IfOk result (λ r. IsSet T.cmp r (is_in_span T.cmp begin end)) }
        ensures bounds { IfOk result (IsBoundedAt (Included begin.value) (Included end.value)) }
    {
        let mut rest = Vec::with_capacity(alloc, 2)?;
        rest.push((begin, true))?;
        rest.push((end, false))?;
        Ok(Ranges {
            cuts: Cuts { first: false, rest },
        })
    }
}

impl<T: Ord + Clone> Ranges<T> {
    ghost use Rattle.std.specs.Prelude.{IfOk};
    ghost use Rattle.std.specs.List.{list_all};
    ghost use Rattle.std.specs.Set.{ClonesAreEqual};
    ghost use Rattle.version_ranges.specs.Bounds.{IsCloned, KeepsBounds, KeepsBoundsOfBoth, all_bounds};
    ghost use Rattle.version_ranges.specs.Point.{is_one_of, is_value};
    ghost use Rattle.version_ranges.specs.Ranges.{IsComplement, IsIntersection, IsSet, IsUnion};

    /// Returns the set of one value, which is cloned for its other bound.
    pub fn singleton(alloc: Global, value: T) -> Result<Self, AllocError>
        requires clones { ClonesAreEqual T.eq T.is_clone }
        ensures set { IfOk result (λ r. IsSet T.cmp r (is_value T.cmp value)) }
        ensures bounds { IfOk result (IsCloned T.is_clone (λ test. test) value all_bounds) }
    {
        let lower = value.clone()?;
        Ranges::from_range_bounds(alloc, (Bound::Included(lower), Bound::Included(value)))
    }

    /// Returns the set of these values, which may be in any order and repeated.
    pub fn from_points(points: Vec<T>) -> Result<Self, AllocError>
        requires clones { ClonesAreEqual T.eq T.is_clone }
        ensures set { IfOk result (λ r. IsSet T.cmp r (is_one_of T.cmp points.items)) }
        ensures bounds { IfOk result (IsCloned T.is_clone list_all points.items all_bounds) }
    {
        let mut points = points;
        points.sort()?;
        points.dedup();
        let most = points.len().checked_mul(2).ok_or(AllocError)?;
        let mut rest = Vec::with_capacity(*points.allocator(), most)?;
        let mut points = points.into_iter();
        while let Some(point) = points.next() {
            let value = point.clone()?;
            rest.push((
                Cut {
                    value,
                    above: false,
                },
                true,
            ))?;
            rest.push((
                Cut {
                    value: point,
                    above: true,
                },
                false,
            ))?;
        }
        Ok(Ranges {
            cuts: Cuts { first: false, rest },
        })
    }

    /// Returns the points that are in at least one of two sets.
    pub fn union(&self, alloc: Global, other: &Self) -> Result<Self, AllocError>
        requires clones { ClonesAreEqual T.eq T.is_clone }
        ensures set { IfOk result (IsUnion T.cmp self.now other.now) }
        ensures bounds { IfOk result (λ r. KeepsBoundsOfBoth T.is_clone self.now other.now r) }
    {
        self.taken_points(alloc, other, Taken::InEither)
    }

    /// Returns the points that are in both of two sets.
    pub fn intersection(&self, alloc: Global, other: &Self) -> Result<Self, AllocError>
        requires clones { ClonesAreEqual T.eq T.is_clone }
        ensures set { IfOk result (IsIntersection T.cmp self.now other.now) }
        ensures bounds { IfOk result (λ r. KeepsBoundsOfBoth T.is_clone self.now other.now r) }
    {
        self.taken_points(alloc, other, Taken::InBoth)
    }

    /// Returns the points that are not in the set.
    pub fn complement(&self, alloc: Global) -> Result<Self, AllocError>
        requires clones { ClonesAreEqual T.eq T.is_clone }
        ensures set { IfOk result (λ r. IsComplement T.cmp self.now r) }
        ensures bounds { IfOk result (λ r. KeepsBounds T.is_clone self.now r) }
    {
        self.taken_points(alloc, &Ranges::full(alloc), Taken::InOne)
    }
}

// Whether a set with two cuts is the value between them.
fn is_around<T: Ord>(first: bool, begin: &Cut<T>, end: &Cut<T>) -> bool
    ensures { result ≡ (not first && (not begin.now.above
        && (end.now.above && T.eq begin.now.value end.now.value))) }
{
    !first && !begin.above && end.above && begin.value == end.value
}

// Where a range with this lower bound begins.
fn begin_of<T>(lower: Bound<T>) -> Option<Cut<T>>
    ensures { MatchOption result (lower ≡ Unbounded) (λ c. lower ≡ lower_of c) }
{
    match lower {
        Bound::Included(value) => Some(Cut {
            value,
            above: false,
        }),
        Bound::Excluded(value) => Some(Cut { value, above: true }),
        Bound::Unbounded => None,
    }
}

// Where a range with this upper bound ends.
fn end_of<T>(upper: Bound<T>) -> Option<Cut<T>>
    ensures { MatchOption result (upper ≡ Unbounded) (λ c. upper ≡ upper_of c) }
{
    match upper {
        Bound::Included(value) => Some(Cut { value, above: true }),
        Bound::Excluded(value) => Some(Cut {
            value,
            above: false,
        }),
        Bound::Unbounded => None,
    }
}
