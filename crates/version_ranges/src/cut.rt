//! A cut of an ordered set, at which a piece of a function begins.
ghost use Rattle.std.specs.Prelude.{◌≡◌, string_bytes};
ghost use Rattle.std.specs.Ordering.{nat_cmp};
ghost use Rattle.std.specs.Cmp.Lexicographic.{slice_cmp};
ghost use Rattle.version_ranges.specs.Cut.{cut_cmp, cut_point, stands_before};
ghost use Rattle.version_ranges.specs.Point.{at};

use std::cmp::Ordering;

/// Where a piece of a function begins: at a value, or right above it. Cuts are ordered by their
/// values, and of one value the cut at it comes first.
#[derive(Clone, PartialEq, Eq, PartialOrd, Ord, Hash, Drop)]
pub struct Cut<T> {
    /// The value of the cut.
    pub value: T,
    /// Whether the cut is right above the value, so that the value is not in the piece.
    pub above: bool,
}

impl<T: Ord> Cut<T> {
    /// Returns whether the point of a value is before this cut: the value comes before that of the
    /// cut, or is equal to it and the cut is above. This takes one comparison.
    pub fn is_after(&self, value: &T) -> bool
        ensures { result ≡ stands_before (λ v. v) T.cmp (at value.now) self.now }
    {
        match value.cmp(&self.value) {
            Ordering::Less => true,
            Ordering::Equal => self.above,
            Ordering::Greater => false,
        }
    }
}

impl Cut<String> {
    // Whether the point of a text is before this cut.
    pub(crate) fn is_after_str(&self, text: &str) -> bool
        ensures { result ≡ stands_before string_bytes (slice_cmp nat_cmp) (at text.now) self.now }
    {
        if self.above {
            text <= self.value.as_str()
        } else {
            text < self.value.as_str()
        }
    }
}
