//! Limits on the visits of a walk.

ghost use Rattle.std.specs.Prelude.{◌≡◌, ◌+◌, ℕ, IsNone, IsSome, None, Some, false};
ghost use Rattle.marker_walks.specs.Looks.{AreUnbounded, IsSplit};

/// How many visits a walk has that remembers hardly anything, because most end within them. Then
/// come one with 256 and one with 4,096 places: sixteen visits for each place.
pub(crate) const FIRST: usize = 64;

pub(crate) const SECOND: usize = 4_096;

pub(crate) const THIRD: usize = 65_536;

/// How many visits a walk has left; `None` for any number.
#[derive(Drop)]
pub(crate) struct Looks {
    left: Option<usize>,
}

impl Looks {
    /// Returns a limit of `left` visits, or no limit.
    pub(crate) fn new(left: Option<usize>) -> Self
        ensures { left ≡ None → AreUnbounded result }
    {
        Looks { left }
    }

    /// Returns whether a visit is left.
    pub(crate) fn are_left(&self) -> bool
        ensures spent { self.now.left ≡ Some 0 → result ≡ false }
        ensures left { result ≡ false → self.now.left ≡ Some 0 }
    {
        self.left != Some(0)
    }

    /// Uses up a visit, if one is left.
    pub(crate) fn take(&mut self) -> Option<()>
        ensures taken { AreUnbounded self.old → IsSome result }
        ensures unbounded { AreUnbounded self.old → AreUnbounded self.new }
        ensures one { (n : ℕ) → self.old.left ≡ Some (n + 1) → self.new.left ≡ Some n }
        ensures none { self.old.left ≡ Some 0 → IsNone result }
    {
        if let Some(left) = self.left {
            self.left = Some(left.checked_sub(1)?);
        }
        Some(())
    }

    /// Splits off `most` visits, or those that are left if these are fewer.
    pub(crate) fn set_aside(&mut self, most: usize) -> Looks
        ensures unbounded { AreUnbounded self.old → AreUnbounded self.new }
        ensures shared { IsSplit self.old result self.new }
    {
        match self.left {
            Some(left) => {
                let aside = left.min(most);
                self.left = Some(left - aside);
                Looks { left: Some(aside) }
            }
            None => Looks { left: Some(most) },
        }
    }
}
