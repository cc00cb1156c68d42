//! Which edge of a node a path follows.

ghost use Rattle.std.specs.Prelude.{◌≡◌, ◌⊎◌, Some};

use crate::step::{Step, VersionStep};
use crate::texts::TextSearch;
use crate::versions::{most_usual_version, plain_version, version_of};
use marker_graph::{MarkerTree, MarkerValueExtraRef};
use marker_words::TextVariable;
use std::alloc::{AllocError, Global};

/// Which of several edges a path follows.
#[derive(Clone, Copy, Debug, PartialEq, Eq)]
pub enum Preference {
    /// The best edge, of several the first.
    Best,
    /// The first edge for which a value is found.
    First,
    /// The last edge for which a value is found.
    Last,
}

/// How good an edge is.
#[derive(Clone, Copy, Debug, PartialEq, Eq, PartialOrd, Ord)]
pub(crate) enum Rank {
    /// No value was found with which the path follows it.
    Bare,
    /// A value was found.
    Valued,
    /// A value was found that one may have in mind.
    Plain,
    /// The path follows it with the most usual value.
    Usual,
}

/// An edge that a path may follow, and the marker that it leads to.
#[derive(Clone, Copy)]
pub(crate) struct Choice<'i> {
    pub(crate) step: Step<'i>,
    pub(crate) subtree: MarkerTree,
    pub(crate) rank: Rank,
}

impl Preference {
    /// Returns the better one of two edges, of which the second comes later.
    pub(crate) fn better<'i>(self, chosen: Option<Choice<'i>>, next: Choice<'i>) -> Choice<'i>
        ensures { (chosen.entry ≡ Some result) ⊎ (next.entry ≡ result) }
    {
        match chosen {
            None => next,
            Some(chosen) => {
                let is_next = match self {
                    Preference::Best => next.rank > chosen.rank,
                    Preference::First => chosen.rank == Rank::Bare,
                    Preference::Last => next.rank != Rank::Bare || chosen.rank == Rank::Bare,
                };
                if is_next { next } else { chosen }
            }
        }
    }
}

/// The steps so far of a path, and how it goes on.
#[derive(Clone, Copy)]
pub(crate) struct Walk<'p, 'i> {
    pub(crate) alloc: Global,
    pub(crate) path: &'p [Step<'i>],
    pub(crate) preference: Preference,
}

impl<'i> Walk<'_, 'i> {
    fn rank_of_version(&self, step: &VersionStep<'_>) -> Result<Rank, AllocError> {
        if most_usual_version(self.alloc, step)?.is_some() {
            return Ok(Rank::Usual);
        }
        if plain_version(self.alloc, step)?.is_some() {
            return Ok(Rank::Plain);
        }
        let found = version_of(self.alloc, step)?;
        Ok(if found.is_some() {
            Rank::Valued
        } else {
            Rank::Bare
        })
    }

    fn rank_of_text(&self, variable: TextVariable, step: Step<'i>) -> Result<Rank, AllocError> {
        let search = TextSearch {
            alloc: self.alloc,
            variable,
            path: self.path,
            next: Some(step),
        };
        if search.allows_most_usual() {
            return Ok(Rank::Usual);
        }
        if search.plain()?.is_some() {
            return Ok(Rank::Plain);
        }
        let found = search.any()?;
        Ok(if found.is_some() {
            Rank::Valued
        } else {
            Rank::Bare
        })
    }

    /// Returns how good a step is after those of the path.
    pub(crate) fn rank(&self, step: Step<'i>) -> Result<Rank, AllocError> {
        match step {
            Step::Version(version) => self.rank_of_version(&version),
            Step::Text(text) => self.rank_of_text(text.variable, step),
            Step::In(test, _) => self.rank_of_text(test.variable(), step),
            Step::Contains(test, _) => self.rank_of_text(test.variable(), step),
            Step::Extra(extra, answer) => Ok(match extra.name() {
                MarkerValueExtraRef::Arbitrary(_) if answer => Rank::Bare,
                _ => Rank::Usual,
            }),
        }
    }
}
