//! A pre-release in a version.

ghost use Rattle.std.specs.Prelude.{◌≡◌};

use crate::version::{Prerelease, PrereleaseKind};
use std::fmt;
use std::marker::Model;

// A pre-release, or none. Its number has no option of its own, so a version is a word smaller than
// with an `Option<Prerelease>`.
#[derive(Drop)]
pub(crate) struct PrereleaseSlot {
    kind: Option<PrereleaseKind>,
    number: u64,
}

impl Model for PrereleaseSlot {
    ghost use Rattle.std.specs.Prelude.{Option};
    ghost use Rattle.pep440_version.specs.declared.version.Prerelease.{Prerelease};
    ghost use Rattle.pep440_version.specs.Slot.{prerelease_in};

    ghost Value = { Option Prerelease };

    ghost view = { prerelease_in };
}

impl PrereleaseSlot {
    pub(crate) fn new(pre: Option<Prerelease>) -> PrereleaseSlot
        ensures { result ≡ pre }
    {
        match pre {
            Some(pre) => PrereleaseSlot {
                kind: Some(pre.kind),
                number: pre.number,
            },
            None => PrereleaseSlot {
                kind: None,
                number: 0,
            },
        }
    }

    pub(crate) fn get(&self) -> Option<Prerelease>
        ensures { result ≡ self.now }
    {
        let number = self.number;
        match self.kind {
            Some(kind) => Some(Prerelease { kind, number }),
            None => None,
        }
    }
}

impl fmt::Debug for PrereleaseSlot {
    fn fmt<W: fmt::Write>(&self, f: &mut fmt::Formatter<W>) -> fmt::Result {
        self.get().fmt(f)
    }
}
