//! Versions (PEP 440) and their parts.

ghost use Rattle.std.specs.Prelude.{◌≡◌, ◌<◌, ◌≤◌, [], length, map, IfOk, IsOk};
ghost use Rattle.pep440_version.specs.View.{segment_of, HaveSameSegments};

use crate::local::Local;
use crate::order::trimmed;
use crate::slot::PrereleaseSlot;
use smallvec::SmallVec;
use std::alloc::{AllocError, Global};
use std::marker::Model;

/// The kind of a pre-release, in the order of PEP 440: an alpha comes before a beta, and that
/// before a release candidate.
#[derive(Clone, Copy, Debug, PartialEq, Eq, PartialOrd, Ord, Hash)]
pub enum PrereleaseKind {
    /// An alpha, written `a`.
    Alpha,
    /// A beta, written `b`.
    Beta,
    /// A release candidate, written `rc`.
    Rc,
}

/// A pre-release, such as `a1`.
#[derive(Clone, Copy, Debug, PartialEq, Eq, PartialOrd, Ord, Hash)]
pub struct Prerelease {
    /// Alpha, beta or release candidate.
    pub kind: PrereleaseKind,
    /// Its number; 0 if the text has none.
    pub number: u64,
}

/// A segment of the local part of a version, such as `ubuntu` and `7` of `1.0+ubuntu.7`. Texts come
/// before numbers.
#[derive(Clone, Debug, Drop, PartialEq, Eq, PartialOrd, Ord, Hash)]
pub enum LocalSegment {
    /// Lower-case ASCII letters and digits, not only digits.
    String(String),
    /// Only digits.
    Number(u64),
}

/// A version of PEP 440, with its release numbers as they were written.
///
/// ```
/// let version = Version::parse(alloc, "v1.0-Beta.2")?;
/// let release = Version::parse(alloc, "1.0")?;
/// println!(rt; "{version} before {release}: {}", version < release)?;
/// ```
#[derive(Debug, Drop)]
pub struct Version {
    pub(crate) epoch: u64,
    // Most releases have at most four numbers, and those need no allocation.
    pub(crate) release: SmallVec<u64, 4>,
    pub(crate) pre: PrereleaseSlot,
    pub(crate) post: Option<u64>,
    pub(crate) dev: Option<u64>,
    pub(crate) local: Local,
}

impl Model for Version {
    ghost use Rattle.pep440_version.specs.Parts.{Parts};

    ghost Value = { Parts };

    ghost use Rattle.pep440_version.specs.View.{parts_of};
    ghost use Rattle.pep440_version.specs.Valid.{IsValid};

    ghost view = { parts_of };

    ghost invariant = { λ v. IsValid (parts_of v) };
}

impl Version {
    ghost use Rattle.pep440_version.specs.Order.{IsSameVersion, trimmed, trimmed_parts};
    ghost use Rattle.pep440_version.specs.Parts.{release_only};

    /// Returns the version with only these release numbers. At most four need no allocation.
    pub fn new(alloc: Global, release: &[u64]) -> Result<Version, AllocError>
        requires { 0 < length release.now }
        ensures value { IfOk result (λ version. version ≡ release_only release.now) }
        ensures inline { length release.now ≤ 4 → IsOk result }
    {
        Ok(Version {
            epoch: 0,
            release: SmallVec::from_slice(alloc, release)?,
            pre: PrereleaseSlot::new(None),
            post: None,
            dev: None,
            local: Local::NONE,
        })
    }

    /// Returns the version with only these release numbers, without zeros at their end, down to one
    /// number. If at most four are left, nothing is allocated.
    pub fn new_trimmed(alloc: Global, release: &[u64]) -> Result<Version, AllocError>
        requires { 0 < length release.now }
        ensures value { IfOk result (λ version.
            version ≡ release_only (trimmed release.now)) }
        ensures same { IfOk result (λ version.
            IsSameVersion version (release_only release.now)) }
        ensures inline { length (trimmed release.now) ≤ 4 → IsOk result }
    {
        Version::new(alloc, trimmed(release))
    }

    /// Returns the epoch; 0 if the text has none.
    pub fn epoch(&self) -> u64
        ensures { result ≡ self.now.epoch }
    {
        self.epoch
    }

    /// Returns the release numbers as they were written, at least one.
    pub fn release(&self) -> &[u64]
        ensures numbers { result.now ≡ self.now.release }
        ensures nonempty { 0 < length result.now }
    {
        &self.release
    }

    /// Returns the release numbers without the zeros at their end, down to one number.
    pub fn trimmed_release(&self) -> &[u64]
        ensures numbers { result.now ≡ trimmed self.now.release }
        ensures nonempty { 0 < length result.now }
    {
        trimmed(&self.release)
    }

    /// Returns the version without the zeros at the end of its release, down to one number. If at
    /// most four numbers and no local part are left, nothing is allocated.
    pub fn without_trailing_zeros(&self) -> Result<Version, AllocError>
        ensures value { IfOk result (λ version. version ≡ trimmed_parts self.now) }
        ensures same { IfOk result (λ version. IsSameVersion version self.now) }
        ensures inline { length (trimmed self.now.release) ≤ 4
            → self.now.locals ≡ [] → IsOk result }
    {
        Ok(Version {
            epoch: self.epoch,
            release: SmallVec::from_slice(*self.release.allocator(), self.trimmed_release())?,
            pre: PrereleaseSlot::new(self.pre()),
            post: self.post,
            dev: self.dev,
            local: self.local.copy()?,
        })
    }

    /// Returns the pre-release, such as `a1`.
    pub fn pre(&self) -> Option<Prerelease>
        ensures { result ≡ self.now.pre }
    {
        self.pre.get()
    }

    /// Returns the number of the post release.
    pub fn post(&self) -> Option<u64>
        ensures { result ≡ self.now.post }
    {
        self.post
    }

    /// Returns the number of the development release.
    pub fn dev(&self) -> Option<u64>
        ensures { result ≡ self.now.dev }
    {
        self.dev
    }

    /// Returns the segments of the local part, an empty slice without one.
    pub fn local(&self) -> &[LocalSegment]
        ensures { map segment_of result.now ≡ self.now.locals }
    {
        self.local.as_slice()
    }
}

/// A clone is written like its source. At most four release numbers without a local part need no
/// allocation.
impl Clone for Version {
    ghost is_clone = { λ v copy. copy ≡ v };

    ghost is_infallible = { λ v. (length v.release ≤ 4) × (v.locals ≡ []) };

    fn clone(&self) -> Result<Version, AllocError> {
        Ok(Version {
            epoch: self.epoch,
            release: self.release.clone()?,
            pre: PrereleaseSlot::new(self.pre()),
            post: self.post,
            dev: self.dev,
            local: self.local.copy()?,
        })
    }
}
