//! The order, equality and hash of versions. Each visits each part once and allocates nothing.

ghost use Rattle.std.specs.Prelude.{◌↔◌, IsTrue, ◌≡◌, ◌≤◌, ◌<◌, Some, fold, length, map, refl};
ghost use Rattle.std.specs.Hash as fed;
ghost use Rattle.std.specs.Cmp.{eq_by_cmp_equiv, partial_equiv_from_equiv, po};
ghost use Rattle.std.specs.Cmp.Lexicographic.{slice_cmp};
ghost use Rattle.std.specs.Ordering.{eq_by_cmp};
ghost use Rattle.pep440_version.specs.HashInput.{version_writes};
ghost use Rattle.pep440_version.specs.Order.{IsSameVersion, dev_key, kind_rank, padded_cmp, pre_key, segment_cmp, significant, trimmed, version_cmp};
ghost use Rattle.pep440_version.specs.OrderLaws.{version_alike, version_total};
ghost use Rattle.pep440_version.specs.View.{segment_of};
ghost use Rattle.pep440_version.specs.Local.{local_writes};

use crate::version::{LocalSegment, PrereleaseKind, Version};
use std::cmp::Ordering;
use std::hash::{Hash, Hasher};

// The order of two releases, the shorter padded with zeros.
fn cmp_release(a: &[u64], b: &[u64]) -> Ordering
    ensures { result ≡ padded_cmp a.now b.now }
{
    let len = a.len().max(b.len());
    'numbers: for i in 0..len {
        let x = a.get(i).copied().unwrap_or(0);
        let y = b.get(i).copied().unwrap_or(0);
        let ordering = x.cmp(&y);
        if ordering != Ordering::Equal {
            return ordering;
        }
    }
    Ordering::Equal
}

// The numbers of a release without the zeros at its end.
fn significant(release: &[u64]) -> &[u64]
    ensures value { result.now ≡ significant release.now }
    ensures fits { length result.now ≤ length release.now }
{
    let mut len = release.len();
    'zeros: while len > 0 && release[len - 1] == 0 {
        len -= 1;
    }
    &release[..len]
}

// The numbers of a release without the zeros at its end, down to one number.
pub(crate) fn trimmed(release: &[u64]) -> &[u64]
    requires { 0 < length release.now }
    ensures numbers { result.now ≡ trimmed release.now }
    ensures some { 0 < length result.now }
{
    let len = significant(release).len().max(1);
    &release[..len]
}

fn kind_rank(kind: PrereleaseKind) -> u8
    ensures { result ≡ kind_rank kind }
{
    match kind {
        PrereleaseKind::Alpha => 1,
        PrereleaseKind::Beta => 2,
        PrereleaseKind::Rc => 3,
    }
}

// The rank of a version's pre-release, and its number.
fn pre_key(version: &Version) -> (u8, u64)
    ensures { result ≡ pre_key version.now }
{
    match (version.pre(), version.post, version.dev) {
        (Some(pre), _, _) => (kind_rank(pre.kind), pre.number),
        (None, None, Some(_)) => (0, 0),
        _ => (4, 0),
    }
}

// The rank of a version's dev part, and its number.
fn dev_key(version: &Version) -> (u8, u64)
    ensures { result ≡ dev_key version.now }
{
    match version.dev {
        Some(number) => (0, number),
        None => (1, 0),
    }
}

fn cmp_locals(a: &[LocalSegment], b: &[LocalSegment]) -> Ordering
    ensures { result ≡ slice_cmp segment_cmp (map segment_of a.now) (map segment_of b.now) }
{
    a.cmp(b)
}

fn has_same_locals(a: &[LocalSegment], b: &[LocalSegment]) -> bool
    ensures { IsTrue result ↔ (map segment_of a.now ≡ map segment_of b.now) }
{
    cmp_locals(a, b).is_eq()
}

// Compares the parts first in which versions mostly differ.
fn is_same_version(a: &Version, b: &Version) -> bool
    ensures { IsTrue result ↔ IsSameVersion a.now b.now }
{
    cmp_release(&a.release, &b.release).is_eq()
        && a.pre() == b.pre()
        && a.post == b.post
        && a.dev == b.dev
        && a.epoch == b.epoch
        && has_same_locals(a.local.as_slice(), b.local.as_slice())
}

fn hash_locals<H: Hasher>(locals: &[LocalSegment], state: &mut H)
    ensures { state.new ≡ fold H.write state.old (local_writes locals.now) }
{
    locals.hash(state);
}

impl PartialEq for Version {
    ghost eq = { eq_by_cmp version_cmp };

    ghost laws = { partial_equiv_from_equiv (eq_by_cmp_equiv version_total) };

    fn eq(&self, other: &Version) -> bool {
        is_same_version(self, other)
    }
}

impl Eq for Version {
    ghost laws = { eq_by_cmp_equiv version_total };
}

impl PartialOrd for Version {
    ghost partial_cmp = { λ a b. Some (version_cmp a b) };

    ghost laws = { po version_total (λ a b. refl) };

    fn partial_cmp(&self, other: &Version) -> Option<Ordering> {
        Some(self.cmp(other))
    }
}

impl Ord for Version {
    ghost cmp = { version_cmp };

    ghost total = { version_total };

    ghost matches_partial_cmp = { λ a b. refl };

    ghost matches_eq = { λ a b. refl };

    fn cmp(&self, other: &Version) -> Ordering {
        self.epoch
            .cmp(&other.epoch)
            .then_with(|| cmp_release(&self.release, &other.release))
            .then_with(|| pre_key(self).cmp(&pre_key(other)))
            .then_with(|| self.post.cmp(&other.post))
            .then_with(|| dev_key(self).cmp(&dev_key(other)))
            .then_with(|| cmp_locals(self.local.as_slice(), other.local.as_slice()))
    }
}

impl Hash for Version {
    ghost hash_input = { version_writes };

    ghost respects_eq = { version_alike.fed };

    fn hash<H: Hasher>(&self, state: &mut H) {
        self.epoch.hash(state);
        significant(&self.release).hash(state);
        let (rank, number) = pre_key(self);
        rank.hash(state);
        number.hash(state);
        self.post.hash(state);
        let (rank, number) = dev_key(self);
        rank.hash(state);
        number.hash(state);
        hash_locals(self.local.as_slice(), state);
    }
}
