//! Ranges of Python versions.

ghost use Rattle.std.specs.Prelude.{◌≡◌, IfOk};
ghost use Rattle.version_ranges.specs.Clamp.{bound_of};
ghost use Rattle.version_ranges.specs.Ranges.{IsInterval, IsSet};
ghost use Rattle.pep440_version.specs.Order.{version_cmp};
ghost use Rattle.pep440_rs.specs.Bounds.{is_in_all};
ghost use Rattle.marker_commands.specs.Ranges.{IsMatching, IsSpecifierList};

use pep440_rs::release_specifier_to_range;
use pep440_specifier::{VersionSpecifier, VersionSpecifiers};
use pep440_version::Version;
use refusal::Refusal;
use requirement_words::{Fault, read_specifiers};
use std::alloc::{AllocError, Global};
use std::convert::Infallible;
use std::fmt;
use std::ops::Bound;
use version_ranges::Ranges;

/// A range of Python versions.
#[derive(Debug, Drop)]
pub struct PythonRange {
    pub lower: Bound<Version>,
    pub upper: Bound<Version>,
}

/// Why a text is no range of Python versions.
#[derive(Debug, Drop, PartialEq, Eq)]
pub enum RangeFault<'t> {
    /// A piece of the text is an invalid version specifier.
    Specifier(Fault<'t>),
    /// The specifiers end before this text.
    Trailing(&'t str),
    /// No version matches the specifiers.
    Empty,
    /// Versions between two that match do not match.
    Gaps,
}

impl fmt::Display for RangeFault<'_> {
    fn fmt<W: fmt::Write>(&self, f: &mut fmt::Formatter<W>) -> fmt::Result {
        match self {
            RangeFault::Specifier(fault) => fault.fmt(f),
            RangeFault::Trailing(rest) => write!(f, "Expected the end, found {rest:?}"),
            RangeFault::Empty => f.write_str("No version matches"),
            RangeFault::Gaps => f.write_str("A range has no gaps"),
        }
    }
}

impl PythonRange {
    ghost use Rattle.std.specs.Prelude.{◌≡◌, IfOk};
    ghost use Rattle.std.specs.declared.ops.Bound.TheVariants.{Unbounded};
    ghost use Rattle.marker_commands.specs.Ranges.{IsRangeText};

    /// The range of all versions.
    pub const ALL: PythonRange = PythonRange {
        lower: Bound::Unbounded,
        upper: Bound::Unbounded,
    };

    /// Parses version specifiers that are separated by commas, such as `>=3.8,<3.13`, and returns
    /// the range of the versions that match all of them. Only the release of a version counts, as
    /// in a marker.
    ///
    /// # Errors
    /// - [`Refusal::Fault`] if the text is no range, or one without versions or with gaps.
    /// - [`Refusal::SegmentAtEnd`] if a bound would be above 2^64 - 1.
    /// - [`Refusal::OutOfMemory`] when memory runs out.
    pub fn parse(alloc: Global, text: &str) -> Result<PythonRange, Refusal<RangeFault<'_>>>
        ensures { IfOk result (λ range. IsRangeText text.now range.lower range.upper) }
    {
        let specifiers = parse_specifiers(alloc, text)?;
        let set = match set_of(alloc, specifiers.as_slice()) {
            Ok(set) => set,
            Err(Refusal::SegmentAtEnd) => return Err(Refusal::SegmentAtEnd),
            Err(_) => return Err(Refusal::OutOfMemory),
        };
        only_interval(&set)
    }
}

// The specifiers of the whole text.
fn parse_specifiers(alloc: Global, text: &str) -> Result<VersionSpecifiers, Refusal<RangeFault<'_>>>
    ensures { IfOk result (IsSpecifierList text.now) }
{
    let (specifiers, rest) = match read_specifiers(alloc, text, ';') {
        Ok(read) => read,
        Err(Refusal::Fault(fault)) => return Err(Refusal::Fault(RangeFault::Specifier(fault))),
        Err(_) => return Err(Refusal::OutOfMemory),
    };
    if !rest.is_empty() {
        return Err(Refusal::Fault(RangeFault::Trailing(rest)));
    }
    Ok(specifiers)
}

// The versions of a set that match a specifier.
fn matching(
    alloc: Global,
    set: &Ranges<Version>,
    specifier: &VersionSpecifier,
) -> Result<Ranges<Version>, Refusal<Infallible>>
    ensures { IfOk result (IsMatching set.now specifier.now) }
{
    let matched = release_specifier_to_range(alloc, specifier)?;
    let both = set.intersection(alloc, &matched)?;
    Ok(both)
}

// The versions that match all specifiers.
fn set_of(
    alloc: Global,
    specifiers: &[VersionSpecifier],
) -> Result<Ranges<Version>, Refusal<Infallible>>
    ensures { IfOk result (λ set. IsSet version_cmp set (is_in_all specifiers.now)) }
{
    let mut set = Ranges::full(alloc);
    for specifier in specifiers {
        set = matching(alloc, &set, specifier)?;
    }
    Ok(set)
}

// The bound with a version of its own.
fn owned(bound: Bound<&Version>) -> Result<Bound<Version>, AllocError>
    ensures { IfOk result (λ owned. owned ≡ bound_of bound.entry) }
{
    match bound {
        Bound::Included(version) => Ok(Bound::Included(version.clone()?)),
        Bound::Excluded(version) => Ok(Bound::Excluded(version.clone()?)),
        Bound::Unbounded => Ok(Bound::Unbounded),
    }
}

// The bounds of a set that is one interval.
fn only_interval<'t>(set: &Ranges<Version>) -> Result<PythonRange, Refusal<RangeFault<'t>>>
    ensures { IfOk result (λ range.
        IsInterval version_cmp range.lower range.upper set.now) }
{
    let mut intervals = set.iter();
    let Some((lower, upper)) = intervals.next() else {
        return Err(Refusal::Fault(RangeFault::Empty));
    };
    if intervals.next().is_some() {
        return Err(Refusal::Fault(RangeFault::Gaps));
    }
    let lower = owned(lower)?;
    let upper = owned(upper)?;
    Ok(PythonRange { lower, upper })
}
