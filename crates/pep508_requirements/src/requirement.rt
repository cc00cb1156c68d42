//! Requirements with a name.

ghost use Rattle.std.specs.Prelude.{IfErr, IfOk};
ghost use Rattle.pep508_errors.specs.declared.warning.MarkerWarningKind.{MarkerWarningKind};
ghost use Rattle.pep508_markers.specs.Text.{KeepsInterner};
ghost use Rattle.pep508_requirements.specs.Refused.{IsJsonRefusalIn, IsRefusalIn};
ghost use Rattle.pep508_requirements.specs.Whole.{IsParsed, IsParsedJson, ReadAs};
ghost use Rattle.pep508_requirements.specs.Reporting.{ReportsRead, TellsOfRead};

use crate::end::read_end;
use crate::head::{read_named, read_version_or_url, written_url};
use crate::origin::RequirementOrigin;
use crate::version_or_url::VersionOrUrl;
use marker_graph::{Interner, MarkerTree};
use marker_parts::internal::report_kinds;
use pep508_errors::{MarkerWarningKind, Pep508Error, Pep508Url, Reporter, Surroundings};
use pep508_markers::internal::{no_string, read_string};
use pep508_names::{ExtraName, PackageName};
use refusal::Refusal;
use requirement_words::Head;
use std::alloc::AllocError;

/// A requirement: the name of a package, its extras, the wanted versions or URL, and the marker
/// that says in which environments it applies.
///
/// ```
/// let dev = [ExtraName::parse(rt.alloc(), "dev")?];
/// let requirement = Requirement::<VerbatimUrl>::parse(text, surroundings, interner)?;
/// let with_dev = requirement.evaluate_markers(interner, linux, &dev);
/// let without = requirement.evaluate_markers(interner, linux, &[]);
/// println!(rt; "required with dev: {with_dev}, without: {without}")?;
/// println!(rt; "{}", requirement.try_to_string(interner)?)?;
/// ```
#[derive(Clone, Debug, PartialEq, Eq, Hash, Drop)]
pub struct Requirement<T: Pep508Url> {
    /// The name of the package.
    pub name: PackageName,
    /// The required extras of the package, such as `security` and `tests` in
    /// `requests[security,tests]`.
    pub extras: Vec<ExtraName>,
    /// The wanted versions or URL, if there are any.
    pub version_or_url: Option<VersionOrUrl<T>>,
    /// In which environments the requirement applies.
    pub marker: MarkerTree,
    /// Where the requirement comes from, if that is known.
    pub origin: Option<RequirementOrigin>,
}

// Parses a requirement. Returns it with the kinds of the warnings of its marker, which are not
// reported yet.
fn read<T: Pep508Url>(
    text: &str,
    surroundings: &Surroundings<'_>,
    interner: &mut Interner,
) -> Result<(Requirement<T>, Vec<MarkerWarningKind>), Refusal<Pep508Error<T>>>
    ensures kept { KeepsInterner result interner.old interner.new }
    ensures means { IfOk result (λ r.
        ReadAs T.names surroundings.now interner.new text.now r.0 r.1.items) }
    ensures refused { IfErr result (IsRefusalIn
        T.names T.tells_size T.may_overflow surroundings.now text.now) }
{
    let alloc = interner.allocator();
    let (
        Head {
            name,
            extras,
            asked,
        },
        rest,
    ) = match read_named(alloc, text, surroundings) {
        Ok(read) => read,
        Err(refusal) => return Err(refusal),
    };
    let url = written_url(&asked);
    let version_or_url = match read_version_or_url(alloc, text, asked, rest, surroundings) {
        Ok(version_or_url) => version_or_url,
        Err(refusal) => return Err(refusal),
    };
    match read_end(text, url, rest, interner) {
        Ok((marker, kinds)) => {
            let requirement = Requirement {
                name,
                extras,
                version_or_url,
                marker,
                origin: None,
            };
            Ok((requirement, kinds))
        }
        Err(refusal) => Err(refusal),
    }
}

impl<T: Pep508Url> Requirement<T> {
    /// Parses a requirement (PEP 508) without reporting warnings. Its errors are those of
    /// [`Requirement::parse_reporter`].
    pub fn parse(
        text: &str,
        surroundings: &Surroundings<'_>,
        interner: &mut Interner,
    ) -> Result<Requirement<T>, Refusal<Pep508Error<T>>>
        ensures kept { KeepsInterner result interner.old interner.new }
        ensures means { IfOk result
            (IsParsed T.names surroundings.now interner.new text.now) }
        ensures refused { IfErr result (IsRefusalIn
            T.names T.tells_size T.may_overflow surroundings.now text.now) }
    {
        match read(text, surroundings, interner) {
            Ok((requirement, _)) => Ok(requirement),
            Err(refusal) => Err(refusal),
        }
    }

    /// Parses a requirement (PEP 508) and reports the warnings of its marker, in order.
    ///
    /// # Errors
    /// - [`Refusal::Fault`] if the text is an invalid requirement, or its URL is rejected: what is
    ///   wrong, where, and the text. Nothing was reported.
    /// - [`Refusal::SegmentAtEnd`] if a comparison of the marker has a bound above 2^64 - 1.
    ///   Nothing was reported.
    /// - [`Refusal::OutOfMemory`] when memory runs out. The first warnings may have been reported.
    pub fn parse_reporter<R: Reporter>(
        text: &str,
        surroundings: &Surroundings<'_>,
        reporter: &mut R,
        interner: &mut Interner,
    ) -> Result<Requirement<T>, Refusal<Pep508Error<T>>>
        requires { R.can_report reporter.old }
        ensures kept { KeepsInterner result interner.old interner.new }
        ensures means { IfOk result (ReportsRead R.kinds reporter.old reporter.new
            T.names surroundings.now interner.new text.now) }
        ensures refused { IfErr result (IsRefusalIn
            T.names T.tells_size T.may_overflow surroundings.now text.now) }
        ensures reported { TellsOfRead R.can_report R.kinds reporter.old reporter.new
            T.names surroundings.now text.now result }
    {
        let mark = interner.mark();
        let (requirement, kinds) = match read(text, surroundings, interner) {
            Ok(reading) => reading,
            Err(refusal) => return Err(refusal),
        };
        match report_kinds(interner.allocator(), &kinds, reporter) {
            Ok(()) => Ok(requirement),
            Err(error) => {
                interner.release(mark);
                Err(error.into())
            }
        }
    }

    /// Parses a requirement from a JSON string, as [`Requirement::parse`] parses the string's text.
    ///
    /// # Errors
    /// - [`Refusal::Fault`] if the JSON is not a string: at its start, with length 0, or 1 if it is
    ///   empty.
    /// - The errors of [`Requirement::parse`], with the string's text and a place in it.
    pub fn from_json(
        json: &str,
        surroundings: &Surroundings<'_>,
        interner: &mut Interner,
    ) -> Result<Requirement<T>, Refusal<Pep508Error<T>>>
        ensures kept { KeepsInterner result interner.old interner.new }
        ensures means { IfOk result
            (IsParsedJson T.names surroundings.now interner.new json.now) }
        ensures refused { IfErr result (IsJsonRefusalIn
            T.names T.tells_size T.may_overflow surroundings.now json.now) }
    {
        let alloc = interner.allocator();
        match read_string(alloc, json)? {
            Some(text) => Requirement::parse(&text, surroundings, interner),
            None => Err(no_string(alloc, json)),
        }
    }
}
