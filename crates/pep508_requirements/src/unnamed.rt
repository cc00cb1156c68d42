//! Requirements without a name.

ghost use Rattle.std.specs.Prelude.{◌≡◌, IfErr, IfOk, Some};
ghost use Rattle.pep508_errors.specs.declared.warning.MarkerWarningKind.{MarkerWarningKind};
ghost use Rattle.marker_graph.specs.Contents.{IsHeld};
ghost use Rattle.marker_graph.specs.Evaluation.{Admits, Evaluates, EvaluatesIn, Excludes};
ghost use Rattle.pep508_markers.specs.Text.{KeepsInterner};
ghost use Rattle.pep508_requirements.specs.Unnamed.{IsUnnamedRefusalIn};
ghost use Rattle.pep508_requirements.specs.Whole.{IsParsedUnnamed};
ghost use Rattle.pep508_requirements.specs.Reporting.{ReportsUnnamed, TellsOfUnnamed};

use crate::end::read_end;
use crate::origin::RequirementOrigin;
use crate::url::{read_unnamed, unnamed_url};
use marker_environment::MarkerEnvironment;
use marker_graph::{Interner, MarkerTree};
use marker_parts::internal::report_kinds;
use pep508_errors::{MarkerWarningKind, Pep508Error, Reporter, Surroundings};
use pep508_names::ExtraName;
use pep508_urls::UnnamedRequirementUrl;
use refusal::Refusal;
use requirement_words::UnnamedHead;

/// A requirement without a name: a URL or a path, extras, and a marker. Requirements files have
/// them, PEP 508 does not.
///
/// ```
/// let mut warnings = Vec::new(rt.alloc());
/// let requirement = UnnamedRequirement::<VerbatimUrl>::parse(
///     "./a.whl[dev] ; os_name == 'nt'",
///     surroundings,
///     &mut warnings,
///     interner,
/// )?;
/// println!(rt; "{}", requirement.try_to_string(interner)?)?;
/// ```
#[derive(Clone, Debug, PartialEq, Eq, Hash, Drop)]
pub struct UnnamedRequirement<Url: UnnamedRequirementUrl> {
    /// The URL, or that of the path.
    pub url: Url,
    /// The required extras, such as `dev` in `./a.whl[dev]`.
    pub extras: Vec<ExtraName>,
    /// In which environments the requirement applies.
    pub marker: MarkerTree,
    /// Where the requirement comes from, if that is known.
    pub origin: Option<RequirementOrigin>,
}

// Parses a requirement without a name. Returns it with the kinds of the warnings of its marker,
// which are not reported yet.
fn read<Url: UnnamedRequirementUrl>(
    text: &str,
    surroundings: &Surroundings<'_>,
    interner: &mut Interner,
) -> Result<(UnnamedRequirement<Url>, Vec<MarkerWarningKind>), Refusal<Pep508Error<Url>>>
    ensures kept { KeepsInterner result interner.old interner.new }
    ensures means { IfOk result (λ r. IsParsedUnnamed Url.names surroundings.now Url.given_text
        interner.new text.now r.0 r.1.items) }
    ensures refused { IfErr result (IsUnnamedRefusalIn
        Url.names Url.tells_size Url.may_overflow surroundings.now text.now) }
{
    let alloc = interner.allocator();
    let (head, rest) = match read_unnamed(alloc, text) {
        Ok(read) => read,
        Err(refusal) => return Err(refusal),
    };
    let UnnamedHead {
        given: whole,
        url: given,
        extras,
    } = head;
    let url = match unnamed_url(alloc, text, whole, given, rest, surroundings) {
        Ok(url) => url,
        Err(refusal) => return Err(refusal),
    };
    match read_end(text, whole, rest, interner) {
        Ok((marker, kinds)) => {
            let requirement = UnnamedRequirement {
                url,
                extras,
                marker,
                origin: None,
            };
            Ok((requirement, kinds))
        }
        Err(refusal) => Err(refusal),
    }
}

impl<Url: UnnamedRequirementUrl> UnnamedRequirement<Url> {
    /// Parses a requirement without a name and reports the warnings of its marker, in order. The
    /// URL keeps the text that it was given as, without its extras.
    ///
    /// # Errors
    /// - [`Refusal::Fault`] if the text is invalid or its URL is rejected: what is wrong, where,
    ///   and the text. Nothing was reported.
    /// - [`Refusal::SegmentAtEnd`] if a comparison of the marker has a bound above 2^64 - 1.
    ///   Nothing was reported.
    /// - [`Refusal::OutOfMemory`] when memory runs out. The first warnings may have been reported.
    pub fn parse<R: Reporter>(
        text: &str,
        surroundings: &Surroundings<'_>,
        reporter: &mut R,
        interner: &mut Interner,
    ) -> Result<UnnamedRequirement<Url>, Refusal<Pep508Error<Url>>>
        requires { R.can_report reporter.old }
        ensures kept { KeepsInterner result interner.old interner.new }
        ensures means { IfOk result (ReportsUnnamed R.kinds reporter.old reporter.new
            Url.names surroundings.now Url.given_text interner.new text.now) }
        ensures refused { IfErr result (IsUnnamedRefusalIn
            Url.names Url.tells_size Url.may_overflow surroundings.now text.now) }
        ensures reported { TellsOfUnnamed R.can_report R.kinds reporter.old reporter.new
            Url.names surroundings.now text.now result }
    {
        let mark = interner.mark();
        let (requirement, kinds) = match read(text, surroundings, interner) {
            Ok(reading) => reading,
            Err(refusal) => return Err(refusal),
        };
        match report_kinds(interner.allocator(), &kinds, reporter) {
            Ok(()) => Ok(requirement),
            Err(error) => {
                interner.release(mark);
                Err(error.into())
            }
        }
    }

    /// Returns whether the marker is true in the environment with these extras.
    pub fn evaluate_markers(
        &self,
        interner: &Interner,
        environment: &MarkerEnvironment,
        extras: &[ExtraName],
    ) -> bool
        requires { IsHeld interner.now self.now.marker }
        ensures { Evaluates interner.now self.now.marker environment.now extras.now result }
    {
        self.marker.evaluate(interner, environment, extras)
    }

    /// Returns whether the marker is true in the environment with these extras. Without an
    /// environment: whether it can be true with exactly these extras, where the other keys and
    /// substring tests may have any values, each independently of the others.
    pub fn evaluate_optional_environment(
        &self,
        interner: &Interner,
        environment: Option<&MarkerEnvironment>,
        extras: &[ExtraName],
    ) -> bool
        requires { IsHeld interner.now self.now.marker }
        ensures evaluated { EvaluatesIn interner.now self.now.marker
            environment.entry extras.now result }
        ensures possible { Admits interner.now self.now.marker environment.entry extras.now result }
        ensures impossible { Excludes interner.now self.now.marker
            environment.entry extras.now result }
    {
        self.marker
            .evaluate_optional_environment(interner, environment, extras)
    }

    /// Returns the requirement with this origin.
    pub fn with_origin(mut self, origin: RequirementOrigin) -> UnnamedRequirement<Url>
        ensures { result ≡ record self { origin = Some origin } }
    {
        self.origin = Some(origin);
        self
    }
}
