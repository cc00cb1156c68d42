//! Parsing a whole text as one comparison.

ghost use Rattle.std.specs.Prelude.{◌≡◌, ◌≢◌, [], IfOk, IfErr, IfSome, IfNone, OnErr, OnOk};
ghost use Rattle.std.specs.Str.{chars};
ghost use Rattle.pep508_text.specs.Run.{after_space};
ghost use Rattle.pep508_errors.specs.declared.warning.MarkerWarningKind.{MarkerWarningKind};
ghost use Rattle.pep508_errors.specs.Kinds.{Adds};
ghost use Rattle.marker_words.specs.Fault.{IsWordFault};
ghost use Rattle.marker_parts.specs.Whole as whole;
ghost use Rattle.marker_parts.specs.Whole.{IsRead, IsReadFrom};
ghost use Rattle.marker_parts.specs.Reporting.{ReportsPart, ReadsAndReports, ReportsNone, ReportsSomeOf};
ghost use Rattle.refusal.specs.Refused.{FaultIs};
ghost use Rattle.marker_parts.specs.Error.{Tells, Becomes, IsRefusal};

use crate::comparison::{ComparisonError, read_comparison};
use crate::expression::MarkerExpression;
use marker_words::{Fault, FaultKind};
use pep508_errors::{MarkerWarningKind, Pep508Error, Pep508ErrorSource, Pep508Url, Reporter};
use pep508_text::{Place, first, last, skip_space};
use refusal::Refusal;
use std::alloc::{AllocError, Global};

// The fault of a text that has more than white space after its comparison. The span ends before the
// last character.
fn trailing_fault(rest: &str) -> Option<Fault<'_>>
    ensures none { IfNone result (after_space (chars rest.now) ≡ []) }
    ensures some { IfSome result (λ fault. after_space (chars rest.now) ≢ []) }
    ensures fault { IfSome result (IsWordFault rest.now) }
{
    let text = skip_space(rest);
    let (found, _) = first(text)?;
    let (piece, _) = last(text)?;
    Some(FaultKind::Trailing(found).at(Place::at_run(piece, text)))
}

// Parses a whole text as a comparison. Returns it with the kinds of its warnings.
fn read_whole(
    alloc: Global,
    text: &str,
) -> Result<(Option<MarkerExpression>, Vec<MarkerWarningKind>), ComparisonError<'_>>
    ensures found { IfOk result (λ read. IsRead text.now read.0 read.1.items) }
    ensures refused { IfErr result (whole.IsRefusal text.now) }
{
    let mut kinds = Vec::new(alloc);
    let (expression, rest) = match read_comparison(alloc, text, &mut kinds) {
        Ok(read) => read,
        Err(error) => return Err(error),
    };
    match trailing_fault(rest) {
        None => Ok((expression, kinds)),
        Some(fault) => Err(ComparisonError::Fault(fault)),
    }
}

// The error for a fault: its message, its place and the text.
fn error_of_fault<T: Pep508Url>(
    alloc: Global,
    text: &str,
    fault: Fault<'_>,
) -> Result<Pep508Error<T>, AllocError>
    ensures { IfOk result (Tells text.now fault.entry) }
{
    let message = fault.to_string(alloc)?;
    Ok(Pep508Error {
        message: Pep508ErrorSource::String(message),
        start: fault.start(text),
        len: fault.place.len(),
        input: String::from_str(alloc, text)?,
    })
}

impl ComparisonError<'_> {
    /// Returns the refusal of a text with this fault: its message, its place, and a copy of the
    /// text. `OutOfMemory` if there is no memory for them.
    pub fn refusal<T: Pep508Url>(self, alloc: Global, text: &str) -> Refusal<Pep508Error<T>>
        ensures { Becomes text.now self.entry result }
    {
        match self {
            ComparisonError::OutOfMemory => Refusal::OutOfMemory,
            ComparisonError::Fault(fault) => match error_of_fault(alloc, text, fault) {
                Ok(error) => Refusal::Fault(error),
                Err(AllocError) => Refusal::OutOfMemory,
            },
        }
    }
}

fn warning_of(kind: MarkerWarningKind) -> &'static str {
    match kind {
        MarkerWarningKind::DeprecatedMarkerName => {
            "A deprecated name stands in place of the modern one"
        }
        MarkerWarningKind::ExtraInvalidComparison => {
            "Expected a comparison of extra with a name by == or !="
        }
        MarkerWarningKind::LexicographicComparison => "Texts are not compared by ~=",
        MarkerWarningKind::MarkerMarkerComparison => {
            "Expected a quoted text beside a key, found another key"
        }
        MarkerWarningKind::Pep440Error => "Expected a PEP 440 version beside a version key",
        MarkerWarningKind::StringStringComparison => "Expected a key beside a quoted text",
    }
}

/// Reports a warning of each kind, in order. When memory runs out, earlier ones stay reported.
#[tactic(auto, using(crate::proofs::WholeLaws::adds_nothing, crate::proofs::WholeLaws::adds_more))]
pub fn report_kinds<R: Reporter>(
    alloc: Global,
    kinds: &[MarkerWarningKind],
    reporter: &mut R,
) -> Result<(), AllocError>
    requires { R.can_report reporter.old }
    ensures added { OnOk result (Adds (R.kinds reporter.old) (R.kinds reporter.new) kinds.now) }
    ensures begun { OnErr result (ReportsSomeOf R.kinds reporter.old reporter.new kinds.now) }
    ensures again { R.can_report reporter.new }
{
    for kind in kinds {
        let warning = String::from_str(alloc, warning_of(*kind))?;
        reporter.report(*kind, warning)?;
    }
    Ok(())
}

impl MarkerExpression {
    /// Parses one comparison, with white space around it, without reporting warnings. `None` if it
    /// is dropped.
    ///
    /// # Errors
    /// - [`Refusal::Fault`] if the text is not exactly one comparison: what is wrong, where, and
    ///   the text.
    /// - [`Refusal::OutOfMemory`] when memory runs out.
    pub fn parse<T: Pep508Url>(
        alloc: Global,
        text: &str,
    ) -> Result<Option<MarkerExpression>, Refusal<Pep508Error<T>>>
        ensures found { IfOk result (IsReadFrom text.now) }
        ensures refused { IfErr result (IsRefusal text.now) }
    {
        match read_whole(alloc, text) {
            Ok((expression, _)) => Ok(expression),
            Err(error) => Err(error.refusal(alloc, text)),
        }
    }

    /// Parses one comparison as [`MarkerExpression::parse`] does, and reports its warnings in
    /// order.
    ///
    /// # Errors
    /// - The errors of [`MarkerExpression::parse`]. Nothing was reported, except that the first
    ///   warnings may have been when memory runs out.
    pub fn parse_reporter<T: Pep508Url, R: Reporter>(
        alloc: Global,
        text: &str,
        reporter: &mut R,
    ) -> Result<Option<MarkerExpression>, Refusal<Pep508Error<T>>>
        requires { R.can_report reporter.old }
        ensures found { IfOk result (ReadsAndReports R.kinds reporter.old reporter.new text.now) }
        ensures refused { IfErr result (IsRefusal text.now) }
        ensures unreported { FaultIs result (λ _. ReportsNone R.kinds reporter.old reporter.new) }
        ensures begun { IfErr result (λ _. ReportsPart R.kinds reporter.old reporter.new text.now) }
        ensures again { R.can_report reporter.new }
    {
        match read_whole(alloc, text) {
            Ok((expression, kinds)) => {
                report_kinds(alloc, &kinds, reporter)?;
                Ok(expression)
            }
            Err(error) => Err(error.refusal(alloc, text)),
        }
    }
}
