//! Markers and their texts.

ghost use Rattle.std.specs.Prelude.{◌≡◌, List, IfOk, IfErr};
ghost use Rattle.pep508_text.specs.Suffix.{IsSuffix};
ghost use Rattle.marker_parts.specs.declared.expression.MarkerExpression.{MarkerExpression as Term};
ghost use Rattle.marker_terms.specs.Clauses.{clauses_of};
ghost use Rattle.marker_graph.specs.declared.tree.MarkerTree.{MarkerTree as Tree};
ghost use Rattle.marker_graph.specs.Contents.{Contents, IsHeld};
ghost use Rattle.marker_view.specs.View.{contents_of};
ghost use Rattle.marker_grammar.specs.Grammar.{Reads};
ghost use Rattle.marker_view.specs.Dnf.{AreClausesOf};
ghost use Rattle.pep508_markers.specs.Json.{IsJsonRefusal, IsTreeOfJson};
ghost use Rattle.pep508_markers.specs.Text.{HasClauses, HoldsTreeOf, IsReportedTree, IsRefusal, IsRefusalIn, KeepsInterner, SaysText, TellsExtraOf, TellsReporter, TellsTree};

use crate::json::{no_string, read_string};
use crate::text_tree::tree_of_reading;
use marker_grammar::read;
use marker_graph::{Interner, MarkerTree};
use marker_parts::MarkerExpression;
use marker_parts::internal::report_kinds;
use marker_view::{MarkerTreeView, top_level_extra};
use pep508_errors::{MarkerWarningKind, Pep508Error, Pep508Url, Reporter};
use refusal::Refusal;
use std::alloc::AllocError;

/// Markers as texts: parsing, printing, and JSON. `MarkerTree` implements it.
///
/// ```
/// let marker = MarkerTree::parse_str::<VerbatimUrl>(TEXT, interner)?;
/// if let Some(text) = marker.try_to_string(interner)? {
///     println!(rt; "{text}")?;
/// }
/// println!(rt; "{}", marker.negate().view(interner))?;
/// ```
pub trait MarkerText: Sized {
    // The tree of the marker.
    ghost tree: { Self → Tree };

    // The clauses that `to_dnf` may return. The proof of `top_level_extra` does not know this
    // relation: it is about clauses that `to_dnf` returned.
    ghost dnf: { Contents → Self → List (List Term) → Type 0 };

    /// Returns the marker with its interner. It can be printed, and compared even with a marker of
    /// another interner.
    fn view<'a>(self, interner: &'a Interner) -> MarkerTreeView<'a>
        requires { IsHeld interner.now (tree self) }
        ensures contents { contents_of result ≡ interner.now }
        ensures tree { result.tree ≡ tree self };

    /// Parses a marker text (PEP 508) without reporting warnings.
    ///
    /// # Errors
    /// - [`Refusal::Fault`] if the text is an invalid marker: what is wrong, where, and the text.
    /// - [`Refusal::SegmentAtEnd`] if a comparison has a bound above 2^64 - 1.
    /// - [`Refusal::OutOfMemory`] when memory runs out.
    fn parse_str<T: Pep508Url>(
        text: &str,
        interner: &mut Interner,
    ) -> Result<Self, Refusal<Pep508Error<T>>>
        ensures kept { KeepsInterner result interner.old interner.new }
        ensures means { IfOk result (λ t. SaysText interner.new text.now (tree t)) }
        ensures refused { IfErr result (IsRefusal text.now) };

    /// Parses a marker text as [`MarkerText::parse_str`] does, and reports its warnings in order.
    ///
    /// # Errors
    /// - The errors of [`MarkerText::parse_str`]. Nothing was reported, except that the first
    ///   warnings may have been when memory runs out.
    fn parse_reporter<T: Pep508Url, R: Reporter>(
        text: &str,
        reporter: &mut R,
        interner: &mut Interner,
    ) -> Result<Self, Refusal<Pep508Error<T>>>
        requires { R.can_report reporter.old }
        ensures kept { KeepsInterner result interner.old interner.new }
        ensures means { IfOk result (λ t. IsReportedTree interner.new text.now
            (R.kinds reporter.old) (R.kinds reporter.new) (tree t)) }
        ensures refused { IfErr result (IsRefusal text.now) }
        ensures reported { TellsReporter R.can_report R.kinds reporter.old reporter.new
            Reads text.now result };

    /// Parses a marker from a JSON string, as [`MarkerText::parse_str`] parses the string's text.
    ///
    /// # Errors
    /// - [`Refusal::Fault`] if the JSON is not a string: at its start, with length 0, or 1 if it is
    ///   empty.
    /// - The errors of [`MarkerText::parse_str`], with the string's text and a place in it.
    fn from_json<T: Pep508Url>(
        json: &str,
        interner: &mut Interner,
    ) -> Result<Self, Refusal<Pep508Error<T>>>
        ensures kept { KeepsInterner result interner.old interner.new }
        ensures means { IfOk result (λ t. IsTreeOfJson interner.new json.now (tree t)) }
        ensures refused { IfErr result (IsJsonRefusal json.now) };

    /// Returns the marker as a disjunction of conjunctions: a list of clauses, each a list of
    /// comparisons. The list is empty for `TRUE` and for `FALSE`.
    fn to_dnf(self, interner: &Interner) -> Result<Vec<Vec<MarkerExpression>>, AllocError>
        requires { IsHeld interner.now (tree self) }
        ensures clauses { IfOk result (HasClauses interner.now (tree self)) }
        ensures dnf { IfOk result
            (λ clauses. dnf interner.now self (clauses_of clauses.items)) };

    /// Returns the text of the marker: its clauses joined by `or`, and the comparisons of each
    /// joined by `and`. `None` for `TRUE`. `FALSE` is printed as `python_version < '0'`, which
    /// parses to another marker.
    fn try_to_string(self, interner: &Interner) -> Result<Option<String>, AllocError>
        requires { IsHeld interner.now (tree self) }
        ensures { IfOk result (TellsTree interner.now (tree self)) };

    /// Returns the first `extra == '..'` of each clause of [`MarkerText::to_dnf`], if there is a
    /// clause and all have the same.
    final fn top_level_extra(
        self,
        interner: &Interner,
    ) -> Result<Option<MarkerExpression>, AllocError>
        requires { IsHeld interner.now (tree self) }
        ensures { IfOk result (TellsExtraOf (dnf interner.now self) interner.now (tree self)) }
    {
        let clauses = self.to_dnf(interner)?;
        top_level_extra(&clauses)
    }
}

impl MarkerText for MarkerTree {
    ghost tree = { λ t. t };

    ghost dnf = { AreClausesOf };

    fn view<'a>(self, interner: &'a Interner) -> MarkerTreeView<'a> {
        MarkerTreeView::new(interner, self)
    }

    fn parse_str<T: Pep508Url>(
        text: &str,
        interner: &mut Interner,
    ) -> Result<MarkerTree, Refusal<Pep508Error<T>>> {
        match read_behind(text, text, interner) {
            Ok((tree, _)) => Ok(tree),
            Err(refusal) => Err(refusal),
        }
    }

    fn parse_reporter<T: Pep508Url, R: Reporter>(
        text: &str,
        reporter: &mut R,
        interner: &mut Interner,
    ) -> Result<MarkerTree, Refusal<Pep508Error<T>>> {
        parse_behind(text, text, reporter, interner)
    }

    fn from_json<T: Pep508Url>(
        json: &str,
        interner: &mut Interner,
    ) -> Result<MarkerTree, Refusal<Pep508Error<T>>> {
        let alloc = interner.allocator();
        match read_string(alloc, json)? {
            Some(text) => MarkerTree::parse_str(&text, interner),
            None => Err(no_string(alloc, json)),
        }
    }

    fn to_dnf(self, interner: &Interner) -> Result<Vec<Vec<MarkerExpression>>, AllocError> {
        marker_view::to_dnf(interner, self)
    }

    fn try_to_string(self, interner: &Interner) -> Result<Option<String>, AllocError> {
        marker_view::try_to_string(interner, self)
    }
}

/// Parses the marker at the end of a text, as [`MarkerText::parse_str`] parses a whole text.
/// Returns it with the kinds of its warnings in order, which are not reported. The place of a fault
/// is in the whole text, which the fault has.
#[tactic(auto, using(crate::proofs::FaultLaws::refused_behind))]
pub fn read_behind<T: Pep508Url>(
    text: &str,
    marker: &str,
    interner: &mut Interner,
) -> Result<(MarkerTree, Vec<MarkerWarningKind>), Refusal<Pep508Error<T>>>
    requires { IsSuffix text.now marker.now }
    ensures kept { KeepsInterner result interner.old interner.new }
    ensures means { IfOk result (λ r. HoldsTreeOf interner.new marker.now r.0 r.1.items) }
    ensures refused { IfErr result (IsRefusalIn text.now marker.now) }
{
    let alloc = interner.allocator();
    if let Some(tree) = interner.known_text(marker) {
        return Ok((tree, Vec::new(alloc)));
    }
    let reading = match read(alloc, marker) {
        Ok(reading) => reading,
        Err(error) => return Err(error.refusal(alloc, text)),
    };
    match tree_of_reading(interner, marker, reading) {
        Ok(marked) => Ok(marked),
        Err(Refusal::OutOfMemory) => Err(Refusal::OutOfMemory),
        Err(Refusal::SegmentAtEnd) => Err(Refusal::SegmentAtEnd),
    }
}

/// Parses the marker at the end of a text, as [`MarkerText::parse_reporter`] parses a whole text.
/// The place of a fault is in the whole text, which the fault has.
pub fn parse_behind<T: Pep508Url, R: Reporter>(
    text: &str,
    marker: &str,
    reporter: &mut R,
    interner: &mut Interner,
) -> Result<MarkerTree, Refusal<Pep508Error<T>>>
    requires can_report { R.can_report reporter.old }
    requires suffix { IsSuffix text.now marker.now }
    ensures kept { KeepsInterner result interner.old interner.new }
    ensures means { IfOk result (IsReportedTree interner.new marker.now
        (R.kinds reporter.old) (R.kinds reporter.new)) }
    ensures refused { IfErr result (IsRefusalIn text.now marker.now) }
    ensures reported { TellsReporter R.can_report R.kinds reporter.old reporter.new
        Reads marker.now result }
{
    let mark = interner.mark();
    let (tree, kinds) = match read_behind(text, marker, interner) {
        Ok(marked) => marked,
        Err(refusal) => return Err(refusal),
    };
    match report_kinds(interner.allocator(), &kinds, reporter) {
        Ok(()) => Ok(tree),
        Err(error) => {
            interner.release(mark);
            Err(error.into())
        }
    }
}
