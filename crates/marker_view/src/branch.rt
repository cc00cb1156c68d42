//! The clauses that lead to each subtree of a marker.

ghost use Rattle.std.specs.Prelude.{◌≡◌, IfOk, OnOk};
ghost use Rattle.marker_parts.specs.Expression as asked;
ghost use Rattle.marker_parts.specs.Expression.{test_of};
ghost use Rattle.marker_graph.specs.Contents.{IsHeld};
ghost use Rattle.marker_view.specs.Branch.{AddsExtraTest, AddsTextTest, AreBranches, AreExtraAnswers, AreTextAnswers, FollowTextEdges, FollowTexts, FollowVersionEdges, FollowVersions, HavePrintableBranches, HavePrintableTexts, IfFound, IsOne, IsPlainAsVariable, LeadToTexts, LeadToVersions, extra_of_ref};

use marker_graph::{
    ExtraMarkerTree, Interner, MarkerTree, MarkerTreeKind, MarkerValueExtraRef, StringMarkerTree,
    VersionMarkerTree,
};
use marker_nodes::NodeId;
use marker_parts::{MarkerExpression, MarkerValueExtra};
use marker_terms::{
    one_clause, push_large, text_clauses, text_exclusion, text_range_terms, version_clauses,
    version_exclusion, version_range_terms,
};
use marker_words::{ExtraOperator, MarkerOperator, MarkerValueString};
use std::alloc::{AllocError, Global};
use version_ranges::Cuts;
use version_ranges::laws::pieces_have_the_values_of_points;

/// A subtree, and the clauses that lead to it: each is a range of values of the marker's first
/// variable.
#[derive(Drop)]
pub(crate) struct Branch {
    pub(crate) clauses: Vec<Vec<MarkerExpression>>,
    pub(crate) child: MarkerTree,
}

/// Returns the subtrees of a marker except `FALSE`, with the clauses that lead to them, in the
/// order of their first edges; none for `TRUE` and `FALSE`. Edges to one subtree are joined. Of a
/// substring test or an extra the subtree for true comes first.
pub(crate) fn branches(interner: &Interner, tree: MarkerTree) -> Result<Vec<Branch>, AllocError>
    requires { IsHeld interner.now tree }
    ensures { IfOk result (λ branches. AreBranches interner.now tree branches.items) }
{
    let alloc = interner.allocator();
    interner.keeps_the_rules();
    match tree.kind(interner) {
        MarkerTreeKind::True => Ok(Vec::new(alloc)),
        MarkerTreeKind::False => Ok(Vec::new(alloc)),
        MarkerTreeKind::Version(view) => {
            if leads_apart(view.cuts(), view.subtree(NodeId::FALSE)) {
                return version_edge_branches(alloc, view);
            }
            match version_around(alloc, view)? {
                Some(branches) => Ok(branches),
                None => version_branches(alloc, view),
            }
        }
        MarkerTreeKind::String(view) => {
            if leads_apart(view.cuts(), view.subtree(NodeId::FALSE)) {
                return text_edge_branches(alloc, view);
            }
            match text_around(alloc, view)? {
                Some(branches) => Ok(branches),
                None => text_branches(alloc, view),
            }
        }
        MarkerTreeKind::In(view) => text_answers(
            alloc,
            view.key(),
            view.value(),
            (MarkerOperator::In, view.edge(true)),
            (MarkerOperator::NotIn, view.edge(false)),
        ),
        MarkerTreeKind::Contains(view) => text_answers(
            alloc,
            view.key(),
            view.value(),
            (MarkerOperator::Contains, view.edge(true)),
            (MarkerOperator::NotContains, view.edge(false)),
        ),
        MarkerTreeKind::Extra(view) => {
            names_are_normal(view.name());
            extra_answers(alloc, view.name(), view.edge(true), view.edge(false))
        }
    }
}

// Whether no two of at most three pieces have one value other than that of `FALSE`. Neighbors have
// different ones.
fn leads_apart<T: Ord>(cuts: &Cuts<T, NodeId>, falsehood: MarkerTree) -> bool {
    let mut pieces = cuts.pieces();
    match (pieces.next(), pieces.next(), pieces.next()) {
        (Some(first), Some(_), Some(third)) => {
            pieces.next().is_none()
                && (first.value != third.value || *first.value == falsehood.id())
        }
        _ => true,
    }
}

// The branches of a marker that asks about a version, one for each edge.
fn version_edge_branches(
    alloc: Global,
    view: VersionMarkerTree<'_>,
) -> Result<Vec<Branch>, AllocError>
    ensures follow { IfOk result (λ branches.
        FollowVersionEdges view.entry branches.items) }
    ensures printable { IfOk result (λ branches. HavePrintableBranches branches.items) }
{
    let mut branches = Vec::new(alloc);
    for edge in view.edges() {
        let (lower, upper, child) = edge;
        if child.is_false() {
            continue;
        }
        let terms = version_range_terms(alloc, view.variable(), (lower, upper))?;
        let clauses = one_clause(alloc, terms)?;
        branches.push(Branch { clauses, child })?;
    }
    Ok(branches)
}

// The same, where a single comparison excludes the second edge, and the only others, the first and
// the third one, lead to one subtree.
fn version_around(
    alloc: Global,
    view: VersionMarkerTree<'_>,
) -> Result<Option<Vec<Branch>>, AllocError>
    ensures follow { IfFound result (FollowVersions view.entry) }
    ensures printable { IfFound result HavePrintableBranches }
{
    let mut edges = view.edges();
    let Some((_, _, around)) = edges.next() else {
        return Ok(None);
    };
    let Some((lower, upper, child)) = edges.next() else {
        return Ok(None);
    };
    let Some((_, _, last)) = edges.next() else {
        return Ok(None);
    };
    if edges.next().is_some() || around != last {
        return Ok(None);
    }
    let Some(term) = version_exclusion(alloc, view.variable(), (lower, upper))? else {
        return Ok(None);
    };
    let mut branches = Vec::with_capacity(alloc, 2)?;
    let outer = one(alloc, term, around)?;
    branches.push(outer)?;
    if child.is_false() {
        return Ok(Some(branches));
    }
    let terms = version_range_terms(alloc, view.variable(), (lower, upper))?;
    let clauses = one_clause(alloc, terms)?;
    branches.push(Branch { clauses, child })?;
    Ok(Some(branches))
}

// The same, where the edges of each subtree are joined.
fn version_branches(alloc: Global, view: VersionMarkerTree<'_>) -> Result<Vec<Branch>, AllocError>
    ensures lead { IfOk result (λ branches. LeadToVersions view.entry branches.items) }
    ensures printable { IfOk result (λ branches. HavePrintableBranches branches.items) }
{
    let mut branches = Vec::new(alloc);
    let cuts = view.cuts();
    pieces_have_the_values_of_points(cuts);
    let joined = cuts.gather(alloc)?;
    for (child, set) in &joined {
        let child = view.subtree(**child);
        if child.is_false() {
            continue;
        }
        let clauses = version_clauses(alloc, view.variable(), set)?;
        branches.push(Branch { clauses, child })?;
    }
    Ok(branches)
}

// The branches of a marker that asks about a text, one for each edge.
fn text_edge_branches(alloc: Global, view: StringMarkerTree<'_>) -> Result<Vec<Branch>, AllocError>
    ensures follow { IfOk result (λ branches. FollowTextEdges view.entry branches.items) }
    ensures printable { IfOk result (λ branches. HavePrintableTexts view.entry branches.items) }
{
    let mut branches = Vec::new(alloc);
    for edge in view.children() {
        let (lower, upper, child) = edge;
        if child.is_false() {
            continue;
        }
        let terms = text_range_terms(alloc, view.key(), (lower, upper))?;
        let clauses = one_clause(alloc, terms)?;
        branches.push(Branch { clauses, child })?;
    }
    Ok(branches)
}

// The same, where a single comparison excludes the second edge, and the only others, the first and
// the third one, lead to one subtree.
fn text_around(alloc: Global, view: StringMarkerTree<'_>) -> Result<Option<Vec<Branch>>, AllocError>
    ensures follow { IfFound result (FollowTexts view.entry) }
    ensures printable { IfFound result (HavePrintableTexts view.entry) }
{
    let mut edges = view.children();
    let Some((_, _, around)) = edges.next() else {
        return Ok(None);
    };
    let Some((lower, upper, child)) = edges.next() else {
        return Ok(None);
    };
    let Some((_, _, last)) = edges.next() else {
        return Ok(None);
    };
    if edges.next().is_some() || around != last {
        return Ok(None);
    }
    let Some(term) = text_exclusion(alloc, view.key(), (lower, upper))? else {
        return Ok(None);
    };
    let mut branches = Vec::with_capacity(alloc, 2)?;
    let outer = one(alloc, term, around)?;
    branches.push(outer)?;
    if child.is_false() {
        return Ok(Some(branches));
    }
    let terms = text_range_terms(alloc, view.key(), (lower, upper))?;
    let clauses = one_clause(alloc, terms)?;
    branches.push(Branch { clauses, child })?;
    Ok(Some(branches))
}

// The same, where the edges of each subtree are joined.
fn text_branches(alloc: Global, view: StringMarkerTree<'_>) -> Result<Vec<Branch>, AllocError>
    ensures lead { IfOk result (λ branches. LeadToTexts view.entry branches.items) }
    ensures printable { IfOk result (λ branches. HavePrintableTexts view.entry branches.items) }
{
    let mut branches = Vec::new(alloc);
    let cuts = view.cuts();
    pieces_have_the_values_of_points(cuts);
    let joined = cuts.gather(alloc)?;
    for (child, set) in &joined {
        let child = view.subtree(**child);
        if child.is_false() {
            continue;
        }
        let clauses = text_clauses(alloc, view.key(), set)?;
        branches.push(Branch { clauses, child })?;
    }
    Ok(branches)
}

// The branches of a comparison with a text and of its negation.
fn text_answers(
    alloc: Global,
    key: MarkerValueString,
    text: &str,
    positive: (MarkerOperator, MarkerTree),
    negative: (MarkerOperator, MarkerTree),
) -> Result<Vec<Branch>, AllocError>
    ensures { IfOk result (λ answers. AreTextAnswers key text.now positive negative answers.items) }
{
    let mut branches = Vec::with_capacity(alloc, 2)?;
    add_text_test(&mut branches, key, positive.0, text, positive.1)?;
    add_text_test(&mut branches, key, negative.0, text, negative.1)?;
    Ok(branches)
}

// The branches of a comparison with an extra and of its negation.
fn extra_answers(
    alloc: Global,
    extra: MarkerValueExtraRef<'_>,
    high: MarkerTree,
    low: MarkerTree,
) -> Result<Vec<Branch>, AllocError>
    ensures { IfOk result (λ branches.
        AreExtraAnswers extra.entry high low branches.items) }
{
    let mut branches = Vec::with_capacity(alloc, 2)?;
    add_extra_test(&mut branches, ExtraOperator::Equal, extra, high)?;
    add_extra_test(&mut branches, ExtraOperator::NotEqual, extra, low)?;
    Ok(branches)
}

// Adds the branch of a comparison with a text, unless it leads to `FALSE`.
fn add_text_test(
    branches: &mut Vec<Branch>,
    key: MarkerValueString,
    operator: MarkerOperator,
    text: &str,
    child: MarkerTree,
) -> Result<(), AllocError>
    ensures { OnOk result (AddsTextTest key operator text.now child branches.old branches.new) }
{
    if child.is_false() {
        return Ok(());
    }
    let alloc = *branches.allocator();
    let term = text_test(alloc, key, operator, text)?;
    let branch = one(alloc, term, child)?;
    branches.push(branch)?;
    Ok(())
}

// Adds the branch of a comparison with an extra, unless it leads to `FALSE`.
fn add_extra_test(
    branches: &mut Vec<Branch>,
    operator: ExtraOperator,
    extra: MarkerValueExtraRef<'_>,
    child: MarkerTree,
) -> Result<(), AllocError>
    ensures { OnOk result (AddsExtraTest operator extra.entry child branches.old branches.new) }
{
    if child.is_false() {
        return Ok(());
    }
    let term = extra_test(operator, extra)?;
    let branch = one(*branches.allocator(), term, child)?;
    branches.push(branch)?;
    Ok(())
}

fn one(alloc: Global, term: MarkerExpression, child: MarkerTree) -> Result<Branch, AllocError>
    ensures { IfOk result (λ branch. IsOne branch term child) }
{
    let mut terms = Vec::with_capacity(alloc, 1)?;
    push_large(&mut terms, term)?;
    let mut clauses = Vec::with_capacity(alloc, 1)?;
    clauses.push(terms)?;
    Ok(Branch { clauses, child })
}

fn text_test(
    alloc: Global,
    key: MarkerValueString,
    operator: MarkerOperator,
    text: &str,
) -> Result<MarkerExpression, AllocError>
    ensures { IfOk result (λ term. test_of term ≡ asked.text key operator text.now) }
{
    let value = String::from_str(alloc, text)?;
    Ok(MarkerExpression::String {
        key,
        operator,
        value,
    })
}

fn extra_test(
    operator: ExtraOperator,
    extra: MarkerValueExtraRef<'_>,
) -> Result<MarkerExpression, AllocError>
    ensures { IfOk result (λ term. test_of term ≡ asked.extra operator (extra_of_ref extra.entry)) }
{
    let name = match extra {
        MarkerValueExtraRef::Extra(name) => MarkerValueExtra::Extra(name.clone()?),
        MarkerValueExtraRef::Arbitrary(text) => MarkerValueExtra::Arbitrary(text.clone()?),
    };
    Ok(MarkerExpression::Extra { operator, name })
}

// `extra` is compared with a name in normal form, or with a text: either can be printed if it is
// plain.
fn names_are_normal(extra: MarkerValueExtraRef<'_>)
    ensures { IsPlainAsVariable extra.entry }
{
    if let MarkerValueExtraRef::Extra(name) = extra {
        // Reading the text of a name shows that it is in normal form.
        let _ = name.as_str();
    }
}
