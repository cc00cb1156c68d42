//! The paths of a marker as clauses.

ghost use Rattle.std.specs.Prelude.{◌≡◌, ◌++◌, IfOk, OnOk};
ghost use Rattle.marker_terms.specs.Plain.{AllPrintable};
ghost use Rattle.marker_graph.specs.Contents.{IsHeld};
ghost use Rattle.marker_view.specs.Branch.{AddsClause, AddsPaths, AllPrintableIfBoth, HoldTogether, StayPlain, StayPlainWith};

use crate::branch::{Branch, branches};
use marker_graph::{Interner, MarkerTree};
use marker_parts::MarkerExpression;
use marker_terms::push_large;
use std::alloc::{AllocError, Global};

/// Adds the clauses of the paths from a marker to `TRUE`, each after the terms of a path to the
/// marker. That path is left as it was. All clauses together may have as many terms as there is
/// room; beyond that the call fails as when memory runs out.
pub(crate) fn collect(
    interner: &Interner,
    tree: MarkerTree,
    path: &mut Vec<MarkerExpression>,
    room: &mut usize,
    clauses: &mut Vec<Vec<MarkerExpression>>,
) -> Result<(), AllocError>
    requires { IsHeld interner.now tree }
    ensures path { OnOk result (path.new.items ≡ path.old.items) }
    ensures means { OnOk result (AddsPaths interner.now tree path.old clauses.old clauses.new) }
    ensures printable { OnOk result (StayPlain interner.now tree path.old clauses.old clauses.new) }
{
    if tree.is_true() {
        let none = Vec::new(interner.allocator());
        add_clause(interner.allocator(), path, none, room, clauses)?;
        return Ok(());
    }
    let found = branches(interner, tree)?;
    for branch in found {
        let Branch {
            clauses: ways,
            child,
        } = branch;
        for way in ways {
            if child.is_true() {
                add_clause(interner.allocator(), path, way, room, clauses)?;
                continue;
            }
            let mut terms = way;
            let len = path.len();
            path.append(&mut terms)?;
            collect(interner, child, path, room, clauses)?;
            path.truncate(len);
        }
    }
    Ok(())
}

// Adds the clause of a path and its last terms, if there is room for them.
fn add_clause(
    alloc: Global,
    path: &[MarkerExpression],
    terms: Vec<MarkerExpression>,
    room: &mut usize,
    clauses: &mut Vec<Vec<MarkerExpression>>,
) -> Result<(), AllocError>
    ensures means { OnOk result (AddsClause (path.now ++ terms.items) clauses.old clauses.new) }
    ensures printable { OnOk result (StayPlainWith path.now terms.items clauses.old clauses.new) }
{
    let count = path.len().saturating_add(terms.len());
    if *room < count {
        return Err(AllocError);
    }
    *room -= count;
    let clause = joined(alloc, path, terms)?;
    clauses.push(clause)?;
    Ok(())
}

// The terms of a path with its last ones behind them, which are not copied.
fn joined(
    alloc: Global,
    path: &[MarkerExpression],
    terms: Vec<MarkerExpression>,
) -> Result<Vec<MarkerExpression>, AllocError>
    ensures means { IfOk result (λ all. HoldTogether all.items (path.now ++ terms.items)) }
    ensures printable { IfOk result (λ all. AllPrintableIfBoth path.now terms.items all.items) }
{
    if path.is_empty() {
        return Ok(terms);
    }
    let mut terms = terms;
    let mut all = clones(alloc, path, terms.len())?;
    all.append(&mut terms)?;
    Ok(all)
}

// Clones of terms, with room for more of them.
fn clones(
    alloc: Global,
    path: &[MarkerExpression],
    more: usize,
) -> Result<Vec<MarkerExpression>, AllocError>
    ensures means { IfOk result (λ all. HoldTogether all.items path.now) }
    ensures printable { IfOk result (λ all. AllPrintable path.now → AllPrintable all.items) }
{
    let mut all = Vec::with_capacity(alloc, path.len().saturating_add(more))?;
    for term in path {
        push_large(&mut all, term.clone()?)?;
    }
    Ok(all)
}
