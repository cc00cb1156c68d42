//! Evaluation that reports comparisons of texts by order.

ghost use Rattle.std.specs.Prelude.{◌≡◌, IfOk};
ghost use Rattle.version_ranges.specs.Clamp.{bound_of};
ghost use Rattle.marker_diagrams.specs.Diagram as diagram;
ghost use Rattle.marker_nodes.specs.Node.{markers};
ghost use Rattle.marker_walks.specs.Evaluation.{truth_in};
ghost use Rattle.marker_walks.specs.Report.{AddsComparisons, is_single, is_text_until};

use crate::child::child_in;
use marker_environment::MarkerEnvironment;
use marker_nodes::{Branches, Node, NodeId, NodeTable};
use pep508_errors::{MarkerWarningKind, Reporter};
use pep508_names::ExtraName;
use std::alloc::{AllocError, Global};
use std::ops::Bound;
use version_ranges::{Cuts, Piece};

/// Evaluates the id as [`evaluate`](crate::evaluate) does, and reports each bound with which the
/// value of a text key was compared by order.
///
/// # Errors
/// - `AllocError` when memory runs out, here or in the reporter. Earlier warnings stay reported.
pub fn evaluate_and_report<R: Reporter>(
    nodes: &NodeTable,
    id: NodeId,
    environment: &MarkerEnvironment,
    extras: &[ExtraName],
    reporter: &mut R,
) -> Result<bool, AllocError>
    requires rules { diagram.IsStore markers nodes.now }
    requires this { diagram.IsHeld nodes.now id }
    requires can_report { R.can_report reporter.old }
    ensures answer { IfOk result (λ b. b ≡ truth_in nodes.now id environment.now extras.now) }
    ensures told { AddsComparisons (R.kinds reporter.old) (R.kinds reporter.new) }
    ensures again { R.can_report reporter.new }
{
    let mut at = id;
    while let Some(node) = nodes.node(at) {
        report_node(nodes.allocator(), node, environment, reporter)?;
        at = child_in(node, environment, extras).negate(at);
    }
    Ok(!at.is_complement())
}

// Reports the comparisons of a node that branches on a text.
fn report_node<R: Reporter>(
    alloc: Global,
    node: &Node,
    environment: &MarkerEnvironment,
    reporter: &mut R,
) -> Result<(), AllocError>
    requires { R.can_report reporter.old }
    ensures told { AddsComparisons (R.kinds reporter.old) (R.kinds reporter.new) }
    ensures again { R.can_report reporter.new }
{
    match node {
        Branches::Text(variable, edges) => {
            report_order(alloc, environment.text(*variable), edges, reporter)
        }
        Branches::Version(_, _) | Branches::Truth(_, _, _) => Ok(()),
    }
}

// Reports the bounds of the pieces up to that of the text.
fn report_order<R: Reporter>(
    alloc: Global,
    text: &str,
    edges: &Cuts<String, NodeId>,
    reporter: &mut R,
) -> Result<(), AllocError>
    requires { R.can_report reporter.old }
    ensures told { AddsComparisons (R.kinds reporter.old) (R.kinds reporter.new) }
    ensures again { R.can_report reporter.new }
{
    for piece in edges.pieces() {
        report_piece(alloc, text, &piece, reporter)?;
        if is_up_to(text, piece.upper) {
            return Ok(());
        }
    }
    Ok(())
}

// Reports the bounds of a piece, unless it is a single value.
fn report_piece<R: Reporter>(
    alloc: Global,
    text: &str,
    piece: &Piece<'_, String, NodeId>,
    reporter: &mut R,
) -> Result<(), AllocError>
    requires { R.can_report reporter.old }
    ensures told { AddsComparisons (R.kinds reporter.old) (R.kinds reporter.new) }
    ensures again { R.can_report reporter.new }
{
    if is_single(piece) {
        return Ok(());
    }
    report_bound(alloc, text, piece.lower, reporter)?;
    report_bound(alloc, text, piece.upper, reporter)
}

// Reports that a text was compared with a bound.
fn report_bound<R: Reporter>(
    alloc: Global,
    text: &str,
    bound: Bound<&String>,
    reporter: &mut R,
) -> Result<(), AllocError>
    requires { R.can_report reporter.old }
    ensures told { AddsComparisons (R.kinds reporter.old) (R.kinds reporter.new) }
    ensures again { R.can_report reporter.new }
{
    match bound {
        Bound::Included(value) | Bound::Excluded(value) => {
            let warning = format!(in alloc; "Comparing {text} and {value} lexicographically")?;
            reporter.report(MarkerWarningKind::LexicographicComparison, warning)
        }
        Bound::Unbounded => Ok(()),
    }
}

// Whether the piece is a single text.
fn is_single(piece: &Piece<'_, String, NodeId>) -> bool
    ensures { result ≡ is_single (bound_of piece.now.lower) (bound_of piece.now.upper) }
{
    match (piece.lower, piece.upper) {
        (Bound::Included(first), Bound::Included(last)) => *first == *last,
        _ => false,
    }
}

// Whether a text is not above an upper bound.
fn is_up_to(text: &str, upper: Bound<&String>) -> bool
    ensures { result ≡ is_text_until upper.entry text.now }
{
    match upper {
        Bound::Included(bound) => text <= bound.as_str(),
        Bound::Excluded(bound) => text < bound.as_str(),
        Bound::Unbounded => true,
    }
}
