//! The ids of conditions on one variable.

ghost use Rattle.std.specs.Prelude.{IfOk};
ghost use Rattle.pep440_rs.specs.Intervals.{HasTrimmedBounds};
ghost use Rattle.marker_diagrams.specs.Diagram.{IsStore, Keeps};
ghost use Rattle.marker_nodes.specs.Node.{markers};
ghost use Rattle.marker_nodes.specs.Variable.{answer};
ghost use Rattle.marker_simplifications.specs.Expression.{IsTruthOf};
ghost use Rattle.marker_simplifications.specs.Found.{has_text_in, has_version_in};

use marker_nodes::{Branches, NodeId, NodeTable, TruthVariable};
use marker_words::{TextVariable, VersionVariable};
use pep440_version::Version;
use std::alloc::AllocError;
use std::ops::Bound;
use version_ranges::{Cuts, Ranges};

/// Returns the id of a substring test or an extra.
pub fn asks(nodes: &mut NodeTable, variable: TruthVariable) -> Result<NodeId, AllocError>
    ensures kept { Keeps markers nodes.old nodes.new }
    ensures rules { IsStore markers nodes.old → IsStore markers nodes.new }
    ensures asks { IfOk result (IsTruthOf nodes.new (answer variable)) }
{
    nodes.place_joined(Branches::Truth(variable, NodeId::TRUE, NodeId::FALSE))
}

/// Returns the id that is true if the variable's version is in the set, whose bounds are without
/// zeros at the ends of their releases.
pub fn asks_version(
    nodes: &mut NodeTable,
    variable: VersionVariable,
    range: Ranges<Version>,
) -> Result<NodeId, AllocError>
    requires { HasTrimmedBounds range }
    ensures kept { Keeps markers nodes.old nodes.new }
    ensures rules { IsStore markers nodes.old → IsStore markers nodes.new }
    ensures asks { IfOk result (IsTruthOf nodes.new (has_version_in variable range)) }
{
    if let Some((Bound::Unbounded, _)) = range.bounding_range() {
        let edges = Cuts::from_ranges(range, NodeId::TRUE, NodeId::FALSE)?;
        return nodes.place_joined(Branches::Version(variable, edges));
    }
    // The negation has `TRUE` as its first child, so that its node is inserted as it is.
    let edges = Cuts::from_ranges(range, NodeId::FALSE, NodeId::TRUE)?;
    let negation = nodes.place_joined(Branches::Version(variable, edges))?;
    Ok(negation.not())
}

/// Returns the id that is true if the variable's text is in the set.
pub fn asks_text(
    nodes: &mut NodeTable,
    variable: TextVariable,
    range: Ranges<String>,
) -> Result<NodeId, AllocError>
    ensures kept { Keeps markers nodes.old nodes.new }
    ensures rules { IsStore markers nodes.old → IsStore markers nodes.new }
    ensures asks { IfOk result (IsTruthOf nodes.new (has_text_in variable range)) }
{
    // As above: few sets of texts begin before all texts.
    let edges = Cuts::from_ranges(range, NodeId::FALSE, NodeId::TRUE)?;
    let negation = nodes.place_joined(Branches::Text(variable, edges))?;
    Ok(negation.not())
}
