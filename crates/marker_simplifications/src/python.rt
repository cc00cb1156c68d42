//! Ids and ranges of Python versions: simplifying for a range, and requiring one.

ghost use Rattle.std.specs.Prelude.{◌≡◌, true, IfNone, IfOk, IfSome, Some};
ghost use Rattle.std.specs.Range.Bound.{bound_map};
ghost use Rattle.version_ranges.specs.Bounds.{all_cuts};
ghost use Rattle.version_ranges.specs.Point.{Point};
ghost use Rattle.version_ranges.specs.Clamp.{IsBetween, bound_of};
ghost use Rattle.pep440_version.specs.Parts.{Parts};
ghost use Rattle.pep440_version.specs.Order.{trimmed_parts, version_cmp};
ghost use Rattle.pep440_rs.specs.Intervals.{is_trimmed};
ghost use Rattle.marker_diagrams.specs.Diagram as diagram;
ghost use Rattle.marker_diagrams.specs.Diagram.{node_of, Keeps};
ghost use Rattle.marker_nodes.specs.declared.node.Branches.TheVariants as kinds;
ghost use Rattle.marker_nodes.specs.Node.{markers};
ghost use Rattle.marker_nodes.specs.Variable.{of_version};
ghost use Rattle.marker_simplifications.specs.Expression.{IsTruthOf};
ghost use Rattle.marker_simplifications.specs.Python.{is_python_between, is_whole};
ghost use Rattle.marker_simplifications.specs.Simplified.{AreAfterImplementation, AreAssumedBetween, BranchesElsewhere, IsAfterImplementation, IsAssumedBetween, KnowsBetween};

use crate::questions::asks_version;
use marker_nodes::{Branches, Children, NodeId, NodeTable};
use marker_words::VersionVariable;
use pep440_version::Version;
use smallvec::SmallVec;
use std::alloc::AllocError;
use std::collections::HashMap;
use std::ops::Bound;
use version_ranges::{Cuts, Ranges};

/// Returns whether a range has no bounds.
pub fn is_unbounded(lower: Bound<&Version>, upper: Bound<&Version>) -> bool
    ensures { result ≡ is_whole (bound_of lower.entry) (bound_of upper.entry) }
{
    match (lower, upper) {
        (Bound::Unbounded, Bound::Unbounded) => true,
        (Bound::Unbounded, Bound::Included(_)) => false,
        (Bound::Unbounded, Bound::Excluded(_)) => false,
        (Bound::Included(_), _) => false,
        (Bound::Excluded(_), _) => false,
    }
}

// The bound at the same version, without zeros at the end of its release.
fn trimmed_bound(bound: Bound<&Version>) -> Result<Bound<Version>, AllocError>
    ensures { IfOk result (λ r. r ≡ bound_map trimmed_parts (bound_of bound.entry)) }
{
    match bound {
        Bound::Included(version) => Ok(Bound::Included(version.without_trailing_zeros()?)),
        Bound::Excluded(version) => Ok(Bound::Excluded(version.without_trailing_zeros()?)),
        Bound::Unbounded => Ok(Bound::Unbounded),
    }
}

// The children of an id on the values of a version variable, up to the id's sign, if its node
// branches on that.
fn edges_at(
    nodes: &NodeTable,
    variable: VersionVariable,
    id: NodeId,
) -> Option<&Cuts<Version, NodeId>>
    ensures found { IfSome result (λ edges. node_of nodes.now id
        ≡ Some (kinds.Version variable edges.now)) }
    ensures bounds { IfSome result (λ edges. all_cuts is_trimmed edges.now ≡ true) }
    ensures other { IfNone result (BranchesElsewhere nodes.now (of_version variable) id) }
{
    match nodes.node(id) {
        Some(Branches::Version(asked, edges)) => {
            if *asked == variable {
                Some(edges)
            } else {
                None
            }
        }
        Some(Branches::Text(_, _)) => None,
        Some(Branches::Truth(_, _, _)) => None,
        None => None,
    }
}

/// Returns the id that is true where the Python version is between two bounds.
pub fn python_range(
    nodes: &mut NodeTable,
    lower: Bound<&Version>,
    upper: Bound<&Version>,
) -> Result<NodeId, AllocError>
    ensures kept { Keeps markers nodes.old nodes.new }
    ensures rules { diagram.IsStore markers nodes.old → diagram.IsStore markers nodes.new }
    ensures asks { IfOk result (IsTruthOf nodes.new (is_python_between lower.entry upper.entry)) }
{
    let lower = trimmed_bound(lower)?;
    let upper = trimmed_bound(upper)?;
    let range = Ranges::from_range_bounds(nodes.allocator(), (lower, upper))?;
    asks_version(nodes, VersionVariable::PythonFullVersion, range)
}

/// Returns the id simplified, given that the Python version is in a range that is not empty.
pub fn assume_python_range(
    nodes: &mut NodeTable,
    id: NodeId,
    lower: Bound<&Version>,
    upper: Bound<&Version>,
) -> Result<NodeId, AllocError>
    requires rules { diagram.IsStore markers nodes.old }
    requires held { diagram.IsHeld nodes.old id }
    requires point { (p : Point Parts) × IsBetween version_cmp (bound_of lower) (bound_of upper) p }
    ensures kept { Keeps markers nodes.old nodes.new }
    ensures rules { diagram.IsStore markers nodes.new }
    ensures assumed { IfOk result (IsAssumedBetween nodes.new lower.entry upper.entry id) }
{
    let variable = VersionVariable::ImplementationVersion;
    let Some(edges) = edges_at(nodes, variable, id) else {
        return assume_at_python(nodes, id, lower, upper);
    };
    let edges = edges.clone()?;
    let branches = Branches::Version(variable, edges);
    let children = branches.values(nodes.allocator())?;
    let children = assume_all(nodes, &children, lower, upper)?;
    let placed = nodes.place(branches, children)?;
    Ok(placed.negate(id))
}

// As `assume_python_range`, of an id that depends on no variable before the Python version.
fn assume_at_python(
    nodes: &mut NodeTable,
    id: NodeId,
    lower: Bound<&Version>,
    upper: Bound<&Version>,
) -> Result<NodeId, AllocError>
    requires rules { diagram.IsStore markers nodes.old }
    requires after { IsAfterImplementation nodes.old id }
    requires point { (p : Point Parts) × IsBetween version_cmp (bound_of lower) (bound_of upper) p }
    ensures kept { Keeps markers nodes.old nodes.new }
    ensures rules { diagram.IsStore markers nodes.new }
    ensures assumed { IfOk result (IsAssumedBetween nodes.new lower.entry upper.entry id) }
{
    let variable = VersionVariable::PythonFullVersion;
    let Some(edges) = edges_at(nodes, variable, id) else {
        return Ok(id);
    };
    let edges = edges.clamp(nodes.allocator(), lower, upper)?;
    let placed = nodes.place_node(Branches::Version(variable, edges))?;
    Ok(placed.negate(id))
}

// As `assume_at_python`, of each child of an id on the implementation's versions, each once.
fn assume_all(
    nodes: &mut NodeTable,
    children: &[NodeId],
    lower: Bound<&Version>,
    upper: Bound<&Version>,
) -> Result<Children, AllocError>
    requires rules { diagram.IsStore markers nodes.old }
    requires children { AreAfterImplementation nodes.old children.now }
    requires point { (p : Point Parts) × IsBetween version_cmp (bound_of lower) (bound_of upper) p }
    ensures kept { Keeps markers nodes.old nodes.new }
    ensures rules { diagram.IsStore markers nodes.new }
    ensures assumed { IfOk result
        (λ r. AreAssumedBetween nodes.new lower.entry upper.entry children.now r.items) }
{
    let mut known = HashMap::new(nodes.allocator());
    let mut made = SmallVec::with_capacity(nodes.allocator(), children.len())?;
    for child in children {
        let id = assume_once(nodes, &mut known, *child, lower, upper)?;
        made.push(id)?;
    }
    Ok(made)
}

// As `assume_at_python`, of one id, whose result is remembered.
fn assume_once(
    nodes: &mut NodeTable,
    known: &mut HashMap<NodeId, NodeId>,
    id: NodeId,
    lower: Bound<&Version>,
    upper: Bound<&Version>,
) -> Result<NodeId, AllocError>
    requires after { IsAfterImplementation nodes.old id }
    requires point { (p : Point Parts) × IsBetween version_cmp (bound_of lower) (bound_of upper) p }
    requires known { KnowsBetween nodes.old lower upper known.old.entries }
    ensures kept { Keeps markers nodes.old nodes.new }
    ensures assumed { IfOk result (IsAssumedBetween nodes.new lower.entry upper.entry id) }
    ensures known { KnowsBetween nodes.new lower.entry upper.entry known.new.entries }
{
    if let Some(found) = known.get(&id) {
        return Ok(*found);
    }
    let made = assume_at_python(nodes, id, lower, upper)?;
    known.insert(id, made)?;
    Ok(made)
}
