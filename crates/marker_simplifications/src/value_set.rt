//! Sets of the values of one variable.

ghost use Rattle.std.specs.Prelude.{◌≡◌, IfOk, true};
ghost use Rattle.std.specs.Set.{ClonesAreEqual};
ghost use Rattle.version_ranges.specs.Bounds.{IsCloned, all_bounds, all_cuts};
ghost use Rattle.pep440_rs.specs.Intervals.{is_trimmed};
ghost use Rattle.marker_simplifications.specs.Found.{HasChildExactlyIn, IfFound};

use crate::questions::{asks_text, asks_version};
use marker_nodes::{Branches, NodeId, NodeTable};
use marker_words::{TextVariable, VersionVariable};
use pep440_version::Version;
use std::alloc::{AllocError, Global};
use version_ranges::{Cuts, Ranges};

/// A set of versions whose bounds are without zeros at the ends of their releases.
#[derive(Drop)]
pub struct TrimmedRanges {
    ranges: Ranges<Version>,
    pub ghost trimmed: { all_bounds is_trimmed ranges ≡ true },
}

/// A set of the values of one variable. It is a condition on the variable that is in no table.
#[derive(Drop)]
pub enum ValueSet {
    /// Versions of a version variable
    Versions(VersionVariable, TrimmedRanges),
    /// Texts of a text variable
    Texts(TextVariable, Ranges<String>),
}

impl ValueSet {
    ghost use Rattle.std.specs.Prelude.{◌&&◌, ◌||◌};
    ghost use Rattle.marker_diagrams.specs.Diagram.{truth, IsHeld, IsStore, Keeps};
    ghost use Rattle.marker_nodes.specs.Node.{markers};
    ghost use Rattle.marker_simplifications.specs.Expression.{IsTruthOf};
    ghost use Rattle.marker_simplifications.specs.ValueSet.{IsSetOf, contains};

    /// Returns the values for which the id is true, or `None` if its node branches on no version or
    /// text, or has a child that is neither `TRUE` nor `FALSE`.
    pub fn of(nodes: &NodeTable, id: NodeId) -> Result<Option<Self>, AllocError>
        requires rules { IsStore markers nodes.now }
        requires id { IsHeld nodes.now id }
        ensures { IfFound result (IsSetOf (truth markers nodes.now id)) }
    {
        let inside = NodeId::TRUE.negate(id);
        match nodes.node(id) {
            Some(Branches::Version(variable, edges)) => {
                match points_of(nodes.allocator(), edges, inside)? {
                    Some(ranges) => {
                        let ranges = TrimmedRanges { ranges };
                        Ok(Some(ValueSet::Versions(*variable, ranges)))
                    }
                    None => Ok(None),
                }
            }
            Some(Branches::Text(variable, edges)) => {
                match points_of(nodes.allocator(), edges, inside)? {
                    Some(range) => Ok(Some(ValueSet::Texts(*variable, range))),
                    None => Ok(None),
                }
            }
            Some(Branches::Truth(_, _, _)) => Ok(None),
            None => Ok(None),
        }
    }

    /// Returns the values that are in at least one of two sets, or `None` for sets of two
    /// variables.
    pub fn union(&self, alloc: Global, other: &Self) -> Result<Option<Self>, AllocError>
        ensures { IfFound result (IsSetOf (λ v. contains self.now v || contains other.now v)) }
    {
        match (self, other) {
            (ValueSet::Versions(key, left), ValueSet::Versions(other, right)) if key == other => {
                let ranges = left.ranges.union(alloc, &right.ranges)?;
                Ok(Some(ValueSet::Versions(*key, TrimmedRanges { ranges })))
            }
            (ValueSet::Texts(key, left), ValueSet::Texts(other, right)) if key == other => {
                let range = left.union(alloc, right)?;
                Ok(Some(ValueSet::Texts(*key, range)))
            }
            _ => Ok(None),
        }
    }

    /// Returns the values that are in both of two sets, or `None` for sets of two variables.
    pub fn intersection(&self, alloc: Global, other: &Self) -> Result<Option<Self>, AllocError>
        ensures { IfFound result (IsSetOf (λ v. contains self.now v && contains other.now v)) }
    {
        match (self, other) {
            (ValueSet::Versions(key, left), ValueSet::Versions(other, right)) if key == other => {
                let ranges = left.ranges.intersection(alloc, &right.ranges)?;
                Ok(Some(ValueSet::Versions(*key, TrimmedRanges { ranges })))
            }
            (ValueSet::Texts(key, left), ValueSet::Texts(other, right)) if key == other => {
                let range = left.intersection(alloc, right)?;
                Ok(Some(ValueSet::Texts(*key, range)))
            }
            _ => Ok(None),
        }
    }

    /// Returns the id that is true if the variable's value is in the set.
    pub fn place(self, nodes: &mut NodeTable) -> Result<NodeId, AllocError>
        ensures kept { Keeps markers nodes.old nodes.new }
        ensures rules { IsStore markers nodes.old → IsStore markers nodes.new }
        ensures asks { IfOk result (IsTruthOf nodes.new (contains self)) }
    {
        match self {
            ValueSet::Versions(variable, set) => asks_version(nodes, variable, set.ranges),
            ValueSet::Texts(variable, range) => asks_text(nodes, variable, range),
        }
    }
}

// Whether a child is neither `TRUE` nor `FALSE`. It has no contract, because `points_of` looks at
// all children again.
fn has_nodes_below<T: Ord>(edges: &Cuts<T, NodeId>) -> bool {
    edges.pieces().any(|piece| piece.value.index().is_some())
}

// The points that have the child `inside`, if all others have its negation.
fn points_of<T: Ord + Clone>(
    alloc: Global,
    edges: &Cuts<T, NodeId>,
    inside: NodeId,
) -> Result<Option<Ranges<T>>, AllocError>
    requires clones { ClonesAreEqual T.eq T.is_clone }
    ensures points { IfFound result (HasChildExactlyIn T.cmp edges.now inside) }
    ensures bounds { IfFound result (λ set. IsCloned T.is_clone all_cuts edges.now all_bounds set) }
{
    if has_nodes_below(edges) {
        return Ok(None);
    }
    let mut sets = edges.gather(alloc)?;
    let Some((last, last_set)) = sets.pop() else {
        return Ok(None);
    };
    let Some((first, first_set)) = sets.pop() else {
        return Ok(None);
    };
    if sets.len() > 0 {
        return Ok(None);
    }
    if *first == inside && *last == inside.not() {
        return Ok(Some(first_set));
    }
    if *last == inside && *first == inside.not() {
        return Ok(Some(last_set));
    }
    Ok(None)
}
