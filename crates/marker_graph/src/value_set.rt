//! Sets of the values of one variable as markers.

ghost use Rattle.std.specs.Prelude.{IfOk, IfSome};
ghost use Rattle.marker_simplifications.specs.Expression.{IsTruthOf};
ghost use Rattle.marker_simplifications.specs.ValueSet.{contains};
ghost use Rattle.marker_graph.specs.Contents.{HasOnlyNodes, IsHeld, IsKept};
ghost use Rattle.marker_graph.specs.Meaning.{IsSetOf, IsTrueWhere};

use crate::interner::Interner;
use crate::tree::MarkerTree;
use marker_nodes::NodeId;
use marker_simplifications::ValueSet;
use std::alloc::AllocError;

impl Interner {
    // The id of a set.
    fn place_set(&mut self, set: ValueSet) -> Result<NodeId, AllocError>
        ensures kept { IsKept self.old self.new }
        ensures conjunctions { HasOnlyNodes self.old self.new }
        ensures asks { IfOk result (IsTruthOf self.new.nodes (contains set)) }
    {
        set.place(&mut self.nodes)
    }
}

impl MarkerTree {
    /// Returns the values for which the marker is true, or `None` if it branches on no version or
    /// text, or has a subtree that is neither true everywhere nor false everywhere.
    pub fn value_set(self, interner: &Interner) -> Result<Option<ValueSet>, AllocError>
        requires { IsHeld interner.now self }
        ensures { IfOk result (λ found. IfSome found (IsSetOf interner.now self)) }
    {
        ValueSet::of(&interner.nodes, self.id)
    }

    /// Returns the marker that is true if the value of the set's variable is in the set.
    pub fn of_value_set(interner: &mut Interner, set: ValueSet) -> Result<MarkerTree, AllocError>
        ensures kept { IsKept interner.old interner.new }
        ensures conjunctions { HasOnlyNodes interner.old interner.new }
        ensures held { IfOk result (IsHeld interner.new) }
        ensures means { IfOk result (IsTrueWhere interner.new (contains set)) }
    {
        let id = interner.place_set(set)?;
        Ok(MarkerTree { id })
    }
}
