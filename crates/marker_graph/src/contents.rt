//! Markers that are not always true.

ghost use Rattle.std.specs.Prelude.{◌≡◌, false, MatchOption};
ghost use Rattle.marker_diagrams.specs.Id.{same_id};
ghost use Rattle.marker_diagrams.specs.declared.node_id.TheConstants.NodeId.{TRUE};

use crate::tree::MarkerTree;

/// A marker that is not `TRUE`, as it may follow the `;` of a requirement.
#[derive(Clone, Copy, Debug, PartialEq, Eq, Hash)]
pub struct MarkerTreeContents {
    tree: MarkerTree,
    ghost says: { same_id tree.id TRUE ≡ false },
}

impl MarkerTree {
    /// Returns the marker as the contents of a requirement, or `None` for `TRUE`, which a
    /// requirement leaves out.
    pub fn contents(self) -> Option<MarkerTreeContents>
        ensures { MatchOption result (self ≡ MarkerTree.TRUE) (λ contents. contents.tree ≡ self) }
    {
        if self.is_true() {
            return None;
        }
        Some(MarkerTreeContents { tree: self })
    }
}

impl From<MarkerTreeContents> for MarkerTree {
    ghost from_gives = { λ contents tree. tree ≡ contents.tree };

    /// The marker itself.
    fn from(contents: MarkerTreeContents) -> MarkerTree {
        contents.tree
    }
}

impl From<Option<MarkerTreeContents>> for MarkerTree {
    ghost use Rattle.marker_graph.specs.ContentsTree.{tree_of_contents};

    ghost from_gives = { λ contents tree. tree ≡ tree_of_contents contents };

    /// The marker itself, or `TRUE` without contents.
    fn from(contents: Option<MarkerTreeContents>) -> MarkerTree {
        match contents {
            Some(contents) => contents.tree,
            None => MarkerTree::TRUE,
        }
    }
}
