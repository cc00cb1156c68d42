//! Laws of diagrams over any kind of nodes. Each is a function that does nothing, whose contract is
//! the law. `N` are the nodes, `X` the variables that they branch on, `V` the valuations of all
//! variables.

ghost use Rattle.std.specs.Prelude.{◌≡◌, ℕ, true, false, List, [], ◌∷◌, reverse, slice_get};
ghost use Rattle.marker_diagrams.specs.Id.{opposite, id_of};
ghost use Rattle.marker_diagrams.specs.Diagram.{NodeKind, node_of, IsStore, Keeps};
ghost use Rattle.marker_diagrams.specs.Laws.{InEachList, InEachStore, InEachLawfulStore, MeansEverywhere, NegationsMeanTheContrary, NodesMeanTheirChildren, OtherIdsAreSeparated, OtherIdsAreSatisfied, RemainsAStoreWith, SameNodesHaveOneId, EachSubtreeIsAResidue, EachResidueIsASubtree, SubtreesMeanOtherTruths, DependOnTheirVariables, DependOnNoneBefore, SubtreesCanBeListed};
ghost use Rattle.marker_diagrams.specs.declared.node_id.NodeId.{NodeId};
ghost use Rattle.marker_diagrams.specs.declared.node_id.TheConstants.NodeId.{TRUE, FALSE};

/// `TRUE` is true and `FALSE` false everywhere, and the negation of an id is true where the id is
/// false.
pub fn ids_mean_truths<N, X, V>()
    ensures truth { InEachStore N X V (λ kind nodes. MeansEverywhere kind nodes TRUE true) }
    ensures falsehood { InEachStore N X V (λ kind nodes. MeansEverywhere kind nodes FALSE false) }
    ensures negation { InEachList N X V NegationsMeanTheContrary }
    ensures negated_twice { (t : NodeId) → opposite (opposite t) ≡ t }
{}

/// The id of a node means at each valuation what the child means that the node selects, negated if
/// the id is a negation.
pub fn nodes_mean_their_children<N, X, V>()
    ensures { InEachStore N X V NodesMeanTheirChildren }
{}

/// Two ids of a store are equal, or differ at some valuation.
pub fn other_ids_are_separated<N, X, V>()
    ensures { InEachLawfulStore N X V OtherIdsAreSeparated }
{}

/// An id of a store other than `FALSE` is true at some valuation.
pub fn other_ids_are_satisfied<N, X, V>()
    ensures { InEachLawfulStore N X V OtherIdsAreSatisfied }
{}

/// The empty list of nodes is a store, and a store with one more node that is ready and not a
/// duplicate is a store.
pub fn stores_grow<N, X, V>()
    ensures empty { (kind : NodeKind N X V) → IsStore kind [] }
    ensures longer { InEachList N X V (λ kind nodes. (n : N) → RemainsAStoreWith kind nodes n) }
    ensures keeps { InEachList N X V (λ kind nodes. (n : N) → Keeps kind nodes (n ∷ nodes)) }
{}

/// The id of a stored node means what every equal node means: at each valuation what the child for
/// it means.
pub fn same_nodes_have_one_id<N, X, V>()
    ensures { InEachLawfulStore N X V SameNodesHaveOneId }
{}

/// The node of an index is the key at that index, if keys are listed from the oldest node on.
pub fn indices_count_from_the_oldest<N>()
    ensures { (keys : List N) (i : ℕ) → node_of (reverse keys) (id_of i false) ≡ slice_get keys i }
{}

/// The subtrees of an id mean the residues of its truth, each residue exactly one subtree.
pub fn subtrees_are_the_residues<N, X, V>()
    ensures each_subtree { InEachLawfulStore N X V EachSubtreeIsAResidue }
    ensures each_residue { InEachLawfulStore N X V EachResidueIsASubtree }
    ensures once { InEachLawfulStore N X V SubtreesMeanOtherTruths }
{}

/// The node of an id branches on the first variable on which the truth depends.
pub fn roots_ask_the_first_variable<N, X, V>()
    ensures depends { InEachLawfulStore N X V DependOnTheirVariables }
    ensures first { InEachLawfulStore N X V DependOnNoneBefore }
{}

/// The subtrees of an id can be listed, each once, if the children of each node can be listed.
pub fn subtrees_can_be_listed<N, X, V>()
    ensures { InEachStore N X V SubtreesCanBeListed }
{}
