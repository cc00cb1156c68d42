//! Laws of readable markers and of views. Each is a function that does nothing, whose contract is
//! the law. An interner's nodes satisfy the rules of diagrams (`Interner::keeps_the_rules`).

ghost use Rattle.std.specs.Prelude.{◌≡◌};
ghost use Rattle.std.specs.Cmp.{IsTotalOrder};
ghost use Rattle.std.specs.declared.cmp.Ordering.TheVariants.{Equal};
ghost use Rattle.marker_diagrams.specs.Diagram.{IsStore};
ghost use Rattle.marker_nodes.specs.Node.{markers};
ghost use Rattle.marker_graph.specs.Contents.{Contents, IsHeld, truth};
ghost use Rattle.marker_graph.specs.declared.tree.MarkerTree.{MarkerTree};
ghost use Rattle.marker_view.specs.Readable.{AsksPlainQuestions, HasReleases, IsReadable, IsReadableTruth};
ghost use Rattle.marker_view.specs.View.{view_cmp, MeanTheSame, OfViews};

/// A marker that means a formula of plain comparisons branches only on substring tests and extras
/// that can be printed: a text that lacks one of the two quotes, a name of an extra, or an
/// arbitrary extra that is an invalid name.
pub fn questions_of_readable_truths_are_plain()
    ensures { (c : Contents) → IsStore markers c.nodes → (t : MarkerTree) → IsHeld c t
        → IsReadableTruth (truth c t) → AsksPlainQuestions c t }
{}

/// A marker that means a formula of plain comparisons has only release numbers as bounds of
/// versions.
pub fn bounds_of_readable_truths_are_releases()
    ensures { (c : Contents) → IsStore markers c.nodes → (t : MarkerTree) → IsHeld c t
        → IsReadableTruth (truth c t) → HasReleases c t }
{}

/// The marker of a readable truth is readable: if it means a formula of plain comparisons, each of
/// its nodes can be printed.
pub fn readable_truths_have_readable_markers()
    ensures { (c : Contents) → IsStore markers c.nodes → (t : MarkerTree) → IsHeld c t
        → IsReadableTruth (truth c t) → IsReadable c t }
{}

/// A readable marker means a formula of plain comparisons. So if [`MarkerTree::kind`] shows that
/// all texts, bounds and extras of a marker and its subtrees can be printed, its text parses back
/// to the same truth.
pub fn readable_markers_have_readable_truths()
    ensures { (c : Contents) → IsStore markers c.nodes → (t : MarkerTree) → IsHeld c t
        → IsReadable c t → IsReadableTruth (truth c t) }
{}

/// The order of views is total, over any interners.
pub fn views_are_in_a_total_order()
    ensures { IsTotalOrder view_cmp }
{}

/// Two views are equal exactly if their markers mean the same, in one interner or in two.
pub fn views_are_equal_where_they_mean_the_same()
    ensures same { OfViews (λ a b. view_cmp a b ≡ Equal → MeanTheSame a b) }
    ensures equal { OfViews (λ a b. MeanTheSame a b → view_cmp a b ≡ Equal) }
{}
