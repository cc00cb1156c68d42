//! Laws of the order of diagrams. Each is a function that does nothing, whose contract is the law.

ghost use Rattle.std.specs.Prelude.{◌≡◌};
ghost use Rattle.std.specs.Cmp.{IsTotalOrder};
ghost use Rattle.std.specs.declared.cmp.Ordering.TheVariants.{Equal};
ghost use Rattle.marker_order.specs.Laws.{MeanTheSame, OfDiagrams};
ghost use Rattle.marker_order.specs.Order.{diagram_cmp};

/// The order of diagrams is total, whatever tables hold them.
pub fn diagrams_are_in_a_total_order()
    ensures { IsTotalOrder diagram_cmp }
{}

/// Two diagrams are equal in the order exactly if they mean the same, in one table or in two.
pub fn diagrams_tie_where_they_mean_the_same()
    ensures same { OfDiagrams (λ d e. diagram_cmp d e ≡ Equal → MeanTheSame d e) }
    ensures tied { OfDiagrams (λ d e. MeanTheSame d e → diagram_cmp d e ≡ Equal) }
{}
