//! A marker with its interner.

ghost use Rattle.std.specs.Prelude.{◌≡◌, ◌↔◌, IfOk, IsTrue, None, Some, string_bytes};
ghost use Rattle.std.specs.Option.{option_map};
ghost use Rattle.std.specs.Fmt.{DisplaysOnOk, DisplaysStyledOnOk};
ghost use Rattle.marker_graph.specs.Contents.{IsHeld, truth};
ghost use Rattle.marker_view.specs.Text.{TellsText};

use crate::text::try_to_string;
use marker_graph::{Interner, MarkerTree};
use marker_order::diagram_order;
use std::cmp::Ordering;
use std::fmt;
use std::fmt::Display;

/// A marker with its interner.
///
/// Views are equal exactly if their markers mean the same, in one interner or in two. A view prints
/// as the text of its marker, and as nothing for `TRUE`.
///
/// ```
/// let left = MarkerTree::parse_str::<VerbatimUrl>("os_name == 'nt'", here)?;
/// let right = MarkerTree::parse_str::<VerbatimUrl>("'nt' == os_name", there)?;
/// println!(rt; "equal: {}", left.view(here) == right.view(there))?;
/// ```
///
/// The order of views is total:
///
/// - `TRUE`, then `FALSE`, then the other markers by the variable on which they branch first:
///   versions, texts, `key in 'text'`, `'text' in key`, extras; within each by key, and by text or
///   name;
/// - then edge by edge, by lower bound, upper bound and subtree; a marker that has no more edges
///   comes first. The subtree for true comes before the one for false;
/// - of lower bounds none at all comes first, and `Included` before `Excluded` at the same value;
///   of upper bounds `Excluded` comes before `Included`, and none at all last.
#[derive(Clone, Copy)]
pub struct MarkerTreeView<'a> {
    interner: &'a Interner,
    tree: MarkerTree,
    ghost held: { IsHeld interner.now tree },
}

impl<'a> MarkerTreeView<'a> {
    /// Returns the view of a marker that the interner holds.
    pub fn new(interner: &'a Interner, tree: MarkerTree) -> Self
        requires { IsHeld interner.now tree }
        ensures interner { result.interner.now ≡ interner.now }
        ensures tree { result.tree ≡ tree }
    {
        MarkerTreeView { interner, tree }
    }

    /// Returns the interner.
    pub fn interner(&self) -> &'a Interner
        ensures interner { result.now ≡ self.now.interner.now }
        ensures held { IsHeld result.now self.now.tree }
    {
        self.interner
    }

    /// Returns the marker.
    pub fn tree(&self) -> MarkerTree
        ensures { result ≡ self.now.tree }
    {
        self.tree
    }
}

impl<'a> PartialEq for MarkerTreeView<'a> {
    ghost use Rattle.std.specs.Cmp.{eq_by_cmp_equiv, partial_equiv_from_equiv};
    ghost use Rattle.std.specs.Ordering.{eq_by_cmp};
    ghost use Rattle.marker_view.specs.View.{view_cmp, view_total, MeanTheSame};

    ghost eq = { eq_by_cmp view_cmp };

    ghost laws = { partial_equiv_from_equiv (eq_by_cmp_equiv view_total) };

    fn eq(&self, other: &Self) -> bool
        ensures eq { result ≡ eq_by_cmp view_cmp self.now other.now }
        ensures truth { IsTrue result ↔ MeanTheSame self.now other.now }
    {
        self.order(other).is_eq()
    }
}

impl<'a> Eq for MarkerTreeView<'a> {
    ghost use Rattle.std.specs.Cmp.{eq_by_cmp_equiv};
    ghost use Rattle.marker_view.specs.View.{view_total};

    ghost laws = { eq_by_cmp_equiv view_total };
}

impl<'a> PartialOrd for MarkerTreeView<'a> {
    ghost use Rattle.std.specs.Prelude.{refl, Some};
    ghost use Rattle.std.specs.Cmp.{po};
    ghost use Rattle.marker_view.specs.View.{view_cmp, view_total};

    ghost partial_cmp = { λ a b. Some (view_cmp a b) };

    ghost laws = { po view_total (λ a b. refl) };

    fn partial_cmp(&self, other: &Self) -> Option<Ordering> {
        Some(self.order(other))
    }
}

impl<'a> Ord for MarkerTreeView<'a> {
    ghost use Rattle.std.specs.Prelude.{refl};
    ghost use Rattle.marker_view.specs.View.{view_cmp, view_total};

    ghost cmp = { view_cmp };

    ghost total = { view_total };

    ghost matches_partial_cmp = { λ a b. refl };

    ghost matches_eq = { λ a b. refl };

    fn cmp(&self, other: &Self) -> Ordering {
        self.order(other)
    }
}

// The text of a marker, empty for `TRUE`, or an error when memory runs out.
fn text_of(view: &MarkerTreeView<'_>) -> Result<Option<String>, fmt::Error>
    ensures { IfOk result (λ text. TellsText
        (truth view.now.interner.now view.now.tree) (option_map string_bytes text)) }
{
    match try_to_string(view.interner, view.tree) {
        Ok(text) => Ok(text),
        Err(_) => Err(fmt::Error),
    }
}

impl Display for MarkerTreeView<'_> {
    ghost use Rattle.marker_view.specs.View.{WithViewText};

    // The text is not a function of the view: the clause `told` of `fmt` states it as a relation.
    ghost output = { λ _. None };

    fn fmt<W: fmt::Write>(&self, f: &mut fmt::Formatter<W>) -> fmt::Result
        ensures writes { DisplaysOnOk W.write_str_gives f.old result None f.new }
        ensures styled { DisplaysStyledOnOk W.write_str_gives f.old result None f.new }
        ensures told { IfOk result (λ _. WithViewText self.now
            (λ text. DisplaysOnOk W.write_str_gives f.old result (Some text) f.new)) }
    {
        match text_of(self)? {
            Some(text) => f.write_str(&text),
            None => f.write_str(""),
        }
    }
}

impl<'a> MarkerTreeView<'a> {
    ghost use Rattle.std.specs.declared.cmp.Ordering.TheVariants.{Equal};
    ghost use Rattle.marker_view.specs.View.{view_cmp, MeanTheSame};

    // The order of two views.
    fn order(&self, other: &Self) -> Ordering
        ensures order { result ≡ view_cmp self.now other.now }
        ensures same { result ≡ Equal → MeanTheSame self.now other.now }
        ensures equal { MeanTheSame self.now other.now → result ≡ Equal }
    {
        let table = self.interner.table();
        let other_table = other.interner.table();
        diagram_order(table, self.tree.id(), other_table, other.tree.id())
    }
}
