//! Paths to true in a decision diagram.

ghost use Rattle.std.specs.Prelude.{IfOk};
ghost use Rattle.marker_graph.specs.Contents.{IsHeld};
ghost use Rattle.marker_witnesses.specs.Choice.{Chooses, GoesOn, PicksAnswer, PicksContains, PicksExtra, PicksIn, PicksText, PicksVersion};
ghost use Rattle.marker_witnesses.specs.Path.{IsPathOf};

use crate::choice::{Choice, Preference, Walk};
use crate::step::{Step, TextStep, VersionStep};
use marker_graph::{
    ContainsMarkerTree, ExtraMarkerTree, InMarkerTree, Interner, MarkerTree, MarkerTreeKind,
    StringMarkerTree, VersionMarkerTree,
};
use std::alloc::AllocError;

impl<'i> Walk<'_, 'i> {
    // The better one of an edge that was chosen and the next one. An edge to `FALSE` is not chosen.
    fn choose(
        &self,
        chosen: Option<Choice<'i>>,
        step: Step<'i>,
        subtree: MarkerTree,
    ) -> Result<Option<Choice<'i>>, AllocError>
        ensures { IfOk result (Chooses chosen.entry step.entry subtree) }
    {
        if subtree.is_false() {
            return Ok(chosen);
        }
        let rank = self.rank(step)?;
        let next = Choice {
            step,
            subtree,
            rank,
        };
        Ok(Some(self.preference.better(chosen, next)))
    }

    // The edge that the path follows from a node that branches on a version.
    fn version_choice(&self, view: VersionMarkerTree<'i>) -> Result<Option<Choice<'i>>, AllocError>
        ensures { IfOk result (PicksVersion view.entry) }
    {
        let mut chosen = None;
        for edge in view.edges() {
            let (lower, upper, subtree) = edge;
            let step = Step::Version(VersionStep {
                variable: view.variable(),
                lower,
                upper,
            });
            let next = self.choose(chosen, step, subtree)?;
            chosen = next;
        }
        Ok(chosen)
    }

    // The edge that the path follows from a node that branches on a text.
    fn text_choice(&self, view: StringMarkerTree<'i>) -> Result<Option<Choice<'i>>, AllocError>
        ensures { IfOk result (PicksText view.entry) }
    {
        let mut chosen = None;
        for edge in view.children() {
            let (lower, upper, subtree) = edge;
            let step = Step::Text(TextStep {
                variable: view.variable(),
                lower,
                upper,
            });
            let next = self.choose(chosen, step, subtree)?;
            chosen = next;
        }
        Ok(chosen)
    }

    // The edge that the path follows from a node that branches on a substring test or an extra: of
    // two that are equally good, the one for false.
    fn answer_choice(
        &self,
        denied: Step<'i>,
        low: MarkerTree,
        confirmed: Step<'i>,
        high: MarkerTree,
    ) -> Result<Option<Choice<'i>>, AllocError>
        ensures { IfOk result (PicksAnswer denied.entry low confirmed.entry high) }
    {
        let first = self.choose(None, denied, low)?;
        let found = self.choose(first, confirmed, high)?;
        Ok(found)
    }

    // The edge that the path follows from a node that branches on `key in 'text'`.
    fn in_choice(&self, view: InMarkerTree<'i>) -> Result<Option<Choice<'i>>, AllocError>
        ensures { IfOk result (PicksIn view.entry) }
    {
        let low = view.edge(false);
        let high = view.edge(true);
        self.answer_choice(Step::In(view, false), low, Step::In(view, true), high)
    }

    // The edge that the path follows from a node that branches on `'text' in key`.
    fn contains_choice(
        &self,
        view: ContainsMarkerTree<'i>,
    ) -> Result<Option<Choice<'i>>, AllocError>
        ensures { IfOk result (PicksContains view.entry) }
    {
        let low = view.edge(false);
        let high = view.edge(true);
        self.answer_choice(
            Step::Contains(view, false),
            low,
            Step::Contains(view, true),
            high,
        )
    }

    // The edge that the path follows from a node that branches on an extra.
    fn extra_choice(&self, view: ExtraMarkerTree<'i>) -> Result<Option<Choice<'i>>, AllocError>
        ensures { IfOk result (PicksExtra view.entry) }
    {
        let low = view.edge(false);
        let high = view.edge(true);
        self.answer_choice(Step::Extra(view, false), low, Step::Extra(view, true), high)
    }

    // The edge that the path follows from a marker, or `None` at a constant.
    fn choice(
        &self,
        interner: &'i Interner,
        tree: MarkerTree,
    ) -> Result<Option<Choice<'i>>, AllocError>
        requires { IsHeld interner.now tree }
        ensures { IfOk result (GoesOn interner.now tree) }
    {
        match tree.kind(interner) {
            MarkerTreeKind::True => Ok(None),
            MarkerTreeKind::False => Ok(None),
            MarkerTreeKind::Version(view) => self.version_choice(view),
            MarkerTreeKind::String(view) => self.text_choice(view),
            MarkerTreeKind::In(view) => self.in_choice(view),
            MarkerTreeKind::Contains(view) => self.contains_choice(view),
            MarkerTreeKind::Extra(view) => self.extra_choice(view),
        }
    }
}

// The edge that a path follows from a marker, or `None` at a constant.
fn next_choice<'i>(
    interner: &'i Interner,
    tree: MarkerTree,
    path: &[Step<'i>],
    preference: Preference,
) -> Result<Option<Choice<'i>>, AllocError>
    requires { IsHeld interner.now tree }
    ensures { IfOk result (GoesOn interner.now tree) }
{
    let walk = Walk {
        alloc: interner.allocator(),
        path,
        preference,
    };
    walk.choice(interner, tree)
}

/// Returns the steps of a path to `TRUE`: each valuation with which all of them go on satisfies the
/// marker. Returns `None` if the marker is `FALSE`.
///
/// Each node but `FALSE` reaches `TRUE`, so the walk never turns back. It prefers edges for which
/// it finds a value.
pub fn path_to_true<'i>(
    interner: &'i Interner,
    tree: MarkerTree,
    preference: Preference,
) -> Result<Option<Vec<Step<'i>>>, AllocError>
    requires { IsHeld interner.now tree }
    ensures { IfOk result (IsPathOf interner.now tree) }
{
    if tree.is_false() {
        return Ok(None);
    }
    let mut path = Vec::new(interner.allocator());
    let mut at = tree;
    while let Some(choice) = next_choice(interner, at, &path, preference)? {
        path.push(choice.step)?;
        at = choice.subtree;
    }
    Ok(Some(path))
}
