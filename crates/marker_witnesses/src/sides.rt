//! Environments that show how two markers relate.

ghost use Rattle.std.specs.Prelude.{◌≡◌, ◌&&◌, ◌++◌, IfOk, OnOk, string_bytes};
ghost use Rattle.std.specs.Option.{option_to_list};
ghost use Rattle.marker_environment.specs.Valuation.{Valuation};
ghost use Rattle.marker_graph.specs.Contents.{IsHeld, IsKept, truth};
ghost use Rattle.marker_witnesses.specs.Text.{example_text};
ghost use Rattle.marker_witnesses.specs.Sides.{Shows, ShowsEach, line_text, lines_text, or_any, side_name, side_truth, sides_of};

use crate::example::Example;
use crate::step::Step;
use crate::witness::{Witness, witness_of};
use marker_graph::{Interner, MarkerRelation, MarkerTree};
use std::alloc::{AllocError, Global};
use std::fmt::Write;

/// Which of two markers an environment satisfies.
#[derive(Clone, Copy, Debug, PartialEq, Eq)]
pub enum Side {
    Both,
    OnlyFirst,
    OnlySecond,
}

/// What is shown of a side.
#[derive(Debug, Drop)]
pub struct ShownWitness {
    pub side: Side,
    /// An environment and extras of the side, if one was found.
    pub example: Option<Example>,
    /// The example as a marker, or the values of the variables of which no example was found.
    pub text: String,
}

impl Side {
    /// Returns how a line of the side begins.
    pub fn name(self) -> &'static str
        ensures { result.now ≡ side_name self }
    {
        match self {
            Side::Both => "both",
            Side::OnlyFirst => "only first",
            Side::OnlySecond => "only second",
        }
    }

    /// Returns the marker that is true exactly in the environments of the side.
    pub fn marker(
        self,
        interner: &mut Interner,
        first: MarkerTree,
        second: MarkerTree,
    ) -> Result<MarkerTree, AllocError>
        requires first { IsHeld interner.old first }
        requires second { IsHeld interner.old second }
        ensures kept { IsKept interner.old interner.new }
        ensures held { IfOk result (IsHeld interner.new) }
        ensures means { IfOk result (λ t. (v : Valuation) → truth interner.new t v
            ≡ side_truth self (truth interner.old first) (truth interner.old second) v) }
    {
        match self {
            Side::Both => conjunction(interner, first, second),
            Side::OnlyFirst => conjunction(interner, first, second.negate()),
            Side::OnlySecond => conjunction(interner, second, first.negate()),
        }
    }
}

// The conjunction of two markers.
fn conjunction(
    interner: &mut Interner,
    one: MarkerTree,
    other: MarkerTree,
) -> Result<MarkerTree, AllocError>
    requires one { IsHeld interner.old one }
    requires other { IsHeld interner.old other }
    ensures kept { IsKept interner.old interner.new }
    ensures held { IfOk result (IsHeld interner.new) }
    ensures means { IfOk result (λ t. (v : Valuation) → truth interner.new t v
        ≡ (truth interner.old one v && truth interner.old other v)) }
{
    let mut both = one;
    both.and(interner, other)?;
    Ok(both)
}

static SIDES: [Side; 3] = [Side::Both, Side::OnlyFirst, Side::OnlySecond];

// The sides that a relation shows.
fn sides_of(relation: MarkerRelation) -> &'static [Side]
    ensures { result.now ≡ sides_of relation }
{
    match relation {
        MarkerRelation::Equal => &SIDES[..1],
        MarkerRelation::Disjoint => &SIDES[1..],
        MarkerRelation::FirstImpliesSecond => &SIDES[2..],
        MarkerRelation::SecondImpliesFirst => &SIDES[1..2],
        MarkerRelation::Overlapping => &SIDES,
    }
}

// The example as a marker.
fn example_text(alloc: Global, example: &Example) -> Result<String, AllocError>
    ensures { IfOk result (λ text. string_bytes text ≡ or_any (example_text example.now)) }
{
    let text = example.marker_text(alloc)?;
    if text.is_empty() {
        return String::from_str(alloc, "any environment");
    }
    Ok(text)
}

// The values of the variables, where no environment was found.
fn path_text(alloc: Global, path: &[Step<'_>]) -> Result<String, AllocError> {
    let mut text = String::from_str(alloc, "no environment was found")?;
    let mut separator = " with ";
    for step in path {
        let values = step.label(alloc)?;
        write!(text, "{separator}{values}")?;
        separator = ", ";
    }
    Ok(text)
}

// What is shown of a side, or `None` if no valuation is on it.
fn shown_of(
    side: Side,
    interner: &mut Interner,
    first: MarkerTree,
    second: MarkerTree,
) -> Result<Option<ShownWitness>, AllocError>
    requires first { IsHeld interner.old first }
    requires second { IsHeld interner.old second }
    ensures kept { IsKept interner.old interner.new }
    ensures told { IfOk result
        (Shows (truth interner.old first) (truth interner.old second) side) }
{
    let alloc = interner.allocator();
    let wanted = side.marker(interner, first, second)?;
    match witness_of(interner, wanted)? {
        None => Ok(None),
        Some(Witness::Example(example)) => {
            let text = example_text(alloc, &example)?;
            Ok(Some(ShownWitness {
                side,
                example: Some(example),
                text,
            }))
        }
        Some(Witness::Path(path)) => Ok(Some(ShownWitness {
            side,
            example: None,
            text: path_text(alloc, &path)?,
        })),
    }
}

// Adds what is shown of a side, if anything.
fn add_shown(shown: &mut Vec<ShownWitness>, found: Option<ShownWitness>) -> Result<(), AllocError>
    ensures { OnOk result (shown.new.items ≡ shown.old.items ++ option_to_list found) }
{
    if let Some(witness) = found {
        shown.push(witness)?;
    }
    Ok(())
}

/// Returns what shows that two markers relate so: an environment of each side that the relation is
/// about, if there is one.
pub fn witnesses(
    interner: &mut Interner,
    first: MarkerTree,
    second: MarkerTree,
    relation: MarkerRelation,
) -> Result<Vec<ShownWitness>, AllocError>
    requires first { IsHeld interner.old first }
    requires second { IsHeld interner.old second }
    ensures kept { IsKept interner.old interner.new }
    ensures shown { IfOk result (λ shown. ShowsEach (truth interner.old first)
        (truth interner.old second) (sides_of relation) shown.items) }
{
    let mut shown = Vec::new(interner.allocator());
    for side in sides_of(relation) {
        let found = shown_of(*side, interner, first, second)?;
        add_shown(&mut shown, found)?;
    }
    Ok(shown)
}

// Appends the line of a witness.
fn add_line(lines: &mut String, witness: &ShownWitness) -> Result<(), AllocError>
    ensures { OnOk result (string_bytes lines.new
        ≡ string_bytes lines.old ++ line_text witness.now) }
{
    lines.push_str(witness.side.name())?;
    lines.push_str(": ")?;
    lines.push_str(witness.text.as_str())?;
    lines.push_str("\n")
}

/// Returns the lines of witnesses.
pub fn witness_lines(alloc: Global, shown: &[ShownWitness]) -> Result<String, AllocError>
    ensures { IfOk result (λ lines. string_bytes lines ≡ lines_text shown.now) }
{
    let mut lines = String::new(alloc);
    for witness in shown {
        add_line(&mut lines, witness)?;
    }
    Ok(lines)
}
