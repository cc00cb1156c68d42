//! How two markers relate.

ghost use Rattle.std.specs.Prelude.{◌≡◌, ◌≢◌, IfErr, IfOk};
ghost use Rattle.marker_graph.specs.declared.relation.MarkerRelation.{MarkerRelation};
ghost use Rattle.foreign_calls.specs.Relation.{AreRelated, IsRelationRefusal, code_of};

use crate::answer::Answer;
use crate::marker::parse_marker;
use crate::options::{Options, Settings, read_text};
use marker_graph::{Interner, MarkerRelation};
use std::alloc::Global;

/// The number of a relation.
pub fn relation_code(relation: MarkerRelation) -> i32
    ensures { result ≡ code_of relation }
{
    match relation {
        MarkerRelation::Equal => 0,
        MarkerRelation::Disjoint => 1,
        MarkerRelation::FirstImpliesSecond => 2,
        MarkerRelation::SecondImpliesFirst => 3,
        MarkerRelation::Overlapping => 4,
    }
}

// The relation of two markers.
#[tactic(auto, using(crate::proofs::RelationLaws::related))]
fn relation_in(
    first: &str,
    second: &str,
    looks: usize,
    interner: &mut Interner,
) -> Result<MarkerRelation, Answer>
    ensures related { IfOk result (AreRelated first.now second.now) }
    ensures refused { IfErr result (IsRelationRefusal first.now second.now) }
{
    let one = match parse_marker(first, interner) {
        Ok(tree) => tree,
        Err(answer) => return Err(answer),
    };
    let other = match parse_marker(second, interner) {
        Ok(tree) => tree,
        Err(answer) => return Err(answer),
    };
    match MarkerRelation::of(interner, one, other, looks) {
        Some(relation) => Ok(relation),
        None => Err(Answer::TooComplex),
    }
}

// The relation of two markers of these bytes.
fn relation_of(
    alloc: Global,
    first: &[u8],
    second: &[u8],
    options: &[Options<'_>],
) -> Result<MarkerRelation, Answer>
    ensures related { IfOk result (AreRelated first.now second.now) }
    ensures refused { IfErr result (IsRelationRefusal first.now second.now) }
{
    let settings = Settings::of(options)?;
    let first = read_text(first)?;
    let second = read_text(second)?;
    let mut interner = settings.interner(alloc);
    relation_in(first, second, settings.looks, &mut interner)
}

/// Writes the relation of two markers: the first that holds of equal, disjoint, the first implies
/// the second, the second implies the first, and overlapping.
pub fn compare_markers(
    alloc: Global,
    first: &[u8],
    second: &[u8],
    options: &[Options<'_>],
    relation: &mut i32,
) -> Answer
    ensures done { result ≡ Answer.Done → (found : MarkerRelation) × AreRelated first.now second.now
        found × (relation.new ≡ code_of found) }
    ensures refused { result ≢ Answer.Done → IsRelationRefusal first.now second.now result }
    ensures kept { result ≢ Answer.Done → relation.new ≡ relation.old }
{
    match relation_of(alloc, first, second, options) {
        Ok(found) => {
            *relation = relation_code(found);
            Answer::Done
        }
        Err(answer) => answer,
    }
}
