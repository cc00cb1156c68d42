//! Requirements of one name, whose markers may be true together.

use indexmap::IndexSet;
use marker_graph::{Interner, MarkerTree};
use pep508_errors::Surroundings;
use pep508_requirements::Requirement;
use pep508_urls::VerbatimUrl;
use refusal::Refusal;
use std::alloc::{AllocError, Global};
use std::collections::BTreeMap;

// After so many requirements of a name, the earlier ones are not distinguished.
const NAMED: usize = 64;

// An earlier requirement.
#[derive(Drop)]
struct Member {
    // The number of its line.
    number: usize,
    // Its text in normal form, without its marker.
    text: String,
    marker: MarkerTree,
}

// Several requirements of a name. Those that are the same count once.
#[derive(Drop)]
struct Members {
    // The first of them.
    first: Vec<Member>,
    // The markers of those with a text.
    markers: BTreeMap<String, IndexSet<MarkerTree>>,
    // True where the marker of one of them is.
    any: MarkerTree,
    // True where the markers of two of them are.
    two: MarkerTree,
}

// The requirements of a name.
#[derive(Drop)]
enum Group {
    // One: the number of its line, and its text. It is read again when another one comes.
    One(usize, String),
    Several(Members),
}

// A requirement whose marker may be true together with that of an earlier one.
#[derive(Clone, Copy)]
pub(crate) struct Repeat {
    // The number of the earlier one's line, unless there were too many.
    pub(crate) earlier: Option<usize>,
}

// What is remembered of the requirements so far.
#[derive(Drop)]
pub(crate) struct Earlier {
    interner: Interner,
    groups: BTreeMap<String, Group>,
    // How many visits of pairs of nodes two markers may take.
    looks: usize,
}

// Whether the markers may be true together, as far as so many visits show.
fn may_meet(interner: &Interner, a: MarkerTree, b: MarkerTree, looks: usize) -> bool {
    interner.holds(&a)
        && interner.holds(&b)
        && a.is_disjoint_within(interner, b, looks) == Some(false)
}

// The text of a requirement in normal form, without its marker.
fn bare_text(
    mut requirement: Requirement<VerbatimUrl>,
    interner: &Interner,
) -> Result<String, AllocError> {
    requirement.marker = MarkerTree::TRUE;
    requirement.try_to_string(interner)
}

// The requirement of this text, if the interner has room for its marker.
fn member_of(
    interner: &mut Interner,
    surroundings: &Surroundings<'_>,
    number: usize,
    text: &str,
) -> Result<Option<Member>, AllocError> {
    match Requirement::<VerbatimUrl>::parse(text, surroundings, interner) {
        Ok(requirement) => {
            let marker = requirement.marker;
            let text = bare_text(requirement, interner)?;
            Ok(Some(Member {
                number,
                text,
                marker,
            }))
        }
        Err(Refusal::OutOfMemory) if !interner.has_met_room() => Err(AllocError),
        Err(_) => Ok(None),
    }
}

// Makes a marker true where the other is too, if the interner has room for that.
fn widen(
    interner: &mut Interner,
    any: &mut MarkerTree,
    other: MarkerTree,
) -> Result<(), AllocError> {
    if !interner.holds(any) || !interner.holds(&other) {
        return Ok(());
    }
    match any.or(interner, other) {
        Err(error) if !interner.has_met_room() => Err(error),
        _ => Ok(()),
    }
}

// Where both markers are true, if the interner has room for that.
fn overlap(
    interner: &mut Interner,
    a: MarkerTree,
    b: MarkerTree,
) -> Result<MarkerTree, AllocError> {
    if !interner.holds(&a) || !interner.holds(&b) {
        return Ok(MarkerTree::FALSE);
    }
    let mut both = a;
    match both.and(interner, b) {
        Ok(()) => Ok(both),
        Err(error) if !interner.has_met_room() => Err(error),
        Err(_) => Ok(MarkerTree::FALSE),
    }
}

impl Member {
    fn is_same(&self, other: &Member) -> bool {
        self.marker == other.marker && self.text.as_str() == other.text.as_str()
    }
}

// The set of this marker alone.
fn only(alloc: Global, marker: MarkerTree) -> Result<IndexSet<MarkerTree>, AllocError> {
    let mut markers = IndexSet::new(alloc);
    markers.insert(marker)?;
    Ok(markers)
}

impl Members {
    fn new(alloc: Global) -> Members {
        Members {
            first: Vec::new(alloc),
            markers: BTreeMap::new(alloc),
            any: MarkerTree::FALSE,
            two: MarkerTree::FALSE,
        }
    }

    // Whether the same requirement is among them.
    fn has(&self, new: &Member) -> bool {
        match self.markers.get(new.text.as_str()) {
            Some(markers) => markers.contains(&new.marker),
            None => false,
        }
    }

    // The earlier requirement that a new one may hold together with; not one that is the same.
    fn repeat_of(&self, interner: &Interner, looks: usize, new: &Member) -> Option<Repeat> {
        let others = if self.has(new) { self.two } else { self.any };
        if !may_meet(interner, others, new.marker, looks) {
            return None;
        }
        for index in 0..self.first.len() {
            let member = &self.first[index];
            if !member.is_same(new) && may_meet(interner, member.marker, new.marker, looks) {
                return Some(Repeat {
                    earlier: Some(member.number),
                });
            }
        }
        Some(Repeat { earlier: None })
    }

    // Notes the text and the marker of a requirement.
    fn note(&mut self, alloc: Global, new: &Member) -> Result<(), AllocError> {
        if let Some(markers) = self.markers.get_mut(new.text.as_str()) {
            markers.insert(new.marker)?;
            return Ok(());
        }
        let text = new.text.clone()?;
        self.markers.insert(text, only(alloc, new.marker)?)?;
        Ok(())
    }

    // Remembers a requirement, if the same one is not among them.
    fn keep(
        &mut self,
        alloc: Global,
        interner: &mut Interner,
        looks: usize,
        new: Member,
    ) -> Result<(), AllocError> {
        if self.has(&new) {
            return Ok(());
        }
        self.note(alloc, &new)?;
        if may_meet(interner, self.any, new.marker, looks) {
            let both = overlap(interner, self.any, new.marker)?;
            widen(interner, &mut self.two, both)?;
        }
        widen(interner, &mut self.any, new.marker)?;
        if self.first.len() < NAMED {
            self.first.push(new)?;
        }
        Ok(())
    }
}

impl Group {
    // Parses the first requirement, unless that was done before or the interner has no room for its
    // marker.
    fn read_first(
        &mut self,
        alloc: Global,
        interner: &mut Interner,
        surroundings: &Surroundings<'_>,
        looks: usize,
    ) -> Result<(), AllocError> {
        if let Group::One(number, text) = self {
            if let Some(one) = member_of(interner, surroundings, *number, text.as_str())? {
                let mut members = Members::new(alloc);
                members.keep(alloc, interner, looks, one)?;
                *self = Group::Several(members);
            }
        }
        Ok(())
    }

    // Adds a further requirement. Returns an earlier one that may hold together with it, and `None`
    // too if there is no room for the markers.
    fn join(
        &mut self,
        alloc: Global,
        interner: &mut Interner,
        surroundings: &Surroundings<'_>,
        looks: usize,
        number: usize,
        text: &str,
    ) -> Result<Option<Repeat>, AllocError> {
        self.read_first(alloc, interner, surroundings, looks)?;
        let Group::Several(members) = self else {
            return Ok(None);
        };
        let Some(new) = member_of(interner, surroundings, number, text)? else {
            return Ok(None);
        };
        let repeat = members.repeat_of(interner, looks, &new);
        members.keep(alloc, interner, looks, new)?;
        Ok(repeat)
    }
}

impl Earlier {
    // Returns no requirements. `room` is how many pieces the nodes of all markers may have.
    pub(crate) fn new(alloc: Global, key: [u64; 2], room: usize) -> Earlier {
        Earlier {
            interner: Interner::with_key_and_room(alloc, key, room),
            groups: BTreeMap::new(alloc),
            looks: room,
        }
    }

    // Keeps a requirement with this name and text. Returns an earlier one that may hold together
    // with it, and `None` too once there was no room for the marker of one.
    pub(crate) fn meet(
        &mut self,
        alloc: Global,
        surroundings: &Surroundings<'_>,
        name: &str,
        text: &str,
        number: usize,
    ) -> Result<Option<Repeat>, AllocError> {
        if self.interner.has_met_room() {
            return Ok(None);
        }
        if let Some(group) = self.groups.get_mut(name) {
            let interner = &mut self.interner;
            return group.join(alloc, interner, surroundings, self.looks, number, text);
        }
        let key = String::from_str(alloc, name)?;
        let text = String::from_str(alloc, text)?;
        self.groups.insert(key, Group::One(number, text))?;
        Ok(None)
    }
}
