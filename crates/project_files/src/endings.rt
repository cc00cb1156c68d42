//! Which groups end, and which include themselves.

ghost use Rattle.std.specs.Prelude.{◌≡◌, ◌<◌, ◌&&◌, ◌||◌, ℕ, not, false, vec_len, IfOk};
ghost use Rattle.project_files.specs.Links as spec;
ghost use Rattle.project_files.specs.Links.{flag, AreBelow, Ended, Settled, SettlesAt, Waits};

use crate::includes::Link;
use std::alloc::{AllocError, Global};

// Flags for places.
type Flags = Vec<bool>;

// So many flags, none of them set.
fn no_flags(alloc: Global, count: usize) -> Result<Flags, AllocError>
    ensures count { IfOk result (λ flags. vec_len flags ≡ count) }
    ensures unset { IfOk result (λ flags. (p : ℕ) → flag flags.items p ≡ false) }
{
    vec![in alloc; false; count]
}

// Sets the flag of a place, if there is a reason to.
fn flag_if(flags: &mut Flags, place: usize, reason: bool)
    requires { place < vec_len flags.old }
    ensures { flags.new.items ≡ spec.flag_if reason flags.old.items place }
{
    if reason {
        flags[place] = true;
    }
}

// Which groups include one that is not known to end.
fn waiting(alloc: Global, links: &[Link], ended: &Flags) -> Result<Flags, AllocError>
    requires { AreBelow links.now (vec_len ended.now) }
    ensures { IfOk result (λ waits. Waits links.now ended.now.items waits.items) }
{
    let mut waits = no_flags(alloc, ended.len())?;
    for link in links {
        flag_if(&mut waits, link.from, !ended[link.to]);
    }
    Ok(waits)
}

fn settles(ended: bool, waits: bool) -> bool
    ensures { result ≡ (not ended && not waits) }
{
    !ended && !waits
}

// Sets the flag of a group that waits for none. Returns whether a flag was set, here or before.
fn settle_at(ended: &mut Flags, place: usize, waits: bool, changed: bool) -> bool
    requires { place < vec_len ended.old }
    ensures ended { SettlesAt place waits ended.old.items ended.new.items }
    ensures changed { result ≡ (spec.settles ended.old.items place waits || changed) }
{
    let is_settled = settles(ended[place], waits);
    flag_if(ended, place, is_settled);
    is_settled || changed
}

// Sets the flags of the groups that wait for none. Returns whether there was one without a flag.
fn settle(ended: &mut Flags, waits: &Flags) -> bool
    requires { vec_len waits.now ≡ vec_len ended.old }
    ensures { Settled ended.old.items ended.new.items waits.now.items
        (vec_len ended.old) result }
{
    let mut changed = false;
    for place in 0..ended.len() {
        changed = settle_at(ended, place, waits[place], changed);
    }
    changed
}

// Which of `count` groups end. A group ends once all that it includes do.
pub(crate) fn ended_of(alloc: Global, links: &[Link], count: usize) -> Result<Flags, AllocError>
    requires { AreBelow links.now count }
    ensures { IfOk result (λ ended. Ended links.now count ended.items) }
{
    let mut ended = no_flags(alloc, count)?;
    loop {
        let waits = waiting(alloc, links, &ended)?;
        if !settle(&mut ended, &waits) {
            return Ok(ended);
        }
    }
}
