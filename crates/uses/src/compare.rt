//! Markers are joined, negated and compared.

use anyhow::Result;
use pep508_rs::{Interner, MarkerText, MarkerTree, VerbatimUrl};

// Markers of one interner, which are equal where they mean the same.
fn compare(rt: &HostRuntime, interner: &mut Interner) -> Result<()> {
    let new = MarkerTree::parse_str::<VerbatimUrl>("python_version >= '3.8'", interner)?;
    let old = MarkerTree::parse_str::<VerbatimUrl>("python_version < '3.8'", interner)?;
    println!(rt; "the negation: {}", old == new.negate())?;
    println!(rt; "disjoint: {}", old.is_disjoint(interner, new))?;
    Ok(())
}

// Markers of one interner, joined.
fn join(rt: &HostRuntime, interner: &mut Interner) -> Result<()> {
    let new = MarkerTree::parse_str::<VerbatimUrl>("python_version >= '3.8'", interner)?;
    let old = new.negate();
    let mut both = old;
    both.and(interner, new)?;
    let mut either = old;
    either.or(interner, new)?;
    println!(rt; "both: {}, either: {}", both.is_true(), either.is_true())?;
    Ok(())
}

// Markers of two interners, which are compared as views.
fn compare_views(rt: &HostRuntime, here: &mut Interner, there: &mut Interner) -> Result<()> {
    let left = MarkerTree::parse_str::<VerbatimUrl>("os_name == 'nt'", here)?;
    let right = MarkerTree::parse_str::<VerbatimUrl>("'nt' == os_name", there)?;
    println!(rt; "equal: {}", left.view(here) == right.view(there))?;
    Ok(())
}

// The same interner for markers of one, and for one of two.
fn in_interner(rt: &HostRuntime, interner: &mut Interner) -> Result<()> {
    compare(rt, interner)?;
    join(rt, interner)?;
    let mut there = Interner::new(rt.alloc());
    compare_views(rt, interner, &mut there)
}

pub fn run(rt: &HostRuntime) -> Result<()> {
    let mut interner = Interner::new(rt.alloc());
    in_interner(rt, &mut interner)
}
