//! Markers are printed, and taken apart into clauses.

use anyhow::Result;
use pep508_rs::{Interner, MarkerText, MarkerTree, VerbatimUrl};

const TEXT: &str = "'nt' == os.name and (extra == 'Dev' or python_version >= '3.8')";

// A marker and its negation as texts.
fn print(rt: &HostRuntime, interner: &mut Interner) -> Result<()> {
    let marker = MarkerTree::parse_str::<VerbatimUrl>(TEXT, interner)?;
    if let Some(text) = marker.try_to_string(interner)? {
        println!(rt; "{text}")?;
    }
    println!(rt; "{}", marker.negate().view(interner))?;
    Ok(())
}

// A marker as a disjunction of conjunctions.
fn list_clauses(rt: &HostRuntime, interner: &mut Interner) -> Result<()> {
    let marker = MarkerTree::parse_str::<VerbatimUrl>(TEXT, interner)?;
    let clauses = marker.to_dnf(interner)?;
    let first = clauses.first().map_or(0, |clause| clause.len());
    println!(rt;
        "clauses: {}, comparisons of the first: {first}",
        clauses.len()
    )?;
    Ok(())
}

// The marker that says nothing.
fn print_true(rt: &HostRuntime, interner: &Interner) -> Result<()> {
    if MarkerTree::TRUE.try_to_string(interner)?.is_none() {
        println!(rt; "no text of what is true everywhere")?;
    }
    Ok(())
}

fn in_interner(rt: &HostRuntime, interner: &mut Interner) -> Result<()> {
    print(rt, interner)?;
    list_clauses(rt, interner)?;
    print_true(rt, interner)
}

pub fn run(rt: &HostRuntime) -> Result<()> {
    let mut interner = Interner::new(rt.alloc());
    in_interner(rt, &mut interner)
}
