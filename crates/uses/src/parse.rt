//! Markers are parsed, with warnings, and with an error for an invalid one.

use anyhow::Result;
use pep508_rs::{Interner, MarkerText, MarkerTree, Refusal, VerbatimUrl};
use std::alloc::Global;

// Whether a marker is true everywhere, in an interner of its own.
fn is_true_everywhere(alloc: Global, text: &str) -> Result<bool> {
    let mut interner = Interner::new(alloc);
    let marker = MarkerTree::parse_str::<VerbatimUrl>(text, &mut interner)?;
    Ok(marker.is_true())
}

// A marker with a warning, which has a kind and a text.
fn parse_with_warnings(rt: &HostRuntime, interner: &mut Interner) -> Result<()> {
    let mut warnings = Vec::new(rt.alloc());
    let text = "'posix' == 'nt'";
    let marker = MarkerTree::parse_reporter::<VerbatimUrl, _>(text, &mut warnings, interner)?;
    println!(rt; "true everywhere: {}", marker.is_true())?;
    for (kind, warning) in &warnings {
        println!(rt; "{kind:?}: {warning}")?;
    }
    Ok(())
}

// An invalid marker.
fn parse_invalid(rt: &HostRuntime, interner: &mut Interner) -> Result<()> {
    match MarkerTree::parse_str::<VerbatimUrl>("os_name = 'nt'", interner) {
        Ok(_marker) => println!(rt; "a marker")?,
        Err(Refusal::Fault(error)) => println!(rt; "at byte {}: {}", error.start, error.message)?,
        Err(refusal) => println!(rt; "{refusal}")?,
    }
    Ok(())
}

pub fn run(rt: &HostRuntime) -> Result<()> {
    let alloc = rt.alloc();
    let is_true = is_true_everywhere(alloc, "os_name == 'nt' or os_name != 'nt'")?;
    println!(rt; "true everywhere: {is_true}")?;
    let mut interner = Interner::new(alloc);
    parse_with_warnings(rt, &mut interner)?;
    parse_invalid(rt, &mut interner)
}
