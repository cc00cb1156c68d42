//! The order of two markers that have an interner each, and so are compared as views.

ghost use Rattle.std.specs.Prelude.{IfOk};
ghost use Rattle.marker_graph.specs.Contents.{IsHeld};

use line_server::ServeFault;
use marker_graph::{Interner, MarkerTree};
use pep508_markers::MarkerText;
use pep508_urls::VerbatimUrl;
use refusal::Refusal;
use std::cmp::Ordering;
use std::io;

fn parse(text: &str, interner: &mut Interner) -> Result<MarkerTree, ServeFault>
    ensures { IfOk result (IsHeld interner.new) }
{
    match MarkerTree::parse_str::<VerbatimUrl>(text, interner) {
        Ok(tree) => Ok(tree),
        Err(Refusal::OutOfMemory) => Err(ServeFault::Memory),
        Err(_) => Err(ServeFault::Input),
    }
}

// The order of two markers that are parsed by two interners.
fn order_of(
    left: &str,
    right: &str,
    here: &mut Interner,
    there: &mut Interner,
) -> Result<Ordering, ServeFault> {
    let left = parse(left, here)?;
    let right = parse(right, there)?;
    Ok(left.view(here).cmp(&right.view(there)))
}

fn name_of(order: Ordering) -> &'static str {
    match order {
        Ordering::Less => "less",
        Ordering::Equal => "equal",
        Ordering::Greater => "greater",
    }
}

// Prints the order of two markers.
fn tell(rt: &HostRuntime, left: &str, right: &str) -> Result<(), ServeFault> {
    let mut here = Interner::new(rt.alloc());
    let mut there = Interner::new(rt.alloc());
    let order = name_of(order_of(left, right, &mut here, &mut there)?);
    println!(rt; "{order}").map_err(|_| ServeFault::Output)
}

// The fault of a failed read.
fn unread(error: &io::Error) -> ServeFault {
    match error.kind() {
        io::ErrorKind::OutOfMemory => ServeFault::Memory,
        _ => ServeFault::Input,
    }
}

/// Reads markers, two lines at a time, and prints the order of each two. An invalid marker
/// counts as failed input.
pub fn serve(rt: &HostRuntime) -> Result<(), ServeFault> {
    let mut lines = rt.lines(rt.alloc());
    while let Some(left) = lines.next() {
        let Some(right) = lines.next() else {
            return Ok(());
        };
        match (left, right) {
            (Ok(left), Ok(right)) => tell(rt, left.as_str(), right.as_str())?,
            (Err(error), _) | (_, Err(error)) => return Err(unread(&error)),
        }
    }
    Ok(())
}
