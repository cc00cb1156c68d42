//! A marker is drawn as the decision diagram that it is.

use anyhow::Result;
use pep508_rs::{
    BooleanEdges, ExtraMarkerTree, Interner, MarkerText, MarkerTree, MarkerTreeKind,
    MarkerValueExtraRef, StringMarkerTree, VerbatimUrl, VersionMarkerTree,
};
use std::fmt::Display;
use std::ops::Bound;

const TEXT: &str = "python_version >= '3.8' and (os_name == 'nt' or extra == 'dev')";

// Prints where an edge leads. A node that is new gets the next number.
fn show_target(rt: &HostRuntime, nodes: &mut Vec<MarkerTree>, target: MarkerTree) -> Result<()> {
    if target.is_true() {
        println!(rt; "true")?;
    } else if target.is_false() {
        println!(rt; "false")?;
    } else if let Some(number) = nodes.iter().position(|node| *node == target) {
        println!(rt; "node {number}")?;
    } else {
        println!(rt; "node {}", nodes.len())?;
        nodes.push(target)?;
    }
    Ok(())
}

// Prints the values of an edge.
fn show_values<T: Display + PartialEq>(
    rt: &HostRuntime,
    lower: Bound<&T>,
    upper: Bound<&T>,
) -> Result<()> {
    match (lower, upper) {
        (Bound::Included(first), Bound::Included(last)) if *first == *last => {
            return Ok(print!(rt; "  == {first}: ")?);
        }
        (Bound::Included(value), _) => print!(rt; "  >= {value}")?,
        (Bound::Excluded(value), _) => print!(rt; "  > {value}")?,
        (Bound::Unbounded, _) => {}
    }
    match upper {
        Bound::Included(value) => print!(rt; "  <= {value}")?,
        Bound::Excluded(value) => print!(rt; "  < {value}")?,
        Bound::Unbounded => {}
    }
    Ok(print!(rt; ": ")?)
}

fn show_versions(
    rt: &HostRuntime,
    nodes: &mut Vec<MarkerTree>,
    node: VersionMarkerTree<'_>,
) -> Result<()> {
    println!(rt; "{}", node.key())?;
    for (lower, upper, target) in node.edges() {
        show_values(rt, lower, upper)?;
        show_target(rt, nodes, target)?;
    }
    Ok(())
}

fn show_texts(
    rt: &HostRuntime,
    nodes: &mut Vec<MarkerTree>,
    node: StringMarkerTree<'_>,
) -> Result<()> {
    println!(rt; "{}", node.key())?;
    for (lower, upper, target) in node.children() {
        show_values(rt, lower, upper)?;
        show_target(rt, nodes, target)?;
    }
    Ok(())
}

fn show_edges(rt: &HostRuntime, nodes: &mut Vec<MarkerTree>, edges: BooleanEdges) -> Result<()> {
    for (answer, target) in edges {
        print!(rt; "  {}: ", if answer { "yes" } else { "no" })?;
        show_target(rt, nodes, target)?;
    }
    Ok(())
}

fn show_extra(
    rt: &HostRuntime,
    nodes: &mut Vec<MarkerTree>,
    node: ExtraMarkerTree<'_>,
) -> Result<()> {
    match node.name() {
        MarkerValueExtraRef::Extra(name) => println!(rt; "extra == {name}")?,
        MarkerValueExtraRef::Arbitrary(text) => println!(rt; "extra == {text}")?,
    }
    show_edges(rt, nodes, node.children())
}

// Prints what a node branches on, and its edges.
fn show_node(
    rt: &HostRuntime,
    nodes: &mut Vec<MarkerTree>,
    kind: MarkerTreeKind<'_>,
) -> Result<()> {
    match kind {
        MarkerTreeKind::True => println!(rt; "nothing: it is true")?,
        MarkerTreeKind::False => println!(rt; "nothing: it is false")?,
        MarkerTreeKind::Version(node) => show_versions(rt, nodes, node)?,
        MarkerTreeKind::String(node) => show_texts(rt, nodes, node)?,
        MarkerTreeKind::Extra(node) => show_extra(rt, nodes, node)?,
        MarkerTreeKind::In(node) => {
            println!(rt; "{} in {}", node.key(), node.value())?;
            show_edges(rt, nodes, node.children())?;
        }
        MarkerTreeKind::Contains(node) => {
            println!(rt; "{} in {}", node.value(), node.key())?;
            show_edges(rt, nodes, node.children())?;
        }
    }
    Ok(())
}

// Draws the nodes of a marker, each once.
fn draw(rt: &HostRuntime, interner: &Interner, nodes: &mut Vec<MarkerTree>) -> Result<()> {
    for number in 0..usize::MAX {
        let Some(node) = nodes.get(number).copied() else {
            break;
        };
        if !interner.holds(&node) {
            break;
        }
        print!(rt; "node {number} branches on ")?;
        show_node(rt, nodes, node.kind(interner))?;
    }
    Ok(())
}

fn in_interner(rt: &HostRuntime, interner: &mut Interner) -> Result<()> {
    let marker = MarkerTree::parse_str::<VerbatimUrl>(TEXT, interner)?;
    let mut nodes = vec![in rt.alloc(); marker]?;
    draw(rt, interner, &mut nodes)
}

pub fn run(rt: &HostRuntime) -> Result<()> {
    let mut interner = Interner::new(rt.alloc());
    in_interner(rt, &mut interner)
}
