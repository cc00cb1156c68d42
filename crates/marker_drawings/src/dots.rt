//! Drawings in the language of Graphviz.

use crate::drawing::{Drawing, DrawnNode, Target};
use crate::escapes::add_quoted;
use pep508_program::visible;
use std::alloc::{AllocError, Global};
use std::fmt::Write;

// Appends the name of a node.
fn add_name(output: &mut String, target: Target) -> Result<(), AllocError> {
    match target {
        Target::True => output.push_str("\"true\""),
        Target::False => output.push_str("\"false\""),
        Target::Node(index) => write!(output, "\"{index}\""),
    }
}

// Appends the attribute of a label.
fn add_label(alloc: Global, output: &mut String, label: &str) -> Result<(), AllocError> {
    output.push_str(" [label=")?;
    add_quoted(output, visible(alloc, label)?.as_str())?;
    output.push_str("];\n")
}

// Appends a node and its edges.
fn add_node(
    alloc: Global,
    output: &mut String,
    index: usize,
    node: &DrawnNode,
) -> Result<(), AllocError> {
    output.push_str("  ")?;
    add_name(output, Target::Node(index))?;
    add_label(alloc, output, node.label.as_str())?;
    for edge in &node.edges {
        output.push_str("  ")?;
        add_name(output, Target::Node(index))?;
        output.push_str(" -> ")?;
        add_name(output, edge.target)?;
        add_label(alloc, output, edge.label.as_str())?;
    }
    Ok(())
}

// Appends a constant, if the drawing leads to it.
fn add_constant(output: &mut String, drawing: &Drawing, target: Target) -> Result<(), AllocError> {
    if drawing.leads_to(target) {
        output.push_str("  ")?;
        add_name(output, target)?;
        output.push_str(" [shape=plaintext];\n")?;
    }
    Ok(())
}

/// Returns a drawing in the language of Graphviz.
pub fn dot_text(alloc: Global, drawing: &Drawing) -> Result<String, AllocError> {
    let mut output = String::from_str(alloc, "digraph marker {\n  node [shape=box];\n")?;
    for (index, node) in drawing.nodes.iter().enumerate() {
        add_node(alloc, &mut output, index, node)?;
    }
    add_constant(&mut output, drawing, Target::True)?;
    add_constant(&mut output, drawing, Target::False)?;
    output.push_str("}\n")?;
    Ok(output)
}
