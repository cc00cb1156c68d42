//! Drawings as trees for a terminal.

use crate::drawing::{Drawing, DrawnEdge, Target};
use pep508_program::visible;
use std::alloc::{AllocError, Global};
use std::fmt::Write;

// A part of the drawing that is this deep below the front of a line is drawn by itself.
const DEEPEST: usize = 12;

// A node whose edges are drawn from an index on.
#[derive(Clone, Copy, Debug)]
struct Open {
    node: usize,
    edge: usize,
}

// A drawing that is written as a tree.
#[derive(Drop)]
struct Tree<'d> {
    alloc: Global,
    drawing: &'d Drawing,
    // How many edges lead to each node.
    leading: Vec<usize>,
    // The numbers of the nodes that are drawn by themselves, and these nodes.
    numbers: Vec<Option<usize>>,
    parts: Vec<usize>,
    output: String,
}

// How many edges lead to each node.
fn leading(alloc: Global, drawing: &Drawing) -> Result<Vec<usize>, AllocError> {
    let mut leading = vec![in alloc; 0usize; drawing.nodes.len()]?;
    for node in &drawing.nodes {
        for edge in &node.edges {
            if let Target::Node(index) = edge.target {
                if let Some(count) = leading.get_mut(index) {
                    *count = count.saturating_add(1);
                }
            }
        }
    }
    Ok(leading)
}

impl Tree<'_> {
    // The edges of a node.
    fn edges(&self, node: usize) -> &[DrawnEdge] {
        match self.drawing.nodes.get(node) {
            Some(node) => &node.edges,
            None => &[],
        }
    }

    fn add_shown(&mut self, label: &str) -> Result<(), AllocError> {
        let shown = visible(self.alloc, label)?;
        self.output.push_str(shown.as_str())
    }

    // Appends the variable of a node.
    fn add_variable(&mut self, node: usize) -> Result<(), AllocError> {
        match self.drawing.nodes.get(node) {
            Some(node) => self.add_shown(node.label.as_str()),
            None => Ok(()),
        }
    }

    // Appends what stands before an edge: whether more edges of each open node follow.
    fn add_front(&mut self, open: &[Open], is_last: bool) -> Result<(), AllocError> {
        for parent in open {
            let follows = parent.edge < self.edges(parent.node).len();
            self.output.push_str(if follows { "│  " } else { "   " })?;
        }
        self.output.push_str(if is_last { "└─ " } else { "├─ " })
    }

    // The number of a node that is drawn by itself.
    fn number(&mut self, node: usize) -> Result<usize, AllocError> {
        if let Some(Some(number)) = self.numbers.get(node) {
            return Ok(*number);
        }
        self.parts.push(node)?;
        let number = self.parts.len();
        if let Some(slot) = self.numbers.get_mut(node) {
            *slot = Some(number);
        }
        Ok(number)
    }

    // Whether a node is drawn by itself, because several edges lead to it or it is too deep.
    fn is_apart(&self, node: usize, depth: usize) -> bool {
        depth >= DEEPEST || self.leading.get(node).copied().unwrap_or(0) > 1
    }

    // Appends where an edge leads. A node that is not drawn by itself is opened.
    fn add_target(&mut self, target: Target, open: &mut Vec<Open>) -> Result<(), AllocError> {
        match target {
            Target::True => self.output.push_str("true\n"),
            Target::False => self.output.push_str("false\n"),
            Target::Node(node) if self.is_apart(node, open.len()) => {
                let number = self.number(node)?;
                writeln!(self.output, "#{number}")
            }
            Target::Node(node) => {
                self.add_variable(node)?;
                open.push(Open { node, edge: 0 })?;
                self.output.push('\n')
            }
        }
    }

    // Appends the next edge of the node that was opened last.
    fn add_edge(&mut self, open: &mut Vec<Open>, last: Open) -> Result<(), AllocError> {
        let drawing = self.drawing;
        let Some(node) = drawing.nodes.get(last.node) else {
            return Ok(());
        };
        let Some(edge) = node.edges.get(last.edge) else {
            return Ok(());
        };
        let next = last.edge.saturating_add(1);
        self.add_front(open, next == node.edges.len())?;
        self.add_shown(edge.label.as_str())?;
        self.output.push_str(": ")?;
        open.push(Open {
            node: last.node,
            edge: next,
        })?;
        self.add_target(edge.target, open)
    }

    // Appends a node and what is below it.
    fn add_part(&mut self, node: usize) -> Result<(), AllocError> {
        self.add_variable(node)?;
        self.output.push('\n')?;
        let mut open = Vec::new(self.alloc);
        open.push(Open { node, edge: 0 })?;
        for _ in 0..usize::MAX {
            let Some(last) = open.pop() else {
                break;
            };
            self.add_edge(&mut open, last)?;
        }
        Ok(())
    }

    // Appends the parts that are drawn by themselves.
    fn add_parts(&mut self) -> Result<(), AllocError> {
        for index in 0..usize::MAX {
            let Some(node) = self.parts.get(index).copied() else {
                break;
            };
            write!(self.output, "\n#{}: ", index.saturating_add(1))?;
            self.add_part(node)?;
        }
        Ok(())
    }
}

/// Returns a drawing as a tree for a terminal. A node that several edges lead to is drawn once, by
/// itself below the tree, and so is one that is too deep. The edges to it name it by a number.
pub fn tree_text(alloc: Global, drawing: &Drawing) -> Result<String, AllocError> {
    let mut tree = Tree {
        alloc,
        drawing,
        leading: leading(alloc, drawing)?,
        numbers: vec![in alloc; None; drawing.nodes.len()]?,
        parts: Vec::new(alloc),
        output: String::new(alloc),
    };
    match drawing.root {
        Target::True => tree.output.push_str("true\n")?,
        Target::False => tree.output.push_str("false\n")?,
        Target::Node(node) => {
            tree.add_part(node)?;
            tree.add_parts()?;
        }
    }
    let Tree { output, .. } = tree;
    Ok(output)
}
