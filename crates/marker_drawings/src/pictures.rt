//! Drawings as pictures (SVG).

use crate::drawing::{Drawing, DrawnEdge, DrawnNode, Target};
use crate::escapes::{add_escaped, columns};
use crate::levels::{Levels, levels_of};
use marker_graph::Interner;
use pep508_program::visible;
use std::alloc::{AllocError, Global};
use std::fmt::Write;

// Sizes in pixels: of a column of text, of the room beside a text, of a line of text, between two
// levels, between two boxes, and around the picture.
const COLUMN: usize = 8;

const BESIDE: usize = 16;

const LINE: usize = 24;

const BELOW: usize = 48;

const BETWEEN: usize = 24;

const MARGIN: usize = 16;

// How the parts of a picture look.
const STYLE: &str = "<style>text{font:13px monospace;text-anchor:middle}\
rect,path{fill:white;stroke:black}.page{stroke:none}.edge{fill:none;stroke:gray}</style>\n";

// The place of a box: its left side, its upper side and its width.
#[derive(Clone, Copy, Debug)]
struct Place {
    left: usize,
    top: usize,
    width: usize,
}

const NOWHERE: Place = Place {
    left: 0,
    top: 0,
    width: 0,
};

impl Place {
    // The middle between the sides.
    fn middle(self) -> usize {
        self.left.saturating_add(self.width / 2)
    }
}

// The boxes of a picture.
#[derive(Drop)]
struct Boxes {
    nodes: Vec<Place>,
    truth: Place,
    falsehood: Place,
    width: usize,
    height: usize,
}

// The width of a box with a text.
fn text_width(alloc: Global, label: &str) -> Result<usize, AllocError> {
    let shown = visible(alloc, label)?;
    Ok(
        columns(shown.as_str())
            .saturating_mul(COLUMN)
            .saturating_add(BESIDE),
    )
}

// The width of the texts of edges.
fn edges_width(alloc: Global, edges: &[DrawnEdge]) -> Result<usize, AllocError> {
    let mut width = 0usize;
    for edge in edges {
        width = width.saturating_add(text_width(alloc, edge.label.as_str())?);
    }
    Ok(width)
}

// The width of a node.
fn node_width(alloc: Global, node: &DrawnNode) -> Result<usize, AllocError> {
    let label = text_width(alloc, node.label.as_str())?;
    Ok(label.max(edges_width(alloc, &node.edges)?))
}

// The top of a level.
fn top_of(level: usize) -> usize {
    let height = LINE.saturating_add(LINE).saturating_add(BELOW);
    level.saturating_mul(height).saturating_add(MARGIN)
}

// Adds a box to a row, and returns its left side.
fn add_box(rows: &mut [usize], row: usize, width: usize) -> usize {
    match rows.get_mut(row) {
        Some(end) => {
            let left = *end;
            *end = left.saturating_add(width).saturating_add(BETWEEN);
            left
        }
        None => 0,
    }
}

// Moves a box, so that its row is in the middle of the picture.
fn centered(place: Place, rows: &[usize], row: usize, width: usize) -> Place {
    let end = rows.get(row).copied().unwrap_or(0);
    let free = width.saturating_add(BETWEEN).saturating_sub(end);
    Place {
        left: place.left.saturating_add(free / 2).saturating_add(MARGIN),
        ..place
    }
}

impl Boxes {
    // Puts the boxes of each level beside one another.
    fn put(
        alloc: Global,
        drawing: &Drawing,
        levels: &Levels,
        rows: &mut [usize],
    ) -> Result<Boxes, AllocError> {
        let mut nodes = Vec::new(alloc);
        for (node, level) in drawing.nodes.iter().zip(&levels.levels) {
            let width = node_width(alloc, node)?;
            nodes.push(Place {
                left: add_box(rows, *level, width),
                top: top_of(*level),
                width,
            })?;
        }
        let mut boxes = Boxes {
            nodes,
            truth: NOWHERE,
            falsehood: NOWHERE,
            width: 0,
            height: top_of(levels.count)
                .saturating_add(LINE)
                .saturating_add(MARGIN),
        };
        boxes.truth = Boxes::constant(alloc, drawing, Target::True, "true", levels, rows)?;
        boxes.falsehood = Boxes::constant(alloc, drawing, Target::False, "false", levels, rows)?;
        Ok(boxes)
    }

    // Puts the box of a constant, if the drawing leads to it.
    fn constant(
        alloc: Global,
        drawing: &Drawing,
        target: Target,
        label: &str,
        levels: &Levels,
        rows: &mut [usize],
    ) -> Result<Place, AllocError> {
        if !drawing.leads_to(target) {
            return Ok(NOWHERE);
        }
        let width = text_width(alloc, label)?;
        Ok(Place {
            left: add_box(rows, levels.count, width),
            top: top_of(levels.count),
            width,
        })
    }

    // The boxes of a drawing.
    fn of(alloc: Global, drawing: &Drawing, levels: &Levels) -> Result<Boxes, AllocError> {
        let mut rows = vec![in alloc; 0usize; levels.count.saturating_add(1)]?;
        let mut boxes = Boxes::put(alloc, drawing, levels, &mut rows)?;
        let widest = rows.iter().copied().max().unwrap_or(0);
        let width = widest.saturating_sub(BETWEEN);
        for (place, level) in boxes.nodes.iter_mut().zip(&levels.levels) {
            *place = centered(*place, &rows, *level, width);
        }
        boxes.truth = centered(boxes.truth, &rows, levels.count, width);
        boxes.falsehood = centered(boxes.falsehood, &rows, levels.count, width);
        boxes.width = width.saturating_add(MARGIN).saturating_add(MARGIN);
        Ok(boxes)
    }

    // The box that an edge leads to.
    fn at(&self, target: Target) -> Place {
        match target {
            Target::True => self.truth,
            Target::False => self.falsehood,
            Target::Node(index) => self.nodes.get(index).copied().unwrap_or(NOWHERE),
        }
    }
}

// A picture that is written.
#[derive(Drop)]
struct Picture<'d> {
    alloc: Global,
    drawing: &'d Drawing,
    boxes: Boxes,
    output: String,
}

impl Picture<'_> {
    // Appends a text around the middle of a line.
    fn add_text(&mut self, middle: usize, top: usize, label: &str) -> Result<(), AllocError> {
        let base = top.saturating_add(LINE * 2 / 3);
        let shown = visible(self.alloc, label)?;
        write!(self.output, "<text x=\"{middle}\" y=\"{base}\">")?;
        add_escaped(&mut self.output, shown.as_str())?;
        self.output.push_str("</text>\n")
    }

    // Appends a box.
    fn add_box(&mut self, place: Place, height: usize) -> Result<(), AllocError> {
        let Place { left, top, width } = place;
        writeln!(
            self.output,
            "<rect x=\"{left}\" y=\"{top}\" width=\"{width}\" height=\"{height}\" rx=\"4\"/>"
        )
    }

    // Appends the line of an edge from its text to its target.
    fn add_line(&mut self, x: usize, y: usize, target: Target) -> Result<(), AllocError> {
        let place = self.boxes.at(target);
        let to = place.middle();
        let end = place.top;
        let above = y.saturating_add(BELOW / 2);
        let below = end.saturating_sub(BELOW / 2);
        writeln!(
            self.output,
            "<path class=\"edge\" d=\"M{x} {y}C{x} {above} {to} {below} {to} {end}\"/>"
        )
    }

    // Appends the lines of the edges of a node.
    fn add_lines(&mut self, place: Place, edges: &[DrawnEdge]) -> Result<(), AllocError> {
        let bottom = place.top.saturating_add(LINE).saturating_add(LINE);
        let mut left = self.first_left(place, edges)?;
        for edge in edges {
            let width = text_width(self.alloc, edge.label.as_str())?;
            self.add_line(left.saturating_add(width / 2), bottom, edge.target)?;
            left = left.saturating_add(width);
        }
        Ok(())
    }

    // Where the text of the first edge of a node begins: the texts are in the middle of the box.
    fn first_left(&self, place: Place, edges: &[DrawnEdge]) -> Result<usize, AllocError> {
        let width = edges_width(self.alloc, edges)?;
        Ok(
            place
                .left
                .saturating_add(place.width.saturating_sub(width) / 2),
        )
    }

    // Appends the box of a node with its texts.
    fn add_node(&mut self, place: Place, node: &DrawnNode) -> Result<(), AllocError> {
        self.add_box(place, LINE + LINE)?;
        self.add_text(place.middle(), place.top, node.label.as_str())?;
        let line = place.top.saturating_add(LINE);
        let right = place.left.saturating_add(place.width);
        writeln!(self.output, "<path d=\"M{} {line}H{right}\"/>", place.left)?;
        let mut left = self.first_left(place, &node.edges)?;
        for edge in &node.edges {
            if left > place.left {
                writeln!(self.output, "<path d=\"M{left} {line}v{LINE}\"/>")?;
            }
            let width = text_width(self.alloc, edge.label.as_str())?;
            self.add_text(left.saturating_add(width / 2), line, edge.label.as_str())?;
            left = left.saturating_add(width);
        }
        Ok(())
    }

    // Appends the box of a constant, if the drawing leads to it.
    fn add_constant(&mut self, target: Target, label: &str) -> Result<(), AllocError> {
        if !self.drawing.leads_to(target) {
            return Ok(());
        }
        let place = self.boxes.at(target);
        self.add_box(place, LINE)?;
        self.add_text(place.middle(), place.top, label)
    }

    // Appends the front of the picture.
    fn add_front(&mut self) -> Result<(), AllocError> {
        let width = self.boxes.width;
        let height = self.boxes.height;
        writeln!(
            self.output,
            "<svg xmlns=\"http://www.w3.org/2000/svg\" width=\"{width}\" height=\"{height}\">"
        )?;
        self.output.push_str(STYLE)?;
        writeln!(
            self.output,
            "<rect class=\"page\" width=\"{width}\" height=\"{height}\"/>"
        )
    }

    // Appends the lines, and over them the boxes.
    fn add_all(&mut self) -> Result<(), AllocError> {
        let drawing = self.drawing;
        self.add_front()?;
        for (index, node) in drawing.nodes.iter().enumerate() {
            let place = self.boxes.at(Target::Node(index));
            self.add_lines(place, &node.edges)?;
        }
        for (index, node) in drawing.nodes.iter().enumerate() {
            let place = self.boxes.at(Target::Node(index));
            self.add_node(place, node)?;
        }
        self.add_constant(Target::True, "true")?;
        self.add_constant(Target::False, "false")?;
        self.output.push_str("</svg>\n")
    }
}

/// Returns a drawing as a picture (SVG), with a level for each variable.
pub fn svg_text(interner: &Interner, drawing: &Drawing) -> Result<String, AllocError> {
    let alloc = interner.allocator();
    let levels = levels_of(interner, drawing)?;
    let mut picture = Picture {
        alloc,
        drawing,
        boxes: Boxes::of(alloc, drawing, &levels)?,
        output: String::new(alloc),
    };
    picture.add_all()?;
    let Picture { output, .. } = picture;
    Ok(output)
}
