//! The words of the command `draw`.

use clap::ArgMatches;
use pep508_program::{Coloring, coloring_of};

/// How a drawing is written.
#[derive(Clone, Copy, Debug, PartialEq, Eq)]
pub enum DrawingFormat {
    /// As a tree for a terminal.
    Text,
    /// In the language of Graphviz.
    Dot,
    /// As a picture.
    Svg,
}

/// The command `draw`.
#[derive(Clone, Copy, Debug)]
pub struct DrawCommand<'m> {
    pub marker: &'m str,
    pub format: DrawingFormat,
    pub coloring: Coloring,
    /// The room of the marker, and how many nodes may be drawn.
    pub limit: Option<u64>,
}

fn format_of(word: Option<&str>) -> DrawingFormat {
    match word {
        Some("dot") => DrawingFormat::Dot,
        Some("svg") => DrawingFormat::Svg,
        _ => DrawingFormat::Text,
    }
}

/// Returns the command of the matches, or `None` if it is not `draw`.
pub fn draw_command<'m>(matches: &'m ArgMatches<'_>) -> Option<DrawCommand<'m>> {
    match matches.subcommand() {
        Some(("draw", given)) => Some(DrawCommand {
            marker: given.get_str("marker").unwrap_or(""),
            format: format_of(given.get_str("format")),
            coloring: coloring_of(given.get_str("color")),
            limit: given.get_one::<u64>("limit"),
        }),
        _ => None,
    }
}
