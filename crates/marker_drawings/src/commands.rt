//! The command `draw`, from its words to its status.

ghost use Rattle.std.specs.Prelude.{IfErr, IfOk};
ghost use Rattle.marker_commands.specs.Outcome.{IsRefusalOf};
ghost use Rattle.marker_drawings.specs.Reply.{IsDrawnText, IsDrawingReply};

use crate::arguments::{DrawCommand, DrawingFormat};
use crate::{Drawing, dot_text, draw, svg_text, tree_text};
use marker_commands::{GivenMarker, Outcome, Reply, Settings, parse_marker, told, write_reply};
use marker_graph::Interner;
use pep508_program::{Host, has_colors, out_of_memory};
use std::alloc::{AllocError, Global};

/// How a marker is drawn.
#[derive(Clone, Copy, Debug)]
pub struct DrawingWish {
    pub format: DrawingFormat,
    /// How many nodes may be drawn.
    pub most: usize,
}

// The text of a drawing.
fn text_of(
    interner: &Interner,
    drawing: &Drawing,
    format: DrawingFormat,
) -> Result<String, AllocError> {
    let alloc = interner.allocator();
    match format {
        DrawingFormat::Text => tree_text(alloc, drawing),
        DrawingFormat::Dot => dot_text(alloc, drawing),
        DrawingFormat::Svg => svg_text(interner, drawing),
    }
}

// The text of the drawing of a marker. Appends its warnings, or why there is none.
#[tactic(auto, using(crate::proofs::ReplyLaws::drawings))]
fn drawn_text(
    given: &GivenMarker<'_>,
    wish: DrawingWish,
    interner: &mut Interner,
    messages: &mut String,
) -> Result<String, Outcome>
    ensures drawn { IfOk result (λ _. IsDrawnText given.now.text.now wish.most) }
    ensures refused { IfErr result (IsRefusalOf given.now.text.now) }
{
    let tree = parse_marker(given, interner, messages)?;
    match draw(interner, tree, wish.most)? {
        Some(drawing) => Ok(text_of(interner, &drawing, wish.format)?),
        None => {
            let added = given.add_too_complex(interner.allocator(), messages);
            Err(told(Outcome::TooComplex, added))
        }
    }
}

/// Returns what `draw` writes: the drawing of the marker of a text.
#[tactic(auto, using(crate::proofs::ReplyLaws::replies))]
pub fn draw_marker(alloc: Global, settings: Settings, text: &str, wish: DrawingWish) -> Reply
    ensures { IsDrawingReply text.now wish.most result }
{
    let mut interner = settings.interner(alloc);
    let mut messages = String::new(alloc);
    let given = GivenMarker {
        name: "<marker>",
        text,
        has_colors: settings.has_colors,
    };
    match drawn_text(&given, wish, &mut interner, &mut messages) {
        Ok(output) => Reply {
            outcome: Outcome::Answered,
            output,
            messages,
        },
        Err(outcome) => Reply::without_answer(alloc, outcome, messages),
    }
}

// The room of a marker, and how many nodes are drawn, unless `--limit` says otherwise.
const ROOM: usize = 1_000_000;

const MOST: usize = 2000;

/// Runs the command `draw`, and returns the status of the program. `key` are two random words, by
/// which nodes of markers are hashed.
pub fn run_draw_command<H: Host>(
    alloc: Global,
    host: &mut H,
    command: &DrawCommand<'_>,
    key: [u64; 2],
) -> u8 {
    let is_terminal = host.is_message_terminal();
    let Ok(has_colors) = has_colors(alloc, host, command.coloring, is_terminal) else {
        return out_of_memory(host);
    };
    let limit = command
        .limit
        .map(|limit| usize::try_from(limit).unwrap_or(usize::MAX));
    let settings = Settings {
        key,
        room: limit.unwrap_or(ROOM),
        has_colors,
    };
    let wish = DrawingWish {
        format: command.format,
        most: limit.unwrap_or(MOST),
    };
    let reply = draw_marker(alloc, settings, command.marker, wish);
    write_reply(alloc, host, &reply)
}
