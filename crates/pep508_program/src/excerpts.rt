//! Lines as they are shown on a terminal.

use crate::secrets::{Password, is_hidden, passwords};
use std::alloc::{AllocError, Global};
use std::fmt::Write;
use unicode_width::UnicodeWidthChar;

/// At most so many characters of a line are shown on each side of the first marked one.
pub const SHOWN: usize = 200;

/// A line of a file as it is shown, and which of its columns are marked.
#[derive(Drop)]
pub struct Excerpt {
    /// The line: tabs as four spaces, control characters made visible, passwords as `***`, and `…`
    /// where it is cut.
    pub line: String,
    /// How many columns come before the mark.
    pub before: usize,
    /// How many columns are marked: at least one.
    pub width: usize,
}

// The visible form of an ASCII control character.
fn picture(c: char) -> Option<char> {
    match c {
        '\0'..='\u{1f}' => char::from_u32(u32::from(c).saturating_add(0x2400)),
        '\u{7f}' => Some('\u{2421}'),
        _ => None,
    }
}

// Whether a terminal shows nothing for the character, or lets it change its surroundings.
fn is_invisible(c: char) -> bool {
    c.is_control()
        || matches!(
            c,
            '\u{ad}'
                | '\u{61c}'
                | '\u{180e}'
                | '\u{200b}'..='\u{200f}'
                | '\u{2028}'..='\u{202e}'
                | '\u{2060}'..='\u{206f}'
                | '\u{feff}'
                | '\u{fff9}'..='\u{fffb}'
                | '\u{e0000}'..='\u{e007f}'
        )
}

// Appends the character as it is shown. Returns how many columns it takes.
fn push_shown(line: &mut String, c: char) -> Result<usize, AllocError> {
    if c == '\t' {
        line.push_str("    ")?;
        return Ok(4);
    }
    if let Some(picture) = picture(c) {
        line.push(picture)?;
        return Ok(1);
    }
    if is_invisible(c) {
        let size = line.len();
        write!(line, "<U+{:04X}>", u32::from(c))?;
        return Ok(line.len().saturating_sub(size));
    }
    line.push(c)?;
    Ok(c.width().unwrap_or(0))
}

// Appends the characters of a text as they are shown, with `***` in place of passwords.
fn push_visible(line: &mut String, text: &str, hidden: &[Password]) -> Result<(), AllocError> {
    let mut was_hidden = false;
    for (at, c) in text.char_indices() {
        let hides = is_hidden(hidden, at);
        if !hides {
            let _columns = push_shown(line, c)?;
        } else if !was_hidden {
            line.push_str("***")?;
        }
        was_hidden = hides;
    }
    Ok(())
}

/// Returns a text as it is shown by itself, such as the name of a file: control characters are made
/// visible, and passwords are `***`.
pub fn visible(alloc: Global, text: &str) -> Result<String, AllocError> {
    let hidden = passwords(alloc, text)?;
    let mut line = String::new(alloc);
    push_visible(&mut line, text, hidden.as_slice())?;
    Ok(line)
}

fn is_line_end(c: char) -> bool {
    c == '\n' || c == '\r'
}

// How many bytes are shown before a place, and whether the line is cut there.
fn shown_before(text: &str) -> (usize, bool) {
    let mut size = 0usize;
    let mut count = 0usize;
    for c in text.chars().rev() {
        if is_line_end(c) {
            return (size, false);
        }
        if count == SHOWN {
            return (size, true);
        }
        count = count.saturating_add(1);
        size = size.saturating_add(c.len_utf8());
    }
    (size, false)
}

// How many bytes are shown from a place on, and whether the line is cut there.
fn shown_after(text: &str) -> (usize, bool) {
    let mut size = 0usize;
    let mut count = 0usize;
    for c in text.chars() {
        if is_line_end(c) {
            return (size, false);
        }
        if count == SHOWN {
            return (size, true);
        }
        count = count.saturating_add(1);
        size = size.saturating_add(c.len_utf8());
    }
    (size, false)
}

// A line that is drawn from left to right.
#[derive(Drop)]
struct Drawing {
    line: String,
    columns: usize,
    // Columns before the first marked character, and before the first one after the mark.
    before: usize,
    after: usize,
    was_hidden: bool,
}

impl Drawing {
    // Records the columns at a byte of the file.
    fn reach(&mut self, at: usize, start: usize, end: usize) {
        if at <= start {
            self.before = self.columns;
        }
        if at <= end {
            self.after = self.columns;
        }
    }

    // Appends so many columns.
    fn advance(&mut self, columns: usize) {
        self.columns = self.columns.saturating_add(columns);
    }

    fn push_mark(&mut self, text: &str, columns: usize) -> Result<(), AllocError> {
        self.line.push_str(text)?;
        self.advance(columns);
        Ok(())
    }

    // Appends a character.
    fn push(&mut self, c: char, hides: bool) -> Result<(), AllocError> {
        if !hides {
            let columns = push_shown(&mut self.line, c)?;
            self.advance(columns);
        } else if !self.was_hidden {
            self.push_mark("***", 3)?;
        }
        self.was_hidden = hides;
        Ok(())
    }

    fn finish(self) -> Excerpt {
        let width = self.after.saturating_sub(self.before).max(1);
        Excerpt {
            line: self.line,
            before: self.before,
            width,
        }
    }
}

/// Returns the line of a file in which the bytes from `start` to `end` begin, with those of them
/// marked that are in it. `hidden` are the passwords of the file.
pub fn draw_excerpt(
    alloc: Global,
    text: &str,
    hidden: &[Password],
    start: usize,
    end: usize,
) -> Result<Excerpt, AllocError> {
    let (front, back) = text.split_at_checked(start).unwrap_or((text, ""));
    let (before, is_cut_before) = shown_before(front);
    let (after, is_cut_after) = shown_after(back);
    let first = front.len().saturating_sub(before);
    let last = front.len().saturating_add(after);
    let mut drawing = Drawing {
        line: String::new(alloc),
        columns: 0,
        before: 0,
        after: 0,
        was_hidden: false,
    };
    if is_cut_before {
        drawing.push_mark("…", 1)?;
    }
    for (offset, c) in text.get(first..last).unwrap_or("").char_indices() {
        let at = first.saturating_add(offset);
        drawing.reach(at, start, end);
        // A byte order mark does not belong to the text.
        if at > 0 || c != '\u{feff}' {
            drawing.push(c, is_hidden(hidden, at))?;
        }
    }
    drawing.reach(last, start, end);
    if is_cut_after {
        drawing.push_mark("…", 1)?;
    }
    Ok(drawing.finish())
}
