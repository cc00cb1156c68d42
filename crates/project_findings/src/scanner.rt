//! Where the keys and values of a TOML text are written.
//!
//! The text is known to be TOML, so nothing is checked here. Whoever uses a part compares it with
//! what its key says.

use crate::parts::{Part, Parts, Written, name_of_path};
use requirement_lines::without_mark;
use std::alloc::{AllocError, Global};
use std::collections::BTreeMap;
use std::mem;
use toml_parser::bytes::is_bare;
use toml_parser::text::{first, skip_blank, skip_ws};
use toml_parser::{ParseError, quoted, starts_string};

// The key of a table that includes a group.
const INCLUDE: &str = "include-group";

// A list or an inline table that is open.
#[derive(Clone, Copy)]
struct Frame {
    is_list: bool,
    // How many names its key has.
    names: usize,
}

#[derive(Drop)]
struct Scanner<'t> {
    text: &'t str,
    rest: &'t str,
    // The names from the root to the key whose value is next.
    path: Vec<String>,
    // How many of them are those of the last header.
    header: usize,
    // Where the last of them is.
    key: Part,
    // What is open, the innermost last.
    frames: Vec<Frame>,
    // The items of the outermost list that is open.
    items: Vec<Part>,
    found: Parts,
}

// The text after so many bytes.
fn after(text: &str, count: usize) -> &str {
    match text.split_at_checked(count) {
        Some((_, rest)) => rest,
        None => "",
    }
}

// The string at the front of a text, and what follows it.
fn read_string(alloc: Global, text: &str) -> Result<Option<(String, &str)>, AllocError> {
    if !starts_string(text) {
        return Ok(None);
    }
    match quoted(alloc, text) {
        Ok(read) => Ok(Some(read)),
        Err(ParseError::OutOfMemory) => Err(AllocError),
        Err(ParseError::At(..)) => Ok(None),
    }
}

// The name at the front of a text, and what follows it.
fn read_name(alloc: Global, text: &str) -> Result<Option<(String, &str)>, AllocError> {
    if starts_string(text) {
        return read_string(alloc, text);
    }
    let end = text.bytes().position(|byte| !is_bare(byte));
    let size = end.unwrap_or(text.len());
    match text.split_at_checked(size) {
        Some((name, rest)) if size > 0 => Ok(Some((String::from_str(alloc, name)?, rest))),
        _ => Ok(None),
    }
}

// What follows a number, a truth value or a date.
fn skip_word(text: &str) -> &str {
    let ends = |c: char| matches!(c, ',' | ']' | '}' | '#' | ' ' | '\t' | '\r' | '\n');
    let size = text.find(ends).unwrap_or(text.len());
    after(text, size.max(1))
}

impl<'t> Scanner<'t> {
    fn new(alloc: Global, text: &'t str) -> Scanner<'t> {
        Scanner {
            text,
            rest: without_mark(text),
            path: Vec::new(alloc),
            header: 0,
            key: Part { start: 0, end: 0 },
            frames: Vec::new(alloc),
            items: Vec::new(alloc),
            found: BTreeMap::new(alloc),
        }
    }

    // How many bytes were read.
    fn at(&self) -> usize {
        self.text.len().saturating_sub(self.rest.len())
    }

    fn skip(&mut self, count: usize) {
        self.rest = after(self.rest, count);
    }

    // Skips a character, and the space after it, if it is next.
    fn skip_mark(&mut self, mark: u8) {
        if first(self.rest) == mark {
            self.skip(1);
        }
        self.rest = skip_ws(self.rest);
    }

    // Nothing more is read.
    fn stop(&mut self) {
        self.rest = "";
    }

    // The key at the path is here, unless it was found before.
    fn note_key(&mut self, alloc: Global) -> Result<(), AllocError> {
        let Some(name) = name_of_path(alloc, self.path.as_slice())? else {
            return Ok(());
        };
        if self.found.contains_key(name.as_str()) {
            return Ok(());
        }
        let written = Written {
            key: self.key,
            value: self.key,
            items: Vec::new(alloc),
        };
        self.found.insert(name, written)?;
        Ok(())
    }

    // The value of the key at the path is here.
    fn note_value(&mut self, alloc: Global, value: Part) -> Result<(), AllocError> {
        if let Some(name) = name_of_path(alloc, self.path.as_slice())? {
            let written = Written {
                key: self.key,
                value,
                items: Vec::new(alloc),
            };
            self.found.insert(name, written)?;
        }
        Ok(())
    }

    // The list of the key at the path ends.
    fn note_items(&mut self, alloc: Global) -> Result<(), AllocError> {
        let items = mem::replace(&mut self.items, Vec::new(alloc));
        if let Some(name) = name_of_path(alloc, self.path.as_slice())? {
            if let Some(written) = self.found.get_mut(name.as_str()) {
                written.items = items;
            }
        }
        Ok(())
    }

    // Reads a key with its dots.
    fn read_key(&mut self, alloc: Global) -> Result<(), AllocError> {
        for _ in 0..self.rest.len() {
            let start = self.at();
            let Some((name, rest)) = read_name(alloc, self.rest)? else {
                self.stop();
                return Ok(());
            };
            self.rest = rest;
            self.key = Part {
                start,
                end: self.at(),
            };
            self.path.push(name)?;
            if self.frames.iter().all(|frame| !frame.is_list) {
                self.note_key(alloc)?;
            }
            self.rest = skip_ws(self.rest);
            if first(self.rest) != b'.' {
                return Ok(());
            }
            self.skip_mark(b'.');
        }
        Ok(())
    }

    // How many lists are open.
    fn lists(&self) -> usize {
        self.frames.iter().filter(|frame| frame.is_list).count()
    }

    // Whether the value at the path is the name of a group that an item of a list includes.
    fn is_included(&self, table: Frame) -> bool {
        let depth = self.frames.len();
        let is_item = depth > 1 && self.frames[depth - 2].is_list;
        let names = self.path.len().saturating_sub(table.names);
        let is_include = self
            .path
            .last()
            .is_some_and(|name| name.as_str() == INCLUDE);
        is_item && is_include && names == 1
    }

    // A value is here, before it is opened.
    fn note(&mut self, alloc: Global, value: Part) -> Result<(), AllocError> {
        match (self.lists(), self.frames.last().copied()) {
            (0, _) => self.note_value(alloc, value)?,
            (1, Some(frame)) if frame.is_list => self.items.push(value)?,
            (1, Some(frame)) if self.is_included(frame) => {
                self.items.pop();
                self.items.push(value)?;
            }
            _ => {}
        }
        Ok(())
    }

    // Reads a value, of a list or a table only its bracket. Returns whether it is a list, if it is
    // one of these.
    fn skip_value(&mut self, alloc: Global) -> Result<Option<bool>, AllocError> {
        match first(self.rest) {
            b'[' => {
                self.skip(1);
                return Ok(Some(true));
            }
            b'{' => {
                self.skip(1);
                return Ok(Some(false));
            }
            b'"' | b'\'' => match read_string(alloc, self.rest)? {
                Some((_, rest)) => self.rest = rest,
                None => self.stop(),
            },
            _ => self.rest = skip_word(self.rest),
        }
        Ok(None)
    }

    fn read_value(&mut self, alloc: Global) -> Result<(), AllocError> {
        let start = self.at();
        let opened = self.skip_value(alloc)?;
        let value = Part {
            start,
            end: self.at(),
        };
        self.note(alloc, value)?;
        if let Some(is_list) = opened {
            let names = self.path.len();
            self.frames.push(Frame { is_list, names })?;
        }
        Ok(())
    }

    // Reads a key after so many names, and its value.
    fn read_pair(&mut self, alloc: Global, names: usize) -> Result<(), AllocError> {
        self.path.truncate(names);
        self.read_key(alloc)?;
        self.skip_mark(b'=');
        self.read_value(alloc)
    }

    fn read_header(&mut self, alloc: Global) -> Result<(), AllocError> {
        self.path.clear();
        self.skip_mark(b'[');
        self.skip_mark(b'[');
        self.read_key(alloc)?;
        self.header = self.path.len();
        self.skip_mark(b']');
        self.skip_mark(b']');
        Ok(())
    }

    // The innermost list or table ends.
    fn close(&mut self, alloc: Global, frame: Frame) -> Result<(), AllocError> {
        self.skip(1);
        self.frames.pop();
        self.path.truncate(frame.names);
        if frame.is_list && self.lists() == 0 {
            self.note_items(alloc)?;
        }
        Ok(())
    }

    // Reads what is next in a list or a table.
    fn read_inner(&mut self, alloc: Global, frame: Frame) -> Result<(), AllocError> {
        match first(self.rest) {
            b']' | b'}' => self.close(alloc, frame),
            b',' => {
                self.skip(1);
                Ok(())
            }
            _ if frame.is_list => self.read_value(alloc),
            _ => self.read_pair(alloc, frame.names),
        }
    }

    // Reads a header, a key with its value, or an item.
    fn read_next(&mut self, alloc: Global) -> Result<(), AllocError> {
        self.rest = skip_blank(self.rest, true);
        if self.rest.is_empty() {
            return Ok(());
        }
        match self.frames.last().copied() {
            Some(frame) => self.read_inner(alloc, frame),
            None if first(self.rest) == b'[' => self.read_header(alloc),
            None => self.read_pair(alloc, self.header),
        }
    }
}

// What is written in a TOML text. Each step reads a byte or more.
pub(crate) fn parts_of(alloc: Global, text: &str) -> Result<Parts, AllocError> {
    let mut scanner = Scanner::new(alloc, text);
    for _ in 0..text.len() {
        if scanner.rest.is_empty() {
            break;
        }
        scanner.read_next(alloc)?;
    }
    Ok(scanner.found)
}
