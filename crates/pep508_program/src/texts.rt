//! The text of a file.

ghost use Rattle.std.specs.Prelude.{◌≡◌, [], IfOk, IsUtf8, string_bytes};

use std::alloc::{AllocError, Global};

/// Replaces each byte of the file that is not UTF-8 in a text: U+001A, the substitute.
pub const SUBSTITUTE: char = '\u{1a}';

/// The text of a file.
#[derive(Drop)]
pub struct FileText {
    /// The text: of as many bytes as the file, with [`SUBSTITUTE`] for each that is not UTF-8.
    pub text: String,
    /// Where these bytes are in the file, in their order.
    pub invalid: Vec<usize>,
}

/// An encoding that is not supported.
#[derive(Clone, Copy)]
pub enum Encoding {
    Utf16,
    Utf32,
}

/// Returns the encoding that a mark at the front of a file names, unless it is UTF-8.
pub fn foreign_encoding(bytes: &[u8]) -> Option<Encoding> {
    if bytes.starts_with(b"\xff\xfe\0\0") || bytes.starts_with(b"\0\0\xfe\xff") {
        Some(Encoding::Utf32)
    } else if bytes.starts_with(b"\xff\xfe") || bytes.starts_with(b"\xfe\xff") {
        Some(Encoding::Utf16)
    } else {
        None
    }
}

// The text of bytes that are not all UTF-8.
fn substituted(alloc: Global, bytes: &[u8]) -> Result<FileText, AllocError> {
    let mut text = String::new(alloc);
    let mut invalid = Vec::new(alloc);
    for chunk in bytes.utf8_chunks() {
        text.push_str(chunk.valid())?;
        for _ in 0..chunk.invalid().len() {
            invalid.push(text.len())?;
            text.push(SUBSTITUTE)?;
        }
    }
    Ok(FileText { text, invalid })
}

/// Returns the text of a file with these bytes.
pub fn decode(alloc: Global, bytes: Vec<u8>) -> Result<FileText, AllocError>
    ensures same { IfOk result
        (λ file. IsUtf8 bytes.items → string_bytes file.text ≡ bytes.items) }
    ensures valid { IfOk result (λ file. IsUtf8 bytes.items → file.invalid.items ≡ []) }
{
    match String::from_utf8(bytes) {
        Ok(text) => Ok(FileText {
            text,
            invalid: Vec::new(alloc),
        }),
        Err(error) => substituted(alloc, error.as_bytes()),
    }
}

// Whether the name is one of UTF-8.
fn is_utf8_name(name: &str) -> bool {
    let names = [
        "utf-8",
        "utf8",
        "utf_8",
        "u8",
        "utf",
        "utf-8-sig",
        "utf8-sig",
        "utf_8_sig",
    ];
    names.iter().any(|known| known.eq_ignore_ascii_case(name))
}

// Whether the character may be in the name of an encoding.
fn is_name_character(c: char) -> bool {
    c.is_ascii_alphanumeric() || c == '-' || c == '_' || c == '.'
}

// The name at the front of the text.
fn name_at_front(text: &str) -> &str {
    match text.split_once(|c: char| !is_name_character(c)) {
        Some((name, _)) => name,
        None => text,
    }
}

// The name of the encoding that a comment like `# -*- coding: latin-1 -*-` declares.
fn encoding_in(line: &str) -> Option<&str> {
    if !line.starts_with('#') {
        return None;
    }
    for after in line.split("coding").skip(1) {
        if let Some(value) = after.strip_prefix(':').or_else(|| after.strip_prefix('=')) {
            let name = name_at_front(value.trim_start());
            if !name.is_empty() {
                return Some(name);
            }
        }
    }
    None
}

/// Returns the encoding other than UTF-8 that one of the first two lines declares, and the byte of
/// the text at which its name begins. As in pip, the first declaration counts.
pub fn declared_encoding(text: &str) -> Option<(usize, &str)> {
    let mut start = 0usize;
    for line in text.split('\n').take(2) {
        if let Some(name) = encoding_in(line) {
            if is_utf8_name(name) {
                return None;
            }
            let at = line.rfind(name).unwrap_or(0);
            return Some((start.saturating_add(at), name));
        }
        start = start.saturating_add(line.len()).saturating_add(1);
    }
    None
}
