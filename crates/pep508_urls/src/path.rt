//! Paths, and their `file` URLs.

ghost use Rattle.std.specs.Prelude.{◌≡◌, ◌≢◌, ◌++◌, Some, None, IfErr, IfOk, OnOk, map, string_bytes};
ghost use Rattle.std.specs.List.{join_with_byte};
ghost use Rattle.std.specs.Cow.{cow_str_bytes};
ghost use Rattle.refusal.specs.Refused.{FaultIs};
ghost use Rattle.refusal.specs.declared.Refusal.TheVariants.{SegmentAtEnd};
ghost use Rattle.pep508_urls.specs.Path.{file_path, file_text, is_absolute, leaves, normalized, root, stays, url_path};
ghost use Rattle.pep508_urls.specs.Fault.{IsNormalization};

use crate::error::{VerbatimUrlError, fault_with};
use percent_encoding::{
    AsciiSet, CONTROLS, DecodeError, ascii_set, percent_decode_str, utf8_percent_encode,
};
use refusal::Refusal;
use std::alloc::{AllocError, Global};
use std::borrow::CowStr;

/// The ASCII bytes that a part of a path escapes in a file URL. Bytes that are not ASCII are
/// escaped too.
pub const FILE_PART: AsciiSet = ascii_set!(
    CONTROLS
        .add(b' ')
        .add(b'"')
        .add(b'#')
        .add(b'%')
        .add(b'/')
        .add(b'<')
        .add(b'>')
        .add(b'?')
        .add(b'\\')
        .add(b'`')
        .add(b'{')
        .add(b'|')
        .add(b'}')
);

/// Returns the path without `.`, `..` and empty parts. A relative path stays relative.
///
/// # Errors
/// - [`VerbatimUrlError::Normalization`] if a `..` has no part to remove.
pub fn normalize_absolute_path(
    alloc: Global,
    path: &str,
) -> Result<String, Refusal<VerbatimUrlError>>
    ensures value { IfOk result (λ text. normalized path.now ≡ Some (string_bytes text)) }
    ensures fault { FaultIs result (λ _. normalized path.now ≡ None) }
    ensures kind { FaultIs result (IsNormalization path.now) }
    ensures no_end { IfErr result (λ refusal. refusal ≢ SegmentAtEnd) }
{
    let mut folder = Vec::new(alloc);
    for part in path.split('/') {
        if stays(part) {
            continue;
        }
        if leaves(part) {
            let Some(_left) = folder.pop() else {
                let fault = fault_with(alloc, VerbatimUrlError::Normalization, path)?;
                return Err(Refusal::Fault(fault));
            };
        } else {
            folder.push(part)?;
        }
    }
    let mut text = String::from_str(alloc, root(path))?;
    push_joined(&mut text, folder.as_slice())?;
    Ok(text)
}

// `/` if the path begins with one, otherwise an empty text.
fn root(path: &str) -> &'static str
    ensures { result.now ≡ root path.now }
{
    if is_absolute(path) { "/" } else { "" }
}

// Whether the path begins with a slash.
pub(crate) fn is_absolute(path: &str) -> bool
    ensures { result ≡ is_absolute path.now }
{
    path.starts_with('/')
}

fn stays(part: &str) -> bool
    ensures { result ≡ stays part.now }
{
    part == "" || part == "."
}

fn leaves(part: &str) -> bool
    ensures { result ≡ leaves part.now }
{
    part == ".."
}

// Appends the parts with a slash between each two.
fn push_joined(text: &mut String, parts: &[&str]) -> Result<(), AllocError>
    ensures { OnOk result (string_bytes text.new
        ≡ string_bytes text.old ++ join_with_byte 47 (map (λ part. part.now) parts.now)) }
{
    let Some((first, others)) = parts.split_first() else {
        return Ok(());
    };
    text.push_str(first)?;
    for part in others {
        text.push('/')?;
        text.push_str(part)?;
    }
    Ok(())
}

/// Returns the path of a URL with its percent-escapes decoded, or unchanged if they do not decode
/// to UTF-8.
pub fn normalize_url_path(alloc: Global, path: &str) -> Result<CowStr<'_>, AllocError>
    ensures { IfOk result (λ text. cow_str_bytes text ≡ url_path path.now) }
{
    match percent_decode_str(path).decode_utf8(alloc) {
        Ok(text) => Ok(text),
        Err(DecodeError::Utf8(_)) => Ok(CowStr::Borrowed(path)),
        Err(DecodeError::OutOfMemory) => Err(AllocError),
    }
}

// The text of a path's URL: `file://`, then `/` and the escaped part for each part that is neither
// empty nor `.`.
pub(crate) fn file_text(alloc: Global, path: &str) -> Result<String, AllocError>
    ensures { IfOk result (λ text. string_bytes text ≡ file_text path.now) }
{
    let parts = file_path(alloc, path)?;
    if parts.is_empty() {
        return String::from_str(alloc, "file:///");
    }
    let mut text = String::from_str(alloc, "file://")?;
    text.push_str(parts.as_str())?;
    Ok(text)
}

// `/` and the escaped part, for each part of a path that is neither empty nor `.`.
fn file_path(alloc: Global, path: &str) -> Result<String, AllocError>
    ensures { IfOk result (λ text. string_bytes text ≡ file_path path.now) }
{
    let mut text = String::new(alloc);
    for part in path.split('/') {
        if !stays(part) {
            text.push('/')?;
            utf8_percent_encode(part, FILE_PART).append_to(&mut text)?;
        }
    }
    Ok(text)
}
