//! Labels in the languages of drawings.

use std::alloc::AllocError;
use std::fmt::Write;
use unicode_width::UnicodeWidthChar;

/// Appends a label between quotes, in the language of Graphviz. Graphviz reads `\` and `&` in it.
pub(crate) fn add_quoted(output: &mut String, label: &str) -> Result<(), AllocError> {
    output.push('"')?;
    for c in label.chars() {
        match c {
            '"' => output.push_str("\\\"")?,
            '\\' => output.push_str("\\\\")?,
            '&' => output.push_str("&amp;")?,
            _ => output.push(c)?,
        }
    }
    output.push('"')
}

/// Appends a label as text of XML. The characters that XML cannot have are made visible.
pub(crate) fn add_escaped(output: &mut String, label: &str) -> Result<(), AllocError> {
    for c in label.chars() {
        match c {
            '&' => output.push_str("&amp;")?,
            '<' => output.push_str("&lt;")?,
            '>' => output.push_str("&gt;")?,
            '\u{fffe}' | '\u{ffff}' => write!(output, "&lt;U+{:04X}&gt;", u32::from(c))?,
            _ => output.push(c)?,
        }
    }
    Ok(())
}

/// Returns how many columns a label takes.
pub(crate) fn columns(label: &str) -> usize {
    let mut columns = 0usize;
    for c in label.chars() {
        columns = columns.saturating_add(c.width().unwrap_or(0));
    }
    columns
}
