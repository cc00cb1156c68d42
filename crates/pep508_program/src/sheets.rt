//! The files that a command has open.

use crate::excerpts::visible;
use crate::notices::Page;
use crate::secrets::{Password, passwords};
use crate::texts::{Encoding, FileText, decode, foreign_encoding};
use std::alloc::{AllocError, Global};

/// A file that is read.
#[derive(Drop)]
pub struct Sheet {
    /// Its path.
    pub path: String,
    /// Its path as it is shown.
    pub shown: String,
    /// Its text, empty if it has another encoding.
    pub content: FileText,
    /// Its encoding, if that is not supported.
    pub encoding: Option<Encoding>,
    /// The passwords of the text.
    pub hidden: Vec<Password>,
    /// Its requirements are constraints.
    pub is_constraint: bool,
}

impl Sheet {
    /// Returns the file of this path with these bytes.
    pub fn new(
        alloc: Global,
        path: &str,
        bytes: Vec<u8>,
        is_constraint: bool,
    ) -> Result<Sheet, AllocError> {
        let encoding = foreign_encoding(bytes.as_slice());
        let content = match encoding {
            None => decode(alloc, bytes)?,
            Some(_) => decode(alloc, Vec::new(alloc))?,
        };
        let hidden = passwords(alloc, content.text.as_str())?;
        Ok(Sheet {
            path: String::from_str(alloc, path)?,
            shown: visible(alloc, path)?,
            content,
            encoding,
            hidden,
            is_constraint,
        })
    }

    /// Returns the text.
    pub fn text(&self) -> &str {
        self.content.text.as_str()
    }

    /// Returns the file as notices show it.
    pub fn page(&self) -> Page<'_> {
        Page {
            name: self.shown.as_str(),
            text: self.content.text.as_str(),
            hidden: self.hidden.as_slice(),
        }
    }

    /// Returns whether a byte from `start` to `end` is not UTF-8.
    pub fn has_invalid(&self, start: usize, end: usize) -> bool {
        let invalid = self.content.invalid.as_slice();
        let index = invalid.partition_point(|at| *at < start);
        match invalid.get(index) {
            Some(at) => *at < end,
            None => false,
        }
    }
}

/// Returns whether a path that a file names is a URL for pip.
pub fn is_url(path: &str) -> bool {
    match path.split_once(':') {
        Some((scheme, _)) => {
            let schemes = ["http", "https", "file"];
            schemes
                .iter()
                .any(|known| known.eq_ignore_ascii_case(scheme))
        }
        None => false,
    }
}

/// Returns the path that a file names, relative to the folder of that file.
pub fn path_beside(alloc: Global, naming: &str, path: &str) -> Result<String, AllocError> {
    let folder = match naming.rsplit_once('/') {
        Some((folder, _)) if !path.starts_with('/') => folder,
        _ => return String::from_str(alloc, path),
    };
    format!(in alloc; "{folder}/{path}")
}
