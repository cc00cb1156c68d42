//! Which files are open, and which were read.

use crate::failures::Failure;
use crate::hosts::Host;
use crate::sheets::Sheet;
use std::alloc::{AllocError, Global};
use std::collections::BTreeSet;
use std::io;

/// The result of opening a file.
#[derive(Drop)]
pub enum Opening {
    /// It is open now.
    Open(Sheet),
    /// It was open already.
    Cycle,
    /// It was read already.
    Known,
    /// It could not be read.
    Unreadable(io::Error),
}

/// Files by their resolved paths.
#[derive(Drop)]
pub struct OpenFiles {
    // Those that are being read, each named by the one before.
    open: Vec<String>,
    // Those that were read, for requirements and for constraints.
    requirements: BTreeSet<String>,
    constraints: BTreeSet<String>,
}

// The error, unless memory ran out.
fn unreadable(error: io::Error) -> Result<Opening, Failure> {
    match error.kind() {
        io::ErrorKind::OutOfMemory => Err(Failure::OutOfMemory),
        _ => Ok(Opening::Unreadable(error)),
    }
}

impl OpenFiles {
    /// Returns the state before any file is opened.
    pub fn new(alloc: Global) -> OpenFiles {
        OpenFiles {
            open: Vec::new(alloc),
            requirements: BTreeSet::new(alloc),
            constraints: BTreeSet::new(alloc),
        }
    }

    // Whether the file was read.
    fn is_known(&self, path: &str, is_constraint: bool) -> bool {
        if is_constraint {
            self.constraints.contains(path)
        } else {
            self.requirements.contains(path)
        }
    }

    // Reads a file that is not open.
    fn read<H: Host>(
        &mut self,
        alloc: Global,
        host: &mut H,
        path: &str,
        resolved: String,
        is_constraint: bool,
    ) -> Result<Opening, Failure> {
        match host.read_file(alloc, path) {
            Ok(bytes) => {
                let sheet = Sheet::new(alloc, path, bytes, is_constraint)?;
                self.open.push(resolved)?;
                Ok(Opening::Open(sheet))
            }
            Err(error) => unreadable(error),
        }
    }

    /// Opens the file, unless it is open, or was read in the same role.
    pub fn open<H: Host>(
        &mut self,
        alloc: Global,
        host: &mut H,
        path: &str,
        is_constraint: bool,
    ) -> Result<Opening, Failure> {
        let resolved = match host.resolve(alloc, path) {
            Ok(resolved) => resolved,
            Err(error) => return unreadable(error),
        };
        if self
            .open
            .iter()
            .any(|open| open.as_str() == resolved.as_str())
        {
            return Ok(Opening::Cycle);
        }
        if self.is_known(resolved.as_str(), is_constraint) {
            return Ok(Opening::Known);
        }
        self.read(alloc, host, path, resolved, is_constraint)
    }

    /// Records that the last opened file was read.
    pub fn close(&mut self, is_constraint: bool) -> Result<(), AllocError> {
        if let Some(path) = self.open.pop() {
            let _is_new = if is_constraint {
                self.constraints.insert(path)?
            } else {
                self.requirements.insert(path)?
            };
        }
        Ok(())
    }
}
