//! The progress of a command, on a terminal.

use crate::failures::Failure;
use crate::hosts::Host;
use std::alloc::Global;

// For a command that takes less time nothing is shown, in milliseconds.
const QUIET: u64 = 1000;

// The time between two updates, in milliseconds.
const PAUSE: u64 = 200;

// The clock is read once for so many lines.
const STEP: u64 = 256;

/// Shows how many lines were read, on standard error if that is a terminal, after the first second.
#[derive(Clone, Copy)]
pub struct Progress {
    is_shown: bool,
    lines: u64,
    next: u64,
    is_drawn: bool,
}

impl Progress {
    /// Returns the progress before any line is read.
    pub fn new(is_shown: bool) -> Progress {
        Progress {
            is_shown,
            lines: 0,
            next: QUIET,
            is_drawn: false,
        }
    }

    // Shows the number.
    fn draw<H: Host>(&mut self, alloc: Global, host: &mut H) -> Result<(), Failure> {
        let now = host.milliseconds();
        if now < self.next {
            return Ok(());
        }
        let text = format!(in alloc; "\r{} lines read", self.lines)?;
        host.write_message(text.as_str())?;
        self.next = now.saturating_add(PAUSE);
        self.is_drawn = true;
        Ok(())
    }

    /// Counts one more line.
    pub fn step<H: Host>(&mut self, alloc: Global, host: &mut H) -> Result<(), Failure> {
        self.lines = self.lines.saturating_add(1);
        if self.is_shown && self.lines % STEP == 0 {
            return self.draw(alloc, host);
        }
        Ok(())
    }

    /// Removes what is shown, before something else is written.
    pub fn clear<H: Host>(&mut self, host: &mut H) -> Result<(), Failure> {
        if self.is_drawn {
            host.write_message("\r\u{1b}[K")?;
            self.is_drawn = false;
        }
        Ok(())
    }
}
