//! What a command reports, and the counts.

ghost use Rattle.std.specs.Prelude.{◌≡◌, [], OnErr, OnOk, string_bytes};
ghost use Rattle.pep508_program.specs.Reporting as spec;
ghost use Rattle.pep508_program.specs.Reporting.{failed_once, Grows, ReportsNothing};

use crate::failures::Failure;
use crate::hosts::Host;
use crate::notices::{Notice, Page, Style, Weight, write_notice_at};
use crate::totals::Tally;
use std::alloc::{AllocError, Global};
use std::io;

// So many bytes are collected before they are written.
const KEPT: usize = 65536;

/// What a command has reported, and the output that is not written yet.
#[derive(Drop)]
pub struct Report<'s> {
    pub style: Style,
    /// Names of warnings that are not reported.
    pub ignored: &'s [&'s str],
    /// Notices go to standard error, and warnings are not reported.
    pub lists: bool,
    pub tally: Tally,
    /// For standard output.
    pub output: String,
    /// For standard error.
    pub messages: String,
}

impl<'s> Report<'s> {
    /// Returns a report of nothing.
    pub fn new(alloc: Global, style: Style, ignored: &'s [&'s str], lists: bool) -> Report<'s>
        ensures tally { result.tally ≡ Tally.NOTHING }
        ensures output { string_bytes result.output ≡ [] }
        ensures messages { string_bytes result.messages ≡ [] }
    {
        Report {
            style,
            ignored,
            lists,
            tally: Tally::NOTHING,
            output: String::new(alloc),
            messages: String::new(alloc),
        }
    }

    // Whether the notice is reported.
    fn takes(&self, notice: &Notice<'_>) -> bool
        ensures { result ≡ spec.takes self.now notice.now }
    {
        match notice.weight {
            Weight::Error => true,
            Weight::Warning => !self.lists && !self.ignored.contains(&notice.name),
        }
    }

    fn count(&mut self, weight: Weight)
        ensures counted { self.new
            ≡ record self.old { tally = spec.counted weight self.old.tally } }
        ensures grows { Grows self.old.tally self.new.tally }
    {
        match weight {
            Weight::Error => self.tally.errors = self.tally.errors.saturating_add(1),
            Weight::Warning => self.tally.warnings = self.tally.warnings.saturating_add(1),
        }
    }

    // Appends whole lines to what is not written yet.
    fn push(&mut self, lines: &str) -> Result<(), AllocError>
        ensures tally { self.new.tally ≡ self.old.tally }
        ensures failed { OnErr result (ReportsNothing self.old self.new) }
    {
        if self.lists {
            self.messages.push_str(lines)
        } else {
            self.output.push_str(lines)
        }
    }

    /// Reports a notice about a file, unless it is a warning that is ignored.
    ///
    /// # Errors
    /// - `AllocError` when memory runs out. Then nothing is counted, or written in part.
    pub fn notice(
        &mut self,
        alloc: Global,
        page: &Page<'_>,
        notice: &Notice<'_>,
    ) -> Result<(), AllocError>
        ensures counted { OnOk result
            (self.new.tally ≡ spec.tally_after self.old notice.now) }
        ensures grows { Grows self.old.tally self.new.tally }
        ensures failed { OnErr result (ReportsNothing self.old self.new) }
    {
        self.notice_at(alloc, page, notice, None)
    }

    // Reports a notice that may be about a key of a project.
    pub(crate) fn notice_at(
        &mut self,
        alloc: Global,
        page: &Page<'_>,
        notice: &Notice<'_>,
        key: Option<&str>,
    ) -> Result<(), AllocError>
        ensures counted { OnOk result
            (self.new.tally ≡ spec.tally_after self.old notice.now) }
        ensures grows { Grows self.old.tally self.new.tally }
        ensures failed { OnErr result (ReportsNothing self.old self.new) }
    {
        if !self.takes(notice) {
            return Ok(());
        }
        let mut lines = String::new(alloc);
        write_notice_at(alloc, &mut lines, self.style, page, notice, key)?;
        self.push(lines.as_str())?;
        self.count(notice.weight);
        Ok(())
    }

    // Appends whole lines to standard output.
    pub(crate) fn print(&mut self, lines: &str) -> Result<(), AllocError>
        ensures tally { self.new.tally ≡ self.old.tally }
        ensures failed { OnErr result (ReportsNothing self.old self.new) }
    {
        self.output.push_str(lines)
    }

    // Appends whole lines to standard error.
    pub(crate) fn tell(&mut self, lines: &str) -> Result<(), AllocError>
        ensures tally { self.new.tally ≡ self.old.tally }
        ensures failed { OnErr result (ReportsNothing self.old self.new) }
    {
        self.messages.push_str(lines)
    }

    // Counts a file that could not be read.
    pub(crate) fn count_failure(&mut self)
        ensures counted { self.new ≡ record self.old { tally = failed_once self.old.tally } }
        ensures grows { Grows self.old.tally self.new.tally }
    {
        self.tally.failures = self.tally.failures.saturating_add(1);
    }

    /// Reports a file of the command line that could not be read.
    ///
    /// # Errors
    /// - `AllocError` when memory runs out. Then nothing is counted, or written in part.
    pub fn unread(&mut self, alloc: Global, name: &str, error: &io::Error) -> Result<(), AllocError>
        ensures counted { OnOk result (self.new.tally ≡ failed_once self.old.tally) }
        ensures grows { Grows self.old.tally self.new.tally }
        ensures failed { OnErr result (ReportsNothing self.old self.new) }
    {
        let line = format!(in alloc; "pep508: {name}: {error}\n")?;
        self.tell(line.as_str())?;
        self.count_failure();
        Ok(())
    }

    /// Writes the output that is not written yet.
    pub fn flush<H: Host>(&mut self, host: &mut H) -> Result<(), Failure>
        ensures { self.new.tally ≡ self.old.tally }
    {
        if !self.output.is_empty() {
            host.write_output(self.output.as_str())?;
            self.output.clear();
        }
        if !self.messages.is_empty() {
            host.write_message(self.messages.as_str())?;
            self.messages.clear();
        }
        Ok(())
    }

    /// Returns whether there is so much output that it should be written.
    pub fn is_full(&self) -> bool {
        self.output.len() >= KEPT || self.messages.len() >= KEPT
    }
}
