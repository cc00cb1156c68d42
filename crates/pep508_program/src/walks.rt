//! Reading files line by line, with the files that they include.

ghost use Rattle.pep508_program.specs.Reporting.{Grows};

mod fields;
mod folders;
mod project;

use crate::arguments::{Request, Task};
use crate::excerpts::visible;
use crate::failures::Failure;
use crate::hosts::Host;
use crate::kinds::{FileKind, file_name, kind_of_name};
use crate::listing::{ListedPlace, write_listed};
use crate::marks::{Mark, marks_of};
use crate::notices::{Notice, Page, Span, Style, Weight};
use crate::opened::{OpenFiles, Opening};
use crate::progress::Progress;
use crate::reports::Report;
use crate::sheets::{Sheet, is_url, path_beside};
use crate::texts::{Encoding, declared_encoding};
use crate::variables::{Values, learn_variables};
use requirement_findings::{CheckLines, CheckedLine, Finding, Listed, Severity};
use requirement_lines::{
    Piece, Position, Positions, Source, next_line, place_at, replace_variables, text_of,
    without_mark,
};
use requirement_options::{Content, FileLine};
use std::alloc::{AllocError, Global};
use std::collections::BTreeMap;
use std::fmt::Write;
use std::io;

/// How deep files may include one another.
pub const DEEPEST: u32 = 100;

// The place of a line that was checked.
#[derive(Clone, Copy)]
struct Spot {
    // Which of the files that were opened.
    file: usize,
    line: usize,
}

// A file that a line includes.
#[derive(Drop)]
struct Include {
    path: String,
    // No character of the path comes from the value of a variable.
    is_written: bool,
    is_constraint: bool,
    span: Span,
}

// A file that is being read.
#[derive(Drop)]
struct Reading<'t> {
    sheet: &'t Sheet,
    // Which of the files that were opened.
    file: usize,
    positions: Positions<'t>,
}

/// A command that is being run.
#[derive(Drop)]
pub struct Walk<'s, H, C> {
    alloc: Global,
    host: &'s mut H,
    checker: &'s mut C,
    request: Request<'s>,
    values: Values<'s>,
    pub report: Report<'s>,
    files: OpenFiles,
    progress: Progress,
    // The lines that were checked, and the names of the files that they are in.
    spots: Vec<Spot>,
    names: Vec<String>,
    // How many requirements were read.
    requirements: u64,
}

// The weight of a finding.
fn weight_of(finding: &Finding) -> Weight {
    match finding.name.severity() {
        Severity::Error => Weight::Error,
        Severity::Warning | Severity::Hint => Weight::Warning,
    }
}

fn is_hint(finding: &Finding) -> bool {
    finding.name.severity() == Severity::Hint
}

// The path of an included file as it is shown: relative to the file that includes it; as it is
// written if it has the value of a variable.
fn shown_path(alloc: Global, sheet: &Sheet, include: &Include) -> Result<String, AllocError> {
    let span = include.span;
    let written = if include.is_written {
        include.path.as_str()
    } else {
        sheet.text().get(span.start..span.end).unwrap_or("")
    };
    let shown = visible(alloc, written)?;
    path_beside(alloc, sheet.shown.as_str(), shown.as_str())
}

// The byte of a file at a place.
fn offset_of(sheet: &Sheet, to_end: usize) -> usize {
    sheet.text().len().saturating_sub(to_end)
}

fn to_end_of(sheet: &Sheet, offset: usize) -> usize {
    sheet.text().len().saturating_sub(offset)
}

// Whether a byte of the line is not UTF-8.
fn is_spoiled(sheet: &Sheet, line: &[Piece<'_>]) -> bool {
    line.iter().any(|piece| {
        let start = offset_of(sheet, piece.place.to_end);
        sheet.has_invalid(start, start.saturating_add(piece.text.len()))
    })
}

// The path of the file that the line includes.
fn included_path<'l, 'f>(line: &'l FileLine<'f>) -> Option<&'l [Piece<'f>]> {
    match &line.content {
        Content::File(path) | Content::Constraints(path) => Some(path.as_slice()),
        _ => None,
    }
}

fn has_requirement(line: &FileLine<'_>) -> bool {
    matches!(line.content, Content::Requirement(_) | Content::Editable(_))
}

// The file that the line includes. Its mark is the one without a finding.
fn include_of(
    alloc: Global,
    line: &FileLine<'_>,
    marks: &[Mark<'_>],
) -> Result<Option<Include>, AllocError> {
    let Some(path) = included_path(line) else {
        return Ok(None);
    };
    let Some(mark) = marks.iter().find(|mark| mark.finding.is_none()) else {
        return Ok(None);
    };
    Ok(Some(Include {
        path: text_of(alloc, path)?,
        is_written: path.iter().all(|piece| piece.place.source == Source::File),
        is_constraint: matches!(line.content, Content::Constraints(_)),
        span: mark.span,
    }))
}

fn error_at<'a>(name: &'a str, message: &'a str, span: Span) -> Notice<'a> {
    Notice {
        weight: Weight::Error,
        name,
        message,
        span,
    }
}

impl<'s, H: Host, C: CheckLines> Walk<'s, H, C> {
    /// Returns a command that has read nothing.
    pub fn new(
        alloc: Global,
        host: &'s mut H,
        checker: &'s mut C,
        request: Request<'s>,
        folder: &'s str,
        style: Style,
    ) -> Walk<'s, H, C> {
        let is_shown = host.is_message_terminal();
        Walk {
            alloc,
            host,
            checker,
            request,
            values: Values {
                given: request.variables,
                folder,
            },
            report: Report::new(alloc, style, request.ignored, request.task == Task::List),
            files: OpenFiles::new(alloc),
            progress: Progress::new(is_shown),
            spots: Vec::new(alloc),
            names: Vec::new(alloc),
            requirements: 0,
        }
    }

    /// Writes the output that is not written yet.
    pub fn flush(&mut self) -> Result<(), Failure>
        ensures { Grows self.old.report.tally self.new.report.tally }
    {
        self.progress.clear(self.host)?;
        self.report.flush(self.host)
    }

    // The message of a finding as it is shown: with the place of the earlier line, if there is one.
    fn message_of(&self, finding: &Finding) -> Result<String, AllocError> {
        let mut message = visible(self.alloc, finding.message.as_str())?;
        if let Some(earlier) = finding.earlier {
            if let Some(spot) = self.spots.get(earlier) {
                if let Some(name) = self.names.get(spot.file) {
                    write!(message, " ({name}:{})", spot.line)?;
                }
            }
        }
        Ok(message)
    }

    // Reports a finding.
    fn report_finding(
        &mut self,
        page: &Page<'_>,
        finding: &Finding,
        span: Span,
        key: Option<&str>,
    ) -> Result<(), AllocError>
        ensures { Grows self.old.report.tally self.new.report.tally }
    {
        let message = self.message_of(finding)?;
        let notice = Notice {
            weight: weight_of(finding),
            name: finding.name.name(),
            message: message.as_str(),
            span,
        };
        self.report.notice_at(self.alloc, page, &notice, key)
    }

    // Reports the findings of a line that are hints, or those that are not.
    fn report_marks(
        &mut self,
        page: &Page<'_>,
        marks: &[Mark<'_>],
        hints: bool,
        key: Option<&str>,
    ) -> Result<(), AllocError>
        ensures { Grows self.old.report.tally self.new.report.tally }
    {
        for mark in marks {
            if let Some(finding) = mark.finding {
                if is_hint(finding) == hints {
                    self.report_finding(page, finding, mark.span, key)?;
                }
            }
        }
        Ok(())
    }

    // Reports the first byte that is not UTF-8 of each line from one byte to another.
    fn report_invalid(
        &mut self,
        reading: &mut Reading<'_>,
        start: usize,
        end: usize,
    ) -> Result<(), AllocError>
        ensures { Grows self.old.report.tally self.new.report.tally }
    {
        let sheet = reading.sheet;
        let invalid = sheet.content.invalid.as_slice();
        let first = invalid.partition_point(|at| *at < start);
        let mut told = 0usize;
        for index in first..invalid.len() {
            let at = invalid[index];
            if at >= end {
                break;
            }
            let position = reading.positions.position_of(to_end_of(sheet, at));
            if position.line != told {
                told = position.line;
                let span = Span {
                    start: at,
                    end: at.saturating_add(1),
                    position,
                };
                let notice = error_at("invalid-utf-8", "this byte is not UTF-8", span);
                self.report.notice(self.alloc, &sheet.page(), &notice)?;
            }
        }
        Ok(())
    }

    // Reports an encoding that is not supported.
    fn report_encoding(&mut self, sheet: &Sheet) -> Result<(), AllocError>
        ensures { Grows self.old.report.tally self.new.report.tally }
    {
        let message = match sheet.encoding {
            None => return Ok(()),
            Some(Encoding::Utf16) => "the file is UTF-16, and only UTF-8 is read",
            Some(Encoding::Utf32) => "the file is UTF-32, and only UTF-8 is read",
        };
        let span = Span {
            start: 0,
            end: 0,
            position: Position { line: 1, column: 1 },
        };
        let notice = error_at("encoding", message, span);
        self.report.notice(self.alloc, &sheet.page(), &notice)
    }

    // Reports a declaration of another encoding.
    fn report_declared(&mut self, reading: &mut Reading<'_>) -> Result<(), AllocError>
        ensures { Grows self.old.report.tally self.new.report.tally }
    {
        let sheet = reading.sheet;
        let Some((start, name)) = declared_encoding(sheet.text()) else {
            return Ok(());
        };
        let span = Span {
            start,
            end: start.saturating_add(name.len()),
            position: reading.positions.position_of(to_end_of(sheet, start)),
        };
        let notice = Notice {
            weight: Weight::Warning,
            name: "declared-encoding",
            message: "the file declares another encoding, but it is read as UTF-8",
            span,
        };
        self.report.notice(self.alloc, &sheet.page(), &notice)
    }

    // Lists the requirement of a line, or of a key of a project.
    fn list_line(
        &mut self,
        sheet: &Sheet,
        line: &[Piece<'_>],
        span: Span,
        key: Option<&str>,
        listed: Option<&Listed>,
    ) -> Result<(), AllocError>
        ensures { Grows self.old.report.tally self.new.report.tally }
    {
        if self.request.task != Task::List {
            return Ok(());
        }
        let Some(listed) = listed else {
            return Ok(());
        };
        let place = ListedPlace {
            file: sheet.shown.as_str(),
            span,
            key,
        };
        let mut text = String::new(self.alloc);
        let format = self.request.format;
        write_listed(self.alloc, &mut text, format, &place, line, listed)?;
        self.report.print(text.as_str())
    }

    // Reports the findings of a line, or of a key of a project, and lists its requirement. Hints
    // come last.
    fn report_marked(
        &mut self,
        sheet: &Sheet,
        line: &[Piece<'_>],
        span: Span,
        key: Option<&str>,
        marks: &[Mark<'_>],
        listed: Option<&Listed>,
    ) -> Result<(), AllocError>
        ensures { Grows self.old.report.tally self.new.report.tally }
    {
        self.report_marks(&sheet.page(), marks, false, key)?;
        self.report_marks(&sheet.page(), marks, true, key)?;
        self.list_line(sheet, line, span, key, listed)
    }

    // Reports the findings of a line that was checked, and lists its requirement. Returns the file
    // that the line includes.
    fn report_line(
        &mut self,
        reading: &mut Reading<'_>,
        line: &[Piece<'_>],
        span: Span,
        checked: &CheckedLine<'_>,
    ) -> Result<Option<Include>, AllocError>
        ensures { Grows self.old.report.tally self.new.report.tally }
    {
        let sheet = reading.sheet;
        let findings = checked.findings.as_slice();
        let path = included_path(&checked.line);
        let positions = &mut reading.positions;
        let marks = marks_of(self.alloc, sheet.text(), findings, path, positions)?;
        let listed = checked.listed.as_ref();
        self.report_marked(sheet, line, span, None, marks.as_slice(), listed)?;
        include_of(self.alloc, &checked.line, marks.as_slice())
    }

    // Checks a line, whose variables are replaced, and reports the findings.
    fn check_line(
        &mut self,
        reading: &mut Reading<'_>,
        line: &[Piece<'_>],
        span: Span,
        variables: &BTreeMap<String, String>,
    ) -> Result<Option<Include>, AllocError>
        ensures { Grows self.old.report.tally self.new.report.tally }
    {
        self.spots.push(Spot {
            file: reading.file,
            line: span.position.line,
        })?;
        let sheet = reading.sheet;
        let replaced = replace_variables(self.alloc, line, variables)?;
        let checked = self.checker.check_line(
            self.alloc,
            sheet.text(),
            replaced.as_slice(),
            sheet.is_constraint,
        )?;
        if has_requirement(&checked.line) {
            self.requirements = self.requirements.saturating_add(1);
        }
        self.report_line(reading, line, span, &checked)
    }

    // Processes a line: from the rest of the file before it to the rest after it.
    fn take_line(
        &mut self,
        reading: &mut Reading<'_>,
        line: &[Piece<'_>],
        before: usize,
        after: usize,
        variables: &mut BTreeMap<String, String>,
    ) -> Result<Option<Include>, Failure>
        ensures { Grows self.old.report.tally self.new.report.tally }
    {
        let sheet = reading.sheet;
        let to_end = place_at(line, 0).to_end;
        let start = offset_of(sheet, to_end);
        let end = offset_of(sheet, after);
        self.report_invalid(reading, offset_of(sheet, before), start)?;
        let span = Span {
            start,
            end,
            position: reading.positions.position_of(to_end),
        };
        let mut include = None;
        if !is_spoiled(sheet, line) {
            learn_variables(self.alloc, self.host, self.values, line, variables)?;
            include = self.check_line(reading, line, span, variables)?;
        }
        self.report_invalid(reading, start, end)?;
        self.progress.step(self.alloc, self.host)?;
        if self.report.is_full() {
            self.flush()?;
        }
        Ok(include)
    }

    // Begins a file.
    fn begin<'t>(&mut self, sheet: &'t Sheet) -> Result<Reading<'t>, AllocError>
        ensures { Grows self.old.report.tally self.new.report.tally }
    {
        let name = String::from_str(self.alloc, sheet.shown.as_str())?;
        self.names.push(name)?;
        self.report_encoding(sheet)?;
        Ok(Reading {
            sheet,
            file: self.names.len().saturating_sub(1),
            positions: Positions::new(sheet.text()),
        })
    }

    // Reports an include that is not followed.
    fn refuse(
        &mut self,
        sheet: &Sheet,
        include: &Include,
        weight: Weight,
        name: &str,
        message: &str,
    ) -> Result<(), AllocError>
        ensures { Grows self.old.report.tally self.new.report.tally }
    {
        let notice = Notice {
            weight,
            name,
            message,
            span: include.span,
        };
        self.report.notice(self.alloc, &sheet.page(), &notice)
    }

    // Reports an included file that cannot be read.
    fn refuse_unreadable(
        &mut self,
        sheet: &Sheet,
        include: &Include,
        error: &io::Error,
    ) -> Result<(), AllocError>
        ensures { Grows self.old.report.tally self.new.report.tally }
    {
        let shown = shown_path(self.alloc, sheet, include)?;
        let message = format!(in self.alloc; "cannot read {shown}: {error}")?;
        self.refuse(
            sheet,
            include,
            Weight::Error,
            "unreadable-file",
            message.as_str(),
        )?;
        self.report.count_failure();
        Ok(())
    }

    // Reports an include of a URL.
    fn refuse_url(&mut self, sheet: &Sheet, include: &Include) -> Result<(), AllocError>
        ensures { Grows self.old.report.tally self.new.report.tally }
    {
        let message = "a file at a URL is not read";
        self.refuse(sheet, include, Weight::Warning, "not-fetched", message)
    }

    // Reports an include that is too deep.
    fn refuse_depth(&mut self, sheet: &Sheet, include: &Include) -> Result<(), AllocError>
        ensures { Grows self.old.report.tally self.new.report.tally }
    {
        let message = "files include one another more than 100 deep";
        self.refuse(sheet, include, Weight::Error, "too-deep", message)
    }

    // Reports an include of a file that is open.
    fn refuse_cycle(&mut self, sheet: &Sheet, include: &Include) -> Result<(), AllocError>
        ensures { Grows self.old.report.tally self.new.report.tally }
    {
        let message = "this file is being read, and includes itself";
        self.refuse(sheet, include, Weight::Error, "include-cycle", message)
    }

    // Reads a file line by line, and the files that it includes.
    #[cycle(walk)]
    fn walk_file(
        &mut self,
        sheet: &Sheet,
        variables: &mut BTreeMap<String, String>,
        depth: u32,
    ) -> Result<(), Failure>
        ensures { Grows self.old.report.tally self.new.report.tally }
    {
        let mut reading = self.begin(sheet)?;
        self.report_declared(&mut reading)?;
        let mut rest = without_mark(sheet.text());
        while let Some((line, after)) = next_line(self.alloc, rest)? {
            let (from, to) = (rest.len(), after.len());
            rest = after;
            let found = self.take_line(&mut reading, line.as_slice(), from, to, variables)?;
            if let Some(include) = found {
                self.follow(sheet, &include, variables, depth)?;
            }
        }
        let start = offset_of(sheet, rest.len());
        self.report_invalid(&mut reading, start, sheet.text().len())?;
        Ok(())
    }

    // Reads a file that a line includes.
    #[cycle(walk)]
    fn follow(
        &mut self,
        sheet: &Sheet,
        include: &Include,
        variables: &mut BTreeMap<String, String>,
        depth: u32,
    ) -> Result<(), Failure>
        ensures { Grows self.old.report.tally self.new.report.tally }
    {
        if is_url(include.path.as_str()) {
            self.refuse_url(sheet, include)?;
            return Ok(());
        }
        if depth == 0 {
            self.refuse_depth(sheet, include)?;
            return Ok(());
        }
        let path = path_beside(self.alloc, sheet.path.as_str(), include.path.as_str())?;
        let is_constraint = include.is_constraint;
        match self
            .files
            .open(self.alloc, self.host, path.as_str(), is_constraint)?
        {
            Opening::Open(mut inner) => {
                inner.shown = shown_path(self.alloc, sheet, include)?;
                self.walk_file(&inner, variables, depth - 1)?;
                self.files.close(is_constraint)?;
            }
            Opening::Cycle => self.refuse_cycle(sheet, include)?,
            Opening::Known => {}
            Opening::Unreadable(error) => {
                self.refuse_unreadable(sheet, include, &error)?;
            }
        }
        Ok(())
    }

    // Reads a whole file of this kind.
    fn walk_whole(
        &mut self,
        sheet: &Sheet,
        kind: FileKind,
        variables: &mut BTreeMap<String, String>,
    ) -> Result<(), Failure>
        ensures { Grows self.old.report.tally self.new.report.tally }
    {
        match kind {
            FileKind::Project => self.walk_project(sheet),
            FileKind::Metadata => self.walk_metadata(sheet),
            FileKind::Requirements => self.walk_file(sheet, variables, DEEPEST),
        }
    }

    // Reads a file of this kind, or one group of it.
    fn walk_sheet(
        &mut self,
        sheet: &Sheet,
        kind: FileKind,
        variables: &mut BTreeMap<String, String>,
    ) -> Result<(), Failure>
        ensures { Grows self.old.report.tally self.new.report.tally }
    {
        let Some(group) = self.request.group else {
            return self.walk_whole(sheet, kind, variables);
        };
        match kind {
            FileKind::Project => self.walk_group(sheet, group),
            FileKind::Metadata | FileKind::Requirements => self.refuse_kind(sheet),
        }
    }

    // Reads standard input.
    fn walk_input(&mut self, variables: &mut BTreeMap<String, String>) -> Result<(), Failure>
        ensures { Grows self.old.report.tally self.new.report.tally }
    {
        match self.host.read_input(self.alloc) {
            Ok(bytes) => {
                let sheet = Sheet::new(self.alloc, "<stdin>", bytes, false)?;
                let kind = self.request.kind.unwrap_or(FileKind::Requirements);
                self.walk_sheet(&sheet, kind, variables)
            }
            Err(error) => self.report_unread("<stdin>", &error),
        }
    }

    // Reports a file of the command line that cannot be read.
    fn report_unread(&mut self, path: &str, error: &io::Error) -> Result<(), Failure>
        ensures { Grows self.old.report.tally self.new.report.tally }
    {
        if error.kind() == io::ErrorKind::OutOfMemory {
            return Err(Failure::OutOfMemory);
        }
        let shown = visible(self.alloc, path)?;
        self.report.unread(self.alloc, shown.as_str(), error)?;
        self.flush()
    }

    // Reads a file of this kind.
    fn walk_path(
        &mut self,
        path: &str,
        kind: FileKind,
        variables: &mut BTreeMap<String, String>,
    ) -> Result<(), Failure>
        ensures { Grows self.old.report.tally self.new.report.tally }
    {
        match self.files.open(self.alloc, self.host, path, false)? {
            Opening::Open(sheet) => {
                self.walk_sheet(&sheet, kind, variables)?;
                self.files.close(false)?;
                self.flush()
            }
            Opening::Cycle | Opening::Known => Ok(()),
            Opening::Unreadable(error) => self.report_unread(path, &error),
        }
    }

    // Reads a file of the command line.
    fn walk_named(
        &mut self,
        path: &str,
        variables: &mut BTreeMap<String, String>,
    ) -> Result<(), Failure>
        ensures { Grows self.old.report.tally self.new.report.tally }
    {
        let kind = match self.request.kind {
            Some(kind) => kind,
            None => kind_of_name(file_name(path)),
        };
        self.walk_path(path, kind, variables)
    }

    // Reads what the command line names, if that is anything: a file, a folder, or standard input.
    fn walk_word(
        &mut self,
        word: &str,
        variables: &mut BTreeMap<String, String>,
    ) -> Result<(), Failure>
        ensures { Grows self.old.report.tally self.new.report.tally }
    {
        if word == "-" {
            self.walk_input(variables)
        } else if self.request.is_recursive {
            self.walk_tree(word, variables)
        } else {
            self.walk_named(word, variables)
        }
    }

    // Appends the summary.
    fn summarize(&mut self) -> Result<(), AllocError>
        ensures { Grows self.old.report.tally self.new.report.tally }
    {
        let files = u64::try_from(self.names.len()).unwrap_or(u64::MAX);
        let summary = self
            .report
            .tally
            .summary(self.alloc, self.requirements, files)?;
        self.report.tell(summary.as_str())
    }

    /// Reports the findings of a file that was read, and of the files that it includes.
    pub fn report_file(&mut self, sheet: &Sheet) -> Result<(), Failure>
        ensures { Grows self.old.report.tally self.new.report.tally }
    {
        let mut variables = BTreeMap::new(self.alloc);
        self.walk_file(sheet, &mut variables, DEEPEST)?;
        self.flush()
    }

    /// Reads all files of the command line, or standard input if there are none.
    pub fn run(&mut self) -> Result<(), Failure>
        ensures { Grows self.old.report.tally self.new.report.tally }
    {
        let mut variables = BTreeMap::new(self.alloc);
        let files = self.request.files;
        if files.is_empty() {
            let word = if self.request.is_recursive { "." } else { "-" };
            self.walk_word(word, &mut variables)?;
        }
        for word in files {
            self.walk_word(word, &mut variables)?;
        }
        if self.request.task == Task::Check {
            self.summarize()?;
        }
        self.flush()
    }
}
