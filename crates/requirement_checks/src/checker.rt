//! Checking the lines of requirements files.

ghost use Rattle.std.specs.Prelude.{◌≡◌, IfSome, OnOk};
ghost use Rattle.requirement_checks.specs.Findings.{names_of, HoldsMarker};
ghost use Rattle.requirement_lines.specs.Reports.{text_of};
ghost use Rattle.requirement_checks.specs.Lines as spec;
ghost use Rattle.requirement_checks.specs.Lines.{requirement_in, AddsFrom, AddsHints, AddsIn, AddsLine, AddsOthers, IsChecked, IsCheckedText};
ghost use Rattle.requirement_checks.specs.Specifiers.{FindsInSpecifiers};
ghost use Rattle.requirement_options.specs.Content.{said_in};

use crate::hints::{Subject, add_hints};
use crate::judging::judge;
use crate::listing::listed_of;
use crate::option_faults::add_faults;
use crate::part::Page;
use crate::reading::{Form, Reading};
use crate::repeated::Earlier;
use crate::specifiers::specifier_findings;
use marker_graph::{Interner, Mark};
use pep508_errors::Surroundings;
use pep508_urls::VerbatimUrl;
use requirement_findings::{CheckLines, CheckedLine, CheckedText, Finding, Listed, Origin};
use requirement_lines::{Piece, text_of};
use requirement_options::{Content, FileLine, read_line};
use std::alloc::{AllocError, Global};
use std::collections::BTreeMap;

/// How lines are checked.
#[derive(Clone, Copy)]
pub struct CheckSettings<'s> {
    /// The current folder: the start of relative paths, and the value of `${PROJECT_ROOT}`.
    pub folder: &'s str,
    /// Two random words, the key by which nodes of markers are hashed.
    pub key: [u64; 2],
    /// How many pieces the nodes of a marker may have. Hints have as much room again for what they
    /// remember.
    pub room: usize,
    /// Whether requirements are printed. Then one whose text needs more room is too complex.
    pub prints: bool,
    /// Whether `listed` is needed.
    pub lists: bool,
    /// Whether values of variables may be listed.
    pub shows_values: bool,
}

// A requirement to be checked.
#[derive(Clone, Copy)]
struct Job<'a, 'f, 'o> {
    page: Page<'a, 'f>,
    text: &'a str,
    line: &'a FileLine<'f>,
    form: Form,
    is_constraint: bool,
    // Where it comes from, if it is no line of a requirements file.
    origin: Option<Origin<'o>>,
    // The number of the line.
    number: usize,
    prints: bool,
    lists: bool,
    shows_values: bool,
}

// The requirement of a line, and its form.
fn requirement_of<'l, 'f>(line: &'l FileLine<'f>) -> Option<(&'l [Piece<'f>], Form)>
    ensures { spec.requirement_of result ≡ requirement_in (said_in line.now.content) }
{
    match &line.content {
        Content::Requirement(pieces) => Some((pieces.as_slice(), Form::Any)),
        Content::Editable(pieces) => Some((pieces.as_slice(), Form::Unnamed)),
        _ => None,
    }
}

// Appends hints on a requirement, and lists it, if it was read.
#[tactic(auto, using(crate::proofs::LineLaws::hints_none))]
fn finish(
    alloc: Global,
    job: Job<'_, '_, '_>,
    read: &Option<Reading<VerbatimUrl>>,
    surroundings: &Surroundings<'_>,
    interner: &Interner,
    earlier: &mut Earlier,
    findings: &mut Vec<Finding>,
) -> Result<Option<Listed>, AllocError>
    requires { IfSome read.now (HoldsMarker interner.now) }
    ensures { OnOk result (AddsHints findings.old.items findings.new.items) }
{
    let Some(reading) = read else {
        return Ok(None);
    };
    let subject = Subject {
        text: job.text,
        reading,
        number: job.number,
        is_constraint: job.is_constraint,
        origin: job.origin,
    };
    add_hints(alloc, &job.page, subject, surroundings, earlier, findings)?;
    if !job.lists {
        return Ok(None);
    }
    let listed = listed_of(
        alloc,
        &job.page,
        reading,
        interner,
        job.line,
        job.is_constraint,
        job.shows_values,
    )?;
    Ok(listed)
}

// Appends what follows the warnings or the error of a requirement: the faults of its options, and
// hints if it was parsed. Returns its entry of the list.
fn add_others(
    alloc: Global,
    job: Job<'_, '_, '_>,
    read: &Option<Reading<VerbatimUrl>>,
    surroundings: &Surroundings<'_>,
    interner: &Interner,
    earlier: &mut Earlier,
    findings: &mut Vec<Finding>,
) -> Result<Option<Listed>, AllocError>
    requires { IfSome read.now (HoldsMarker interner.now) }
    ensures { OnOk result (AddsOthers job.entry findings.old findings.new) }
{
    add_faults(alloc, job.page.file, job.line.faults.as_slice(), findings)?;
    let listed = finish(alloc, job, read, surroundings, interner, earlier, findings)?;
    Ok(listed)
}

// Checks a requirement, whose marker is put into the interner.
fn check_within(
    alloc: Global,
    job: Job<'_, '_, '_>,
    surroundings: &Surroundings<'_>,
    interner: &mut Interner,
    earlier: &mut Earlier,
    findings: &mut Vec<Finding>,
) -> Result<Option<Listed>, AllocError>
    ensures { OnOk result (AddsIn surroundings.now job.entry findings.old findings.new) }
{
    let read = judge::<VerbatimUrl>(
        &job.page,
        job.text,
        job.form,
        job.prints,
        surroundings,
        interner,
        findings,
    )?;
    add_others(alloc, job, &read, surroundings, interner, earlier, findings)
}

// An interner with more pieces is not kept for the next requirement.
const MOST_KEPT: usize = 4096;

/// Checks lines of requirements files, and remembers what hints need of earlier ones.
#[derive(Drop)]
pub struct Checker<'s> {
    settings: CheckSettings<'s>,
    // For the nodes of a requirement's marker. It is empty.
    interner: Option<Interner>,
    earlier: Earlier,
    // How many lines were checked.
    count: usize,
}

impl<'s> Checker<'s> {
    /// Returns a checker that has seen no line.
    pub fn new(alloc: Global, settings: CheckSettings<'s>) -> Checker<'s>
        ensures { result.settings ≡ settings.entry }
    {
        Checker {
            settings,
            interner: None,
            earlier: Earlier::new(alloc, settings.key, settings.room),
            count: 0,
        }
    }

    // An interner without nodes.
    fn take_interner(&mut self, alloc: Global) -> Interner
        ensures { self.new.settings ≡ self.old.settings }
    {
        match self.interner.take() {
            Some(interner) => interner,
            None => { Interner::with_key_and_room(alloc, self.settings.key, self.settings.room) }
        }
    }

    // Keeps an interner for the next requirement, without the nodes that were made since the mark.
    fn put_back(&mut self, mut interner: Interner, mark: Mark)
        ensures { self.new.settings ≡ self.old.settings }
    {
        if interner.pieces() <= MOST_KEPT && !interner.has_met_room() {
            interner.release(mark);
            self.interner = Some(interner);
        }
    }

    // Checks a requirement, whose marker has the room of an interner.
    fn check_job(
        &mut self,
        alloc: Global,
        job: Job<'_, '_, '_>,
        findings: &mut Vec<Finding>,
    ) -> Result<Option<Listed>, AllocError>
        ensures settings { self.new.settings ≡ self.old.settings }
        ensures found { OnOk result (AddsFrom self.old job.entry findings.old findings.new) }
    {
        let settings = self.settings;
        let none = BTreeMap::new(alloc);
        let surroundings = Surroundings {
            vars: &none,
            project_root: settings.folder,
            working_dir: Some(settings.folder),
        };
        let mut interner = self.take_interner(alloc);
        let mark = interner.mark();
        let earlier = &mut self.earlier;
        let listed = check_within(alloc, job, &surroundings, &mut interner, earlier, findings);
        self.put_back(interner, mark);
        listed
    }

    // Checks the content of a line.
    fn check_content(
        &mut self,
        alloc: Global,
        file: &str,
        line: &FileLine<'_>,
        is_constraint: bool,
        findings: &mut Vec<Finding>,
    ) -> Result<Option<Listed>, AllocError>
        ensures settings { self.new.settings ≡ self.old.settings }
        ensures found { OnOk result (AddsLine self.old line.now findings.old findings.new) }
    {
        let number = self.count;
        self.count = number.saturating_add(1);
        let Some((pieces, form)) = requirement_of(line) else {
            add_faults(alloc, file, line.faults.as_slice(), findings)?;
            return Ok(None);
        };
        let owned = text_of(alloc, pieces)?;
        let text = owned.as_str();
        let job = Job {
            page: Page {
                file,
                pieces,
                size: text.len(),
            },
            text,
            line,
            form,
            is_constraint,
            origin: None,
            number,
            prints: self.settings.prints,
            lists: self.settings.lists,
            shows_values: self.settings.shows_values,
        };
        let listed = self.check_job(alloc, job, findings)?;
        Ok(listed)
    }
}

impl CheckLines for Checker<'_> {
    ghost checks = { λ old line checked new.
        IsChecked old.settings.folder.now line checked × (new.settings ≡ old.settings) };

    ghost checks_text = { λ old text checked new.
        IsCheckedText old.settings.folder.now text checked × (new.settings ≡ old.settings) };

    ghost finds = { λ text findings. FindsInSpecifiers (text_of text) (names_of findings) };

    fn check_line<'f>(
        &mut self,
        alloc: Global,
        file: &'f str,
        line: &[Piece<'f>],
        is_constraint: bool,
    ) -> Result<CheckedLine<'f>, AllocError> {
        let line = read_line(alloc, line)?;
        let mut findings = Vec::new(alloc);
        let listed = self.check_content(alloc, file, &line, is_constraint, &mut findings)?;
        Ok(CheckedLine {
            line,
            findings,
            listed,
        })
    }

    fn check_requirement<'f>(
        &mut self,
        alloc: Global,
        file: &'f str,
        text: &[Piece<'f>],
        origin: Origin<'_>,
    ) -> Result<CheckedText, AllocError> {
        let line = FileLine {
            content: Content::Settings,
            options: Vec::new(alloc),
            faults: Vec::new(alloc),
        };
        let owned = text_of(alloc, text)?;
        let job = Job {
            page: Page {
                file,
                pieces: text,
                size: owned.len(),
            },
            text: owned.as_str(),
            line: &line,
            form: Form::Named,
            is_constraint: false,
            origin: Some(origin),
            number: 0,
            prints: self.settings.prints,
            lists: self.settings.lists,
            shows_values: self.settings.shows_values,
        };
        let mut findings = Vec::new(alloc);
        let listed = self.check_job(alloc, job, &mut findings)?;
        Ok(CheckedText { findings, listed })
    }

    fn check_specifiers<'f>(
        &self,
        alloc: Global,
        file: &'f str,
        text: &[Piece<'f>],
    ) -> Result<Vec<Finding>, AllocError> {
        let owned = text_of(alloc, text)?;
        let page = Page {
            file,
            pieces: text,
            size: owned.len(),
        };
        specifier_findings(alloc, &page, owned.as_str())
    }
}
