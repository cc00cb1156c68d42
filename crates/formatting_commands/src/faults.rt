//! The faults of requirements.

ghost use Rattle.std.specs.Prelude.{⊤};

use crate::formatting::FormatSettings;
use pep508_program::{Coloring, Failure, Format, Host, Request, Sheet, Style, Tally, Task, Walk};
use requirement_findings::{CheckLines, CheckedLine, CheckedText, Finding, FindingName, Origin};
use requirement_lines::Piece;
use requirement_options::{Content, FileLine};
use std::alloc::{AllocError, Global};

// Checks lines for faults of their requirements alone. No line includes a file.
#[derive(Drop)]
struct RequirementFaults<'c, C> {
    checker: &'c mut C,
}

// Whether the finding is a requirement that is not read.
fn is_fault(finding: &Finding) -> bool {
    matches!(
        finding.name,
        FindingName::InvalidRequirement | FindingName::NumberTooLarge | FindingName::TooComplex
    )
}

impl<C: CheckLines> CheckLines for RequirementFaults<'_, C> {
    ghost checks = { λ old line checked new. ⊤ };

    fn check_line<'f>(
        &mut self,
        alloc: Global,
        file: &'f str,
        line: &[Piece<'f>],
        is_constraint: bool,
    ) -> Result<CheckedLine<'f>, AllocError> {
        let mut checked = self.checker.check_line(alloc, file, line, is_constraint)?;
        checked.findings.retain(is_fault);
        Ok(CheckedLine {
            line: FileLine {
                content: Content::Settings,
                options: Vec::new(alloc),
                faults: Vec::new(alloc),
            },
            findings: checked.findings,
            listed: None,
        })
    }

    ghost checks_text = { λ old text checked new. ⊤ };

    fn check_requirement<'f>(
        &mut self,
        alloc: Global,
        file: &'f str,
        text: &[Piece<'f>],
        origin: Origin<'_>,
    ) -> Result<CheckedText, AllocError> {
        self.checker.check_requirement(alloc, file, text, origin)
    }

    ghost finds = { λ text findings. ⊤ };

    fn check_specifiers<'f>(
        &self,
        alloc: Global,
        file: &'f str,
        text: &[Piece<'f>],
    ) -> Result<Vec<Finding>, AllocError> {
        self.checker.check_specifiers(alloc, file, text)
    }
}

// A request to report the errors of one file.
const REQUEST: Request<'static> = Request {
    task: Task::List,
    files: &[],
    kind: None,
    is_recursive: false,
    format: Format::Text,
    coloring: Coloring::Never,
    is_strict: false,
    ignored: &[],
    variables: &[],
    limit: u64::MAX,
    shows_values: false,
    group: None,
};

// Reports what the checker finds in a file. Returns how much was reported.
fn report_file<H: Host, C: CheckLines>(
    alloc: Global,
    host: &mut H,
    checker: &mut C,
    sheet: &Sheet,
    request: Request<'_>,
    folder: &str,
    style: Style,
) -> Result<Tally, Failure> {
    let mut walk = Walk::new(alloc, host, checker, request, folder, style);
    walk.report_file(sheet)?;
    Ok(walk.report.tally)
}

// Reports each requirement of a file that is not read, and each line that is not UTF-8, as `check`
// does, but on standard error. Returns how much was reported.
pub(crate) fn report_faults<H: Host, C: CheckLines>(
    alloc: Global,
    host: &mut H,
    checker: &mut C,
    sheet: &Sheet,
    settings: FormatSettings<'_>,
    style: Style,
) -> Result<Tally, Failure> {
    let mut faults = RequirementFaults { checker };
    report_file(
        alloc,
        host,
        &mut faults,
        sheet,
        REQUEST,
        settings.folder,
        style,
    )
}
