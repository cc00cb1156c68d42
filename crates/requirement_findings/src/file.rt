//! The lines of a file, checked one after another.

ghost use Rattle.std.specs.Prelude.{IfOk};
ghost use Rattle.requirement_findings.specs.Checks.{ChecksFile};

use crate::finding::{CheckLines, CheckedLine};
use requirement_lines::{next_line, replace_variables, without_mark};
use std::alloc::{AllocError, Global};
use std::collections::BTreeMap;

/// Checks each logical line of a file, in their order, with the values of a table in place of
/// variables. Files that the lines name are not read. `is_constraint` says that the file is one of
/// constraints (`-c`).
pub fn check_file<'f, C: CheckLines>(
    alloc: Global,
    file: &'f str,
    variables: &'f BTreeMap<String, String>,
    is_constraint: bool,
    checker: &mut C,
) -> Result<Vec<CheckedLine<'f>>, AllocError>
    ensures { IfOk result (ChecksFile C.checks checker.old checker.new variables.now file.now) }
{
    let mut lines = Vec::new(alloc);
    let mut rest = without_mark(file);
    while let Some((line, after)) = next_line(alloc, rest)? {
        rest = after;
        let replaced = replace_variables(alloc, line.as_slice(), variables)?;
        let checked = checker.check_line(alloc, file, replaced.as_slice(), is_constraint)?;
        lines.push(checked)?;
    }
    Ok(lines)
}
