//! Kinds of lines, and the options that count on them.

ghost use Rattle.std.specs.Prelude.{◌≡◌};
ghost use Rattle.requirement_options.specs.Line as spec;

use crate::kind::OptionKind;

// The kind of a line of a file.
#[derive(Clone, Copy)]
pub(crate) enum LineKind {
    // A requirement.
    Requirement,
    // An editable requirement (`-e`).
    Editable,
    // Another file (`-r`).
    File,
    // A file of constraints (`-c`).
    Constraints,
    // Settings.
    Settings,
}

// Whether the option belongs to a requirement, and follows it.
fn is_of_requirement(kind: OptionKind) -> bool
    ensures { result ≡ spec.is_of_requirement kind }
{
    matches!(
        kind,
        OptionKind::GlobalOption | OptionKind::Hash | OptionKind::ConfigSettings
    )
}

// Whether pip uses the option on this kind of line.
pub(crate) fn counts_on(line: LineKind, kind: OptionKind) -> bool
    ensures { result ≡ spec.counts_on line kind }
{
    match line {
        LineKind::Requirement => is_of_requirement(kind),
        LineKind::Editable => matches!(kind, OptionKind::Editable),
        LineKind::File => matches!(kind, OptionKind::Requirement),
        LineKind::Constraints => matches!(kind, OptionKind::Constraint),
        LineKind::Settings => !is_of_requirement(kind),
    }
}

// Whether pip uses only the first such option of a line.
fn only_first_counts(kind: OptionKind) -> bool
    ensures { result ≡ spec.only_first_counts kind }
{
    matches!(
        kind,
        OptionKind::FindLinks
            | OptionKind::Editable
            | OptionKind::Requirement
            | OptionKind::Constraint
    )
}

// Whether pip ignores the option. `taken` says that an earlier one was used, and only one is.
pub(crate) fn is_ignored(line: LineKind, taken: bool, kind: OptionKind) -> bool
    ensures { result ≡ spec.is_ignored line taken kind }
{
    !counts_on(line, kind) || taken && only_first_counts(kind)
}

// Whether the first of such options was used, including this option.
pub(crate) fn is_taken(line: LineKind, taken: bool, kind: OptionKind) -> bool
    ensures { result ≡ spec.is_taken line taken kind }
{
    taken || counts_on(line, kind) && only_first_counts(kind)
}
