//! Names of faults.

ghost use Rattle.std.specs.Prelude.{◌≡◌};
ghost use Rattle.project_findings.specs.Names as spec;

use project_files::ProjectFaultKind;
use requirement_findings::FindingName;

/// Returns the name of the finding that a fault of this kind is.
pub fn fault_name(kind: ProjectFaultKind) -> FindingName
    ensures { result ≡ spec.fault_name kind }
{
    match kind {
        ProjectFaultKind::NotATable
        | ProjectFaultKind::NotAList
        | ProjectFaultKind::NotAString
        | ProjectFaultKind::NotAGroupItem => FindingName::InvalidValue,
        ProjectFaultKind::NoRequires => FindingName::MissingKey,
        ProjectFaultKind::NotDynamic => FindingName::DynamicValue,
        ProjectFaultKind::InvalidName => FindingName::InvalidName,
        ProjectFaultKind::RepeatedName => FindingName::RepeatedName,
        ProjectFaultKind::NoSuchGroup => FindingName::UnknownGroup,
        ProjectFaultKind::EndlessGroup => FindingName::EndlessGroup,
    }
}
