//! Faults in the options of a line, as findings.

ghost use Rattle.std.specs.Prelude.{◌≡◌, IfOk, OnOk};
ghost use Rattle.requirement_checks.specs.Findings as spec;
ghost use Rattle.requirement_checks.specs.Findings.{fault_names, Gains, HasName};

use crate::secrets::from_byte;
use requirement_findings::{Finding, FindingName};
use requirement_lines::{Place, Source};
use requirement_options::{OptionFault, OptionFaultKind};
use std::alloc::{AllocError, Global};

// The name of a fault in an option.
fn fault_name(kind: OptionFaultKind) -> FindingName
    ensures { result ≡ spec.fault_name kind }
{
    match kind {
        OptionFaultKind::Unclosed => FindingName::UnclosedQuotes,
        OptionFaultKind::Unknown => FindingName::UnknownOption,
        OptionFaultKind::Ambiguous => FindingName::AmbiguousOption,
        OptionFaultKind::NoArgument => FindingName::MissingArgument,
        OptionFaultKind::UnwantedArgument => FindingName::UnwantedArgument,
        OptionFaultKind::UnknownFeature => FindingName::UnknownFeature,
        OptionFaultKind::InvalidHash => FindingName::InvalidHash,
        OptionFaultKind::InvalidSetting => FindingName::InvalidSetting,
        OptionFaultKind::Ignored => FindingName::IgnoredOption,
        OptionFaultKind::LostText => FindingName::LostText,
    }
}

// The message of a fault in an option.
fn message_of(kind: OptionFaultKind) -> &'static str {
    match kind {
        OptionFaultKind::Unclosed => "Quotes do not end, or nothing follows the backslash",
        OptionFaultKind::Unknown => "pip has no such option",
        OptionFaultKind::Ambiguous => "Several options of pip begin so",
        OptionFaultKind::NoArgument => "The option needs an argument",
        OptionFaultKind::UnwantedArgument => "The option takes no argument",
        OptionFaultKind::UnknownFeature => {
            "Expected `fast-deps`, `truststore` or `no-binary-enable-wheel-cache`"
        }
        OptionFaultKind::InvalidHash => {
            "Expected `sha256:`, `sha384:` or `sha512:` and the digits of such a hash"
        }
        OptionFaultKind::InvalidSetting => "Expected `KEY=VALUE`",
        OptionFaultKind::Ignored => "pip ignores this option here",
        OptionFaultKind::LostText => "pip ignores the text after an option",
    }
}

// How many bytes the first word of the text has: up to a space or a tab.
fn word_size(text: &str) -> usize {
    for (at, c) in text.char_indices() {
        if c.is_whitespace() {
            return at;
        }
    }
    text.len()
}

// The end of the word that begins there, as far as it is in the file.
fn end_of(file: &str, start: Place) -> Place {
    let rest = from_byte(file, file.len().saturating_sub(start.to_end));
    Place {
        to_end: start.to_end.saturating_sub(word_size(rest)),
        source: Source::File,
    }
}

fn fault_at(alloc: Global, file: &str, fault: OptionFault) -> Result<Finding, AllocError>
    ensures { IfOk result (HasName (spec.fault_name fault.kind)) }
{
    let message = String::from_str(alloc, message_of(fault.kind))?;
    Ok(Finding {
        name: fault_name(fault.kind),
        message,
        start: fault.place,
        end: end_of(file, fault.place),
        earlier: None,
    })
}

// Appends the faults in the options of a line.
pub(crate) fn add_faults(
    alloc: Global,
    file: &str,
    faults: &[OptionFault],
    findings: &mut Vec<Finding>,
) -> Result<(), AllocError>
    ensures { OnOk result (Gains (fault_names faults.now) findings.old findings.new) }
{
    for index in 0..faults.len() {
        let fault = fault_at(alloc, file, faults[index])?;
        findings.push(fault)?;
    }
    Ok(())
}
