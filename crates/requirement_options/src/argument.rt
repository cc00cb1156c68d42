//! Arguments of options.

ghost use Rattle.std.specs.Prelude.{◌≡◌, ◌+◌, ◌<◌, ◌^◌, length};
ghost use Rattle.std.specs.Char.{is_ascii_hexdigit};
ghost use Rattle.std.specs.List.{list_all};
ghost use Rattle.requirement_options.specs.Arguments as spec;

use crate::fault::OptionFaultKind;
use crate::kind::OptionKind;

fn is_hexadecimal(digits: &[u8]) -> bool
    ensures { result ≡ list_all is_ascii_hexdigit digits.now }
{
    digits.iter().all(|c| c.is_ascii_hexdigit())
}

// Whether the text is a hash by this name, with `digits` hexadecimal digits.
fn is_digest(name: &str, digits: usize, text: &str) -> bool
    requires { length name.now + digits < 2 ^ 64 }
    ensures { result ≡ spec.is_digest name.now digits text.now }
{
    let (name, text) = (name.as_bytes(), text.as_bytes());
    text.starts_with(name)
        && text.len() == name.len() + digits
        && is_hexadecimal(&text[name.len()..])
}

fn is_hash(text: &str) -> bool
    ensures { result ≡ spec.is_hash text.now }
{
    is_digest("sha256:", 64, text)
        || is_digest("sha384:", 96, text)
        || is_digest("sha512:", 128, text)
}

fn is_feature(text: &str) -> bool
    ensures { result ≡ spec.is_feature text.now }
{
    text == "fast-deps" || text == "truststore" || text == "no-binary-enable-wheel-cache"
}

fn is_setting(text: &str) -> bool
    ensures { result ≡ spec.is_setting text.now }
{
    text.as_bytes().iter().any(|&c| c == b'=')
}

fn is_option(text: &str) -> bool
    ensures { result ≡ spec.is_option text.now }
{
    text.as_bytes().starts_with("-".as_bytes())
}

fn fault_unless(good: bool, fault: OptionFaultKind) -> Option<OptionFaultKind>
    ensures { result ≡ spec.fault_unless good fault }
{
    if good { None } else { Some(fault) }
}

// What is wrong with the argument of an option.
pub(crate) fn argument_fault(kind: OptionKind, text: &str) -> Option<OptionFaultKind>
    ensures { result ≡ spec.argument_fault kind text.now }
{
    match kind {
        OptionKind::UseFeature => fault_unless(is_feature(text), OptionFaultKind::UnknownFeature),
        OptionKind::Hash => fault_unless(is_hash(text), OptionFaultKind::InvalidHash),
        OptionKind::ConfigSettings => {
            fault_unless(is_setting(text), OptionFaultKind::InvalidSetting)
        }
        OptionKind::NoBinary | OptionKind::OnlyBinary if is_option(text) => {
            Some(OptionFaultKind::NoArgument)
        }
        _ => None,
    }
}
