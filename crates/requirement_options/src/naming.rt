//! The option of a name.

ghost use Rattle.std.specs.Prelude.{◌≡◌, find};
ghost use Rattle.requirement_options.specs.Kinds as spec;

use crate::kind::OptionKind;

const KINDS: [OptionKind; 17] = [
    OptionKind::IndexUrl,
    OptionKind::ExtraIndexUrl,
    OptionKind::NoIndex,
    OptionKind::Constraint,
    OptionKind::Requirement,
    OptionKind::Editable,
    OptionKind::FindLinks,
    OptionKind::NoBinary,
    OptionKind::OnlyBinary,
    OptionKind::PreferBinary,
    OptionKind::RequireHashes,
    OptionKind::Pre,
    OptionKind::TrustedHost,
    OptionKind::UseFeature,
    OptionKind::GlobalOption,
    OptionKind::Hash,
    OptionKind::ConfigSettings,
];

// The option of a name, which may be abbreviated.
#[derive(Clone, Copy)]
pub(crate) enum Naming {
    // No option has a name that begins with this.
    Unknown,
    // This option.
    One(OptionKind),
    // Several options have names that begin with this.
    Several,
}

// The option of a letter after a single `-`.
pub(crate) fn short_option(letter: char) -> Option<OptionKind>
    ensures { result ≡ spec.short_option letter }
{
    match letter {
        'i' => Some(OptionKind::IndexUrl),
        'c' => Some(OptionKind::Constraint),
        'r' => Some(OptionKind::Requirement),
        'e' => Some(OptionKind::Editable),
        'f' => Some(OptionKind::FindLinks),
        'C' => Some(OptionKind::ConfigSettings),
        _ => None,
    }
}

// The first of the options that has exactly this name.
fn exact(kinds: &[OptionKind], name: &str) -> Option<OptionKind>
    ensures { result ≡ find (λ kind. spec.is_named kind name.now) kinds.now }
{
    for index in 0..kinds.len() {
        let kind = kinds[index];
        if kind.is_named(name) {
            return Some(kind);
        }
    }
    None
}

// The result with a further option whose name begins with this.
fn also(found: Naming, kind: OptionKind) -> Naming
    ensures { result ≡ spec.also found kind }
{
    match found {
        Naming::Unknown => Naming::One(kind),
        Naming::One(_) | Naming::Several => Naming::Several,
    }
}

// The result for a name that none of the options has exactly.
fn abbreviated(kinds: &[OptionKind], name: &str) -> Naming
    ensures { result ≡ spec.abbreviated kinds.now name.now }
{
    let mut found = Naming::Unknown;
    for index in 0..kinds.len() {
        let kind = kinds[index];
        if kind.begins_with(name) {
            found = also(found, kind);
        }
    }
    found
}

// The option of a name that is given with its `--`.
pub(crate) fn long_option(name: &str) -> Naming
    ensures { result ≡ spec.long_option name.now }
{
    match exact(&KINDS, name) {
        Some(kind) => Naming::One(kind),
        None => abbreviated(&KINDS, name),
    }
}
