//! Faults in the options of a line.

use requirement_lines::Place;

/// What is wrong with the options of a line.
#[derive(Clone, Copy, Debug, PartialEq, Eq)]
pub enum OptionFaultKind {
    /// Quotes do not end, or nothing follows a backslash.
    Unclosed,
    /// There is no such option.
    Unknown,
    /// The name is an abbreviation of several options.
    Ambiguous,
    /// The option has no argument, and needs one.
    NoArgument,
    /// The option has an argument, and takes none.
    UnwantedArgument,
    /// pip has no such feature (`--use-feature`).
    UnknownFeature,
    /// The hash is not `sha256:`, `sha384:` or `sha512:` before hexadecimal digits, as many as such
    /// a hash has.
    InvalidHash,
    /// The setting has no `=` (`--config-settings`).
    InvalidSetting,
    /// pip ignores the option on this kind of line.
    Ignored,
    /// pip ignores the text after an option.
    LostText,
}

/// What is wrong with the options of a line, and where.
#[derive(Clone, Copy, PartialEq, Eq)]
pub struct OptionFault {
    /// What is wrong.
    pub kind: OptionFaultKind,
    /// Where the wrong word or the quotes begin.
    pub place: Place,
}
