//! What marker parsers warn about.

/// The kind of a warning: a comparison that PEP 508 allows, or that predates it, and that means
/// less than its author may think.
#[derive(Clone, Copy, Debug, PartialEq, Eq, PartialOrd, Ord, Hash)]
pub enum MarkerWarningKind {
    /// A name of PEP 345 is used in place of the modern one, as `os.name`.
    DeprecatedMarkerName,
    /// `extra` is compared with an invalid name, or by an operator other than `==` and `!=`.
    ExtraInvalidComparison,
    /// A text is compared by a version operator, as `os_name ~= 'x'`.
    LexicographicComparison,
    /// Two keys are compared with one another.
    MarkerMarkerComparison,
    /// A version key is compared with an invalid PEP 440 version or specifier.
    Pep440Error,
    /// Two quoted texts are compared with one another.
    StringStringComparison,
}
