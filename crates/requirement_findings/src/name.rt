//! Names of findings in requirements files, metadata and projects.

ghost use Rattle.std.specs.Prelude.{◌≡◌, find, bytes_eq};
ghost use Rattle.requirement_findings.specs.Names as spec;

use std::fmt;

/// How severe a finding is.
#[derive(Clone, Copy, Debug, PartialEq, Eq)]
pub enum Severity {
    /// The line, field or value is invalid, or a part of it is lost.
    Error,
    /// A comparison of the marker is dropped, or is written as in PEP 345.
    Warning,
    /// The line may mean something else than its author thinks.
    Hint,
}

/// The kind of a finding.
#[derive(Clone, Copy, PartialEq, Eq)]
pub enum FindingName {
    /// The text is an invalid requirement.
    InvalidRequirement,
    /// A bound of a comparison of the marker would be above 18446744073709551615.
    NumberTooLarge,
    /// The marker needs more room than it may have.
    TooComplex,
    /// Quotes of an option do not end, or nothing follows a backslash.
    UnclosedQuotes,
    /// pip has no such option.
    UnknownOption,
    /// The name is an abbreviation of several options.
    AmbiguousOption,
    /// The option has no argument, and needs one.
    MissingArgument,
    /// The option has an argument, and takes none.
    UnwantedArgument,
    /// pip has no such feature.
    UnknownFeature,
    /// The argument of `--hash` is an invalid hash.
    InvalidHash,
    /// The argument of `--config-settings` has no `=`.
    InvalidSetting,
    /// pip ignores the option on this kind of line.
    IgnoredOption,
    /// pip ignores the text after an option.
    LostText,
    /// A line of metadata neither is a header nor continues one.
    InvalidHeader,
    /// Metadata has a second field of a kind that may be there once.
    RepeatedField,
    /// The name of a package, an extra or a group is invalid.
    InvalidName,
    /// A list of version specifiers is invalid.
    InvalidSpecifiers,
    /// The text of a project file is invalid TOML.
    InvalidToml,
    /// A value of a project file has the wrong type.
    InvalidValue,
    /// A table of a project file lacks a key that it must have.
    MissingKey,
    /// A key of `project.dynamic` has a value in the file.
    DynamicValue,
    /// An earlier extra or group of the project has the same normal name.
    RepeatedName,
    /// There is no group of this name.
    UnknownGroup,
    /// A group includes itself, directly or through others.
    EndlessGroup,
    /// A marker depends on values that are not given.
    UnknownValue,
    /// A name of PEP 345 is used, such as `os.name`.
    DeprecatedMarkerName,
    /// `extra` is compared with an invalid name, or by an operator other than `==` and `!=`.
    InvalidExtraComparison,
    /// A text is compared by `~=`.
    LexicographicComparison,
    /// Two keys are compared with one another.
    MarkerMarkerComparison,
    /// A version key is compared with an invalid version.
    InvalidVersionComparison,
    /// Two quoted texts are compared with one another.
    StringStringComparison,
    /// A quoted text of the marker has a control character.
    ControlCharacter,
    /// A `;` without white space before it is part of the URL.
    MarkerInUrl,
    /// A list of versions has commas.
    VersionList,
    /// A version is compared with a text by its characters.
    VersionAsText,
    /// The marker is never true.
    NeverTrue,
    /// The marker is always true.
    AlwaysTrue,
    /// An earlier requirement of the same name may apply together with it.
    RepeatedRequirement,
    /// `python_version` has two numbers, and is compared with three.
    ThreeNumbers,
    /// The marker requests an extra that the package does not provide.
    UnprovidedExtra,
    /// An earlier extra of the package has the same normal name.
    RepeatedExtra,
    /// A requirement of metadata has a URL, which no index accepts.
    UrlRequirement,
}

impl FindingName {
    ghost use Rattle.std.specs.Prelude.{◌≡◌};
    ghost use Rattle.requirement_findings.specs.Names.{name_of, severity_of};

    /// Returns the name, such as `unknown-option`.
    pub fn name(self) -> &'static str
        ensures { result.now ≡ name_of self }
    {
        match self {
            FindingName::InvalidRequirement => "invalid-requirement",
            FindingName::NumberTooLarge => "number-too-large",
            FindingName::TooComplex => "too-complex",
            FindingName::UnclosedQuotes => "unclosed-quotes",
            FindingName::UnknownOption => "unknown-option",
            FindingName::AmbiguousOption => "ambiguous-option",
            FindingName::MissingArgument => "missing-argument",
            FindingName::UnwantedArgument => "unwanted-argument",
            FindingName::UnknownFeature => "unknown-feature",
            FindingName::InvalidHash => "invalid-hash",
            FindingName::InvalidSetting => "invalid-setting",
            FindingName::IgnoredOption => "ignored-option",
            FindingName::LostText => "lost-text",
            FindingName::InvalidHeader => "invalid-header",
            FindingName::RepeatedField => "repeated-field",
            FindingName::InvalidName => "invalid-name",
            FindingName::InvalidSpecifiers => "invalid-specifiers",
            FindingName::InvalidToml => "invalid-toml",
            FindingName::InvalidValue => "invalid-value",
            FindingName::MissingKey => "missing-key",
            FindingName::DynamicValue => "dynamic-value",
            FindingName::RepeatedName => "repeated-name",
            FindingName::UnknownGroup => "unknown-group",
            FindingName::EndlessGroup => "endless-group",
            FindingName::UnknownValue => "unknown-value",
            FindingName::DeprecatedMarkerName => "deprecated-marker-name",
            FindingName::InvalidExtraComparison => "invalid-extra-comparison",
            FindingName::LexicographicComparison => "lexicographic-comparison",
            FindingName::MarkerMarkerComparison => "marker-marker-comparison",
            FindingName::InvalidVersionComparison => "invalid-version-comparison",
            FindingName::StringStringComparison => "string-string-comparison",
            FindingName::ControlCharacter => "control-character",
            FindingName::MarkerInUrl => "marker-in-url",
            FindingName::VersionList => "version-list",
            FindingName::VersionAsText => "version-as-text",
            FindingName::NeverTrue => "never-true",
            FindingName::AlwaysTrue => "always-true",
            FindingName::RepeatedRequirement => "repeated-requirement",
            FindingName::ThreeNumbers => "three-numbers",
            FindingName::UnprovidedExtra => "unprovided-extra",
            FindingName::RepeatedExtra => "repeated-extra",
            FindingName::UrlRequirement => "url-requirement",
        }
    }

    /// Returns how severe such a finding is.
    pub fn severity(self) -> Severity
        ensures { result ≡ severity_of self }
    {
        match self {
            FindingName::DeprecatedMarkerName
            | FindingName::InvalidExtraComparison
            | FindingName::LexicographicComparison
            | FindingName::MarkerMarkerComparison
            | FindingName::InvalidVersionComparison
            | FindingName::StringStringComparison => Severity::Warning,
            FindingName::ControlCharacter
            | FindingName::MarkerInUrl
            | FindingName::VersionList
            | FindingName::VersionAsText
            | FindingName::NeverTrue
            | FindingName::AlwaysTrue
            | FindingName::RepeatedRequirement
            | FindingName::ThreeNumbers
            | FindingName::UnprovidedExtra
            | FindingName::RepeatedExtra
            | FindingName::UrlRequirement => Severity::Hint,
            _ => Severity::Error,
        }
    }
}

const NAMES: [FindingName; 42] = [
    FindingName::InvalidRequirement,
    FindingName::NumberTooLarge,
    FindingName::TooComplex,
    FindingName::UnclosedQuotes,
    FindingName::UnknownOption,
    FindingName::AmbiguousOption,
    FindingName::MissingArgument,
    FindingName::UnwantedArgument,
    FindingName::UnknownFeature,
    FindingName::InvalidHash,
    FindingName::InvalidSetting,
    FindingName::IgnoredOption,
    FindingName::LostText,
    FindingName::InvalidHeader,
    FindingName::RepeatedField,
    FindingName::InvalidName,
    FindingName::InvalidSpecifiers,
    FindingName::InvalidToml,
    FindingName::InvalidValue,
    FindingName::MissingKey,
    FindingName::DynamicValue,
    FindingName::RepeatedName,
    FindingName::UnknownGroup,
    FindingName::EndlessGroup,
    FindingName::UnknownValue,
    FindingName::DeprecatedMarkerName,
    FindingName::InvalidExtraComparison,
    FindingName::LexicographicComparison,
    FindingName::MarkerMarkerComparison,
    FindingName::InvalidVersionComparison,
    FindingName::StringStringComparison,
    FindingName::ControlCharacter,
    FindingName::MarkerInUrl,
    FindingName::VersionList,
    FindingName::VersionAsText,
    FindingName::NeverTrue,
    FindingName::AlwaysTrue,
    FindingName::RepeatedRequirement,
    FindingName::ThreeNumbers,
    FindingName::UnprovidedExtra,
    FindingName::RepeatedExtra,
    FindingName::UrlRequirement,
];

// The first of these findings with this name.
fn named(names: &[FindingName], text: &str) -> Option<FindingName>
    ensures { result ≡ find (spec.is_written text.now) names.now }
{
    for index in 0..names.len() {
        let name = names[index];
        if text == name.name() {
            return Some(name);
        }
    }
    None
}

/// Returns the finding with this name, such as `unknown-option`; `None` if there is none.
pub fn finding_name(text: &str) -> Option<FindingName>
    ensures { result ≡ find (spec.is_written text.now) spec.names }
{
    named(&NAMES, text)
}

/// Prints the name, such as `unknown-option`.
impl fmt::Display for FindingName {
    ghost use Rattle.std.specs.Prelude.{Some};
    ghost use Rattle.requirement_findings.specs.Names.{name_of};

    ghost output = { λ name. Some (name_of name) };

    fn fmt<W: fmt::Write>(&self, f: &mut fmt::Formatter<W>) -> fmt::Result {
        f.write_str(self.name())
    }
}
