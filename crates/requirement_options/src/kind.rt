//! The options that requirements files may have.

use std::fmt;

/// An option that a requirements file may have, as pip 23.2.1 knows them.
#[derive(Clone, Copy, PartialEq, Eq)]
pub enum OptionKind {
    /// `-i`, `--index-url` and `--pypi-url`: the index where packages are found.
    IndexUrl,
    /// `--extra-index-url`: a further index.
    ExtraIndexUrl,
    /// `--no-index`: no index is used.
    NoIndex,
    /// `-c`, `--constraint`: a file of constraints.
    Constraint,
    /// `-r`, `--requirement`: another requirements file.
    Requirement,
    /// `-e`, `--editable`: a path or URL that is installed so that it can be edited.
    Editable,
    /// `-f`, `--find-links`: a page or a folder with links to archives.
    FindLinks,
    /// `--no-binary`: packages that are built from source.
    NoBinary,
    /// `--only-binary`: packages that are not built from source.
    OnlyBinary,
    /// `--prefer-binary`: an older archive goes before a newer source.
    PreferBinary,
    /// `--require-hashes`: each requirement must have a hash.
    RequireHashes,
    /// `--pre`: pre-releases count.
    Pre,
    /// `--trusted-host`: a host whose certificate is not checked.
    TrustedHost,
    /// `--use-feature`: a feature of pip that is not its default.
    UseFeature,
    /// `--global-option`: an option for the `setup.py` of a requirement.
    GlobalOption,
    /// `--hash`: a hash that an archive of a requirement may have.
    Hash,
    /// `-C`, `--config-settings`: a setting for what builds a requirement.
    ConfigSettings,
}

impl OptionKind {
    ghost use Rattle.std.specs.Prelude.{◌≡◌, nat_eq};
    ghost use Rattle.requirement_options.specs.Kinds.{name_of, takes_argument, is_named, begins_with};

    /// Returns the name of the option, such as `--index-url`.
    pub fn name(self) -> &'static str
        ensures { result.now ≡ name_of self }
    {
        match self {
            OptionKind::IndexUrl => "--index-url",
            OptionKind::ExtraIndexUrl => "--extra-index-url",
            OptionKind::NoIndex => "--no-index",
            OptionKind::Constraint => "--constraint",
            OptionKind::Requirement => "--requirement",
            OptionKind::Editable => "--editable",
            OptionKind::FindLinks => "--find-links",
            OptionKind::NoBinary => "--no-binary",
            OptionKind::OnlyBinary => "--only-binary",
            OptionKind::PreferBinary => "--prefer-binary",
            OptionKind::RequireHashes => "--require-hashes",
            OptionKind::Pre => "--pre",
            OptionKind::TrustedHost => "--trusted-host",
            OptionKind::UseFeature => "--use-feature",
            OptionKind::GlobalOption => "--global-option",
            OptionKind::Hash => "--hash",
            OptionKind::ConfigSettings => "--config-settings",
        }
    }

    /// Returns whether the option takes an argument.
    pub fn takes_argument(self) -> bool
        ensures { result ≡ takes_argument self }
    {
        !matches!(
            self,
            OptionKind::NoIndex
                | OptionKind::PreferBinary
                | OptionKind::RequireHashes
                | OptionKind::Pre
        )
    }

    // Whether this is a name of the option.
    pub(crate) fn is_named(self, name: &str) -> bool
        ensures { result ≡ is_named self name.now }
    {
        match self {
            OptionKind::IndexUrl => name == "--index-url" || name == "--pypi-url",
            _ => name == self.name(),
        }
    }

    // Whether a name of the option begins with this.
    pub(crate) fn begins_with(self, front: &str) -> bool
        ensures { result ≡ begins_with self front.now }
    {
        let front = front.as_bytes();
        match self {
            OptionKind::IndexUrl => {
                "--index-url".as_bytes().starts_with(front)
                    || "--pypi-url".as_bytes().starts_with(front)
            }
            _ => self.name().as_bytes().starts_with(front),
        }
    }
}

/// Prints the name of the option, such as `--index-url`.
impl fmt::Display for OptionKind {
    ghost use Rattle.std.specs.Prelude.{Some};
    ghost use Rattle.requirement_options.specs.Kinds.{name_of};

    ghost output = { λ kind. Some (name_of kind) };

    fn fmt<W: fmt::Write>(&self, f: &mut fmt::Formatter<W>) -> fmt::Result {
        f.write_str(self.name())
    }
}
