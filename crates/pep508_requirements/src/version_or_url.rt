//! The wanted versions or URL of a requirement.

ghost use Rattle.std.specs.Prelude.{◌≡◌};
ghost use Rattle.pep508_requirements.specs.Wanted.{lent_wanted, wanted_text};

use pep440_specifier::VersionSpecifiers;
use pep508_errors::Pep508Url;
use std::alloc::AllocError;
use std::fmt;

/// The wanted versions or URL of a requirement. It prints as its specifiers or its URL.
#[derive(Clone, Debug, PartialEq, Eq, PartialOrd, Ord, Hash, Drop)]
pub enum VersionOrUrl<T: Pep508Url> {
    /// Specifiers that must all match.
    VersionSpecifier(VersionSpecifiers),
    /// The URL of the package.
    Url(T),
}

/// A borrowed [`VersionOrUrl`], which prints as that does.
#[derive(Debug, PartialEq, Eq, Hash)]
pub enum VersionOrUrlRef<'a, T: Pep508Url> {
    /// Specifiers that must all match.
    VersionSpecifier(&'a VersionSpecifiers),
    /// The URL of the package.
    Url(&'a T),
}

impl<T: Pep508Url> fmt::Display for VersionOrUrl<T> {
    ghost output = { λ wanted. wanted_text T.output wanted };

    fn fmt<W: fmt::Write>(&self, f: &mut fmt::Formatter<W>) -> fmt::Result {
        match self {
            VersionOrUrl::VersionSpecifier(set) => write!(f, "{set}"),
            VersionOrUrl::Url(url) => write!(f, "{url}"),
        }
    }
}

impl<T: Pep508Url> Clone for VersionOrUrlRef<'_, T> {
    ghost is_clone = { λ reference copy. copy ≡ reference };

    fn clone(&self) -> Result<Self, AllocError> {
        Ok(*self)
    }
}

impl<T: Pep508Url> Copy for VersionOrUrlRef<'_, T> {}

impl<T: Pep508Url> fmt::Display for VersionOrUrlRef<'_, T> {
    ghost output = { λ reference. wanted_text T.output (lent_wanted reference) };

    fn fmt<W: fmt::Write>(&self, f: &mut fmt::Formatter<W>) -> fmt::Result {
        match self {
            VersionOrUrlRef::VersionSpecifier(set) => write!(f, "{set}"),
            VersionOrUrlRef::Url(url) => write!(f, "{url}"),
        }
    }
}

impl<'a, T: Pep508Url> From<&'a VersionOrUrl<T>> for VersionOrUrlRef<'a, T> {
    ghost from_gives = { λ wanted reference. lent_wanted reference ≡ wanted.now };

    /// Borrows the specifiers or the URL.
    fn from(wanted: &'a VersionOrUrl<T>) -> VersionOrUrlRef<'a, T> {
        match wanted {
            VersionOrUrl::VersionSpecifier(set) => VersionOrUrlRef::VersionSpecifier(set),
            VersionOrUrl::Url(url) => VersionOrUrlRef::Url(url),
        }
    }
}
