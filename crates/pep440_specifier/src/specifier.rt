//! One version specifier.

ghost use Rattle.std.specs.Prelude.{◌≡◌, ◌≤◌, [], false, length, IfNone, IfOk, IfErr, IfSome};
ghost use Rattle.pep440_specifier.specs.Alone.{is_alone};
ghost use Rattle.pep440_specifier.specs.Fault.{IsFault};
ghost use Rattle.pep440_specifier.specs.Operator.{starred, takes_local};
ghost use Rattle.pep440_specifier.specs.Specifier.{IsAllowed, Makes, Specifier};

use crate::error::{SpecifierFault, VersionSpecifierError};
use crate::operator::Operator;
use pep440_version::{Version, VersionPattern};
use std::alloc::AllocError;
use std::marker::Model;

/// An operator with a version, such as `>= 3.8` or `== 3.9.*`.
///
/// Every value is allowed by PEP 440: only a release has a star, `~=` has at least two release
/// numbers, and only `==`, `!=` and `===` have a local part.
///
/// ```
/// let specifier = VersionSpecifier::parse(alloc, "~= 2.8")?;
/// let versions = release_specifier_to_range(alloc, &specifier)?;
/// let version = Version::parse(alloc, "2.31.0")?;
/// let found = versions.contains(&version);
/// println!(rt; "{specifier} has {version}: {found}")?;
/// ```
#[derive(Debug, Drop)]
pub struct VersionSpecifier {
    pub(crate) operator: Operator,
    pub(crate) version: Version,
}

impl Model for VersionSpecifier {
    ghost use Rattle.pep440_specifier.specs.Specifier.{IsAllowed, Specifier};
    ghost use Rattle.pep440_specifier.specs.View.{specifier_of};

    ghost Value = { Specifier };

    ghost view = { specifier_of };

    ghost invariant = { λ s. IsAllowed (specifier_of s) };
}

impl VersionSpecifier {
    /// Returns the specifier of an operator and a pattern. `==` and `!=` with a star are
    /// `EqualStar` and `NotEqualStar`.
    ///
    /// # Errors
    /// - What is missing, if an operator other than `==` and `!=` has a star.
    /// - The errors of [`VersionSpecifier::from_version`].
    pub fn from_pattern(
        operator: Operator,
        pattern: VersionPattern,
    ) -> Result<VersionSpecifier, VersionSpecifierError>
        ensures made { IfOk result (λ s. Makes operator pattern.version pattern.wildcard s) }
        ensures refused { IfErr result (λ e. (s : Specifier)
            → Makes operator pattern.version pattern.wildcard s → ⊥) }
        ensures why { IfErr result (λ e.
            IsFault e.fault operator pattern.version pattern.wildcard) }
    {
        let (version, star) = pattern.into_parts();
        if !star {
            return VersionSpecifier::from_version(operator, version);
        }
        match with_star(operator) {
            Some(operator) => VersionSpecifier::from_version(operator, version),
            None => Err(VersionSpecifierError::without_text(SpecifierFault::NoStar(operator))),
        }
    }

    /// Returns the specifier of an operator and a version.
    ///
    /// # Errors
    /// - What is missing, if the operator does not accept the version: a star operator has more
    ///   than an epoch and a release, `~=` has only one release number, or an operator other than
    ///   `==`, `!=` and `===` has a local part.
    pub fn from_version(
        operator: Operator,
        version: Version,
    ) -> Result<VersionSpecifier, VersionSpecifierError>
        ensures made { IfOk result (λ s. Makes operator version false s) }
        ensures refused { IfErr result (λ e. (s : Specifier) → Makes operator version false s → ⊥) }
        ensures why { IfErr result (λ e. IsFault e.fault operator version false) }
    {
        match fault_between(operator, &version) {
            Some(fault) => Err(VersionSpecifierError::without_text(fault)),
            None => Ok(VersionSpecifier { operator, version }),
        }
    }

    /// Returns the operator and the version.
    pub fn into_parts(self) -> (Operator, Version)
        ensures { result ≡ (self.operator, self.version) }
    {
        let VersionSpecifier { operator, version } = self;
        (operator, version)
    }

    /// Returns the operator.
    pub fn operator(&self) -> Operator
        ensures { result ≡ self.now.operator }
    {
        self.operator
    }

    /// Returns the version, or the release before `.*`.
    pub fn version(&self) -> &Version
        ensures value { result.now ≡ self.now.version }
        ensures allowed { IsAllowed self.now }
    {
        &self.version
    }
}

// The operator with a star.
fn with_star(operator: Operator) -> Option<Operator>
    ensures { result ≡ starred operator }
{
    match operator {
        Operator::Equal => Some(Operator::EqualStar),
        Operator::NotEqual => Some(Operator::NotEqualStar),
        _ => None,
    }
}

fn takes_local(operator: Operator) -> bool
    ensures { result ≡ takes_local operator }
{
    matches!(
        operator,
        Operator::Equal | Operator::NotEqual | Operator::ExactEqual
    )
}

// Whether the version has nothing but an epoch and a release.
pub(crate) fn is_alone(version: &Version) -> bool
    ensures { result ≡ is_alone version.now }
{
    version.pre().is_none()
        && version.post().is_none()
        && version.dev().is_none()
        && version.local().is_empty()
}

// Why the operator does not accept the version.
fn fault_between(operator: Operator, version: &Version) -> Option<SpecifierFault>
    ensures allowed { IfNone result
        (IsAllowed (record { operator = operator; version = version.now })) }
    ensures refused { IfSome result (λ fault.
        IsAllowed (record { operator = operator; version = version.now }) → ⊥) }
    ensures why { IfSome result (λ fault. IsFault fault operator version.now false) }
{
    if operator.is_star() && !is_alone(version) {
        return Some(SpecifierFault::ReleaseAlone);
    }
    if operator == Operator::TildeEqual && version.release().len() < 2 {
        return Some(SpecifierFault::SecondNumber);
    }
    if !takes_local(operator) && !version.local().is_empty() {
        return Some(SpecifierFault::NoLocal(operator));
    }
    None
}

/// A clone is written like its source. At most four release numbers without a local part need no
/// allocation.
impl Clone for VersionSpecifier {
    ghost is_clone = { λ s copy. copy ≡ s };

    ghost is_infallible = { λ s. (length s.version.release ≤ 4) × (s.version.locals ≡ []) };

    fn clone(&self) -> Result<VersionSpecifier, AllocError> {
        Ok(VersionSpecifier {
            operator: self.operator,
            version: self.version.clone()?,
        })
    }
}
