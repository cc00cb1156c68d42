//! Comparing a requirement with another.

ghost use Rattle.std.specs.Prelude.{◌≡◌, IfOk, true};
ghost use Rattle.formatting_commands.specs.Same.{IsSame, IsSameWish};

use pep508_requirements::VersionOrUrl::{Url, VersionSpecifier};
use pep508_requirements::{Requirement, VersionOrUrl};
use pep508_urls::VerbatimUrl;
use std::alloc::{AllocError, Global};
use std::string::ToString;

// Whether the specifiers are written the same, or the URLs were given as the same text.
fn is_same_wish(
    alloc: Global,
    one: &Option<VersionOrUrl<VerbatimUrl>>,
    other: &Option<VersionOrUrl<VerbatimUrl>>,
) -> Result<bool, AllocError>
    ensures { IfOk result (λ same. same ≡ true → IsSameWish one.now other.now) }
{
    match (one, other) {
        (None, None) => Ok(true),
        (Some(VersionSpecifier(one)), Some(VersionSpecifier(other))) => {
            Ok(one.to_string(alloc)? == other.to_string(alloc)?)
        }
        (Some(Url(one)), Some(Url(other))) => Ok(one.given() == other.given()),
        _ => Ok(false),
    }
}

// Whether two requirements of one interner are the same.
pub(crate) fn is_same(
    alloc: Global,
    one: &Requirement<VerbatimUrl>,
    other: &Requirement<VerbatimUrl>,
) -> Result<bool, AllocError>
    ensures { IfOk result (λ same. same ≡ true → IsSame one.now other.now) }
{
    if one.name != other.name || one.extras != other.extras || one.marker != other.marker {
        return Ok(false);
    }
    is_same_wish(alloc, &one.version_or_url, &other.version_or_url)
}
