//! Laws of the orders of this crate. Each is a function that compares two values, and its contract
//! says by what.

ghost use Rattle.std.specs.Prelude.{◌≡◌};
ghost use Rattle.pep508_requirements.specs.Order.{origin_cmp, requirement_cmp, unnamed_cmp, wanted_cmp};

use crate::origin::RequirementOrigin;
use crate::unnamed_view::UnnamedRequirementView;
use crate::version_or_url::VersionOrUrl;
use crate::view::RequirementView;
use pep508_errors::Pep508Url;
use pep508_urls::UnnamedRequirementUrl;
use std::cmp::Ordering;

/// Views are ordered by name, then extras, then version or URL, then marker, then origin.
pub fn views_are_ordered_by_fields<T: Pep508Url + Ord>(
    view: &RequirementView<'_, T>,
    other: &RequirementView<'_, T>,
) -> Ordering
    ensures { result ≡ requirement_cmp T.cmp view.now other.now }
{
    view.cmp(other)
}

/// Views without a name are ordered by URL, then extras, then marker, then origin.
pub fn unnamed_views_are_ordered_by_fields<Url: UnnamedRequirementUrl + Ord>(
    view: &UnnamedRequirementView<'_, Url>,
    other: &UnnamedRequirementView<'_, Url>,
) -> Ordering
    ensures { result ≡ unnamed_cmp Url.cmp view.now other.now }
{
    view.cmp(other)
}

/// Specifiers come before URLs.
pub fn specifiers_come_before_urls<T: Pep508Url + Ord>(
    wanted: &VersionOrUrl<T>,
    other: &VersionOrUrl<T>,
) -> Ordering
    ensures { result ≡ wanted_cmp T.cmp wanted.now other.now }
{
    wanted.cmp(other)
}

/// Files come before projects, and these before workspaces.
pub fn files_come_before_projects(origin: &RequirementOrigin, other: &RequirementOrigin) -> Ordering
    ensures { result ≡ origin_cmp origin.now other.now }
{
    origin.cmp(other)
}
