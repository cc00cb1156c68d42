//! How texts of requirements are parsed into URLs.

ghost use Rattle.std.specs.Prelude.{◌≡◌, ◌≢◌, IfErr, IfOk, option_copied};
ghost use Rattle.refusal.specs.Refused.{FaultIs};
ghost use Rattle.refusal.specs.declared.Refusal.TheVariants.{SegmentAtEnd};
ghost use Rattle.pep508_errors.specs.Url.{HasNone, OnOtherFault, OnSizeFault};
ghost use Rattle.pep508_urls.specs.Fault as spec;
ghost use Rattle.pep508_urls.specs.Meaning.{IsUrlOf, IsVerbatim, meaning_of};
ghost use Rattle.pep508_urls.specs.Verbatim.{given_as};

use crate::error::VerbatimUrlError;
use crate::meaning::Target;
use crate::unnamed::UnnamedRequirementUrl;
use crate::variables::expand_env_vars;
use crate::verbatim_url::VerbatimUrl;
use pep508_errors::{Pep508Url, Surroundings};
use refusal::Refusal;
use std::alloc::Global;

impl Pep508Url for VerbatimUrl {
    type Err = VerbatimUrlError;

    ghost names = { IsVerbatim };

    ghost tells_size = { spec.tells_size };

    ghost may_overflow = { spec.TextMayOverflow };

    fn parse_url(
        alloc: Global,
        text: &str,
        surroundings: &Surroundings<'_>,
    ) -> Result<VerbatimUrl, Refusal<VerbatimUrlError>>
        ensures value { IfOk result (λ url. IsVerbatim text.now surroundings.now url) }
        ensures fault { OnOtherFault spec.tells_size result
            (HasNone (IsVerbatim text.now surroundings.now)) }
        ensures size { OnSizeFault spec.tells_size result
            (spec.TextMayOverflow text.now surroundings.now) }
        ensures no_end { IfErr result (λ refusal. refusal ≢ SegmentAtEnd) }

        // A fault is that of the URL or path that the text denotes.
        ensures told { FaultIs result (spec.IsFaultIn text.now surroundings.now) }
    {
        let expanded = expand_env_vars(alloc, text, surroundings)?;
        let target = Target::of(alloc, expanded.as_str())?;
        match url_of(alloc, &target, surroundings.working_dir) {
            Ok(url) => Ok(url.with_given(String::from_str(alloc, text)?)),
            Err(refusal) => Err(refusal),
        }
    }
}

// The URL of a target. A relative path starts from the folder, if there is one.
fn url_of(
    alloc: Global,
    target: &Target<'_>,
    folder: Option<&str>,
) -> Result<VerbatimUrl, Refusal<VerbatimUrlError>>
    ensures value { IfOk result (λ url.
        IsUrlOf (option_copied folder.entry) (meaning_of target.now) url.url) }
    ensures fault { FaultIs result
        (spec.IsFaultOf (option_copied folder.entry) (meaning_of target.now)) }
    ensures no_end { IfErr result (λ refusal. refusal ≢ SegmentAtEnd) }
{
    match (target, folder) {
        (Target::Url(url), _) => VerbatimUrl::parse_url(alloc, url),
        (Target::Path(path), Some(folder)) => VerbatimUrl::from_path(alloc, path.as_str(), folder),
        (Target::Path(path), None) => VerbatimUrl::from_absolute_path(alloc, path.as_str()),
    }
}

impl UnnamedRequirementUrl for VerbatimUrl {
    ghost gives = { λ v text given. given ≡ given_as v text };

    ghost given_text = { λ v. v.given };

    fn parse_path(
        alloc: Global,
        path: &str,
        working_dir: &str,
    ) -> Result<VerbatimUrl, Refusal<VerbatimUrlError>> {
        VerbatimUrl::from_path(alloc, path, working_dir)
    }

    fn parse_absolute_path(
        alloc: Global,
        path: &str,
    ) -> Result<VerbatimUrl, Refusal<VerbatimUrlError>> {
        VerbatimUrl::from_absolute_path(alloc, path)
    }

    fn parse_unnamed_url(
        alloc: Global,
        text: &str,
    ) -> Result<VerbatimUrl, Refusal<VerbatimUrlError>> {
        VerbatimUrl::parse_url(alloc, text)
    }

    fn with_given(self, given: String) -> VerbatimUrl {
        VerbatimUrl::with_given(self, given)
    }

    fn given(&self) -> Option<&str> {
        VerbatimUrl::given(self)
    }
}
