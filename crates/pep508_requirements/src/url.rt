//! A requirement without a name up to its marker, with its URL parsed.

ghost use Rattle.std.specs.Prelude.{◌≡◌, ◌≢◌, ◌++◌, IfErr, IfOk, Some, option_copied};
ghost use Rattle.std.specs.Str.{chars};
ghost use Rattle.refusal.specs.declared.Refusal.TheVariants.{SegmentAtEnd};
ghost use Rattle.pep508_text.specs.Suffix.{IsSuffix};
ghost use Rattle.refusal.specs.Refused.{FaultIs};
ghost use Rattle.pep508_urls.specs.Meaning.{meaning_of};
ghost use Rattle.pep508_urls.specs.Unnamed.{MakesNamed};
ghost use Rattle.requirement_words.specs.Fault.{FindsInUnnamed};
ghost use Rattle.requirement_words.specs.Unnamed.{HasNoUnnamedHead, IsUnnamedHead};
ghost use Rattle.pep508_requirements.specs.Refused.{IsRefusedBy, IsUrlErrorIn, OnError};
ghost use Rattle.pep508_requirements.specs.UrlFault.{IsFaultOfTarget, IsFaultOfText, IsSizeOfTarget, IsSizeOfText};

use crate::error::{refusal_of_fault, refusal_of_url};
use pep508_errors::{Pep508Error, Surroundings};
use pep508_urls::internal::Target;
use pep508_urls::{UnnamedRequirementUrl, expand_env_vars};
use refusal::Refusal;
use requirement_words::{UnnamedHead, read_unnamed_head};
use std::alloc::Global;

// A requirement without a name up to its marker, and what follows it.
pub(crate) fn read_unnamed<'a, Url: UnnamedRequirementUrl>(
    alloc: Global,
    text: &'a str,
) -> Result<(UnnamedHead<'a>, &'a str), Refusal<Pep508Error<Url>>>
    ensures found { IfOk result (λ x. IsUnnamedHead (chars text.now) (chars x.1.now)
        x.0.given.now x.0.url.now x.0.extras.items) }
    ensures refused { IfErr result
        (IsRefusedBy (FindsInUnnamed text.now) (HasNoUnnamedHead (chars text.now)) text.now) }
    ensures suffix { IfOk result (λ x. IsSuffix text.now x.1.now) }

    // The text of the URL comes directly before `rest`.
    ensures placed { IfOk result (λ x. IsSuffix text.now (x.0.given.now ++ x.1.now)) }
{
    match read_unnamed_head(alloc, text) {
        Ok((head, rest)) => Ok((head, rest)),
        Err(Refusal::Fault(fault)) => Err(refusal_of_fault(alloc, text, fault)),
        Err(_) => Err(Refusal::OutOfMemory),
    }
}

// The URL of a target. A relative path starts from the folder, if there is one.
fn url_of<Url: UnnamedRequirementUrl>(
    alloc: Global,
    target: &Target<'_>,
    folder: Option<&str>,
) -> Result<Url, Refusal<Url::Err>>
    ensures value { IfOk result
        (MakesNamed Url.names Url.gives (option_copied folder.entry) (meaning_of target.now)) }
    ensures fault { FaultIs result
        (IsFaultOfTarget Url.tells_size Url.names folder.entry target.now) }
    ensures size { FaultIs result
        (IsSizeOfTarget Url.tells_size Url.may_overflow folder.entry target.now) }
    ensures no_end { IfErr result (λ refusal. refusal ≢ SegmentAtEnd) }
{
    match (target, folder) {
        (Target::Url(url), _) => Url::parse_unnamed_url(alloc, url),
        (Target::Path(path), Some(folder)) => Url::parse_path(alloc, path.as_str(), folder),
        (Target::Path(path), None) => Url::parse_absolute_path(alloc, path.as_str()),
    }
}

// The URL of a text, which it keeps as given.
fn given_url<Url: UnnamedRequirementUrl>(
    alloc: Global,
    given: &str,
    surroundings: &Surroundings<'_>,
) -> Result<Url, Refusal<Url::Err>>
    ensures value { IfOk result (λ url. Url.names given.now surroundings.now url) }
    ensures given { IfOk result (λ url. Url.given_text url ≡ Some given.now) }
    ensures fault { FaultIs result
        (IsFaultOfText Url.tells_size Url.names given.now surroundings.now) }
    ensures size { FaultIs result
        (IsSizeOfText Url.tells_size Url.may_overflow given.now surroundings.now) }
    ensures no_end { IfErr result (λ refusal. refusal ≢ SegmentAtEnd) }
{
    let expanded = expand_env_vars(alloc, given, surroundings)?;
    let target = Target::of(alloc, expanded.as_str())?;
    match url_of(alloc, &target, surroundings.working_dir) {
        Ok(url) => {
            let given = String::from_str(alloc, given)?;
            Ok(Url::with_given(url, given))
        }
        Err(refusal) => Err(refusal),
    }
}

// The URL of `given`. The text has `whole`, which is `given` with its extras, before `rest`.
#[tactic(auto, using(crate::proofs::ErrorLaws::url_error))]
pub(crate) fn unnamed_url<Url: UnnamedRequirementUrl>(
    alloc: Global,
    text: &str,
    whole: &str,
    given: &str,
    rest: &str,
    surroundings: &Surroundings<'_>,
) -> Result<Url, Refusal<Pep508Error<Url>>>
    requires { IsSuffix text.now (whole.now ++ rest.now) }
    ensures value { IfOk result (λ url. Url.names given.now surroundings.now url) }
    ensures given { IfOk result (λ url. Url.given_text url ≡ Some given.now) }
    ensures refused { IfErr result (OnError (IsUrlErrorIn Url.names Url.tells_size Url.may_overflow
        surroundings.now text.now whole.now given.now rest.now)) }
{
    match given_url(alloc, given, surroundings) {
        Ok(url) => Ok(url),
        Err(Refusal::Fault(fault)) => Err(refusal_of_url(alloc, text, whole, rest, fault)),
        Err(_) => Err(Refusal::OutOfMemory),
    }
}
