//! The parts of requirements.

ghost use Rattle.std.specs.Prelude.{◌≡◌, ◌≢◌, IfErr, IfOk, map, string_bytes};
ghost use Rattle.std.specs.Option.{option_map};
ghost use Rattle.pep440_specifier.specs.Text.{specifier_text};
ghost use Rattle.marker_graph.specs.Contents.{IsHeld};
ghost use Rattle.foreign_calls.specs.Buffer.{WouldWrite, Writes};
ghost use Rattle.foreign_calls.specs.Options.{folder_of};
ghost use Rattle.foreign_calls.specs.declared.answer.Answer.TheVariants.{BufferTooSmall, Done, Invalid, NumberTooLarge};
ghost use Rattle.foreign_calls.specs.Reading.{IsNoRequirement, IsRequirementRefusal, Overflows};
ghost use Rattle.foreign_calls.specs.Requirement.{ArePartsIn, ArePartsOf, specifiers_of, url_of};

use crate::json::Parts;
use crate::marker::no_text;
use crate::reading::parse_or_answer;
use crate::{Answer, Options, Settings, hand_over, read_text};
use marker_graph::Interner;
use pep440_specifier::VersionSpecifier;
use pep508_markers::MarkerText;
use pep508_requirements::{Requirement, VersionOrUrl};
use pep508_urls::VerbatimUrl;
use std::alloc::{AllocError, Global};

// The specifiers, or none.
fn specifiers_of(asked: &Option<VersionOrUrl<VerbatimUrl>>) -> &[VersionSpecifier]
    ensures { map specifier_text result.now ≡ specifiers_of asked.now }
{
    match asked {
        Some(VersionOrUrl::VersionSpecifier(set)) => set.as_slice(),
        Some(VersionOrUrl::Url(_)) | None => &[],
    }
}

// The text of the URL, if there is one.
fn url_of(asked: &Option<VersionOrUrl<VerbatimUrl>>) -> Option<&str>
    ensures { option_map (λ t. t.now) result ≡ url_of asked.now }
{
    match asked {
        Some(VersionOrUrl::Url(url)) => Some(url.raw().as_str()),
        Some(VersionOrUrl::VersionSpecifier(_)) | None => None,
    }
}

// The parts of a requirement as JSON.
fn parts_in(
    requirement: &Requirement<VerbatimUrl>,
    interner: &Interner,
) -> Result<String, AllocError>
    requires { IsHeld interner.now requirement.now.marker }
    ensures { IfOk result (λ json. ArePartsIn interner.now requirement.now (string_bytes json)) }
{
    let marker = requirement.marker.try_to_string(interner)?;
    let parts = Parts {
        name: requirement.name.as_str(),
        extras: &requirement.extras,
        specifiers: specifiers_of(&requirement.version_or_url),
        url: url_of(&requirement.version_or_url),
        marker: marker.as_deref(),
    };
    parts.to_json(interner.allocator())
}

// The parts of a requirement as JSON.
#[tactic(auto, using(crate::proofs::RequirementLaws::parts_of))]
fn parts_json(text: &str, folder: &str, interner: &mut Interner) -> Result<String, Answer>
    ensures written { IfOk result
        (λ json. ArePartsOf folder.now text.now (string_bytes json)) }
    ensures refused { IfErr result (IsRequirementRefusal folder.now text.now) }
{
    let requirement = parse_or_answer(text, folder, interner)?;
    match parts_in(&requirement, interner) {
        Ok(json) => Ok(json),
        Err(AllocError) => Err(no_text(requirement.marker, interner)),
    }
}

// The same of these bytes.
fn parts_json_of(alloc: Global, text: &[u8], options: &[Options<'_>]) -> Result<String, Answer>
    ensures written { IfOk result
        (λ json. ArePartsOf (folder_of options.now) text.now (string_bytes json)) }
    ensures refused { IfErr result (IsRequirementRefusal (folder_of options.now) text.now) }
{
    let settings = Settings::of(options)?;
    let text = read_text(text)?;
    let mut interner = settings.interner(alloc);
    parts_json(text, settings.folder(), &mut interner)
}

/// Writes the parts of a requirement as an object of JSON without spaces: `extras` and `specifiers`
/// are lists of texts, `name` is a text, and `marker` and `url` are a text or `null`.
pub fn requirement_parts(
    alloc: Global,
    text: &[u8],
    options: &[Options<'_>],
    buffer: &mut [u8],
    needed: &mut usize,
) -> Answer
    ensures done { result ≡ Done
        → Writes (ArePartsOf (folder_of options.now) text.now) buffer.old buffer.new needed.new }
    ensures too_small { result ≡ BufferTooSmall
        → WouldWrite (ArePartsOf (folder_of options.now) text.now)
        buffer.old buffer.new needed.new }

    ensures invalid { result ≡ Invalid
        → IsNoRequirement (folder_of options.now) text.now }
    ensures too_large { result ≡ NumberTooLarge
        → Overflows (folder_of options.now) text.now }
    ensures kept { result ≢ Done → buffer.new ≡ buffer.old }
    ensures none { result ≢ Done → result ≢ BufferTooSmall → needed.new ≡ 0 }
{
    *needed = 0;
    match parts_json_of(alloc, text, options) {
        Ok(json) => hand_over(json.as_bytes(), buffer, needed),
        Err(answer) => answer,
    }
}
