//! Normal texts of requirements.

ghost use Rattle.std.specs.Prelude.{◌≡◌, ◌≢◌, IfErr, IfOk, string_bytes};
ghost use Rattle.foreign_calls.specs.Buffer.{WouldWrite, Writes};
ghost use Rattle.foreign_calls.specs.Options.{folder_of};
ghost use Rattle.foreign_calls.specs.declared.answer.Answer.TheVariants.{BufferTooSmall, Done, Invalid, NumberTooLarge};
ghost use Rattle.foreign_calls.specs.Reading.{IsNoRequirement, IsRequirementRefusal, Overflows};
ghost use Rattle.foreign_calls.specs.Requirement.{IsNormal};

use crate::marker::no_text;
use crate::reading::parse_or_answer;
use crate::{Answer, Options, Settings, hand_over, read_text};
use marker_graph::Interner;
use std::alloc::{AllocError, Global};

// The normal text of a requirement.
#[tactic(auto, using(crate::proofs::RequirementLaws::normal))]
fn normal_text(text: &str, folder: &str, interner: &mut Interner) -> Result<String, Answer>
    ensures written { IfOk result
        (λ normal. IsNormal folder.now text.now (string_bytes normal)) }
    ensures refused { IfErr result (IsRequirementRefusal folder.now text.now) }
{
    let requirement = parse_or_answer(text, folder, interner)?;
    match requirement.try_to_string(interner) {
        Ok(normal) => Ok(normal),
        Err(AllocError) => Err(no_text(requirement.marker, interner)),
    }
}

// The normal text of a requirement of these bytes.
fn normal_text_of(alloc: Global, text: &[u8], options: &[Options<'_>]) -> Result<String, Answer>
    ensures written { IfOk result
        (λ normal. IsNormal (folder_of options.now) text.now (string_bytes normal)) }
    ensures refused { IfErr result (IsRequirementRefusal (folder_of options.now) text.now) }
{
    let settings = Settings::of(options)?;
    let text = read_text(text)?;
    let mut interner = settings.interner(alloc);
    normal_text(text, settings.folder(), &mut interner)
}

/// Writes the normal text of a requirement: its name, its extras in brackets, its specifiers or
/// ` @ ` and its URL, and ` ; ` and its marker unless that is true everywhere.
pub fn normalize_requirement(
    alloc: Global,
    text: &[u8],
    options: &[Options<'_>],
    buffer: &mut [u8],
    needed: &mut usize,
) -> Answer
    ensures done { result ≡ Done
        → Writes (IsNormal (folder_of options.now) text.now) buffer.old buffer.new needed.new }
    ensures too_small { result ≡ BufferTooSmall
        → WouldWrite (IsNormal (folder_of options.now) text.now)
        buffer.old buffer.new needed.new }

    ensures invalid { result ≡ Invalid
        → IsNoRequirement (folder_of options.now) text.now }
    ensures too_large { result ≡ NumberTooLarge
        → Overflows (folder_of options.now) text.now }
    ensures kept { result ≢ Done → buffer.new ≡ buffer.old }
    ensures none { result ≢ Done → result ≢ BufferTooSmall → needed.new ≡ 0 }
{
    *needed = 0;
    match normal_text_of(alloc, text, options) {
        Ok(normal) => hand_over(normal.as_bytes(), buffer, needed),
        Err(answer) => answer,
    }
}
