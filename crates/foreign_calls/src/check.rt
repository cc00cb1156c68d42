//! Whether texts are requirements, and what is wrong with others.

ghost use Rattle.std.specs.Prelude.{◌≡◌, ◌≢◌, IfErr, IfOk, string_bytes};
ghost use Rattle.foreign_calls.specs.Buffer.{WritesIfRoom};
ghost use Rattle.foreign_calls.specs.Options.{folder_of};
ghost use Rattle.foreign_calls.specs.declared.answer.Answer.TheVariants.{BufferTooSmall, Done, Invalid, NumberTooLarge};
ghost use Rattle.foreign_calls.specs.Reading.{Overflows};
ghost use Rattle.foreign_calls.specs.Check.{HasFault, IsCheckRefusal, IsFault, IsRequirement, IsToldBy, TellsNothing};

use crate::reading::parse;
use crate::{Answer, Options, Settings, hand_over, out_of_memory, read_text};
use marker_graph::Interner;
use pep508_errors::Pep508Error;
use pep508_urls::VerbatimUrl;
use refusal::Refusal;
use std::alloc::{AllocError, Global};
use std::string::ToString;

/// A place in a text, in bytes.
#[repr(C)]
#[derive(Clone, Copy)]
pub struct Span {
    /// Where it begins.
    pub start: usize,
    /// How long it is.
    pub length: usize,
}

// What is wrong with a text, and where.
#[derive(Drop)]
struct Fault {
    span: Span,
    message: String,
}

impl Fault {
    // The place and the message of an error.
    #[tactic(auto, using(crate::proofs::CheckLaws::said))]
    fn of(alloc: Global, error: &Pep508Error<VerbatimUrl>) -> Result<Fault, AllocError>
        ensures { IfOk result
            (λ f. IsToldBy error.now f.span (string_bytes f.message)) }
    {
        Ok(Fault {
            span: Span {
                start: error.start,
                length: error.len,
            },
            message: error.message.to_string(alloc)?,
        })
    }
}

// What is wrong with the text, or nothing if it is a requirement.
#[tactic(auto, using(crate::proofs::CheckLaws::checked))]
fn fault_in(text: &str, folder: &str, interner: &mut Interner) -> Result<Option<Fault>, Answer>
    ensures found { IfOk result (HasFault folder.now text.now) }
    ensures refused { IfErr result (IsCheckRefusal folder.now text.now) }
{
    match parse(text, folder, interner) {
        Ok(_) => Ok(None),
        Err(Refusal::OutOfMemory) => Err(out_of_memory(interner)),
        Err(Refusal::SegmentAtEnd) => Err(Answer::NumberTooLarge),
        Err(Refusal::Fault(error)) => match Fault::of(interner.allocator(), &error) {
            Ok(fault) => Ok(Some(fault)),
            Err(AllocError) => Err(Answer::OutOfMemory),
        },
    }
}

// The same of these bytes.
fn fault_of(alloc: Global, text: &[u8], options: &[Options<'_>]) -> Result<Option<Fault>, Answer>
    ensures found { IfOk result (HasFault (folder_of options.now) text.now) }
    ensures refused { IfErr result (IsCheckRefusal (folder_of options.now) text.now) }
{
    let settings = Settings::of(options)?;
    let text = read_text(text)?;
    let mut interner = settings.interner(alloc);
    fault_in(text, settings.folder(), &mut interner)
}

/// Returns `Done` if a text is a requirement. If it is `Invalid`, writes where, and what is wrong
/// if the buffer is large enough for the message. `needed` is then the length of the message.
#[tactic(auto, using(crate::proofs::CheckLaws::told))]
pub fn check_requirement(
    alloc: Global,
    text: &[u8],
    options: &[Options<'_>],
    span: &mut Span,
    message: &mut [u8],
    needed: &mut usize,
) -> Answer
    ensures done { result ≡ Done → IsRequirement (folder_of options.now) text.now }
    ensures invalid { result ≡ Invalid
        → WritesIfRoom (IsFault (folder_of options.now) text.now span.new)
        message.old message.new needed.new }
    ensures too_large { result ≡ NumberTooLarge
        → Overflows (folder_of options.now) text.now }
    ensures kept { result ≢ Invalid
        → TellsNothing span.old span.new message.old message.new needed.new }
    ensures not_small { result ≢ BufferTooSmall }
{
    *needed = 0;
    match fault_of(alloc, text, options) {
        Ok(None) => Answer::Done,
        Ok(Some(fault)) => {
            *span = fault.span;
            hand_over(fault.message.as_bytes(), message, needed);
            Answer::Invalid
        }
        Err(answer) => answer,
    }
}
