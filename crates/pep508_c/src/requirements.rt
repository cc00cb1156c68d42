//! Calls about requirements.

ghost use Rattle.std.specs.Prelude.{◌≡◌, ◌≢◌};
ghost use Rattle.foreign_calls.specs.Answer.{done, invalid, too_large, too_small};
ghost use Rattle.foreign_calls.specs.Buffer.{WouldWrite, Writes, WritesIfRoom};
ghost use Rattle.foreign_calls.specs.Options.{folder_of};
ghost use Rattle.foreign_calls.specs.Check.{IsFault, IsRequirement};
ghost use Rattle.foreign_calls.specs.Reading.{IsNoRequirement, Overflows};
ghost use Rattle.foreign_calls.specs.Requirement.{ArePartsOf, IsNormal};

use foreign_calls::{Options, Span};
use std::alloc::Global;

/// Whether a text is a requirement, and what is wrong with another.
#[unsafe(no_mangle)]
pub extern "C" fn pep508_requirement_check(
    alloc: Global,
    text: &[u8],
    options: &[Options<'_>],
    span: &mut Span,
    message: &mut [u8],
    needed: &mut usize,
) -> i32
    ensures done { result ≡ done → IsRequirement (folder_of options.now) text.now }
    ensures invalid { result ≡ invalid
        → WritesIfRoom (IsFault (folder_of options.now) text.now span.new)
        message.old message.new needed.new }
    ensures too_large { result ≡ too_large → Overflows (folder_of options.now) text.now }

    ensures span_kept { result ≢ invalid → span.new ≡ span.old }
    ensures kept { result ≢ invalid → message.new ≡ message.old }
    ensures none { result ≢ invalid → needed.new ≡ 0 }
{
    foreign_calls::check_requirement(alloc, text, options, span, message, needed).code()
}

/// The normal text of a requirement.
#[unsafe(no_mangle)]
pub extern "C" fn pep508_requirement_normalize(
    alloc: Global,
    text: &[u8],
    options: &[Options<'_>],
    buffer: &mut [u8],
    needed: &mut usize,
) -> i32
    ensures done { result ≡ done → Writes (IsNormal (folder_of options.now) text.now)
        buffer.old buffer.new needed.new }
    ensures too_small { result ≡ too_small → WouldWrite (IsNormal (folder_of options.now) text.now)
        buffer.old buffer.new needed.new }
    ensures invalid { result ≡ invalid → IsNoRequirement (folder_of options.now) text.now }
    ensures too_large { result ≡ too_large → Overflows (folder_of options.now) text.now }

    ensures kept { result ≢ done → buffer.new ≡ buffer.old }
    ensures none { result ≢ done → result ≢ too_small → needed.new ≡ 0 }
{
    foreign_calls::normalize_requirement(alloc, text, options, buffer, needed).code()
}

/// The parts of a requirement as JSON.
#[unsafe(no_mangle)]
pub extern "C" fn pep508_requirement_parts(
    alloc: Global,
    text: &[u8],
    options: &[Options<'_>],
    buffer: &mut [u8],
    needed: &mut usize,
) -> i32
    ensures done { result ≡ done → Writes (ArePartsOf (folder_of options.now) text.now)
        buffer.old buffer.new needed.new }
    ensures too_small { result ≡ too_small
        → WouldWrite (ArePartsOf (folder_of options.now) text.now)
        buffer.old buffer.new needed.new }
    ensures invalid { result ≡ invalid → IsNoRequirement (folder_of options.now) text.now }
    ensures too_large { result ≡ too_large → Overflows (folder_of options.now) text.now }

    ensures kept { result ≢ done → buffer.new ≡ buffer.old }
    ensures none { result ≢ done → result ≢ too_small → needed.new ≡ 0 }
{
    foreign_calls::requirement_parts(alloc, text, options, buffer, needed).code()
}
