//! A call that answers lines.

ghost use Rattle.std.specs.Prelude.{◌≡◌, ◌≢◌};
ghost use Rattle.foreign_calls.specs.Answer.{done, too_small};
ghost use Rattle.foreign_calls.specs.Buffer.{WouldWrite, Writes};
ghost use Rattle.foreign_markers.specs.Script.{IsAnswered};

use foreign_calls::Options;
use std::alloc::Global;

/// The replies to the lines of a script.
#[unsafe(no_mangle)]
pub extern "C" fn pep508_serve(
    alloc: Global,
    script: &[u8],
    options: &[Options<'_>],
    buffer: &mut [u8],
    needed: &mut usize,
) -> i32
    ensures done { result ≡ done
        → Writes (IsAnswered script.now) buffer.old buffer.new needed.new }
    ensures too_small { result ≡ too_small
        → WouldWrite (IsAnswered script.now) buffer.old buffer.new needed.new }

    ensures kept { result ≢ done → buffer.new ≡ buffer.old }
    ensures none { result ≢ done → result ≢ too_small → needed.new ≡ 0 }
{
    foreign_markers::serve_script(alloc, script, options, buffer, needed).code()
}
