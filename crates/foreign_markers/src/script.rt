//! Scripts of lines.

ghost use Rattle.std.specs.Prelude.{◌≡◌, ◌≢◌, IfErr, IfOk, Some};
ghost use Rattle.foreign_calls.specs.Buffer.{WouldWrite, Writes};
ghost use Rattle.foreign_markers.specs.Script.{IsAnswered, IsUnanswered};

use foreign_calls::{Answer, Options, Settings, hand_over};
use line_server::{Input, Sink, WriteFault};
use marker_lines::serve;
use std::alloc::Global;

// The replies so far.
#[derive(Drop)]
struct Replies {
    bytes: Vec<u8>,
    has_failed: bool,
}

impl Sink for Replies {
    ghost contents = { λ replies. Some replies.bytes.items };

    ghost has_failed = { λ replies. replies.has_failed };

    fn write(&mut self, bytes: &[u8]) -> Result<usize, WriteFault> {
        match self.bytes.extend_from_slice(bytes) {
            Ok(()) => Ok(bytes.len()),
            Err(_) => {
                self.has_failed = true;
                Err(WriteFault)
            }
        }
    }
}

// The replies to the lines of the script.
#[tactic(auto, using(crate::proofs::ScriptLaws::answered))]
fn replies_to(alloc: Global, script: &[u8], options: &[Options<'_>]) -> Result<Vec<u8>, Answer>
    ensures answered { IfOk result (λ replies. IsAnswered script.now replies.items) }
    ensures refused { IfErr result IsUnanswered }
{
    let settings = Settings::of(options)?;
    let mut source = Input::new(script);
    let mut sink = Replies {
        bytes: Vec::new(alloc),
        has_failed: false,
    };
    match serve(
        alloc,
        settings.key(),
        settings.pieces(),
        &mut source,
        &mut sink,
    ) {
        Ok(()) => Ok(sink.bytes),
        Err(_) => Err(Answer::OutOfMemory),
    }
}

/// Answers each line of a script as the program `markers` does, on a session of its own, and writes
/// the replies, each with a line feed.
pub fn serve_script(
    alloc: Global,
    script: &[u8],
    options: &[Options<'_>],
    buffer: &mut [u8],
    needed: &mut usize,
) -> Answer
    ensures done { result ≡ Answer.Done
        → Writes (IsAnswered script.now) buffer.old buffer.new needed.new }
    ensures too_small { result ≡ Answer.BufferTooSmall
        → WouldWrite (IsAnswered script.now) buffer.old buffer.new needed.new }

    ensures kept { result ≢ Answer.Done → buffer.new ≡ buffer.old }
    ensures none { result ≢ Answer.Done → result ≢ Answer.BufferTooSmall → needed.new ≡ 0 }
    ensures not_invalid { result ≢ Answer.Invalid }
{
    *needed = 0;
    match replies_to(alloc, script, options) {
        Ok(replies) => hand_over(&replies, buffer, needed),
        Err(answer) => answer,
    }
}
