//! Answering lines as they arrive.

ghost use Rattle.std.specs.Prelude.{◌≡◌, ◌≢◌, ◌++◌, [], ℕ, List, IsTrue, Err, OnOk, OnErr};
ghost use Rattle.std.specs.Io.KnownBytes.{IsAtEnd};
ghost use Rattle.line_server.specs.Lines.{HasNoFeed};
ghost use Rattle.line_server.specs.Serving.{AddsReply, AnswersLine, AnswersLines, ServesAll, ServesFirst, ServesWhole};
ghost use Rattle.line_server.specs.Ports.{TakesAll, TakesFront};
ghost use Rattle.line_server.specs.declared.fault.ServeFault.TheVariants.{Input, Output, Usage};

use crate::fault::ServeFault;
use crate::sink::{Sink, write_all};
use crate::source::Source;
use memchr::memchr;
use std::alloc::{AllocError, Global};

/// Answers lines, one after another.
pub trait Answer {
    /// A step: in the first state the line may get this reply, and the last state results. Line and
    /// reply are without the line feeds that end them.
    ghost step: { Self → List ℕ → List ℕ → Self → Type 0 };

    /// Answers one line, given without its line feed: appends the reply to `replies`, without the
    /// line feed that ends it.
    ///
    /// # Errors
    /// - `AllocError` when memory for the line's words or its reply runs out.
    fn answer(&mut self, line: &[u8], replies: &mut Vec<u8>) -> Result<(), AllocError>
        ensures { OnOk result (AddsReply step self.old line.now self.new replies.old replies.new) };
}

// Answers a line, and ends the reply.
fn answer_line<A: Answer>(
    answerer: &mut A,
    line: &[u8],
    replies: &mut Vec<u8>,
) -> Result<(), AllocError>
    ensures { OnOk result
        (AnswersLine A.step answerer.old line.now answerer.new replies.old replies.new) }
{
    answerer.answer(line, replies)?;
    replies.push(b'\n')?;
    Ok(())
}

// Answers the line that `end` ends; its beginning is in `held`.
fn end_line<A: Answer>(
    answerer: &mut A,
    held: &mut Vec<u8>,
    end: &[u8],
    replies: &mut Vec<u8>,
) -> Result<(), AllocError>
    ensures held { OnOk result (held.new.items ≡ []) }
    ensures reply { OnOk result (AnswersLine A.step answerer.old (held.old.items ++ end.now)
        answerer.new replies.old replies.new) }
{
    let begun = held.as_slice();
    if begun.is_empty() {
        return answer_line(answerer, end, replies);
    }
    held.extend_from_slice(end)?;
    answer_line(answerer, held.as_slice(), replies)?;
    held.clear();
    Ok(())
}

// Answers each line that ends in these bytes, and keeps the beginning of the next in `held`.
fn take_bytes<A: Answer>(
    answerer: &mut A,
    held: &mut Vec<u8>,
    bytes: &[u8],
    replies: &mut Vec<u8>,
) -> Result<(), AllocError>
    requires { HasNoFeed held.old.items }
    ensures { OnOk result (AnswersLines A.step answerer.old held.old bytes.now
        answerer.new held.new replies.old replies.new) }
{
    let mut rest = bytes;
    while let Some(end) = memchr(b'\n', rest) {
        end_line(answerer, held, &rest[..end], replies)?;
        rest = &rest[end + 1..];
    }
    held.extend_from_slice(rest)?;
    Ok(())
}

// Writes all the replies to the sink.
fn hand_over<W: Sink>(replies: &mut Vec<u8>, sink: &mut W) -> Result<(), ServeFault>
    ensures emptied { OnOk result (replies.new.items ≡ []) }
    ensures all { OnOk result (TakesAll W.contents sink.old sink.new replies.old.items) }
    ensures sound { OnOk result (W.has_failed sink.new ≡ W.has_failed sink.old) }

    ensures fault { OnErr result (result ≡ Err Output) }
    ensures beginning { OnErr result (TakesFront W.contents sink.old sink.new replies.old.items) }
    ensures failed { OnErr result (IsTrue (W.has_failed sink.new)) }
{
    let Ok(()) = write_all(sink, replies.as_slice()) else {
        return Err(ServeFault::Output);
    };
    replies.clear();
    Ok(())
}

/// Answers each line of the source, and writes the replies to the sink, each with a line feed. The
/// replies to all complete lines are written before the source is read again.
///
/// # Errors
/// - `Input` if a read failed. The replies to all complete lines were written.
/// - `Output` if a write failed. A beginning of the replies was written.
/// - `Memory` when memory for a line, its words or its reply runs out. A beginning of the replies
///   was written.
pub fn serve_lines<A: Answer, R: Source, W: Sink>(
    alloc: Global,
    answerer: &mut A,
    source: &mut R,
    sink: &mut W,
) -> Result<(), ServeFault>
    ensures at_end { OnOk result (IsAtEnd (R.remaining source.new)) }
    ensures ok { OnOk result (ServesAll A.step R.remaining W.contents
        answerer.old answerer.new source.old source.new sink.old sink.new) }
    ensures input { result ≡ Err Input → ServesWhole A.step R.remaining W.contents
        answerer.old answerer.new source.old source.new sink.old sink.new }
    ensures err { OnErr result (ServesFirst A.step R.remaining W.contents
        answerer.old source.old source.new sink.old sink.new) }

    // Which fault it is.
    ensures input_failed { result ≡ Err Input → IsTrue (R.has_failed source.new) }
    ensures input_sound { result ≢ Err Input → R.has_failed source.new ≡ R.has_failed source.old }
    ensures output_failed { result ≡ Err Output → IsTrue (W.has_failed sink.new) }
    ensures output_sound { result ≢ Err Output → W.has_failed sink.new ≡ W.has_failed sink.old }
    ensures no_usage { result ≢ Err Usage }
{
    let mut held = Vec::new(alloc);
    let mut replies = Vec::new(alloc);
    let mut buffer = [0u8; 8192];
    loop {
        let Ok(count) = source.read(&mut buffer) else {
            return Err(ServeFault::Input);
        };
        if count == 0 {
            break;
        }
        let Ok(()) = take_bytes(answerer, &mut held, &buffer[..count], &mut replies) else {
            return Err(ServeFault::Memory);
        };
        hand_over(&mut replies, sink)?;
    }
    let last = held.as_slice();
    if last.is_empty() {
        return Ok(());
    }
    let Ok(()) = answer_line(answerer, last, &mut replies) else {
        return Err(ServeFault::Memory);
    };
    hand_over(&mut replies, sink)
}
