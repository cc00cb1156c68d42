//! Sinks of bytes.

ghost use Rattle.std.specs.Prelude.{◌≡◌, ◌<◌, ◌≤◌, ℕ, List, Option, Bool, false, IsTrue, IfOk, OnErr, OnOk, length, take};
ghost use Rattle.line_server.specs.Ports.{TakesAll, TakesFront};

use std::io::Write;

/// A write failed.
#[derive(Clone, Copy, Debug, PartialEq, Eq, Hash)]
pub struct WriteFault;

/// Takes bytes, in order.
pub trait Sink {
    /// The bytes taken so far, if the sink shows them.
    ghost contents: { Self → Option (List ℕ) };

    /// Whether a write has failed.
    ghost has_failed: { Self → Bool };

    /// Takes a beginning of the bytes and returns its length, at least 1 unless the slice is empty.
    /// After an error a beginning of the bytes may have been taken.
    fn write(&mut self, bytes: &[u8]) -> Result<usize, WriteFault>
        ensures count { IfOk result (λ n. n ≤ length bytes.now) }
        ensures some { IfOk result (λ n. 0 < length bytes.now → 0 < n) }
        ensures taken { IfOk result (λ n. TakesAll contents self.old self.new (take n bytes.now)) }
        ensures sound { OnOk result (has_failed self.new ≡ has_failed self.old) }

        ensures beginning { OnErr result (TakesFront contents self.old self.new bytes.now) }
        ensures failed { OnErr result (IsTrue (has_failed self.new)) };
}

/// Writes all the bytes, in as many writes as the sink needs. If a write fails, so does this call,
/// and a beginning of the bytes was written.
pub fn write_all<W: Sink>(sink: &mut W, bytes: &[u8]) -> Result<(), WriteFault>
    ensures all { OnOk result (TakesAll W.contents sink.old sink.new bytes.now) }
    ensures sound { OnOk result (W.has_failed sink.new ≡ W.has_failed sink.old) }

    ensures beginning { OnErr result (TakesFront W.contents sink.old sink.new bytes.now) }
    ensures failed { OnErr result (IsTrue (W.has_failed sink.new)) }
{
    let mut rest = bytes;
    while !rest.is_empty() {
        let count = sink.write(rest)?;
        rest = &rest[count..];
    }
    Ok(())
}

/// A sink that writes to a writer of std. Nothing is kept back between two calls: bytes are written
/// and the writer is flushed. An error of the writer is a fault, and so is a write that takes no
/// byte of a slice that is not empty.
#[derive(Drop)]
pub struct Output<W> {
    writer: W,
    has_failed: bool,
}

impl<W: Write> Output<W> {
    /// Returns a sink that appends to what `writer` has.
    pub fn new(writer: W) -> Self
        ensures contents { ⟦<Output<W> as Sink>⟧.contents result ≡ W.contents writer }
        ensures sound { ⟦<Output<W> as Sink>⟧.has_failed result ≡ false }
    {
        Output {
            writer,
            has_failed: false,
        }
    }

    // Records the fault.
    fn fail(&mut self) -> WriteFault
        ensures writer { self.new.writer ≡ self.old.writer }
        ensures failed { IsTrue self.new.has_failed }
    {
        self.has_failed = true;
        WriteFault
    }
}

impl<W: Write> Sink for Output<W> {
    ghost contents = { λ output. W.contents output.writer };

    ghost has_failed = { λ output. output.has_failed };

    fn write(&mut self, bytes: &[u8]) -> Result<usize, WriteFault> {
        let Ok(count) = self.writer.write(bytes) else {
            return Err(self.fail());
        };
        if count == 0 && !bytes.is_empty() {
            return Err(self.fail());
        }
        match self.writer.flush() {
            Ok(()) => Ok(count),
            Err(_) => Err(self.fail()),
        }
    }
}
