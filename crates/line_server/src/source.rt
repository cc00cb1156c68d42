//! Sources of bytes.

ghost use Rattle.std.specs.Prelude.{◌≡◌, ◌≤◌, ◌-◌, ◌^◌, ℕ, List, Option, Bool, false, IsTrue, IfOk, OnErr, OnOk, length};
ghost use Rattle.std.specs.Io.KnownBytes.{ReadConsumes};
ghost use Rattle.line_server.specs.Ports.{TakesRead};

use std::io::Read;

/// A read failed.
#[derive(Clone, Copy, Debug, PartialEq, Eq, Hash)]
pub struct ReadFault;

/// Gives bytes, each once and in order.
pub trait Source {
    /// The bytes that are left, if the source shows them.
    ghost remaining: { Self → Option (List ℕ) };

    /// Whether a read has failed.
    ghost has_failed: { Self → Bool };

    /// How many more reads may be tried: every further one fails.
    ghost reads_left: { Self → ℕ };

    /// Reads into the front of the buffer, and returns how many bytes it wrote there: 0 only at the
    /// end, or for an empty buffer. A failed read has read nothing.
    ///
    /// At most 18446744073709551615 reads of a source succeed.
    fn read(&mut self, buffer: &mut [u8]) -> Result<usize, ReadFault>
        ensures count { IfOk result (λ n. n ≤ length buffer.new) }
        ensures bytes { ReadConsumes (remaining self.old) (remaining self.new) result buffer.new }

        ensures reads { TakesRead (reads_left self.old) (reads_left self.new) result }

        ensures sound { OnOk result (has_failed self.new ≡ has_failed self.old) }
        ensures failed { OnErr result (IsTrue (has_failed self.new)) };
}

/// A source that reads from a reader of std. An error of the reader is a fault, and so is every
/// read after the first 18446744073709551615.
#[derive(Drop)]
pub struct Input<R> {
    reader: R,
    has_failed: bool,
    reads_left: u64,
}

impl<R: Read> Input<R> {
    /// Returns a source of what is left of `reader`.
    pub fn new(reader: R) -> Self
        ensures remaining { ⟦<Input<R> as Source>⟧.remaining result ≡ R.remaining reader }
        ensures sound { ⟦<Input<R> as Source>⟧.has_failed result ≡ false }
        ensures reads { ⟦<Input<R> as Source>⟧.reads_left result ≡ 2 ^ 64 - 1 }
    {
        Input {
            reader,
            has_failed: false,
            reads_left: u64::MAX,
        }
    }

    // Records the fault.
    fn fail(&mut self) -> ReadFault
        ensures reader { self.new.reader ≡ self.old.reader }
        ensures reads { self.new.reads_left ≡ self.old.reads_left }
        ensures failed { IsTrue self.new.has_failed }
    {
        self.has_failed = true;
        ReadFault
    }
}

impl<R: Read> Source for Input<R> {
    ghost remaining = { λ input. R.remaining input.reader };

    ghost has_failed = { λ input. input.has_failed };

    ghost reads_left = { λ input. input.reads_left };

    fn read(&mut self, buffer: &mut [u8]) -> Result<usize, ReadFault> {
        if self.reads_left == 0 {
            return Err(self.fail());
        }
        self.reads_left -= 1;
        match self.reader.read(buffer) {
            Ok(count) => Ok(count),
            Err(_) => Err(self.fail()),
        }
    }
}
