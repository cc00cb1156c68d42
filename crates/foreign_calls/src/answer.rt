//! What a call returns, and how it fills a buffer of the caller.

ghost use Rattle.std.specs.Prelude.{◌≡◌, ◌≢◌, ◌⊎◌, codes};
ghost use Rattle.foreign_calls.specs.Answer.{code_of};
ghost use Rattle.foreign_calls.specs.Buffer.{Fits, IsTooSmall};

use refusal::Refusal;

/// What a call returns.
#[derive(Clone, Copy, Debug, PartialEq, Eq, Hash)]
pub enum Answer {
    /// The result is where the caller wants it.
    Done,
    /// The text is an invalid requirement or an invalid marker.
    Invalid,
    /// Memory ran out.
    OutOfMemory,
    /// The buffer is too small for the result.
    BufferTooSmall,
    /// A text is invalid UTF-8.
    NotUtf8,
    /// A comparison of the marker would have to raise 18446744073709551615, the largest number of a
    /// version.
    NumberTooLarge,
    /// Another argument is invalid: a value of the environment or a bound is no version, an extra
    /// is no name, or the options have another size.
    InvalidArgument,
    /// The marker takes more nodes, or the question more looks at nodes, than the options allow.
    TooComplex,
    /// No marker has such a number.
    NoSuchMarker,
    /// The handle is shut.
    Shut,
    /// No environment was set.
    NoEnvironment,
}

impl Answer {
    /// The number of the answer.
    pub fn code(self) -> i32
        ensures { result ≡ code_of self }
    {
        match self {
            Answer::Done => 0,
            Answer::Invalid => 1,
            Answer::OutOfMemory => 2,
            Answer::BufferTooSmall => 3,
            Answer::NotUtf8 => 4,
            Answer::NumberTooLarge => 5,
            Answer::InvalidArgument => 6,
            Answer::TooComplex => 7,
            Answer::NoSuchMarker => 8,
            Answer::Shut => 9,
            Answer::NoEnvironment => 10,
        }
    }
}

/// Copies the bytes to the start of the buffer, if they fit. `needed` is their number either way.
pub fn hand_over(bytes: &[u8], buffer: &mut [u8], needed: &mut usize) -> Answer
    ensures done { result ≡ Answer.Done → Fits bytes.now buffer.old buffer.new needed.new }
    ensures too_small { result ≡ Answer.BufferTooSmall
        → IsTooSmall bytes.now buffer.old buffer.new needed.new }
    ensures only { (result ≡ Answer.Done) ⊎ (result ≡ Answer.BufferTooSmall) }
{
    let count = bytes.len();
    *needed = count;
    if count > buffer.len() {
        return Answer::BufferTooSmall;
    }
    let (front, _rest) = buffer.split_at_mut(count);
    front.copy_from_slice(bytes);
    Answer::Done
}

/// Writes the version of the library.
pub fn write_version(buffer: &mut [u8], needed: &mut usize) -> Answer
    ensures done { result ≡ Answer.Done → Fits (codes "0.9.2") buffer.old buffer.new needed.new }
    ensures too_small { result ≢ Answer.Done
        → IsTooSmall (codes "0.9.2") buffer.old buffer.new needed.new }
{
    hand_over(b"0.9.2", buffer, needed)
}
