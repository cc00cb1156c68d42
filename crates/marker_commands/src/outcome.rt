//! How a command about markers ends.

ghost use Rattle.std.specs.Prelude.{◌≡◌, ◌∷◌, ◌++◌, [], IfOk, string_bytes};
ghost use Rattle.marker_commands.specs.Outcome.{status_of};
ghost use Rattle.marker_commands.specs.declared.outcome.Outcome.TheVariants.{OutOfMemory};

use std::alloc::{AllocError, AllocFailed, Global};

/// How a command ends.
#[derive(Clone, Copy, Debug, PartialEq, Eq)]
pub enum Outcome {
    /// There is an answer.
    Answered,
    /// There is an answer on which the command fails: the marker is false.
    Failed,
    /// The truth of the marker depends on keys whose values are not known.
    Open,
    /// A text is an invalid marker.
    Invalid,
    /// A comparison of a marker has a bound above 2^64 - 1.
    TooLarge,
    /// The answer needs more room than there is.
    TooComplex,
    /// An option has an invalid value.
    WrongUse,
    /// Memory ran out.
    OutOfMemory,
}

impl Outcome {
    /// Returns the exit status of the program.
    pub fn status(self) -> u8
        ensures { result ≡ status_of self }
    {
        match self {
            Outcome::Answered => 0,
            Outcome::Failed => 1,
            _ => 2,
        }
    }
}

impl From<AllocError> for Outcome {
    ghost from_gives = { λ _ outcome. outcome ≡ OutOfMemory };

    fn from(_error: AllocError) -> Outcome {
        Outcome::OutOfMemory
    }
}

impl<T: Drop> From<AllocFailed<T>> for Outcome {
    ghost from_gives = { λ _ outcome. outcome ≡ OutOfMemory };

    fn from(_error: AllocFailed<T>) -> Outcome {
        Outcome::OutOfMemory
    }
}

/// What a command writes.
#[derive(Debug, Drop)]
pub struct Reply {
    pub outcome: Outcome,
    /// What goes to standard output. Empty unless there is an answer.
    pub output: String,
    /// What goes to standard error.
    pub messages: String,
}

impl Reply {
    ghost use Rattle.std.specs.Prelude.{◌≡◌, ◌⊎◌, ◌∷◌, ◌++◌, [], IfOk, string_bytes};
    ghost use Rattle.marker_commands.specs.declared.outcome.Outcome.TheVariants.{OutOfMemory};
    ghost use Rattle.marker_commands.specs.Outcome.{Answers, HasMessageFirst, HasNoAnswer};

    /// The reply without an answer.
    pub fn without_answer(alloc: Global, outcome: Outcome, messages: String) -> Reply
        ensures answer { HasNoAnswer outcome result }
        ensures messages { string_bytes result.messages ≡ string_bytes messages }
    {
        Reply {
            outcome,
            output: String::new(alloc),
            messages,
        }
    }

    /// The reply whose answer is a line with this text. Without an answer if memory runs out.
    pub fn with_line(alloc: Global, outcome: Outcome, text: &str, messages: String) -> Reply
        ensures answer { HasNoAnswer OutOfMemory result ⊎ Answers outcome text.now result }
        ensures messages { string_bytes result.messages ≡ string_bytes messages }
    {
        match line_of(alloc, text) {
            Ok(output) => Reply {
                outcome,
                output,
                messages,
            },
            Err(AllocError) => Reply::without_answer(alloc, Outcome::OutOfMemory, messages),
        }
    }

    /// The reply, whose messages follow this one.
    pub fn after(self, alloc: Global, message: &str) -> Result<Reply, AllocError>
        ensures outcome { IfOk result (λ reply. reply.outcome ≡ self.outcome) }
        ensures output { IfOk result (λ reply. reply.output ≡ self.output) }
        ensures messages { IfOk result (HasMessageFirst message.now self) }
    {
        let mut messages = String::from_str(alloc, message)?;
        messages.push_str(self.messages.as_str())?;
        Ok(Reply {
            outcome: self.outcome,
            output: self.output,
            messages,
        })
    }
}

// The text and a line feed.
fn line_of(alloc: Global, text: &str) -> Result<String, AllocError>
    ensures { IfOk result (λ line. string_bytes line ≡ text.now ++ 10 ∷ []) }
{
    let mut line = String::from_str(alloc, text)?;
    line.push('\n')?;
    Ok(line)
}
