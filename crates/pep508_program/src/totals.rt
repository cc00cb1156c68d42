//! The exit status of the program.

ghost use Rattle.std.specs.Prelude.{◌≡◌, ◌<◌, ◌↔◌, ◌≤◌};
ghost use Rattle.pep508_program.specs.Status.{HasFailed, HasFindings, IsFinished};

use std::alloc::{AllocError, Global};

/// How much was reported.
#[derive(Clone, Copy)]
pub struct Tally {
    /// Errors in files.
    pub errors: u64,
    /// Warnings about files.
    pub warnings: u64,
    /// Files that could not be read.
    pub failures: u64,
}

/// Why a command ended.
#[derive(Clone, Copy, PartialEq, Eq)]
pub enum Ending {
    /// It is done.
    Done,
    /// The reader of its output closed it.
    ClosedPipe,
    /// Memory ran out.
    OutOfMemory,
    /// Its output could not be written.
    WriteFailed,
}

/// How a command that reads files ended.
#[derive(Clone, Copy)]
pub struct Finish {
    pub tally: Tally,
    pub ending: Ending,
    /// The status of the program.
    pub status: u8,
}

impl Tally {
    /// Nothing was reported.
    pub const NOTHING: Tally = Tally {
        errors: 0,
        warnings: 0,
        failures: 0,
    };

    // The summary, such as `1 error, 0 warnings in 1 requirement of 1 file`.
    pub(crate) fn summary(
        self,
        alloc: Global,
        requirements: u64,
        files: u64,
    ) -> Result<String, AllocError> {
        let Tally {
            errors,
            warnings,
            ..
        } = self;
        format!(in alloc;
            "{errors} error{}, {warnings} warning{} in {requirements} requirement{} of {files} \
file{}\n",
            plural(errors),
            plural(warnings),
            plural(requirements),
            plural(files)
        )
    }
}

fn plural(count: u64) -> &'static str {
    if count == 1 { "" } else { "s" }
}

/// Returns the status of a command with these counts and this ending.
///
/// It is 2 if a file could not be read, the output could not be written or memory ran out;
/// otherwise 1 if there are errors, or warnings and the command is strict; otherwise 0. A command
/// whose output is no longer read has the status of what it reported until then.
pub fn status(tally: Tally, ending: Ending, is_strict: bool) -> u8
    ensures failed { (result ≡ 2) ↔ HasFailed tally ending }
    ensures found { (result ≡ 1) ↔ HasFindings tally ending is_strict }
    ensures at_most_two { result ≤ 2 }
{
    let could_go_on = matches!(ending, Ending::Done | Ending::ClosedPipe);
    if tally.failures > 0 || !could_go_on {
        2
    } else if tally.errors > 0 || is_strict && tally.warnings > 0 {
        1
    } else {
        0
    }
}

// The end of a command with these counts.
pub(crate) fn ended(tally: Tally, ending: Ending, is_strict: bool) -> Finish
    ensures tally { result.tally ≡ tally }
    ensures status { IsFinished is_strict result }
{
    Finish {
        tally,
        ending,
        status: status(tally, ending, is_strict),
    }
}
