//! The command line of the program: its commands, with their arguments and their help.

mod command_spec;
mod files;
mod markers;
mod shared;

use self::command_spec::CommandSpec;
pub use self::files::WARNINGS;
use self::files::{CHECK, FMT, LIST, MATRIX, SELECT};
use self::markers::{COMPARE, DRAW, EVAL, SIMPLIFY};
use clap::{ArgMatches, Command, Error};
use std::alloc::{AllocError, Global};

// The commands, in the order of the help.
const COMMANDS: [CommandSpec; 9] = [
    CHECK, LIST, FMT, COMPARE, EVAL, SIMPLIFY, DRAW, SELECT, MATRIX,
];

// The command line of the program.
fn command_line<'a>(alloc: Global) -> Result<Command<'a>, AllocError> {
    let mut commands = Vec::new(alloc);
    for command in &COMMANDS {
        commands.push(command.to_clap(alloc)?)?;
    }
    Command::new(alloc, "pep508")
        .version("0.1.0")
        .about("Reads the dependency specifiers of Python packages")
        .after_help("Example: pep508 check requirements.txt")
        .subcommand_required(true)
        .subcommands(commands)
}

/// Parses the words of a command line, of which the first is the name of the program.
///
/// # Errors
///
/// Clap's error for `--help`, for `--version` and for an invalid command line. Its kind is
/// `OutOfMemory` if memory runs out.
pub(crate) fn matches_of<'w>(alloc: Global, words: &'w [String]) -> Result<ArgMatches<'w>, Error> {
    command_line(alloc)?.try_get_matches_from(words)
}
