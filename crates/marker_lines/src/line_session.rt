//! A session with commands and replies as lines.

ghost use Rattle.std.specs.Prelude.{◌≡◌, Err, IfOk, OnOk, OnErr};
ghost use Rattle.std.specs.Io.KnownBytes.{IsAtEnd};
ghost use Rattle.line_server.specs.Serving.{ServesFirst};
ghost use Rattle.line_server.specs.declared.fault.ServeFault.TheVariants.{Input};
ghost use Rattle.marker_environment.specs.Environment.{values_of};
ghost use Rattle.marker_lines.specs.Line.{with_names};
ghost use Rattle.marker_lines.specs.LineStep.{start, LineStep};
ghost use Rattle.marker_lines.specs.LineView.{range_in, texts_of};
ghost use Rattle.marker_lines.specs.SessionView.{state_of, AnswersAll, AnswersWhole, NamesFailedSide, Obeys, ReadsBound, ReadsNames, ReadsVersion, Replies, Sets};

use crate::key::EnvironmentKey;
use crate::line::{LineCommand, LineFault};
use crate::reply::{put, put_reply};
use crate::word::{NamesCommand, RangeCommand};
use line_server::{Answer, ServeFault, Sink, Source, serve_lines};
use marker_environment::{MarkerEnvironment, MarkerEnvironmentBuilder, StringVersion};
use pep440_version::Version;
use pep508_markers::{Command, Session};
use pep508_names::ExtraName;
use refusal::unless_fault;
use std::alloc::{AllocError, Global};
use std::ops::Bound;

/// A session, and the environment in which its cells are evaluated.
#[derive(Drop)]
pub struct LineSession {
    alloc: Global,
    session: Session,
    environment: MarkerEnvironment,
}

impl LineSession {
    /// Returns a session without cells, with an environment of empty texts and of versions 0.
    pub fn new(alloc: Global) -> Result<LineSession, AllocError>
        ensures { IfOk result (λ session. state_of session ≡ start) }
    {
        LineSession::with_key_and_room(alloc, [0, 0], usize::MAX)
    }

    /// Returns a session as `new` does, whose interner hashes by a key of two random words and has
    /// room for `pieces` pieces of nodes. A line that needs more is answered by `error memory`.
    pub fn with_key_and_room(
        alloc: Global,
        key: [u64; 2],
        pieces: usize,
    ) -> Result<LineSession, AllocError>
        ensures { IfOk result (λ session. state_of session ≡ start) }
    {
        Ok(LineSession {
            alloc,
            session: Session::with_key_and_room(alloc, key, pieces),
            environment: first_environment(alloc)?,
        })
    }

    /// Returns whether a line was ever refused because the interner was full.
    pub fn has_met_room(&self) -> bool {
        self.session.has_met_room()
    }

    // Runs the command of a line, and appends the reply.
    fn run(&mut self, command: LineCommand<'_>, replies: &mut Vec<u8>) -> Result<(), AllocError>
        ensures { OnOk result (Obeys self.old command.entry self.new replies.old replies.new) }
    {
        match command {
            LineCommand::Set { key, value } => self.set(key, value, replies),
            LineCommand::Run(command) => {
                let reply = self.session.execute(command);
                put_reply(replies, &reply)
            }
            LineCommand::WithNames {
                command,
                cell,
                names,
            } => self.run_with_names(command, cell, &names, replies),
            LineCommand::WithRange {
                command,
                cell,
                lower,
                upper,
            } => self.run_with_range(command, cell, lower, upper, replies),
        }
    }

    // Sets a value of the environment. The key is validated before the value.
    fn set(&mut self, key: &str, value: &str, replies: &mut Vec<u8>) -> Result<(), AllocError>
        ensures { OnOk result (Sets self.old key.now value.now self.new replies.old replies.new) }
    {
        match EnvironmentKey::parse(key) {
            Some(EnvironmentKey::Text(variable)) => {
                let value = String::from_str(self.alloc, value)?;
                self.environment.set_string(variable, value);
                put(replies, "ok")
            }
            Some(EnvironmentKey::Version(key)) => {
                let Some(value) = read_version(self.alloc, value)? else {
                    return put(replies, "error version");
                };
                self.environment.set_version(key, value);
                put(replies, "ok")
            }
            None => put(replies, "error key"),
        }
    }

    // Runs a command with extras. Their names are validated before the cell.
    fn run_with_names(
        &mut self,
        command: NamesCommand,
        cell: usize,
        words: &[&str],
        replies: &mut Vec<u8>,
    ) -> Result<(), AllocError>
        ensures { OnOk result (Replies self.old (with_names command cell (texts_of words.now))
            self.new replies.old replies.new) }
    {
        let Some(extras) = read_names(self.alloc, words)? else {
            return put(replies, "error name");
        };
        let command = command.on(cell, &self.environment, &extras);
        let reply = self.session.execute(command);
        put_reply(replies, &reply)
    }

    // Runs a command with a range of Python versions. Its bounds are validated before the cell.
    fn run_with_range(
        &mut self,
        command: RangeCommand,
        cell: usize,
        lower: Bound<&str>,
        upper: Bound<&str>,
        replies: &mut Vec<u8>,
    ) -> Result<(), AllocError>
        ensures { OnOk result (Replies self.old (range_in command cell lower.entry upper.entry)
            self.new replies.old replies.new) }
    {
        let Some(lower) = read_bound(self.alloc, lower)? else {
            return put(replies, "error version");
        };
        let Some(upper) = read_bound(self.alloc, upper)? else {
            return put(replies, "error version");
        };
        let command = command.on(cell, lower.as_ref(), upper.as_ref());
        let reply = self.session.execute(command);
        put_reply(replies, &reply)
    }
}

impl Answer for LineSession {
    ghost step = { λ old line reply new. LineStep (state_of old) line reply (state_of new) };

    fn answer(&mut self, line: &[u8], replies: &mut Vec<u8>) -> Result<(), AllocError> {
        match LineCommand::read(self.alloc, line) {
            Ok(command) => self.run(command, replies),
            Err(LineFault::NotUtf8) => put(replies, "error utf8"),
            Err(LineFault::Malformed) => put(replies, "error command"),
            Err(LineFault::OutOfMemory) => Err(AllocError),
        }
    }
}

// The environment in which each text is empty and each version 0.
fn first_environment(alloc: Global) -> Result<MarkerEnvironment, AllocError>
    ensures { IfOk result (λ environment. values_of environment ≡ start.values) }
{
    let made = MarkerEnvironment::try_from(
        alloc,
        MarkerEnvironmentBuilder {
            implementation_name: "",
            implementation_version: "0",
            os_name: "",
            platform_machine: "",
            platform_python_implementation: "",
            platform_release: "",
            platform_system: "",
            platform_version: "",
            python_full_version: "0",
            python_version: "0",
            sys_platform: "",
        },
    );
    match made {
        Ok(environment) => Ok(environment),
        Err(_) => Err(AllocError),
    }
}

// The version of a value, or `None` if it is invalid.
fn read_version(alloc: Global, value: &str) -> Result<Option<StringVersion>, AllocError>
    ensures { IfOk result (ReadsVersion value.now) }
{
    unless_fault(StringVersion::parse(alloc, value))
}

// The bound with its text parsed as a version, or `None` if that is invalid.
fn read_bound(alloc: Global, bound: Bound<&str>) -> Result<Option<Bound<Version>>, AllocError>
    ensures { IfOk result (ReadsBound bound.entry) }
{
    match bound {
        Bound::Included(text) => match unless_fault(Version::parse(alloc, text))? {
            Some(version) => Ok(Some(Bound::Included(version))),
            None => Ok(None),
        },
        Bound::Excluded(text) => match unless_fault(Version::parse(alloc, text))? {
            Some(version) => Ok(Some(Bound::Excluded(version))),
            None => Ok(None),
        },
        Bound::Unbounded => Ok(Some(Bound::Unbounded)),
    }
}

// The names of extras, or `None` if a word is an invalid name.
fn read_names(alloc: Global, words: &[&str]) -> Result<Option<Vec<ExtraName>>, AllocError>
    ensures { IfOk result (ReadsNames words.now) }
{
    let mut names = Vec::new(alloc);
    for word in words {
        let Some(name) = unless_fault(ExtraName::parse(alloc, word))? else {
            return Ok(None);
        };
        names.push(name)?;
    }
    Ok(Some(names))
}

/// Answers each line of the reader with a line to the writer, in order, until no line is left. It
/// begins without cells, and with an environment of empty texts and of versions `0`. The replies to
/// all complete lines are written before the reader is read again.
///
/// | Line | Effect or reply |
/// |---|---|
/// | `env KEY VALUE` | sets a key, by its modern name; the value is the rest of the line as it is |
/// | `parse TEXT` | parses a marker into a new cell; the text is the rest of the line as it is |
/// | `not A`, `and A B`, `or A B` | make a cell of others |
/// | `equal A B`, `disjoint A B` | compare cells |
/// | `text A` | the text of a cell, or none if it is true everywhere |
/// | `extras A NAME ..` | makes a cell of another one with extras set to true |
/// | `eval A NAME ..` | whether a cell is true in the environment with these extras |
/// | `possible A NAME ..` | whether a cell can be true with exactly these extras |
/// | `simplify A LOWER UPPER` | makes a cell of another one, for Python in a range |
/// | `complexify A LOWER UPPER` | makes a cell of the conjunction of another one with a range |
///
/// The interner of the cells hashes by `key`, two random words, and has room for `pieces` pieces of
/// nodes. A line that needs more is answered by `error memory`, and its nodes are removed.
///
/// Words are separated by exactly one space. A and B are numbers of cells in ASCII digits; one
/// above `usize::MAX` counts as that. A bound is `none`, `incl:V` or `excl:V` with a version's
/// text.
///
/// # Errors
/// - `Input` if the reader failed. The replies to all complete lines were written.
/// - `Output` if the writer failed. A beginning of the replies was written.
/// - `Memory` when memory for a line, its words or its reply runs out. A beginning of the replies
///   was written.
pub fn serve<R: Source, W: Sink>(
    alloc: Global,
    key: [u64; 2],
    pieces: usize,
    reader: &mut R,
    writer: &mut W,
) -> Result<(), ServeFault>
    ensures at_end { OnOk result (IsAtEnd (R.remaining reader.new)) }
    ensures ok { OnOk result
        (AnswersAll R.remaining W.contents reader.old reader.new writer.old writer.new) }
    ensures input { result ≡ Err Input →
        AnswersWhole R.remaining W.contents reader.old reader.new writer.old writer.new }
    ensures err { OnErr result (ServesFirst LineStep R.remaining W.contents start
        reader.old reader.new writer.old writer.new) }
    ensures fault { NamesFailedSide R.has_failed W.has_failed result
        reader.old reader.new writer.old writer.new }
{
    let Ok(mut session) = LineSession::with_key_and_room(alloc, key, pieces) else {
        return Err(ServeFault::Memory);
    };
    serve_lines(alloc, &mut session, reader, writer)
}
