//! The first words of lines, by what follows them.

ghost use Rattle.std.specs.Prelude.{◌≡◌, MatchOption};
ghost use Rattle.version_ranges.specs.Clamp.{bound_of};
ghost use Rattle.marker_environment.specs.Environment.{values_of};
ghost use Rattle.pep508_markers.specs.Session.{request_of};
ghost use Rattle.marker_lines.specs.Word.{word_text, IsNoWord, cell_request, pair_request, names_request, range_request};

use marker_environment::MarkerEnvironment;
use pep440_version::Version;
use pep508_markers::Command;
use pep508_names::ExtraName;
use std::ops::Bound;

// The word that a line begins with, which names the command.
#[derive(Clone, Copy)]
pub(crate) enum Word {
    // `env`
    Env,
    // `parse`
    Parse,
    OnOne(CellCommand),
    OnTwo(PairCommand),
    WithNames(NamesCommand),
    WithRange(RangeCommand),
}

// A command on a cell.
#[derive(Clone, Copy)]
pub(crate) enum CellCommand {
    // `not`
    Not,
    // `text`
    Text,
}

// A command on two cells.
#[derive(Clone, Copy)]
pub(crate) enum PairCommand {
    // `and`
    And,
    // `or`
    Or,
    // `equal`
    Equal,
    // `disjoint`
    Disjoint,
}

// A command on a cell and names of extras.
#[derive(Clone, Copy)]
pub(crate) enum NamesCommand {
    // `extras`
    Extras,
    // `eval`
    Evaluate,
    // `possible`
    Possible,
}

// A command on a cell and a range of Python versions.
#[derive(Clone, Copy)]
pub(crate) enum RangeCommand {
    // `simplify`
    Simplify,
    // `complexify`
    Complexify,
}

impl Word {
    // The word with this text, in small letters as above, or `None`.
    pub(crate) fn parse(text: &str) -> Option<Word>
        ensures { MatchOption result (IsNoWord text.now) (λ word. text.now ≡ word_text word) }
    {
        match text.len() {
            2 if text == "or" => Some(Word::OnTwo(PairCommand::Or)),
            3 => match text {
                "env" => Some(Word::Env),
                "not" => Some(Word::OnOne(CellCommand::Not)),
                "and" => Some(Word::OnTwo(PairCommand::And)),
                _ => None,
            },
            4 => match text {
                "text" => Some(Word::OnOne(CellCommand::Text)),
                "eval" => Some(Word::WithNames(NamesCommand::Evaluate)),
                _ => None,
            },
            5 => match text {
                "parse" => Some(Word::Parse),
                "equal" => Some(Word::OnTwo(PairCommand::Equal)),
                _ => None,
            },
            6 if text == "extras" => Some(Word::WithNames(NamesCommand::Extras)),
            8 => match text {
                "disjoint" => Some(Word::OnTwo(PairCommand::Disjoint)),
                "possible" => Some(Word::WithNames(NamesCommand::Possible)),
                "simplify" => Some(Word::WithRange(RangeCommand::Simplify)),
                _ => None,
            },
            10 if text == "complexify" => Some(Word::WithRange(RangeCommand::Complexify)),
            _ => None,
        }
    }
}

impl CellCommand {
    // The command on this cell.
    pub(crate) fn on<'a>(self, cell: usize) -> Command<'a>
        ensures { request_of result ≡ cell_request self cell }
    {
        match self {
            CellCommand::Not => Command::Not(cell),
            CellCommand::Text => Command::Text(cell),
        }
    }
}

impl PairCommand {
    // The command on these cells.
    pub(crate) fn on<'a>(self, left: usize, right: usize) -> Command<'a>
        ensures { request_of result ≡ pair_request self left right }
    {
        match self {
            PairCommand::And => Command::And(left, right),
            PairCommand::Or => Command::Or(left, right),
            PairCommand::Equal => Command::Equal(left, right),
            PairCommand::Disjoint => Command::Disjoint(left, right),
        }
    }
}

impl NamesCommand {
    // The command on the cell with these extras, in the environment if it needs one.
    pub(crate) fn on<'a>(
        self,
        cell: usize,
        environment: &'a MarkerEnvironment,
        extras: &'a [ExtraName],
    ) -> Command<'a>
        ensures { request_of result
            ≡ names_request self cell (values_of environment.now) extras.now }
    {
        match self {
            NamesCommand::Extras => Command::SimplifyExtras(cell, extras),
            NamesCommand::Evaluate => Command::Evaluate(cell, environment, extras),
            NamesCommand::Possible => Command::EvaluateExtras(cell, extras),
        }
    }
}

impl RangeCommand {
    // The command on the cell with this range.
    pub(crate) fn on<'a>(
        self,
        cell: usize,
        lower: Bound<&'a Version>,
        upper: Bound<&'a Version>,
    ) -> Command<'a>
        ensures { request_of result
            ≡ range_request self cell (bound_of lower.entry) (bound_of upper.entry) }
    {
        match self {
            RangeCommand::Simplify => Command::SimplifyPython(cell, lower, upper),
            RangeCommand::Complexify => Command::ComplexifyPython(cell, lower, upper),
        }
    }
}
