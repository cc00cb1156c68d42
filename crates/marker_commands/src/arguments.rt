//! The words of the commands about markers.

use clap::ArgMatches;
use pep508_program::{Coloring, coloring_of};

/// The words of `compare`.
#[derive(Clone, Copy, Debug)]
pub struct CompareWords<'m> {
    pub first: &'m str,
    pub second: &'m str,
    /// Whether environments are written that show how the markers relate.
    pub shows_witness: bool,
}

/// The words of `simplify`.
#[derive(Clone, Copy, Debug)]
pub struct SimplifyWords<'m> {
    pub marker: &'m str,
    /// The range of Python versions.
    pub python: Option<&'m str>,
    /// Whether the marker requires the range, in place of taking it for granted.
    pub requires_python: bool,
    pub extras: &'m [&'m str],
}

/// The words about an environment.
#[derive(Clone, Copy, Debug)]
pub struct EnvironmentWords<'m> {
    /// Values of keys, as `KEY=VALUE`.
    pub values: &'m [&'m str],
    /// A file with values of keys.
    pub file: Option<&'m str>,
    pub python: Option<&'m str>,
    pub platform: Option<&'m str>,
    pub implementation: Option<&'m str>,
}

/// The words of `eval`.
#[derive(Clone, Copy, Debug)]
pub struct EvalWords<'m> {
    pub marker: &'m str,
    pub environment: EnvironmentWords<'m>,
    pub extras: &'m [&'m str],
    /// Whether `eval` fails if the marker is false.
    pub fails_on_false: bool,
}

/// What a command about markers is to do.
#[derive(Clone, Copy, Debug)]
pub enum MarkerTask<'m> {
    Compare(CompareWords<'m>),
    Simplify(SimplifyWords<'m>),
    Eval(EvalWords<'m>),
}

/// A command about markers.
#[derive(Clone, Copy, Debug)]
pub struct MarkerCommand<'m> {
    pub task: MarkerTask<'m>,
    pub coloring: Coloring,
    /// The room of the markers.
    pub limit: u64,
}

// The first value of an argument, or an empty text.
fn text_of<'w>(given: &ArgMatches<'w>, id: &str) -> &'w str {
    match given.get_str(id) {
        Some(text) => text,
        None => "",
    }
}

fn simplify_words<'m>(given: &'m ArgMatches<'_>) -> SimplifyWords<'m> {
    SimplifyWords {
        marker: text_of(given, "marker"),
        python: given.get_str("python"),
        requires_python: given.get_flag("require-python"),
        extras: given.get_strs("extra").unwrap_or(&[]),
    }
}

/// Returns the words about an environment.
pub fn environment_words<'m>(given: &'m ArgMatches<'_>) -> EnvironmentWords<'m> {
    EnvironmentWords {
        values: given.get_strs("env").unwrap_or(&[]),
        file: given.get_str("env-file"),
        python: given.get_str("python"),
        platform: given.get_str("platform"),
        implementation: given.get_str("implementation"),
    }
}

fn eval_words<'m>(given: &'m ArgMatches<'_>) -> EvalWords<'m> {
    EvalWords {
        marker: text_of(given, "marker"),
        environment: environment_words(given),
        extras: given.get_strs("extra").unwrap_or(&[]),
        fails_on_false: given.get_flag("status"),
    }
}

// What the command of this name is to do, if it is one about markers.
fn task_of<'m>(name: &str, given: &'m ArgMatches<'_>) -> Option<MarkerTask<'m>> {
    match name {
        "compare" => Some(MarkerTask::Compare(CompareWords {
            first: text_of(given, "first"),
            second: text_of(given, "second"),
            shows_witness: given.get_flag("witness"),
        })),
        "simplify" => Some(MarkerTask::Simplify(simplify_words(given))),
        "eval" => Some(MarkerTask::Eval(eval_words(given))),
        _ => None,
    }
}

/// Returns the command of the matches, or `None` if it is not one about markers.
pub fn marker_command<'m>(matches: &'m ArgMatches<'_>) -> Option<MarkerCommand<'m>> {
    let (name, given) = matches.subcommand()?;
    Some(MarkerCommand {
        task: task_of(name, given)?,
        coloring: coloring_of(given.get_str("color")),
        limit: given.get_one::<u64>("limit").unwrap_or(u64::MAX),
    })
}
