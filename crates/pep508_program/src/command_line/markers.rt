//! The commands about markers.

use super::command_spec::{ArgumentSpec, CommandSpec, Form, Value};
use super::shared::{
    COLOR, ENV, ENV_FILE, EXTRA, IMPLEMENTATION, LIMIT_OF_MARKERS, PLATFORM, PYTHON,
};

// The positional argument `MARKER`.
const MARKER: ArgumentSpec = ArgumentSpec {
    name: "marker",
    help: HELP_OF_A_MARKER,
    form: Form::Positional("MARKER"),
};

const HELP_OF_A_MARKER: &str = "A marker, such as \"python_version >= '3.8'\"";

/// `compare`.
pub(crate) const COMPARE: CommandSpec = CommandSpec {
    name: "compare",
    about: "Tells how the environments of two markers relate",
    example: "Example: pep508 compare \"os_name == 'nt'\" \"os_name != 'posix'\"",
    arguments: &[
        ArgumentSpec {
            name: "first",
            help: HELP_OF_A_MARKER,
            form: Form::Positional("FIRST"),
        },
        ArgumentSpec {
            name: "second",
            help: HELP_OF_A_MARKER,
            form: Form::Positional("SECOND"),
        },
        ArgumentSpec {
            name: "witness",
            help: "Write environments that show it; keys without a value are free",
            form: Form::Flag,
        },
        COLOR,
        LIMIT_OF_MARKERS,
    ],
};

/// `eval`.
pub(crate) const EVAL: CommandSpec = CommandSpec {
    name: "eval",
    about: "Tells whether a marker is true where values of its keys are known",
    example: "Example: pep508 eval --python 3.12 \"python_version >= '3.8'\"",
    arguments: &[
        MARKER,
        ENV,
        PYTHON,
        PLATFORM,
        IMPLEMENTATION,
        ENV_FILE,
        EXTRA,
        ArgumentSpec {
            name: "status",
            help: "End with status 1 if the marker is false",
            form: Form::Flag,
        },
        COLOR,
        LIMIT_OF_MARKERS,
    ],
};

/// `simplify`.
pub(crate) const SIMPLIFY: CommandSpec = CommandSpec {
    name: "simplify",
    about: "Writes what is left of a marker where something is granted",
    example: "Example: pep508 simplify --python '>=3.8' \"python_version >= '3.7' and os_name == 'nt'\"",
    arguments: &[
        MARKER,
        ArgumentSpec {
            name: "python",
            help: "Python versions that are taken for granted, such as '>=3.8,<3.13'",
            form: Form::Option("RANGE", Value::Text),
        },
        ArgumentSpec {
            name: "require-python",
            help: "Require the range, in place of taking it for granted",
            form: Form::FlagRequiring("python"),
        },
        EXTRA,
        COLOR,
        LIMIT_OF_MARKERS,
    ],
};

/// `draw`.
pub(crate) const DRAW: CommandSpec = CommandSpec {
    name: "draw",
    about: "Draws the decision diagram of a marker",
    example: "Example: pep508 draw --format svg \"python_version >= '3.8' and os_name == 'nt'\"",
    arguments: &[
        MARKER,
        ArgumentSpec {
            name: "format",
            help: "Write a tree, the language of Graphviz, or a picture",
            form: Form::Option("FORMAT", Value::WordWithDefault(&["text", "dot", "svg"])),
        },
        COLOR,
        ArgumentSpec {
            name: "limit",
            help: "Draw up to N nodes, in place of 2000, of a marker with room N, in place of 1000000",
            form: Form::Option("N", Value::Number),
        },
    ],
};
