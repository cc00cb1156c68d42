//! The commands that read files.

use super::command_spec::{ArgumentSpec, CommandSpec, Form, Value};
use super::shared::{
    COLOR, ENV, ENV_FILE, EXTRA, IMPLEMENTATION, PLATFORM, PYTHON, ROOM, VALUE_OF_KEY,
};

/// The names of the warnings that `--ignore` accepts: those of requirements, and two of files.
pub const WARNINGS: [&str; 19] = [
    "deprecated-marker-name",
    "invalid-extra-comparison",
    "lexicographic-comparison",
    "marker-marker-comparison",
    "invalid-version-comparison",
    "string-string-comparison",
    "control-character",
    "marker-in-url",
    "version-list",
    "version-as-text",
    "never-true",
    "always-true",
    "repeated-requirement",
    "three-numbers",
    "unprovided-extra",
    "repeated-extra",
    "url-requirement",
    "declared-encoding",
    "not-fetched",
];

const FILES: ArgumentSpec = ArgumentSpec {
    name: "file",
    help: "The files to read; `-`, or none, is standard input",
    form: Form::Positionals("FILE"),
};

const KIND: ArgumentSpec = ArgumentSpec {
    name: "kind",
    help: "Read the named files as this, and not by their names",
    form: Form::Option(
        "KIND",
        Value::Word(&["requirements", "metadata", "project"]),
    ),
};

const RECURSIVE: ArgumentSpec = ArgumentSpec {
    name: "recursive",
    help: "Search folders, the current one if there is no FILE",
    form: Form::Flag,
};

const FORMAT: ArgumentSpec = ArgumentSpec {
    name: "format",
    help: "Write text, or an object of JSON on each line",
    form: Form::Option("FORMAT", Value::WordWithDefault(&["text", "json"])),
};

const VARIABLE: ArgumentSpec = ArgumentSpec {
    name: "var",
    help: "Set a variable, which goes before the environment's",
    form: Form::Option("NAME=VALUE", Value::Texts),
};

const LIMIT: ArgumentSpec = ArgumentSpec {
    name: "limit",
    help: "The room of each requirement; one that needs more is too complex",
    form: ROOM,
};

const SHOWS_VALUES: ArgumentSpec = ArgumentSpec {
    name: "show-values",
    help: "Show what the values of variables went into",
    form: Form::Flag,
};

/// `check`.
pub(crate) const CHECK: CommandSpec = CommandSpec {
    name: "check",
    about: "Reports the errors and warnings of requirements files, metadata and projects",
    example: "Example: pep508 check --strict requirements.txt",
    arguments: &[
        FILES,
        KIND,
        RECURSIVE,
        FORMAT,
        COLOR,
        VARIABLE,
        LIMIT,
        ArgumentSpec {
            name: "strict",
            help: "Fail on warnings too",
            form: Form::Flag,
        },
        ArgumentSpec {
            name: "ignore",
            help: "Do not report the warnings of this name",
            form: Form::Option("NAME", Value::Words(&WARNINGS)),
        },
    ],
};

/// `list`.
pub(crate) const LIST: CommandSpec = CommandSpec {
    name: "list",
    about: "Lists the requirements of requirements files, metadata and projects",
    example: "Example: pep508 list --format json requirements.txt",
    arguments: &[
        FILES,
        KIND,
        RECURSIVE,
        FORMAT,
        COLOR,
        VARIABLE,
        LIMIT,
        SHOWS_VALUES,
        ArgumentSpec {
            name: "group",
            help: "List only this dependency group of a project, with the groups that it includes",
            form: Form::Option("NAME", Value::Text),
        },
    ],
};

/// `fmt`.
pub(crate) const FMT: CommandSpec = CommandSpec {
    name: "fmt",
    about: "Writes each requirement of a requirements file in its normal text",
    example: "Example: pep508 fmt --check requirements.txt",
    arguments: &[
        ArgumentSpec {
            name: "file",
            help: "The requirements files to format; `-`, or none, is standard input",
            form: Form::Positionals("FILE"),
        },
        ArgumentSpec {
            name: "check",
            help: "Name the lines that would change, and fail if there are some",
            form: Form::FlagConflictingWith("write"),
        },
        ArgumentSpec {
            name: "write",
            help: "Replace each file that changes by its new text",
            form: Form::Flag,
        },
        COLOR,
        ArgumentSpec {
            name: "limit",
            help: "The room of each requirement; one that needs more is too complex, and stays",
            form: ROOM,
        },
    ],
};

/// `select`.
pub(crate) const SELECT: CommandSpec = CommandSpec {
    name: "select",
    about: "Lists the requirements that apply in an environment",
    example: "Example: pep508 select --python 3.12 --platform linux requirements.txt",
    arguments: &[
        FILES,
        KIND,
        RECURSIVE,
        FORMAT,
        COLOR,
        VARIABLE,
        LIMIT,
        ENV,
        PYTHON,
        PLATFORM,
        IMPLEMENTATION,
        ENV_FILE,
        EXTRA,
        SHOWS_VALUES,
    ],
};

/// `matrix`.
pub(crate) const MATRIX: CommandSpec = CommandSpec {
    name: "matrix",
    about: "Tells in which of several environments requirements apply",
    example: "Example: pep508 matrix --python 3.9,3.12 --platform linux,windows requirements.txt",
    arguments: &[
        FILES,
        KIND,
        RECURSIVE,
        ArgumentSpec {
            name: "format",
            help: "Write columns, an object of JSON on each line, or comma-separated values",
            form: Form::Option("FORMAT", Value::WordWithDefault(&["text", "json", "csv"])),
        },
        COLOR,
        VARIABLE,
        LIMIT,
        ArgumentSpec {
            name: "python",
            help: "Versions of Python, such as 3.9,3.10",
            form: Form::Option("VERSIONS", Value::Text),
        },
        ArgumentSpec {
            name: "platform",
            help: "Platforms: some of linux,macos,windows",
            form: Form::Option("NAMES", Value::Text),
        },
        ArgumentSpec {
            name: "env",
            help: "The value of a key in all environments",
            form: VALUE_OF_KEY,
        },
        IMPLEMENTATION,
        EXTRA,
        SHOWS_VALUES,
    ],
};
