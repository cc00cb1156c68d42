//! Arguments that several commands have.

use super::command_spec::{ArgumentSpec, Form, Value};

/// `--color`.
pub(crate) const COLOR: ArgumentSpec = ArgumentSpec {
    name: "color",
    help: "Color the text; auto: on a terminal, unless NO_COLOR is set",
    form: Form::Option("WHEN", Value::WordWithDefault(&["auto", "always", "never"])),
};

/// How `--limit` is given: its default is 1,000,000.
pub(crate) const ROOM: Form = Form::Option("N", Value::NumberWithDefault("1000000"));

/// `--limit` of the commands about markers.
pub(crate) const LIMIT_OF_MARKERS: ArgumentSpec = ArgumentSpec {
    name: "limit",
    help: "The room of the markers; one that needs more is too complex",
    form: ROOM,
};

/// `--extra`.
pub(crate) const EXTRA: ArgumentSpec = ArgumentSpec {
    name: "extra",
    help: "An extra that is asked for",
    form: Form::Option("NAME", Value::Texts),
};

/// How `--env` is given.
pub(crate) const VALUE_OF_KEY: Form = Form::Option("KEY=VALUE", Value::Texts);

/// `--env` of an environment.
pub(crate) const ENV: ArgumentSpec = ArgumentSpec {
    name: "env",
    help: "The value of a key; goes before the options below",
    form: VALUE_OF_KEY,
};

/// `--python` of an environment.
pub(crate) const PYTHON: ArgumentSpec = ArgumentSpec {
    name: "python",
    help: "The version of Python, such as 3.12 or 3.12.4",
    form: Form::Option("VERSION", Value::Text),
};

/// `--platform` of an environment.
pub(crate) const PLATFORM: ArgumentSpec = ArgumentSpec {
    name: "platform",
    help: "The platform: os_name, sys_platform and platform_system",
    form: Form::Option("NAME", Value::Word(&["linux", "macos", "windows"])),
};

/// `--implementation`.
pub(crate) const IMPLEMENTATION: ArgumentSpec = ArgumentSpec {
    name: "implementation",
    help: "implementation_name and platform_python_implementation",
    form: Form::Option("NAME", Value::Word(&["cpython", "pypy"])),
};

/// `--env-file` of an environment.
pub(crate) const ENV_FILE: ArgumentSpec = ArgumentSpec {
    name: "env-file",
    help: "Values of further keys, as an object of JSON; `-` is standard input",
    form: Form::Option("FILE", Value::Text),
};
