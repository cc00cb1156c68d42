//! Commands and their arguments, as constants describe them, and as clap takes them.

use clap::{Arg, ArgAction, Command, value_parser};
use std::alloc::{AllocError, Global};

/// The values of an option.
#[derive(Clone, Copy)]
pub(crate) enum Value {
    /// A text.
    Text,
    /// A text; the option may be repeated.
    Texts,
    /// One of these words.
    Word(&'static [&'static str]),
    /// One of these words; the first is the default.
    WordWithDefault(&'static [&'static str]),
    /// One of these words; the option may be repeated.
    Words(&'static [&'static str]),
    /// A number of at least 1.
    Number,
    /// A number of at least 1; this is the default.
    NumberWithDefault(&'static str),
}

impl Value {
    // Makes the option take such values.
    fn apply_to<'a>(self, option: Arg<'a>) -> Arg<'a> {
        match self {
            Value::Text => option,
            Value::Texts => option.action(ArgAction::Append),
            Value::Word(words) => option.value_parser(words),
            Value::WordWithDefault(words) => match words.first() {
                Some(first) => option.value_parser(words).default_value(first),
                None => option,
            },
            Value::Words(words) => option.action(ArgAction::Append).value_parser(words),
            Value::Number => option.value_parser(value_parser!(u64).range(1..)),
            Value::NumberWithDefault(number) => option
                .value_parser(value_parser!(u64).range(1..))
                .default_value(number),
        }
    }
}

/// How an argument is given. The text of `Positional`, `Positionals` and `Option` is the
/// placeholder of the value in the help.
#[derive(Clone, Copy)]
pub(crate) enum Form {
    /// By its place; it is required.
    Positional(&'static str),
    /// By their places; there may be any number of them.
    Positionals(&'static str),
    /// By a name and a value.
    Option(&'static str, Value),
    /// By a name alone.
    Flag,
    /// By a name alone, together with the option of this name.
    FlagRequiring(&'static str),
    /// By a name alone, and not together with the argument of this name.
    FlagConflictingWith(&'static str),
}

/// An argument of a command.
#[derive(Clone, Copy)]
pub(crate) struct ArgumentSpec {
    /// Its id, and what follows `--` unless it is positional.
    pub(crate) name: &'static str,
    pub(crate) help: &'static str,
    pub(crate) form: Form,
}

impl ArgumentSpec {
    // The argument for clap, without what it requires or conflicts with.
    fn base<'a>(&self, alloc: Global) -> Arg<'a> {
        let argument = Arg::new(alloc, self.name).help(self.help);
        match self.form {
            Form::Positional(word) => argument.value_name(word).required(true),
            Form::Positionals(word) => argument.value_name(word).num_args(0..),
            Form::Option(word, value) => {
                value.apply_to(argument.long(self.name).value_name(word))
            }
            Form::Flag | Form::FlagRequiring(_) | Form::FlagConflictingWith(_) => {
                argument.long(self.name).action(ArgAction::SetTrue)
            }
        }
    }

    // The argument for clap.
    fn to_clap<'a>(&self, alloc: Global) -> Result<Arg<'a>, AllocError> {
        let argument = self.base(alloc);
        match self.form {
            Form::FlagRequiring(other) => argument.requires_arg(other),
            Form::FlagConflictingWith(other) => argument.conflicts_with(other),
            _ => Ok(argument),
        }
    }
}

/// A command of the program.
#[derive(Clone, Copy)]
pub(crate) struct CommandSpec {
    pub(crate) name: &'static str,
    pub(crate) about: &'static str,
    /// The last line of the help.
    pub(crate) example: &'static str,
    /// The arguments, in the order of the help.
    pub(crate) arguments: &'static [ArgumentSpec],
}

impl CommandSpec {
    /// The command for clap.
    pub(crate) fn to_clap<'a>(&self, alloc: Global) -> Result<Command<'a>, AllocError> {
        let mut arguments = Vec::new(alloc);
        for argument in self.arguments {
            arguments.push(argument.to_clap(alloc)?)?;
        }
        Command::new(alloc, self.name)
            .about(self.about)
            .after_help(self.example)
            .args(arguments)
    }
}
