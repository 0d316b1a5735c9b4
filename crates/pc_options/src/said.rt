//! The arguments and options of a command as plain data, and the parser's command that is made of them.
use clap::builder::ValueParser;
use clap::{Arg, ArgAction, Command, Error};
use std::alloc::{AllocError, Global};

/// The page that the help of each command refers to.
const FAULTS: &str = "What each fault means: docs/MANUAL.md";

/// An argument or an option of a command.
#[derive(Clone, Copy)]
pub(crate) struct Said {
    // The argument's name in the help, or the option's after `--`.
    name: &'static str,
    help: &'static str,
    takes: Takes,
    // Its value if none is given.
    default: Option<&'static str>,
    // The option without which it is refused.
    needs: Option<&'static str>,
    // The option with which it is refused.
    excludes: Option<&'static str>,
}

// The values of an argument or an option.
#[derive(Clone, Copy)]
enum Takes {
    // A word by its place. It is required unless it has a default.
    Word(ValueParser<'static>),
    // One or more words by their places.
    Words(ValueParser<'static>),
    // An option's value, and its name in the help.
    Value(&'static str, ValueParser<'static>),
    // An option that has no value.
    Nothing,
}

impl Said {
    fn new(name: &'static str, takes: Takes, help: &'static str) -> Said {
        Said {
            name,
            help,
            takes,
            default: None,
            needs: None,
            excludes: None,
        }
    }

    /// An argument that is any text.
    pub(crate) fn text(name: &'static str, help: &'static str) -> Said {
        Said::new(name, Takes::Word(ValueParser::String), help)
    }

    /// An argument that isn't empty.
    pub(crate) fn word(name: &'static str, help: &'static str) -> Said {
        Said::new(name, Takes::Word(ValueParser::NonEmptyString), help)
    }

    /// One or more arguments of any text.
    pub(crate) fn texts(name: &'static str, help: &'static str) -> Said {
        Said::new(name, Takes::Words(ValueParser::String), help)
    }

    /// One or more arguments that aren't empty.
    pub(crate) fn words(name: &'static str, help: &'static str) -> Said {
        Said::new(name, Takes::Words(ValueParser::NonEmptyString), help)
    }

    /// An option whose value isn't empty; the help calls the value `shown`.
    pub(crate) fn value(name: &'static str, shown: &'static str, help: &'static str) -> Said {
        let takes = Takes::Value(shown, ValueParser::NonEmptyString);
        Said::new(name, takes, help)
    }

    /// An option whose value is a number from `low` to `high`.
    pub(crate) fn number(
        name: &'static str,
        shown: &'static str,
        low: i64,
        high: i64,
        help: &'static str,
    ) -> Said {
        let takes = Takes::Value(shown, ValueParser::Signed(low, high));
        Said::new(name, takes, help)
    }

    /// An option without a value.
    pub(crate) fn flag(name: &'static str, help: &'static str) -> Said {
        Said::new(name, Takes::Nothing, help)
    }

    /// The same with this value if none is given.
    pub(crate) fn or(mut self, default: &'static str) -> Said {
        self.default = Some(default);
        self
    }

    /// The same, refused without this option.
    pub(crate) fn needs(mut self, other: &'static str) -> Said {
        self.needs = Some(other);
        self
    }

    /// The same, refused with this option.
    pub(crate) fn excludes(mut self, other: &'static str) -> Said {
        self.excludes = Some(other);
        self
    }
}

/// The command of this name, with a line that says what it does.
pub(crate) fn command_of<'a>(
    alloc: Global,
    name: &'static str,
    about: &'static str,
    said: &[Said],
) -> Result<Command<'a>, Error> {
    let mut command = Command::new(alloc, name).about(about).after_help(FAULTS);
    for it in said {
        command = with_arg(alloc, command, *it)?;
    }
    Ok(command)
}

fn with_arg<'a>(
    alloc: Global,
    command: Command<'a>,
    said: Said,
) -> Result<Command<'a>, AllocError> {
    command.arg(arg_of(alloc, said)?)
}

fn arg_of<'a>(alloc: Global, said: Said) -> Result<Arg<'a>, AllocError> {
    let arg = with_default(taking(alloc, said), said);
    with_excluded(with_needed(arg, said)?, said)
}

// The argument with its help and its values.
fn taking<'a>(alloc: Global, said: Said) -> Arg<'a> {
    let arg = Arg::new(alloc, said.name).help(said.help);
    match said.takes {
        Takes::Word(parser) => arg
            .value_parser(parser)
            .required(said.default.is_none())
            .action(ArgAction::Set),
        Takes::Words(parser) => arg
            .value_parser(parser)
            .required(true)
            .num_args(1..)
            .action(ArgAction::Append),
        Takes::Value(shown, parser) => arg
            .long(said.name)
            .value_name(shown)
            .value_parser(parser)
            .action(ArgAction::Set),
        Takes::Nothing => arg.long(said.name).action(ArgAction::SetTrue),
    }
}

fn with_default<'a>(arg: Arg<'a>, said: Said) -> Arg<'a> {
    match said.default {
        Some(value) => arg.default_value(value),
        None => arg,
    }
}

fn with_needed<'a>(arg: Arg<'a>, said: Said) -> Result<Arg<'a>, AllocError> {
    match said.needs {
        Some(other) => arg.requires_arg(other),
        None => Ok(arg),
    }
}

fn with_excluded<'a>(arg: Arg<'a>, said: Said) -> Result<Arg<'a>, AllocError> {
    match said.excludes {
        Some(other) => arg.conflicts_with(other),
        None => Ok(arg),
    }
}
