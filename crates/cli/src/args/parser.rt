//! The command-line grammar and its parsed values. Only this file names the kit's parser, `clap`.

use crate::args::{PAGES, UsageError, help};
use clap::error::ErrorKind;
use clap::{Arg, ArgAction, ArgMatches, Command, Error, value_parser};
use console::escaped::Escaped;
use std::alloc::{AllocError, Global};
use std::convert::AsStr;
use std::fmt;
use std::str::FromStr;

/// A command: its help, and its arguments.
#[derive(Clone, Copy)]
pub(crate) struct Page {
    /// The command's name.
    pub name: &'static str,
    /// Its one-line description.
    pub about: &'static str,
    /// Its long description.
    pub long_about: &'static str,
    /// Its usage lines.
    pub usage: &'static str,
    /// Its arguments, in the order of the help.
    pub arguments: &'static [Argument],
    /// The text after its options: inputs, printed lines, an example, exit statuses.
    pub after: &'static str,
}

/// An argument of a command: its name, which is also that of its option; its kind; its rules; and
/// its line of help.
#[derive(Clone, Copy)]
pub(crate) struct Argument(
    pub &'static str,
    pub Kind,
    pub &'static [Rule],
    pub &'static str,
);

/// The kind of an argument, with the name of its value in the help.
#[derive(Clone, Copy)]
pub(crate) enum Kind {
    /// A required value without an option.
    Operand(&'static str),
    /// An option without a value.
    Flag,
    /// An option with a text, and its default.
    Text(&'static str, Option<&'static str>),
    /// An option with a number: its lowest and highest value, and its default.
    Number(&'static str, i64, i64, Option<&'static str>),
    /// The same for numbers of 64 bits.
    Long(&'static str, i64, i64, Option<&'static str>),
}

/// A rule of an argument; one without rules is optional.
#[derive(Clone, Copy)]
pub(crate) enum Rule {
    /// It is required.
    Required,
    /// It is required unless this one is present.
    RequiredUnless(&'static str),
    /// It requires this one. The parser waives that where an argument is present that conflicts
    /// with this one: such an argument is to be excluded too.
    Needs(&'static str),
    /// It conflicts with this one.
    Excludes(&'static str),
}

/// The program with its commands.
fn program<'a>(alloc: Global) -> Result<Command<'a>, AllocError> {
    let mut program = Command::new(alloc, "dabplan")
        .no_binary_name(true)
        .version(help::VERSION)
        .about(help::PROGRAM)
        .after_help(help::AFTER_PROGRAM)
        .override_usage("dabplan <COMMAND>");
    for page in &PAGES {
        program = program.subcommand(command(alloc, page)?)?;
    }
    Ok(program)
}

/// A command with its arguments.
fn command<'a>(alloc: Global, page: &Page) -> Result<Command<'a>, AllocError> {
    let mut command = Command::new(alloc, page.name)
        .about(page.about)
        .long_about(page.long_about)
        .after_long_help(page.after)
        .override_usage(page.usage);
    for argument in page.arguments {
        command = command.arg(arg_of(alloc, *argument)?)?;
    }
    Ok(command)
}

/// An argument under its rules.
fn arg_of<'a>(alloc: Global, argument: Argument) -> Result<Arg<'a>, AllocError> {
    let Argument(name, kind, rules, help) = argument;
    let mut arg = of_kind(Arg::new(alloc, name).help(help), name, kind);
    for rule in rules {
        arg = match *rule {
            Rule::Required => arg.required(true),
            Rule::RequiredUnless(other) => arg.required_unless_present(other)?,
            Rule::Needs(other) => arg.requires_arg(other)?,
            Rule::Excludes(other) => arg.conflicts_with(other)?,
        };
    }
    Ok(arg)
}

/// The argument of this name as one of a kind.
fn of_kind<'a>(arg: Arg<'a>, name: &'static str, kind: Kind) -> Arg<'a> {
    match kind {
        Kind::Operand(value) => arg.value_name(value).required(true),
        Kind::Flag => arg.long(name).action(ArgAction::SetTrue),
        Kind::Text(value, default) => with_default(arg.long(name).value_name(value), default),
        Kind::Number(value, lowest, highest, default) => {
            let range = value_parser!(u32).range(lowest..=highest);
            let arg = arg.long(name).value_name(value).value_parser(range);
            with_default(arg, default)
        }
        Kind::Long(value, lowest, highest, default) => {
            let range = value_parser!(u64).range(lowest..=highest);
            let arg = arg.long(name).value_name(value).value_parser(range);
            with_default(arg, default)
        }
    }
}

/// Adds a default value.
fn with_default<'a>(arg: Arg<'a>, default: Option<&'static str>) -> Arg<'a> {
    match default {
        Some(default) => arg.default_value(default),
        None => arg,
    }
}

/// Parses a command line. A mistake shows the control bytes of arguments as `\xHH`.
pub(crate) fn parse<'a, S: AsStr>(
    alloc: Global,
    args: &'a [S],
) -> Result<Values<'a>, UsageError<'a>> {
    match matches_of(alloc, args) {
        Ok(matches) => Ok(Values { matches }),
        Err(error) => Err(usage_error(alloc, args, error)),
    }
}

/// The matches of a command line. Help on `help` is help: `help -h` and `help help` are `help`.
fn matches_of<'a, S: AsStr>(alloc: Global, args: &'a [S]) -> Result<ArgMatches<'a>, Error> {
    program(alloc)?.try_get_matches_from(without_help_of_help(args))
}

/// The arguments without the last one, where it asks for help after `help`.
fn without_help_of_help<S: AsStr>(args: &[S]) -> &[S] {
    match args {
        [first, .., last] if first.as_str() == "help" && asks_for_help(last.as_str()) => {
            &args[..args.len() - 1]
        }
        _ => args,
    }
}

/// Whether this argument asks for help.
fn asks_for_help(arg: &str) -> bool {
    matches!(arg, "help" | "-h" | "--help")
}

/// A command line that matches the grammar: its command, and the values of its arguments.
#[derive(Drop)]
pub(crate) struct Values<'a> {
    matches: ArgMatches<'a>,
}

impl<'a> Values<'a> {
    /// The name of the command; `None` if none is named.
    pub fn command(&self) -> Option<&'a str> {
        self.matches.subcommand_name()
    }

    /// The text of an argument; `None` if it has none.
    pub fn some_text(&self, name: &'static str) -> Option<&'a str> {
        let (_command, matches) = self.matches.subcommand()?;
        matches.get_str(name)
    }

    /// The text of an argument that is required or has a default; another one that has none is
    /// empty.
    pub fn text(&self, name: &'static str) -> &'a str {
        self.some_text(name).unwrap_or("")
    }

    /// The number of an argument; `None` if it has none.
    pub fn some_number<T: FromStr>(&self, name: &'static str) -> Option<T>
    where
        T::Err: Drop,
    {
        let (_command, matches) = self.matches.subcommand()?;
        matches.get_one::<T>(name)
    }

    /// The number of an argument that is required or has a default; another one that has none is 0.
    pub fn number<T: FromStr + Default>(&self, name: &'static str) -> T
    where
        T::Err: Drop,
    {
        self.some_number(name).unwrap_or_default()
    }

    /// Whether a flag is present.
    pub fn flag(&self, name: &'static str) -> bool {
        match self.matches.subcommand() {
            Some((_command, matches)) => matches.get_flag(name),
            None => false,
        }
    }
}

/// A text of the parser for the user.
#[derive(Drop)]
pub struct Message {
    error: Error,
}

impl fmt::Display for Message {
    fn fmt<W: fmt::Write>(&self, f: &mut fmt::Formatter<W>) -> fmt::Result {
        fmt::Display::fmt(&self.error, f)
    }
}

/// What is reported of an error of the parser about these arguments.
fn usage_error<'a, S: AsStr>(alloc: Global, args: &[S], error: Error) -> UsageError<'a> {
    match error.kind() {
        ErrorKind::OutOfMemory => UsageError::Memory,
        ErrorKind::DisplayHelp | ErrorKind::DisplayVersion => UsageError::Help(Message { error }),
        _ => match shown(alloc, args, error) {
            Ok(error) => UsageError::Mistake(Message { error }),
            Err(_) => UsageError::Memory,
        },
    }
}

/// The error about these arguments, with their control bytes as `\xHH`.
fn shown<S: AsStr>(alloc: Global, args: &[S], error: Error) -> Result<Error, AllocError> {
    if args.iter().all(|arg| !has_control(arg.as_str())) {
        return Ok(error);
    }
    let mut escaped: Vec<String> = Vec::new(alloc);
    for arg in args {
        escaped.push(Escaped::in_line(arg.as_str()).to_string(alloc)?)?;
    }
    let Err(shown) = matches_of(alloc, escaped.as_slice()) else {
        return Ok(error);
    };
    match shown.kind() {
        ErrorKind::OutOfMemory => Err(AllocError),
        ErrorKind::DisplayHelp | ErrorKind::DisplayVersion => Ok(error),
        _ => Ok(shown),
    }
}

/// Whether a text has a control byte.
fn has_control(text: &str) -> bool {
    text.as_bytes().iter().any(|byte| byte.is_ascii_control())
}
