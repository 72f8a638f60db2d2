//! Parses the command line into a `Request`.

mod check;
mod compile;
mod debug;
mod diff;
mod frame;
mod help;
mod listen;
mod live;
mod map;
mod merge;
mod moment;
mod parser;
mod play;
mod shared;
mod start;
mod timeline;
mod verify;

use crate::args::parser::{Page, parse};
use cli_plans::debug::DebugRequest;
use cli_plans::live::LiveRequest;
use cli_plans::play::PlayRequest;
use cli_scripts::compile::CompileRequest;
use cli_scripts::compile_from::CompileFromRequest;
use cli_scripts::diff::DiffRequest;
use cli_scripts::frame_script::FrameScriptRequest;
use cli_scripts::listen_script::ListenScriptRequest;
use cli_scripts::map::MapRequest;
use cli_scripts::verify::VerifyRequest;
use cli_streams::check::CheckRequest;
use cli_streams::frame::FrameRequest;
use cli_streams::listen::ListenRequest;
use cli_streams::merge::MergeRequest;
use cli_timeline::timeline::TimelineRequest;
use console::escaped::Escaped;
use console::exit::Failure;
pub use parser::Message;
use std::alloc::Global;
use std::convert::AsStr;
use std::fmt::{self, Display, Formatter};

/// The parsed command line of every command but `live` and `merge`, whose output is frames: see
/// [`FramesRequest`].
#[derive(Clone, Copy)]
pub enum Request<'a> {
    /// `frame`.
    Frame(FrameRequest<'a>),
    /// `frame --script`.
    FrameScript(FrameScriptRequest<'a>),
    /// `listen`.
    Listen(ListenRequest<'a>),
    /// `listen --script`.
    ListenScript(ListenScriptRequest<'a>),
    /// `diff`.
    Diff(DiffRequest<'a>),
    /// `check`.
    Check(CheckRequest<'a>),
    /// `compile`.
    Compile(CompileRequest<'a>),
    /// `compile --from`.
    CompileFrom(CompileFromRequest<'a>),
    /// `verify`.
    Verify(VerifyRequest<'a>),
    /// `play`.
    Play(PlayRequest<'a>),
    /// `debug`.
    Debug(DebugRequest<'a>),
    /// `map`.
    Map(MapRequest<'a>),
    /// `timeline`.
    Timeline(TimelineRequest<'a>),
}

/// The parsed command line of a command that writes frames to standard output.
#[derive(Clone, Copy)]
pub enum FramesRequest<'a> {
    /// `live`.
    Live(LiveRequest<'a>),
    /// `merge`.
    Merge(MergeRequest<'a>),
}

/// Why the command line is invalid, or the help that it asks for.
#[derive(Drop)]
pub enum UsageError<'a> {
    /// The text of `--help` or `--version`.
    Help(Message),
    /// Invalid: the first lines of the text say how.
    Mistake(Message),
    /// This value of an option is not one of it, for this reason.
    Value {
        option: &'static str,
        value: &'a str,
        reason: &'static str,
    },
    /// Both inputs are standard input.
    TwiceInput,
    /// Two of the paths, those of these values, are the same, and one of the files would be written
    /// over.
    SameFile {
        input: &'static str,
        output: &'static str,
        path: &'a str,
    },
    /// These two paths are of one file, which would be written over.
    OneFile {
        input: &'a str,
        output: &'a str,
    },
    /// No command is named, or a required value is missing.
    Nothing,
    /// The arguments are not UTF-8.
    NoText,
    /// Out of memory.
    Memory,
}

impl UsageError<'_> {
    /// Whether help is asked for.
    pub(crate) fn is_help(&self) -> bool {
        matches!(self, UsageError::Help(_))
    }
}

impl Display for UsageError<'_> {
    fn fmt<W: fmt::Write>(&self, f: &mut Formatter<W>) -> fmt::Result {
        match self {
            UsageError::Help(message) | UsageError::Mistake(message) => write!(f, "{message}"),
            UsageError::Value {
                option,
                value,
                reason,
            } => {
                let value = Escaped::in_line(value);
                write!(f, "error: invalid value '{value}' for '{option}': {reason}")
            }
            UsageError::SameFile {
                input,
                output,
                path,
            } => {
                let path = Escaped::in_line(path);
                write!(f, "error: {input} and {output} are the same file: '{path}'")
            }
            UsageError::OneFile { input, output } => {
                let (input, output) = (Escaped::in_line(input), Escaped::in_line(output));
                write!(f, "error: {input} and {output} are the same file")
            }
            UsageError::TwiceInput => {
                f.write_str("error: standard input can't be both <PLAN> and <OTHER>")
            }
            UsageError::Nothing => f.write_str(MISSING_COMMAND),
            UsageError::NoText => f.write_str("error: an argument is not UTF-8"),
            UsageError::Memory => write!(f, "{}", Failure::Memory),
        }
    }
}

/// The message where no command is named.
const MISSING_COMMAND: &str = "error: missing command; expected one of frame, listen, check, \
     merge, diff, compile, verify, map, timeline, play, debug, live, help";

/// The program's commands, in the order of its help.
pub(crate) const PAGES: [Page; 12] = [
    frame::PAGE,
    listen::PAGE,
    check::PAGE,
    merge::PAGE,
    diff::PAGE,
    compile::PAGE,
    verify::PAGE,
    map::PAGE,
    timeline::PAGE,
    play::PAGE,
    debug::PAGE,
    live::PAGE,
];

/// Parses the arguments after the program's name. Those of `live` and `merge` are parsed by
/// [`frames_request_of`], and are refused here.
pub fn request_of<'a, S: AsStr>(
    alloc: Global,
    args: &'a [S],
) -> Result<Request<'a>, UsageError<'a>> {
    let values = parse(alloc, args)?;
    match values.command() {
        Some("frame") => frame::request(&values),
        Some("listen") => listen::request(&values),
        Some("diff") => Ok(diff::request(&values)),
        Some("check") => check::request(&values),
        Some("compile") => compile::request(&values),
        Some("verify") => Ok(verify::request(&values)),
        Some("play") => play::request(&values),
        Some("debug") => debug::request(&values),
        Some("map") => map::request(&values),
        Some("timeline") => timeline::request(&values),
        _ => Err(UsageError::Nothing),
    }
}

/// Parses the arguments after the program's name, where the first is `live` or `merge`.
pub fn frames_request_of<'a, S: AsStr>(
    alloc: Global,
    args: &'a [S],
) -> Result<FramesRequest<'a>, UsageError<'a>> {
    let values = parse(alloc, args)?;
    match values.command() {
        Some("live") => live::request(&values),
        Some("merge") => merge::request(&values),
        _ => Err(UsageError::Nothing),
    }
}
