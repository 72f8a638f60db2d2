//! The command line of `play`.

use crate::args::parser::Kind::Operand;
use crate::args::parser::{Argument, Page, Values};
use crate::args::start::{CONTACTS, COUNT, DAY, TIME, start_options};
use crate::args::{Request, UsageError};
use cli_plans::play::PlayRequest;

const OUT: &str = "The file to write the frames to";

/// The command `play`.
pub(crate) const PAGE: Page = Page {
    name: "play",
    about: "Plays a plan of reconfigurations, frame by frame",
    long_about: "\
Plays a plan of reconfigurations, frame by frame.

CODE is a code file, the binary form of a plan. EVENTS is a text: how many frames of 24 ms to play,
and which contacts are closed and opened between them. The FIBs of the frames are written to OUT,
frame after frame: three FIBs of 32 bytes each, in transmission mode 3 four. One line says how many
frames were written.",
    usage: "\
dabplan play <CODE> <EVENTS> <OUT> [--count <N>] [--day <N> | --time <HH:MM:SS>]
                           [--contacts <HHHH>]",
    arguments: &[
        Argument("code", Operand("CODE"), &[], "The code file"),
        Argument("events", Operand("EVENTS"), &[], "The event file"),
        Argument("out", Operand("OUT"), &[], OUT),
        COUNT,
        DAY,
        TIME,
        CONTACTS,
    ],
    after: "\
The events, in order, with blanks, line ends and comments ('#' to the end of the line) between:
  frames N             N frames are played, 1 to 3600000
  contact C closed     contact C, 0 to 15, is closed
  contact C open       contact C is opened

The line:
  played 70 frames
  code: Magic                   CODE is not a code file
  refused at 3 line 10: Notice  the plan is refused, as 'dabplan help verify' says
  start: Count                  --count is 5000 or more; 'start: Day': --day is 3600000 or more
  events 1:8: Number            line 1, column 8 of EVENTS has no number in range; 'Expected':
                                another word is expected there; 'Byte': a character that no event
                                file has
  write failed after 3 frames and 40 bytes
                                this much of OUT was written: 3 frames, and 40 bytes of the next one

OUT is created when all of these are found to be good. Where they are refused it stays as it was,
and is created empty if there is none. '-' is standard output; the line then goes to standard error.

Example: contact 3 is closed and opened again; a lower rate is announced and made, and taken back
  printf 'frames 1 contact 3 closed frames 300 contact 3 open frames 300' > day.events
  dabplan play examples/contact_lowers_a_rate.code day.events day.fib
  dabplan check day.fib

Exit status:
  0  all frames were written
  1  the plan, the start or the events are refused, or a file can't be read or written
  2  the command line is wrong",
};

/// Reads the arguments of `play`.
pub(crate) fn request<'a>(values: &Values<'a>) -> Result<Request<'a>, UsageError<'a>> {
    Ok(Request::Play(PlayRequest {
        start: start_options(values)?,
        code: values.text("code"),
        events: values.text("events"),
        out: values.text("out"),
    }))
}
