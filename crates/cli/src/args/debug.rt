//! The command line of `debug`.

use crate::args::parser::Kind::Operand;
use crate::args::parser::{Argument, Page, Values};
use crate::args::start::{CONTACTS, COUNT, DAY, TIME, start_options};
use crate::args::{Request, UsageError};
use cli_plans::debug::DebugRequest;

/// The command `debug`.
pub(crate) const PAGE: Page = Page {
    name: "debug",
    about: "Steps through a plan of reconfigurations by commands",
    long_about: "\
Steps through a plan of reconfigurations by commands.

CODE is a code file, the binary form of a plan. COMMANDS is a text of commands. Each command is
answered by a line: how many frames of 24 ms it played, and the state of the player after it.",
    usage: "\
dabplan debug <CODE> <COMMANDS> [--count <N>] [--day <N> | --time <HH:MM:SS>]
                            [--contacts <HHHH>]",
    arguments: &[
        Argument("code", Operand("CODE"), &[], "The code file"),
        Argument("commands", Operand("COMMANDS"), &[], "The command file"),
        COUNT,
        DAY,
        TIME,
        CONTACTS,
    ],
    after: "\
The commands, in order, with blanks, line ends and comments ('#' to the end of the line) between:
  run N                plays frames up to the first that reaches the break line, at most N, 1 to
                       3600000. A frame reaches it where an instruction of that line becomes the
                       next one
  next                 plays frames up to the first after which another instruction is next, at
                       most 5000
  break LINE           sets the break line, 1 to 65535, a line of the script; there is one at most
  clear                removes the break line
  contact C closed     contact C, 0 to 15, is closed
  contact C open       contact C is opened
  show                 lists the last 64 announcements

The lines:
  frames 2 steps 0 pc 4 line 12 count 3 remaining 25
                       frames: played by this command; steps: instructions that ran in the last
                       frame; pc and line: the next instruction, counted from 0, and its line in the
                       script; count: the CIF count of the next frame; remaining: frames until the
                       swap, or 'none'
  break                the break line was reached
  announced 4 swap 28 change 1
                       'show': in the frame with CIF count 4 change flags were sent, for a swap at a
                       count with the low part 28; change 1: sub-channels, 2: services, 3: both

The line of a refusal:
  code: Magic          CODE is not a code file
  refused at 3 line 10: Notice
                       the plan is refused, as 'dabplan help verify' says
  start: Count         --count is 5000 or more; 'start: Day': --day is 3600000 or more
  commands 1:5: Number line 1, column 5 of COMMANDS has no number in range; 'Expected': another
                       word is expected there; 'Byte': a character that no command file has

Example: a plan stopped at line 9, then stepped through the swap that contact 3 causes
  printf 'break 9 run 100 contact 3 closed run 2 next' > day.commands
  dabplan debug examples/contact_lowers_a_rate.code day.commands

Exit status:
  0  all commands were carried out
  1  the plan, the start or the commands are refused, or a file can't be read
  2  the command line is wrong",
};

/// Reads the arguments of `debug`.
pub(crate) fn request<'a>(values: &Values<'a>) -> Result<Request<'a>, UsageError<'a>> {
    Ok(Request::Debug(DebugRequest {
        start: start_options(values)?,
        code: values.text("code"),
        commands: values.text("commands"),
    }))
}
