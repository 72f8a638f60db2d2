//! The command line of `live`.

use crate::args::parser::Kind::{Flag, Long, Number, Operand};
use crate::args::parser::{Argument, Page, Values};
use crate::args::start::{CONTACTS, COUNT, DAY, TIME, start_options};
use crate::args::{FramesRequest, UsageError};
use cli_plans::live::LiveRequest;
use plan_live::Wanted;

const SKIP: &str = "\
How many frames at the beginning are played but not written, 0 to 9223372036854775807";

const STATUS: &str = "\
Reports each notice that begins, each swap and the end of the plan on standard error";

const EVERY: &str = "Reports on standard error the last of each N frames, 1 to 4294967295";

const JSON: &str = "Writes each message on standard error as an object of JSON";

/// The command `live`.
pub(crate) const PAGE: Page = Page {
    name: "live",
    about: "Plays a plan of reconfigurations over standard input, line by line",
    long_about: "\
Plays a plan of reconfigurations over standard input, line by line, as the lines come.

CODE is a code file, the binary form of a plan. The lines are like those of an event file of
'dabplan play': frames of 24 ms, and contacts that are closed and opened between them. The FIBs of a
line's frames are written to standard output before the next line is read: three FIBs of 32 bytes a
frame, in transmission mode 3 four. All messages go to standard error.",
    usage: "\
dabplan live <CODE> [--count <N>] [--day <N> | --time <HH:MM:SS>] [--contacts <HHHH>]
                           [--skip <N>] [--status] [--every <N>] [--json]",
    arguments: &[
        Argument("code", Operand("CODE"), &[], "The code file"),
        COUNT,
        DAY,
        TIME,
        CONTACTS,
        Argument("skip", Long("N", 0, i64::MAX, Some("0")), &[], SKIP),
        Argument("status", Flag, &[], STATUS),
        Argument("every", Number("N", 1, 4294967295, None), &[], EVERY),
        Argument("json", Flag, &[], JSON),
    ],
    after: "\
A line has steps, with blanks between, a comment, or nothing:
  frames 1                     one frame is played; up to 3600000 at a time
  contact 3 closed             contact 3, of 0 to 15, is closed; 'open': it is opened
  contact 3 open frames 2      one step after another
  # 06:00 studio on air        a comment; nothing is done

The messages:
  line 5: 8: Number            line 5 does nothing, and the next line is read: it has no number in
                               range at column 8; 'Expected': another word is expected there;
                               'Byte': a character that no line has
  line 5: Limit                line 5 has more than 65536 bytes; 'line 5: Byte': it is not UTF-8
  frame 12 count 12 announced 1 swap at low 2
                               with --status: a notice begins in frame 12 of the run, counted from
                               0, at CIF count 12. Sub-channels change (2: services, 3: both) at a
                               count with the low part 2
  frame 252 count 252 swap     with --status: the next configuration becomes the current one
  frame 300 count 300 end      with --status: the plan ends
  frame 249 count 249          with --every 250: 250 frames of the run were made
  code: Magic                  CODE is not a code file
  refused at 3 line 10: Notice the plan is refused, as 'dabplan help verify' says
  start: Count                 --count is 5000 or more; 'start: Day': --day is 3600000 or more
  write failed after 3 frames and 40 bytes
                               this much was written to standard output, skipped frames not counted;
                               no further line is read
With --json each is an object in a line, as {\"kind\":\"swap\",\"frame\":252,\"count\":252}. A standard
error that nobody reads stops the frames too: send it to a file or to a logger.

A run that was stopped is resumed from a log of the lines that it was given: give it all of them
again, with the other options as before, and skip the frames that went on air. After the message
'frame 249 count 249' of --every that is --skip 250.

Example: contact 3 is closed after the first frame, and a change of rate is announced and made
  printf 'frames 1\\ncontact 3 closed\\nframes 300\\n' > today.log
  dabplan live examples/contact_lowers_a_rate.code --status < today.log > day.fib

Example: the same run, resumed after 200 of these frames went on air
  cat today.log - < /dev/null |
    dabplan live examples/contact_lowers_a_rate.code --status --skip 200 > rest.fib

Exit status:
  0  standard input came to its end, whatever its lines were
  1  the plan or the start is refused, CODE or standard input can't be read, or standard output
     failed
  2  the command line is wrong",
};

/// Reads the arguments of `live`.
pub(crate) fn request<'a>(values: &Values<'a>) -> Result<FramesRequest<'a>, UsageError<'a>> {
    Ok(FramesRequest::Live(LiveRequest {
        start: start_options(values)?,
        code: values.text("code"),
        skip: values.number("skip"),
        wanted: Wanted {
            status: values.flag("status"),
            every: values.number("every"),
        },
        json: values.flag("json"),
    }))
}
