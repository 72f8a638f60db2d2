//! The command line of `merge`.

use crate::args::parser::Kind::Operand;
use crate::args::parser::{Argument, Page, Values};
use crate::args::shared::{MODE, mode_of};
use crate::args::{FramesRequest, UsageError};
use cli_streams::merge::MergeRequest;

const PLAN: &str = "The file of the plan's frames, or '-' for standard input";

const OTHER: &str = "The file of the multiplexer's frames, or '-' for standard input";

/// The command `merge`.
pub(crate) const PAGE: Page = Page {
    name: "merge",
    about: "Carries the labels and other FIGs of a multiplexer in the frames of a plan",
    long_about: "\
Carries the labels and other FIGs of a multiplexer in the frames of a plan.

A plan sends FIG 0/0 to 0/3 alone, and a receiver shows no service without its label. PLAN has the
frames of a plan, as 'dabplan play' and 'dabplan live' write them; OTHER has the frames of the
multiplexer's FIC, in the same mode. The frames of PLAN go to standard output with FIGs of OTHER
behind their own, where the FIBs have room; 'reserve 1' in the header of the script leaves a FIB of
each frame free for them. A receiver, and 'dabplan check', find in them what they find in PLAN.

For each frame of PLAN one of OTHER is read, as long as there is one. Its FIGs wait until there is
room for them, the one that has waited longest first, 256 at most. FIG 0/0 to 0/3 and FIG 0/7 of
the ensemble itself are left out, and a FIG of which a copy waits already. A FIG 0/4, 0/5, 0/8, 0/14
or 0/19 that names a component or a sub-channel that the plan has not when its turn comes is stale,
and left out; labels are carried, whatever they name. All frames so far are written before more of
either file is read. All messages go to standard error.",
    usage: "dabplan merge <PLAN> <OTHER> [--mode <M>]",
    arguments: &[
        Argument("plan", Operand("PLAN"), &[], PLAN),
        Argument("other", Operand("OTHER"), &[], OTHER),
        MODE,
    ],
    after: "\
The messages:
  frames 252 carried 500 waiting 3 dropped 0 stale 0 damaged 0
                               the last line. carried: FIGs of OTHER that were sent; waiting: FIGs
                               for which there was no room yet; dropped: FIGs that came while 256
                               others waited; stale: those that name what the plan has not;
                               damaged: FIBs of both that have a wrong CRC or no whole FIGs. Those
                               of PLAN stay as they are
  mux.fic: not whole frames    the file ends within a frame. If it is PLAN, the frames before are
                               written; if it is OTHER, the run goes on without it
  mux.fic: no whole FIB: ..    the file is ETI or EDI. If it is OTHER, the run goes on without it
  cannot read mux.fic          the file can't be read. If it is OTHER, and was read so far, the run
                               goes on without it
  write failed after 3 frames and 40 bytes
                               this much was written to standard output

Example: the frames of a plan, here with its own ones in the place of a multiplexer's
  printf 'frames 1 contact 3 closed frames 300' > day.events
  dabplan play examples/contact_lowers_a_rate.code day.events day.fib
  dabplan merge day.fib day.fib > merged.fib
  dabplan check merged.fib

Exit status:
  0  PLAN came to its end
  1  PLAN can't be read, has no whole frames or is ETI or EDI, OTHER can't be opened, can't be read
     on, has no whole frames or is ETI or EDI, or standard output failed
  2  the command line is wrong",
};

/// Reads the arguments of `merge`.
pub(crate) fn request<'a>(values: &Values<'a>) -> Result<FramesRequest<'a>, UsageError<'a>> {
    let plan = values.text("plan");
    let other = values.text("other");
    if plan == "-" && other == "-" {
        return Err(UsageError::TwiceInput);
    }
    Ok(FramesRequest::Merge(MergeRequest {
        plan,
        other,
        mode: mode_of(values),
    }))
}
