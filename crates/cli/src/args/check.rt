//! The command line of `check`.

use crate::args::moment::moment_of;
use crate::args::parser::Kind::{Flag, Number, Operand, Text};
use crate::args::parser::{Argument, Page, Values};
use crate::args::shared::{MODE, mode_of};
use crate::args::{Request, UsageError};
use cli_streams::check::CheckRequest;
use stream_monitor::{CheckOptions, Form};

const FILE: &str = "The file of FIBs, or '-' for standard input";

const PERIOD: &str = "Every entry must come at least once in this many frames of 24 ms, 1 to 60000";

const EVERY: &str = "Prints the totals so far after every N frames, 1 to 4294967295";

const TIME: &str =
    "The time of day of the first frame, 00:00:00 to 23:59:59.999: each finding has its time";

const UNTIL_FAULT: &str = "Ends with the first frame that has a fault, with status 3";

const JSON: &str = "Prints each line as a JSON object";

/// The command `check`.
pub(crate) const PAGE: Page = Page {
    name: "check",
    about: "Reports where a file of FIBs breaks the rules of reconfigurations",
    long_about: "\
Reports where a file of FIBs breaks the rules of reconfigurations (EN 300 401, clause 6.5).

The file has FIBs of 32 bytes, one after another, as any multiplexer may have written them. Prints
the announcements, the swaps and the faults, each with its frame and CIF count. A fault is a swap
that was not announced in time, or comes at another count or with other flags; a next configuration
that could not be received three times before its swap; an entry that changed, appeared or fell
silent without a swap; a jump of the CIF count; a FIG 0/0 out of place; a damaged or missing FIB;
another FIG that names a sub-channel or component that is not there.",
    usage: "\
dabplan check <FILE> [--mode <M>] [--period <N>] [--every <N>] [--time <HH:MM:SS>]
       [--until-fault] [--json]",
    arguments: &[
        Argument("file", Operand("FILE"), &[], FILE),
        MODE,
        Argument("period", Number("N", 1, 60000, Some("250")), &[], PERIOD),
        Argument("every", Number("N", 1, 4294967295, None), &[], EVERY),
        Argument("time", Text("HH:MM:SS", None), &[], TIME),
        Argument("until-fault", Flag, &[], UNTIL_FAULT),
        Argument("json", Flag, &[], JSON),
    ],
    after: "\
The lines, each with the number of its frame, from 0, and the CIF count of the frame:
  0 0 ensemble E1C5                   the ensemble of the first FIG 0/0
  4 4 announced 1 swap at low 28      flags 1: sub-channels change, 2: services, 3: both; the low
                                      part of the CIF count of the swap
  28 28 swap                          the next configuration becomes the current one
  28 28 fault: announced for low 24   a fault of the list below
  frames 100 skipped 0 left over 0 damaged 0 swaps 1 faults 1
                                      the last line. skipped: FIBs before the first FIG 0/0; left
                                      over: FIBs after the last whole frame; damaged: FIBs of frames

The faults of a frame:
  frame of K FIBs               the frame has fewer FIBs than the mode gives it
  damaged D                     D of its FIBs have a wrong CRC or no whole FIGs
  FIG 0/0 is missing            the frame does not begin with the FIG 0/0 that is due in it
  ensemble HHHH                 its FIG 0/0 has another EId than the one before
  count: N was due              its FIG 0/0 has another CIF count
  FIG 0/0 out of place          a FIG 0/0 where none is due: not first in the frame, or at a count
                                that the step of the mode does not divide
  announced again: B at low O   while a swap is awaited, other flags or another count are announced
  no swap can fall at low O     no CIF count of a swap has the low part O
  next without change flags     the next configuration is sent, and no change flag is set
  changed: ENTRY                an entry of the current configuration changed without a swap
  next changed: ENTRY           an entry of the next configuration changed
  appeared: ENTRY               the current configuration did not have this entry
  silent: ENTRY                 an entry of the current one was not sent for --period frames
  FIG 0/E names ENTRY, which is not there
                                FIG 0/4, 0/5, 0/8, 0/14 or 0/19 names a sub-channel or component
                                that the current configuration does not have; reported once between
                                two swaps, from frame --period on
  FIG 0/E is not whole entries  one of these FIGs ends within an entry, or has none
The faults of a swap:
  announced for low O           the swap was announced for another CIF count
  announced N times             fewer than three FIG 0/0 with change flags came before it
  next heard N times            the next configuration could not be received three times before it
  flags B, but D changes        the flags announced B, and what changes is D
  overlap A B                   sub-channels A and B of the new configuration share a capacity unit
  past the end: A               sub-channel A of the new configuration ends past capacity unit 863
ENTRY is 'sub 1', 'service C221', 'packet 7', or in FIG 0/8 'sub 1 of service C221'. A frame has
three FIBs, in mode 3 four, or fewer where the next FIB begins with a FIG 0/0.

The file is read as it comes, and all lines that its bytes decide are written before more is read,
so that a pipe can be monitored. With --every 250 there is also a line of the totals so far every
six seconds, so that a monitor that has stopped is noticed:
  alive frames 250 skipped 0 left over 0 damaged 0 swaps 1 faults 1
With --time each finding begins with the time of its frame, 21:59:54.240; the file's first frame is
at that time, also if the first FIG 0/0 comes later. With --json each line is one JSON object:
  {\"kind\":\"fault\",\"frame\":28,\"count\":28,\"fault\":\"announced-for\",\"low\":24}

The line of a refusal, in place of the last line:
  refused: not whole FIBs       the length of the file is not a multiple of 32 bytes
  refused: no ensemble          there is no FIG 0/0
  refused: Full                 a configuration has more than 64 services or packet components

Hints on standard error, each once at most:
  day.fib: no whole FIB: ..     the file has no FIBs; what it looks like follows, if that is known
  day.fib: FIG 0/0 in every frame: --mode 2 or 3?
                                FIG 0/0 has the steps of another mode than that of --mode
  day.fib: FIBs are damaged from byte 960 on: ..
                                30 FIBs in a row are damaged; where the stream goes on follows, if
                                that is known

Example: the frames of a plan, with a change of rate that is announced and made
  printf 'frames 1 contact 3 closed frames 300' > day.events
  dabplan play examples/contact_lowers_a_rate.code day.events day.fib
  dabplan check day.fib

Exit status:
  0  there is no fault
  1  the FIBs are refused, or FILE can't be read
  2  the command line is wrong
  3  there is a fault",
};

/// Reads the arguments of `check`.
pub(crate) fn request<'a>(values: &Values<'a>) -> Result<Request<'a>, UsageError<'a>> {
    let start = match moment_of(values)? {
        Some(moment) => Some(moment.thousandths()),
        None => None,
    };
    Ok(Request::Check(CheckRequest {
        file: values.text("file"),
        options: CheckOptions {
            mode: mode_of(values),
            period: values.number("period"),
            every: values.some_number("every"),
            until_fault: values.flag("until-fault"),
            form: Form {
                is_json: values.flag("json"),
                start,
            },
        },
    }))
}
