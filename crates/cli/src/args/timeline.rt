//! The command line of `timeline`.

use crate::args::parser::Kind::{Flag, Operand, Text};
use crate::args::parser::{Argument, Page, Values};
use crate::args::shared::{QUIET, explanation};
use crate::args::start::{CONTACTS, COUNT, DAY, TIME, start_options};
use crate::args::{Request, UsageError};
use cli_timeline::timeline::TimelineRequest;

const CODE: &str = "The code file or the script, or '-' for standard input";

const SVG: &str = "Also writes a drawing to this file, an SVG document";

const JSON: &str = "Prints each line as an object of JSON";

/// The command `timeline`.
pub(crate) const PAGE: Page = Page {
    name: "timeline",
    about: "Shows what a plan puts on air, and when",
    long_about: "\
Shows what a plan puts on air, and when: the dry run before it goes on air.

CODE is a code file, or the script that it is compiled from. EVENTS is a text as 'dabplan play' has
it: how many frames of 24 ms to play, and which contacts are closed and opened between them. The
plan is played without writing frames, so that a month takes less than a second. A line is printed
for each change, and at the end what is on air.",
    usage: "\
dabplan timeline <CODE> <EVENTS> [--count <N>] [--day <N> | --time <HH:MM:SS>]
                           [--contacts <HHHH>] [--svg <OUT>] [--json] [--quiet]",
    arguments: &[
        Argument("code", Operand("CODE"), &[], CODE),
        Argument("events", Operand("EVENTS"), &[], "The event file"),
        COUNT,
        DAY,
        TIME,
        CONTACTS,
        Argument("svg", Text("OUT", None), &[], SVG),
        Argument("json", Flag, &[], JSON),
        Argument("quiet", Flag, &[], QUIET),
    ],
    after: "\
The lines (shortened here):
  22:00:00.000 frame 3300000 line 12: - sub 1 at 0 size 96 eep 3-A, + sub 1 at 0 size 72 eep 3-A
                       the time at which the change is on air; the number of its frame, from 0; the
                       line of its 'commit'; what is left out, and what is new, as 'dabplan map' has
                       it. The time begins with 'day 1', counted from 0, where midnight is passed
  06:00:00.000 frame 4500000 on air
    sub 1 at 0 size 72 eep 3-A
                       after the last frame: the time, the number of frames, and what is on air
  code: Magic          CODE is no plan, or the plan, the start or the events are refused, as
                       'dabplan help play' and 'dabplan help compile' say
With --json each is an object in a line, as
  {\"kind\":\"swap\",\"time\":\"22:00:00.000\",\"day\":0,\"frame\":3300000,\"count\":0,\"line\":12,
   \"dropped\":[\"sub 1 at 0 size 96 eep 3-A\"],\"added\":[\"sub 1 at 0 size 72 eep 3-A\"]}
  {\"kind\":\"on-air\",\"time\":\"06:00:00.000\",\"day\":1,\"frame\":4500000,
   \"parts\":[\"sub 1 at 0 size 72 eep 3-A\"]}

In the drawing time goes to the right and capacity units upwards. Each sub-channel has its number,
its first service and its colour of the map; changes are dashed lines with their times, and below
are the contacts that are closed. OUT is written last.

Example: a day and a half of a plan with a lower rate at night, from noon
  printf 'frames 3600000 frames 1800000' > tomorrow.events
  dabplan timeline examples/any_hour.plan tomorrow.events --time 12:00:00 --svg tomorrow.svg

Exit status:
  0  the run was played to its end, and OUT holds the drawing
  1  the plan, the start or the events are refused, or a file can't be read or written
  2  the command line is wrong",
};

/// Reads the arguments of `timeline`.
pub(crate) fn request<'a>(values: &Values<'a>) -> Result<Request<'a>, UsageError<'a>> {
    let drawing = values.some_text("svg");
    if drawing == Some("-") {
        return Err(UsageError::Value {
            option: "--svg <OUT>",
            value: "-",
            reason: "standard output has the timeline",
        });
    }
    Ok(Request::Timeline(TimelineRequest {
        start: start_options(values)?,
        plan: values.text("code"),
        events: values.text("events"),
        drawing,
        is_json: values.flag("json"),
        explanation: explanation(values),
    }))
}
