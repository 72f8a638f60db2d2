//! The command line of `map`.

use crate::args::parser::Kind::{Flag, Operand, Text};
use crate::args::parser::{Argument, Page, Values};
use crate::args::shared::{QUIET, explanation};
use crate::args::{Request, UsageError};
use cli_scripts::map::MapRequest;

const SCRIPT: &str = "The script, or '-' for standard input";

const SVG: &str = "Also writes a drawing to this file, an SVG document";

const LAYOUT: &str = "Prints the one layout that serves every configuration";

const JSON: &str = "Prints each row, or the layout, as a JSON object";

/// The command `map`.
pub(crate) const PAGE: Page = Page {
    name: "map",
    about: "Shows which capacity units each sub-channel has in a plan",
    long_about: "\
Shows which capacity units each sub-channel has in a plan.

Prints the configuration that the script begins with, and that of each commit, in the order of the
script. With --svg the same is drawn to scale, as a document that any browser shows. With --layout
the one layout of sub-channels is printed that serves all of them.",
    usage: "dabplan map <SCRIPT> [--svg <OUT>] [--layout] [--json] [--quiet]",
    arguments: &[
        Argument("script", Operand("SCRIPT"), &[], SCRIPT),
        Argument("svg", Text("OUT", None), &[], SVG),
        Argument("layout", Flag, &[], LAYOUT),
        Argument("json", Flag, &[], JSON),
        Argument("quiet", Flag, &[], QUIET),
    ],
    after: "\
The lines (shortened here):
  commit 12 (until 21:59:54): free 792
                       the statement and its line in the script, 'in NAME' where it is in a block;
                       in parentheses the last statement before it that waits or tests a contact,
                       if it is the same on every path, and 'begin' where there is none; how many
                       capacity units are free
      0  1 1 1 1 1 1..................
    432 ..............................
                       72 cells of 12 capacity units in two lines, each with the number of the
                       sub-channel that has most of it, or '..' where it is free
    - sub 1 at 0 size 96 eep 3-A
    + sub 1 at 0 size 72 eep 3-A
                       what the configuration above has and this one has not, and what is new:
                       sub-channels, services with their components, packet components
  1:10: Number         line 1, column 10 has no number in range, as 'dabplan help compile' says
  refused line 7: Pending
                       the plan could go wrong at line 7, as 'dabplan help compile' says

A commit in a block that is applied twice is shown twice. After an 'if' and in a loop a row shows
what holds on every path; in a loop what leads to it at first.

The lines of --layout, instead of these:
  sub 1 at 0 size 96 eep 3-A
                       a sub-channel, where it is in every configuration that has it
  no one layout: sub 1 at 0 size 96 eep 3-A and at 0 size 72 eep 3-A
                       a sub-channel with two places, sizes or profiles, or two sub-channels that
                       share capacity units

With --json each row is one JSON object, shown here in three lines, with the sub-channels and all
parts of its configuration; the sub-channels are in the order of their capacity units:
  {\"kind\":\"commit\",\"line\":12,\"block\":null,\"lead\":\"until 21:59:54\",\"free\":792,
   \"dropped\":[\"sub 1 at 0 size 96 eep 3-A\"],\"added\":[\"sub 1 at 0 size 72 eep 3-A\"],
   \"layout\":[{\"sub\":1,\"start\":0,\"size\":72,\"protection\":\"3-A\",\"kbits\":96}],\"parts\":[..]}
'lead' is null where the text has no parentheses. With --layout it is one object with the list
'layout', or one with the cause 'no one layout' and the sub-channels 'first' and 'second'.

On standard error follows what the author of an accepted plan may not want, each with its line in
the script; the status stays as it is. Behind the objects of the rows it follows as objects:
  night.plan:9: warning: no component names sub 3
                       also: audio under an SId of 32 bits; a commit that gives a service another
                       primary component; a plan that begins with 'until'; a block of which no
                       statement is reached; 'until' directly behind 'wait contact', and for a
                       time that is past when the plan comes to it
On standard error it says too what is wrong with a refused script, as 'compile' does; --quiet leaves
both out.

In the drawing each sub-channel keeps its colour in all rows, and has its number, kbit/s and
protection in it; what is changed from the row above is framed in red, also where a service moves
there; free units are hatched, and a key shows which sub-channels carry each service. OUT is created
before the lines are printed; where the script is refused it stays as it was.

Example: a lower rate at night
  dabplan map examples/any_hour.plan --svg night.svg

Exit status:
  0  the map or the layout was printed, and OUT holds the drawing
  1  the script is refused, there is no one layout, or a file can't be read or written
  2  the command line is wrong",
};

/// Reads the arguments of `map`.
pub(crate) fn request<'a>(values: &Values<'a>) -> Result<Request<'a>, UsageError<'a>> {
    let drawing = values.some_text("svg");
    if drawing == Some("-") {
        return Err(UsageError::Value {
            option: "--svg <OUT>",
            value: "-",
            reason: "standard output has the map",
        });
    }
    Ok(Request::Map(MapRequest {
        script: values.text("script"),
        drawing,
        layout: values.flag("layout"),
        is_json: values.flag("json"),
        explanation: explanation(values),
    }))
}
