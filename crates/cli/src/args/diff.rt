//! The command line of `diff`.

use crate::args::Request;
use crate::args::parser::Kind::{Flag, Operand};
use crate::args::parser::{Argument, Page, Values};
use crate::args::shared::{QUIET, explanation};
use cli_scripts::diff::DiffRequest;

const FROM: &str = "The script with the configuration to start from";

const TO: &str = "The script with the configuration to reach";

/// The command `diff`.
pub(crate) const PAGE: Page = Page {
    name: "diff",
    about: "Writes the plan that changes one configuration into another",
    long_about: "\
Writes the plan that changes one configuration into another.

FROM and TO are scripts, of which only the configurations that they begin with are used. The printed
plan begins with that of FROM and reaches that of TO by one reconfiguration: the edits between them,
a commit and a join. 'dabplan compile' accepts it.",
    usage: "dabplan diff <FROM> <TO> [--quiet]",
    arguments: &[
        Argument("from", Operand("FROM"), &[], FROM),
        Argument("to", Operand("TO"), &[], TO),
        Argument("quiet", Flag, &[], QUIET),
    ],
    after: "\
The plan has the header of TO, its reserve included, and announces the swap for the notice of TO. No
frame has more instructions than the budget of TO.

The line of a refusal goes to standard error, and so does that of a mistake in the command line:
standard output has a plan or nothing. What is wrong with a script follows there, as with 'compile',
unless --quiet leaves it out:
  now.plan:7:7: NameUnknown     line 7, column 7 of FROM or TO: no script, as 'dabplan help compile'
                                says
  now.plan: refused line 9: Edit IdUsed
                                the item in line 9 can't be added; 'Config ..' in the line of
                                'begin': the configuration is not sound; 'Round': it takes too many
                                frames to be sent within the period
  refused: another ensemble     the two have different EIds or transmission modes
  refused: NoChange             both begin with the same configuration
  refused: Round                both together take too many frames to be sent within the period, or
                                three times within the notice
  refused: Cost                 the budget is 1, which leaves no room for an edit

Example: a sub-channel of what is on air gets a lower rate tonight
  dabplan frame examples/on_air.plan --script --count 0 --raw > air.fib
  dabplan listen air.fib --script > today.plan
  sed 's/eep 3-A 128/eep 3-A 96/' today.plan > tonight.plan
  dabplan diff today.plan tonight.plan > change.plan
  dabplan compile change.plan change.code

Exit status:
  0  the plan was printed
  1  there is none, or a file can't be read
  2  the command line is wrong",
};

/// Reads the arguments of `diff`.
pub(crate) fn request<'a>(values: &Values<'a>) -> Request<'a> {
    Request::Diff(DiffRequest {
        from: values.text("from"),
        to: values.text("to"),
        explanation: explanation(values),
    })
}
