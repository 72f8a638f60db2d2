//! The command line of `verify`.

use crate::args::Request;
use crate::args::parser::Kind::{Flag, Operand};
use crate::args::parser::Rule::Excludes;
use crate::args::parser::{Argument, Page, Values};
use crate::args::shared::{EXPLAIN, QUIET, explanation};
use cli_scripts::verify::VerifyRequest;

const CODE: &str = "The code file, or '-' for standard input";

/// The command `verify`.
pub(crate) const PAGE: Page = Page {
    name: "verify",
    about: "Checks whether a plan of reconfigurations can be played",
    long_about: "\
Checks whether a plan of reconfigurations can be played.

A code file is the binary form of a plan: instructions that edit the configuration of the multiplex,
commit it, and wait for frames, times of day and contacts. One line says 'accepted', or where the
plan is refused and why. An accepted plan never goes wrong, whatever the contacts do: each
configuration that it commits is sound, each swap can be announced in time and comes when it was
announced, and no frame takes more instructions than the plan's budget.",
    usage: "dabplan verify <CODE> [--explain | --quiet]",
    arguments: &[
        Argument("code", Operand("CODE"), &[], CODE),
        EXPLAIN,
        Argument("quiet", Flag, &[Excludes("explain")], QUIET),
    ],
    after: "\
The line:
  accepted
  refused at 3 line 10: Notice  instruction 3, counted from 0, which comes from line 10 of the
                                script; line 0 means no instruction
  code: Field 98                not a code file: the field that begins at byte 98, counted from 0,
                                is out of its range; also Magic, Version, Truncated, Limit, Trailing

Standard error says what is wrong, with objects and numbers, in the form that editors read, and for
most causes how to correct it:
  night.code:10: error: ..      what comes from line 10 of the script
  night.code:10: hint: ..       what to do
With --explain this is on standard output, behind the line of the refusal; --quiet leaves it out.

The causes of a refusal:
  Target         the instruction jumps to where no label is
  Table          a label is missing where one has to be, or is past the last instruction
  Edit FAULT     the edit is impossible: IdUsed, IdAbsent, TooManyComponents, TableFull, PastEnd,
                 BadRate, BadAddress
  Config FAULT   the configuration is not sound: Overlap A B (sub-channels A and B share a
                 capacity unit), Orphan, AddressUsed, EmptyService
  Pending        an edit or a commit while a swap is pending, or may be
  NoChange       the committed configuration is the current one already
  Notice         the swap would come before the plan's notice has passed
  Count          no swap can fall on this CIF count
  JoinIdle       a join where no swap is pending, or perhaps none is
  SwapUncertain  the wait may end before the swap or after it
  CounterUnset   the loop's counter may not be set
  Mismatch       the paths that meet here differ in the configuration or in what is pending, or a
                 loop does not restore what it began with
  Cost           more instructions may run in one frame than the budget or a label allows
  Round          the configurations take too many frames to be sent within the period, or three
                 times within the notice, in the FIBs that the plan does not reserve
  FallsOff       the plan does not end with an instruction that ends it

Example: a plan that lowers a rate while contact 3 is closed
  dabplan verify examples/contact_lowers_a_rate.code

Exit status:
  0  the plan is accepted
  1  it is refused, CODE is not a code file, or CODE can't be read
  2  the command line is wrong",
};

/// Reads the arguments of `verify`.
pub(crate) fn request<'a>(values: &Values<'a>) -> Request<'a> {
    Request::Verify(VerifyRequest {
        code: values.text("code"),
        explanation: explanation(values),
    })
}
