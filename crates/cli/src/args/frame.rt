//! The command line of `frame`, for a record or a script.

use crate::args::parser::Kind::{Flag, Number, Operand, Text};
use crate::args::parser::Rule::{Excludes, Needs, Required, RequiredUnless};
use crate::args::parser::{Argument, Page, Values};
use crate::args::shared::{MODE, QUIET, RESERVE, RESERVE_HELP, digits_of, explanation, layout_of};
use crate::args::{Request, UsageError};
use cli_scripts::frame_script::FrameScriptRequest;
use cli_streams::frame::FrameRequest;
use mux_config::Ensemble;

const CONFIG: &str = "The configuration record or script: a file, or '-' for standard input";

const ENSEMBLE: &str = "The identifier of the ensemble: four hexadecimal digits, upper case";

const COUNT: &str = "\
The CIF count of the frame, 0 to 4999; decides whether FIG 0/0 is in the frame";

const PAGE_HELP: &str = "Which frame of a configuration that needs more than one, from 0";

const SCRIPT: &str = "CONFIG is a script, which also gives the ensemble and the mode";

const RAW: &str = "Writes the FIBs as bytes, not as hexadecimal digits";

/// The command `frame`.
pub(crate) const PAGE: Page = Page {
    name: "frame",
    about: "Writes the FIBs of one frame of a configuration",
    long_about: "\
Writes the FIBs of one frame of a configuration.

The configuration comes from a configuration record, a short binary file, or with --script from the
text of a script. Each FIB of the frame of 24 ms is printed as a line of 64 hexadecimal digits, its
CRC included: three FIBs, in transmission mode 3 four. Where the entries of the configuration take
more than one frame, --page picks the frame.",
    usage: "\
dabplan frame <CONFIG> --ensemble <HHHH> --count <N> [--page <K>] [--mode <M>]
                     [--reserve <R>] [--raw]
       dabplan frame <SCRIPT> --script --count <N> [--page <K>] [--raw] [--quiet]",
    arguments: &[
        Argument("config", Operand("CONFIG"), &[], CONFIG),
        Argument(
            "ensemble",
            Text("HHHH", None),
            &[RequiredUnless("script")],
            ENSEMBLE,
        ),
        Argument("count", Number("N", 0, 4999, None), &[Required], COUNT),
        Argument("page", Number("K", 0, 65535, Some("0")), &[], PAGE_HELP),
        MODE,
        Argument("reserve", RESERVE, &[Excludes("script")], RESERVE_HELP),
        Argument(
            "script",
            Flag,
            &[Excludes("ensemble"), Excludes("mode")],
            SCRIPT,
        ),
        Argument("raw", Flag, &[], RAW),
        Argument("quiet", Flag, &[Needs("script")], QUIET),
    ],
    after: "\
The record, field by field (in brackets the bytes of a field, its high byte first):
  sub-channels [1], services [1], packet components [1]   how many of each follow, 0 to 64
  each sub-channel:       id [1] 0 to 63, first capacity unit [2], set [1] 0 is A and 1 is B,
                          level [1] 1 to 4, kbit/s [2]
  each service:           kind [1] 0 or 1, SId [2] for kind 0 or [4] for kind 1,
                          how many components follow [1], at most 12 or 11
    audio component:      0 [1], type [1] 0 to 63, sub-channel [1]
    data component:       1 [1], type [1] 0 to 63, sub-channel [1]
    packet component:     3 [1], SCId [2] 0 to 4095
  each packet component:  SCId [2], DG flag [1] 0 where data groups are used, type [1] 0 to 63,
                          sub-channel [1], address [2] 1 to 1023
Sub-channels, services (those of kind 0 first) and packet components ascend by identifier.
The first component of a service is its primary one.

With --reserve the last FIBs of the frame stay empty, for labels and other FIGs of a multiplexer
('dabplan help merge'); the entries then may take more frames.

With --script the frame is one of the configuration that a script begins with, for the ensemble, in
the transmission mode and with the reserve of the script. With --raw the FIBs are written as bytes,
which 'dabplan listen -' reads. With either of them standard output has FIBs or nothing: the line of
a refusal goes to standard error.

The line of a refusal:
  record: Field 4               the field that begins at byte 4, counted from 0, is out of range;
                                'Short': bytes are missing; 'Order': an identifier is not above the
                                one before it; 'trailing': bytes follow the record
  refused: Overlap 1 2          sub-channels 1 and 2 share a capacity unit; 'Orphan': a component
                                refers to a sub-channel or packet component that is missing;
                                'AddressUsed': two packet components of a sub-channel have one
                                address; 'EmptyService': a service has no component
  refused: no such page         the configuration takes fewer frames than --page asks for
  1:10: Number                  with --script: as 'dabplan help compile' says
  refused line 9: Edit IdUsed   with --script: the item in line 9 can't be added

Example: sub-channel 1 of 128 kbit/s at 3-A, and service C221 with audio of type 63 on it
  printf '\\001\\001\\000\\001\\000\\000\\000\\003\\000\\200\\000\\302\\041\\001\\000\\077\\001' |
    dabplan frame - --ensemble E1C5 --count 0

Example: the same kind of frame from a script, as bytes
  dabplan frame examples/on_air.plan --script --count 0 --raw > air.fib

Exit status:
  0  the FIBs were printed
  1  the record, the script or the configuration is refused, or CONFIG can't be read
  2  the command line is wrong",
};

/// Reads the arguments of `frame`.
pub(crate) fn request<'a>(values: &Values<'a>) -> Result<Request<'a>, UsageError<'a>> {
    if values.flag("script") {
        return Ok(script_request(values));
    }
    let eid = digits_of(values, "ensemble", "--ensemble <HHHH>")?;
    let count = values.number("count");
    let layout = layout_of(values)?;
    let Some(ensemble) = Ensemble::new(eid, 0, false, count, None) else {
        return Err(UsageError::Nothing);
    };
    Ok(Request::Frame(FrameRequest {
        config: values.text("config"),
        layout,
        ensemble,
        page: values.number("page"),
        raw: values.flag("raw"),
    }))
}

/// Reads the arguments of `frame --script`.
fn script_request<'a>(values: &Values<'a>) -> Request<'a> {
    Request::FrameScript(FrameScriptRequest {
        script: values.text("config"),
        count: values.number("count"),
        page: values.number("page"),
        raw: values.flag("raw"),
        explanation: explanation(values),
    })
}
