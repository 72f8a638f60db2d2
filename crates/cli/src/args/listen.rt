//! The command line of `listen`, whose result is a listing or a script.

use crate::args::parser::Kind::{Flag, Number, Operand};
use crate::args::parser::Rule::{Excludes, Needs};
use crate::args::parser::{Argument, Page, Rule, Values};
use crate::args::shared::{RESERVE, RESERVE_HELP, layout_of};
use crate::args::{Request, UsageError};
use cli_scripts::listen_script::ListenScriptRequest;
use cli_streams::listen::ListenRequest;

const FILE: &str = "The file of FIBs, or '-' for standard input";

const JSON: &str = "Prints one object of JSON instead of lines";

const SCRIPT: &str = "Prints the current configuration as a script";

const MODE: &str = "The transmission mode of the script, 1 to 4, which FIBs do not carry";

const PERIOD: &str = "\
The period of the script in frames, 1 to 60 [default: room for two such configurations]";

const NOTICE: &str = "The notice of the script in frames, 12 to 248";

const BUDGET: &str = "The budget of the script in instructions per frame, 1 to 255";

const NEXT: &str = "\
Prints the next configuration, which a swap is announced for, not the current one";

/// The rules of an option of the printed script.
const OF_SCRIPT: &[Rule] = &[Needs("script"), Excludes("json")];

/// The command `listen`.
pub(crate) const PAGE: Page = Page {
    name: "listen",
    about: "Decodes a file of FIBs and prints the resulting configuration",
    long_about: "\
Decodes a file of FIBs and prints the resulting configuration.

The file has FIBs of 32 bytes, one after another, as any multiplexer may have written them. Prints
the number of FIBs, how many of them were damaged, the current configuration at the end of the file,
and the next configuration, with the low part of the CIF count of its swap, where a reconfiguration
is announced.",
    usage: "\
dabplan listen <FILE> [--json]
       dabplan listen <FILE> --script [--mode <M>] [--period <P>] [--notice <W>] [--budget <B>]
                     [--reserve <R>] [--next]",
    arguments: &[
        Argument("file", Operand("FILE"), &[], FILE),
        Argument("json", Flag, &[Excludes("script")], JSON),
        Argument("script", Flag, &[], SCRIPT),
        Argument("mode", Number("M", 1, 4, Some("1")), OF_SCRIPT, MODE),
        Argument("period", Number("P", 1, 60, None), OF_SCRIPT, PERIOD),
        Argument(
            "notice",
            Number("W", 12, 248, Some("240")),
            OF_SCRIPT,
            NOTICE,
        ),
        Argument("budget", Number("B", 1, 255, Some("20")), OF_SCRIPT, BUDGET),
        Argument("reserve", RESERVE, OF_SCRIPT, RESERVE_HELP),
        Argument("next", Flag, OF_SCRIPT, NEXT),
    ],
    after: "\
The lines:
  fibs 1203 damaged 0                 damaged: a wrong CRC, or no whole FIGs
  current                             what was received with C/N 0 follows
  sub 1 at 0 size 96 eep 3-A          a sub-channel: first capacity unit, size, protection
  sub 2 at 96 switch 0 table 35       one with unequal error protection
  service C221                        a service, and its components in order:
    audio 63 sub 1 primary            audio of type (ASCTy) 63 on sub-channel 1
    packet 7 secondary                packet component 7
  packet 7 groups type 60 sub 5 address 1
                                      a packet component; 'raw' where data groups are not used
  next                                what was received with C/N 1 follows
  swap at low 28                      'no swap' where no reconfiguration is awaited

With --json the same is printed as one object of JSON on one line; a sub-channel has its rate in
kbit/s there, where it has one:
  {\"fibs\":3,\"damaged\":0,\"current\":[{\"sub\":1,\"start\":0,\"size\":96,\"protection\":\"3-A\",\"kbits\":128}],
  \"next\":[],\"swap_at\":null}           on one line; a refusal is {\"kind\":\"refused\",\"cause\":\"Full\"}

With --script the current configuration is printed as a script, which 'dabplan frame --script' turns
into FIBs again. Its EId is that of the last FIG 0/0; mode, period, notice, budget and reserve are
those of the options. Standard output has a script or nothing then: the line of a refusal goes to
standard error. While a swap is announced, standard error says so:
  air.fib: swap announced, at low 2: this is the configuration before it
With --next it is the script of the configuration that the swap makes the current one.

The line of a refusal:
  refused: not whole FIBs             the length of the file is not a multiple of 32 bytes
  refused: Full                       a configuration has more than 64 services or packet components
  refused: no ensemble                with --script: there is no FIG 0/0
  refused: no swap is announced       with --next
  refused: cannot be written: sub 2 at 96 switch 0 table 35
                                      with --script: the first entry that no script can express

Example: the FIBs that 'dabplan frame' writes, decoded again
  dabplan frame examples/on_air.plan --script --count 0 --raw > air.fib
  dabplan listen air.fib

Example: what is on air, as the beginning of a plan
  dabplan listen air.fib --script > today.plan

Exit status:
  0  the listing or the script was printed
  1  the FIBs are refused, FILE can't be read, or is ETI or EDI and has no FIB
  2  the command line is wrong",
};

/// Reads the arguments of `listen`.
pub(crate) fn request<'a>(values: &Values<'a>) -> Result<Request<'a>, UsageError<'a>> {
    if values.flag("script") {
        return script_request(values);
    }
    Ok(Request::Listen(ListenRequest {
        file: values.text("file"),
        is_json: values.flag("json"),
    }))
}

/// Reads the arguments of `listen --script`.
fn script_request<'a>(values: &Values<'a>) -> Result<Request<'a>, UsageError<'a>> {
    Ok(Request::ListenScript(ListenScriptRequest {
        file: values.text("file"),
        layout: layout_of(values)?,
        period: values.some_number("period"),
        notice: values.number("notice"),
        budget: values.number("budget"),
        is_next: values.flag("next"),
    }))
}
