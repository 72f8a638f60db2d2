//! The command line of `compile`.

use crate::args::parser::Kind::{Flag, Operand, Text};
use crate::args::parser::Rule::Excludes;
use crate::args::parser::{Argument, Page, Values};
use crate::args::shared::{EXPLAIN, QUIET, explanation};
use crate::args::{Request, UsageError};
use cli_scripts::compile::CompileRequest;
use cli_scripts::compile_from::CompileFromRequest;

const SCRIPT: &str = "The script, or '-' for standard input";

const FROM: &str = "A script whose items are on air when the plan begins";

/// The command `compile`.
pub(crate) const PAGE: Page = Page {
    name: "compile",
    about: "Compiles a script into a code file",
    long_about: "\
Compiles a script into a code file.

A script is the text of a plan of reconfigurations: the configuration that it begins with, and what
changes when. The code file is what 'verify', 'play', 'debug' and 'live' read. Every plan that is
compiled is one that 'dabplan verify' accepts.",
    usage: "dabplan compile <SCRIPT> <OUT> [--from <NOW>] [--explain | --quiet]",
    arguments: &[
        Argument("script", Operand("SCRIPT"), &[], SCRIPT),
        Argument("out", Operand("OUT"), &[], "The code file to write"),
        Argument("from", Text("NOW", None), &[], FROM),
        EXPLAIN,
        Argument("quiet", Flag, &[Excludes("explain")], QUIET),
    ],
    after: "\
A script:
  ensemble E1C5               # the EId
  period 4 notice 24 budget 20
                              # period: the frames in which everything is sent once; notice: the
                              # frames that a swap is announced for; budget: the most instructions
                              # in a frame; 'reserve 1' after it leaves a FIB of each frame empty,
                              # for labels
  sub 1 at 0 eep 3-A 128      # sub-channel 1 at capacity unit 0, protection 3-A, 128 kbit/s
  service C221
  audio 63 sub 1 in C221      # audio of type (ASCTy) 63, DAB+, on sub-channel 1
  begin                       # what follows happens while the plan plays
  forever {
    wait contact 3 closed
    rate sub 1 96             # edits change the next configuration
    commit in 24              # commit announces it, for a swap after 24 frames or more
    join                      # join waits for the swap
    wait contact 3 open
    rate sub 1 128
    commit in 24
    join
  }

In the place of 'begin' and what follows, a schedule says what is to be on air, and when:
  schedule
  overlay night while time 22:00:00 to 06:00:00 {
    rate sub 1 96             # on air from ten to six, and announced a notice before
  }
  overlay region while contact 5 closed and time 06:00:00 to 09:00:00 {
    sub 2 at 96 eep 3-A 128   # the items, with the edits of every overlay whose condition holds,
    service C222              # in the order of the text; tests are joined by 'and', alternatives
    audio 63 sub 2 in C222    # by 'or'
  }

The line:
  instructions 9 labels 1 configurations 1
                                the size of the code
  1:10: Number                  line 1, column 10: there is no number in its range
      Byte                      a character that no script has
      Expected                  another word is expected
      Depth                     more than 16 braces are open
      NameUsed, NameUnknown     the name of a block or an overlay is there twice, or a block is
                                applied before it is defined
      Limit                     the text, a line, a word or the number of statements is too long
  refused line 7: Mismatch      the plan could go wrong at line 7; 'dabplan help verify' lists the
                                causes
  refused: Limit                the code has too many instructions, labels, configurations or
                                nested repeats

Standard error says what is wrong, with objects and numbers, in the form that editors read, and how
to correct it; and of an accepted script the warnings of 'dabplan help map'. The status stays as is:
  night.plan:7: error: ..       line 7 of the script
  night.plan:1:10: error: ..    line 1, column 10; the line follows, with a caret below the column
  night.plan:7: hint: ..        what to do
  night.plan:9: warning: no component names sub 3
With --explain the explanation of a refusal is on standard output, behind its line; --quiet leaves
all of this out.

With --from the plan takes over from what is on air: its code begins with the configuration of the
items of NOW, a script or a schedule of which nothing else is looked at. A schedule goes from there
straight to what is due; a script of steps first to its own items, by one reconfiguration, and then
does its steps. The lines of NOW's refusals begin with its path; 'refused: another ensemble': NOW
has another EId or transmission mode.

OUT is written last, and as a whole: where the script is refused, or OUT can't be written, it stays
as it was. A file that is there keeps its owner, permissions and links. '-' is standard output, and
the lines then go to standard error.

Example: a lower rate at night
  dabplan compile examples/any_hour.plan night.code
  dabplan verify night.code

Example: the plan that leads from one configuration to another
  dabplan diff examples/contact_rate.plan examples/on_air.plan | dabplan compile - change.code

Exit status:
  0  OUT holds the code file
  1  the script is refused, or a file can't be read or written
  2  the command line is wrong",
};

/// Reads the arguments of `compile`.
pub(crate) fn request<'a>(values: &Values<'a>) -> Result<Request<'a>, UsageError<'a>> {
    let compile = CompileRequest {
        script: values.text("script"),
        out: values.text("out"),
        explanation: explanation(values),
    };
    match values.some_text("from") {
        None => Ok(Request::Compile(compile)),
        Some("-") => Err(UsageError::Value {
            option: "--from <NOW>",
            value: "-",
            reason: "NOW is read from a file",
        }),
        Some(on_air) => Ok(Request::CompileFrom(CompileFromRequest {
            script: compile.script,
            out: compile.out,
            on_air,
            explanation: compile.explanation,
        })),
    }
}
