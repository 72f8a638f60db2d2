//! `dabplan help CAUSE`: what a cause means for which a script or a plan is refused, as
//! docs/guide/SCRIPTS.md has it.

use Cause::{Code, Fault, Plan};
use console::exit::Status;
use std::convert::AsStr;
use std::io::{self, Write};

/// Why a script or a plan is refused.
#[derive(Clone, Copy)]
enum Cause {
    /// A fault of a text: how it is printed in a refusal, and when it comes.
    Fault(&'static str, &'static str),
    /// A cause for which codes alone are refused, never scripts: its name, when it comes, and what
    /// to do about it.
    Code(&'static str, &'static str, &'static str),
    /// A cause for which plans are refused: how it is printed in a refusal, when it comes, what to
    /// do about it, and the name of a script in examples/refused that is refused for it.
    Plan(&'static str, &'static str, &'static str, &'static str),
}

/// The faults of texts, and the causes for which plans are refused.
const CAUSES: [Cause; 32] = [
    Fault(
        "Byte",
        "a byte outside comments that is not allowed in a script",
    ),
    Fault(
        "Number",
        "an atom that is not a value in its range where one is expected",
    ),
    Fault(
        "Expected",
        "\
any other invalid token, or the end of the text; also a name that is ill formed or a
keyword of the grammar",
    ),
    Fault(
        "Depth",
        "a brace that would be nested more than 16 deep, where a brace is allowed",
    ),
    Fault("NameUsed", "a second definition of a name, at the name"),
    Fault(
        "NameUnknown",
        "'apply' of a name that is not defined before, at the name",
    ),
    Fault(
        "Limit",
        "\
a text too long, at 1:1; an atom too long or a token on a line too far, at the
token; the 65th 'define', or the 8,193rd item or statement, at its first token",
    ),
    Plan(
        "Edit IdUsed",
        "\
the sub-channel, service or packet component exists already, or the service has such
a component",
        "drop it first, or take another number",
        "id_used",
    ),
    Plan(
        "Edit IdAbsent",
        "\
the object of the edit is not in the next configuration: never added, or dropped
before",
        "look for the 'drop' above, also at the end of the loop",
        "id_absent",
    ),
    Plan(
        "Edit TooManyComponents",
        "a 13th component of a service with four digits, a 12th of one with eight",
        "spread them over two services",
        "too_many_components",
    ),
    Plan(
        "Edit TableFull",
        "a 65th service or packet component",
        "drop one first",
        "table_full",
    ),
    Plan(
        "Edit PastEnd",
        "the sub-channel would end past CU 863",
        "a lower start or rate; 'move' before 'rate' where both change",
        "past_end",
    ),
    Plan(
        "Edit BadRate",
        "\
no size has this rate: not a multiple of 8 kbit/s (set A) or 32 (set B), zero, or
more than 864 CU",
        "PROTECTION.md",
        "bad_rate",
    ),
    Plan(
        "Edit BadAddress",
        "a packet address that is not 1 to 1023",
        "another address",
        "bad_address",
    ),
    Plan(
        "Config Overlap A B",
        "at this commit, or at 'begin', sub-channels A and B share a capacity unit",
        "move one, or lower a rate",
        "overlap",
    ),
    Plan(
        "Config Orphan",
        "\
a component refers to a missing sub-channel or packet component, or a packet
component to a missing sub-channel",
        "drop the component before what carries it, or add what is missing",
        "orphan",
    ),
    Plan(
        "Config AddressUsed",
        "two packet components of one sub-channel have the same address",
        "another address",
        "address_used",
    ),
    Plan(
        "Config EmptyService",
        "a service without components",
        "add one, or 'drop service'",
        "empty_service",
    ),
    Plan(
        "Pending",
        "\
an edit or a commit while a swap may still be pending: the next configuration is
announced and can't change",
        "'join' first; 'settle' if the swap may have happened already",
        "pending",
    ),
    Plan(
        "NoChange",
        "the commit would change nothing",
        "leave it out",
        "no_change",
    ),
    Plan(
        "Notice",
        "'commit in K' with K below the notice",
        "K at least the notice; 250 with a notice of 240",
        "notice",
    ),
    Plan(
        "Count",
        "\
'commit at COUNT' with a count of 5000 or more, or one on which no swap falls: they
are multiples of 4 in mode I, of 2 in mode IV",
        "a multiple of the mode's step",
        "count",
    ),
    Plan(
        "JoinIdle",
        "'join' without a pending swap on some path to it",
        "leave it out, or 'settle'",
        "join_idle",
    ),
    Plan(
        "SwapUncertain",
        "the 'wait' ends before or after the swap, depending on the count",
        "a shorter wait, or three frames longer; or 'join'",
        "swap_uncertain",
    ),
    Plan(
        "Mismatch",
        "\
two paths meet with different configurations or pending swaps: a loop that does not
restore the state at its beginning, an 'if' whose branches differ",
        "undo in the loop what it did; commit and join in both branches",
        "mismatch",
    ),
    Plan(
        "Cost",
        "\
more instructions than the budget could run in one frame; a loop without a wait has
no bound",
        "a 'wait 1' between, or a larger budget",
        "cost",
    ),
    Plan(
        "Round",
        "the entries do not fit in the period, or not three times in the notice",
        "\
a longer period; a notice of three times the pages of both configurations; fewer
entries; no 'reserve'",
        "round",
    ),
    Plan(
        "Table",
        "the statement is unreachable, as one after 'end' or 'forever'",
        "leave it out",
        "table",
    ),
    Plan(
        "Limit",
        "more than 4,096 instructions, 1,024 labels, 256 configurations or 8 nested repeats",
        "'repeat' instead of copies",
        "limit",
    ),
    Code(
        "Target",
        "the instruction jumps to where no label is",
        "a label there, as docs/design/PLANS.md has it",
    ),
    Code(
        "CounterUnset",
        "the loop's counter may not be set",
        "set it on each path to the loop",
    ),
    Code(
        "FallsOff",
        "the plan does not end with an instruction that ends it",
        "'End' or a jump as the last instruction",
    ),
];

/// What help is asked for: the name of a cause, and the word before it, if it is given.
#[derive(Clone, Copy)]
pub(crate) struct Asked<'a> {
    kind: Option<&'a str>,
    name: &'a str,
}

/// What one argument asks for, as `IdUsed` or `Edit IdUsed`.
fn asked_in(whole: &str) -> Asked<'_> {
    match whole.split_once(' ') {
        None => Asked {
            kind: None,
            name: whole,
        },
        Some((kind, name)) => Asked {
            kind: Some(kind),
            name: without_numbers(name),
        },
    }
}

/// A name without the numbers of `Overlap`.
fn without_numbers(name: &str) -> &str {
    match name.split_once(' ') {
        Some((own, _numbers)) if own.eq_ignore_ascii_case("Overlap") => own,
        _ => name,
    }
}

impl Cause {
    /// Whether it is asked for, in whatever letters: by the first word of how it is printed, behind
    /// `Edit` or `Config`, or by both words.
    fn is_asked(&self, asked: &Asked<'_>) -> bool {
        let (Fault(printed, _) | Code(printed, ..) | Plan(printed, ..)) = self;
        let (kind, named) = match printed.split_once(' ') {
            Some((kind, named)) => (Some(kind), without_numbers(named)),
            None => (None, *printed),
        };
        let is_kind = match (asked.kind, kind) {
            (None, _) => true,
            (Some(asked), Some(own)) => asked.eq_ignore_ascii_case(own),
            (Some(_), None) => false,
        };
        is_kind && named.eq_ignore_ascii_case(asked.name)
    }
}

/// The cause that these arguments ask for help on, `help CAUSE`, as one argument or as the words of
/// which it consists; `None` if they ask for something else.
pub(crate) fn cause_asked<S: AsStr>(args: &[S]) -> Option<Asked<'_>> {
    let (command, words) = args.split_first()?;
    let asked = match words {
        [whole] => asked_in(whole.as_str()),
        [kind, name] => Asked {
            kind: Some(kind.as_str()),
            name: name.as_str(),
        },
        [kind, name, _one, _other] if name.as_str().eq_ignore_ascii_case("Overlap") => Asked {
            kind: Some(kind.as_str()),
            name: name.as_str(),
        },
        _ => return None,
    };
    if command.as_str() == "help" && CAUSES.iter().any(|cause| cause.is_asked(&asked)) {
        return Some(asked);
    }
    None
}

/// Prints the page of each cause that is asked for.
pub(crate) fn print_causes<W: Write>(asked: &Asked<'_>, out: &mut W) -> io::Result<Status> {
    let mut is_first = true;
    for cause in &CAUSES {
        if cause.is_asked(asked) {
            if !is_first {
                writeln!(out)?;
            }
            print_page(cause, out)?;
            is_first = false;
        }
    }
    Ok(Status::Done)
}

/// Prints the page of a cause.
fn print_page<W: Write>(cause: &Cause, out: &mut W) -> io::Result<()> {
    match cause {
        Fault(printed, meaning) => {
            writeln!(out, "LINE:COLUMN: {printed}")?;
            print_lines(meaning, out)
        }
        Code(printed, meaning, advice) => {
            writeln!(out, "refused at PC line L: {printed}")?;
            print_lines(meaning, out)?;
            writeln!(out, "What to do:")?;
            print_lines(advice, out)
        }
        Plan(printed, meaning, advice, script) => {
            writeln!(out, "refused line L: {printed}")?;
            print_lines(meaning, out)?;
            writeln!(out, "What to do:")?;
            print_lines(advice, out)?;
            writeln!(out, "Example:")?;
            write!(out, "  dabplan compile examples/refused/{script}.plan ")?;
            writeln!(out, "refused.code --explain")
        }
    }
}

/// Prints lines, two blanks before each.
fn print_lines<W: Write>(text: &str, out: &mut W) -> io::Result<()> {
    for line in text.lines() {
        writeln!(out, "  {line}")?;
    }
    Ok(())
}
