//! The steps that a line lists.

ghost use Rattle.std.specs.Prelude.{◌≡◌, ◌≢◌, ◌≤◌, length, IfOk, IfErr};
ghost use Rattle.plan_session.specs.declared.event_fault.EventFault.TheVariants.{Memory as NoMemory};
ghost use Rattle.plan_live.specs.declared.line.Unread.TheVariants.{Memory};
ghost use Rattle.plan_live.specs.Lines.{LineHolds, ListsNone};

use crate::message::LineFault;
use plan_session::{EventFault, Step, read_events};
use std::alloc::Global;
use std::str;

/// Why the steps of a line can't be read.
#[derive(Clone, Copy)]
pub(crate) enum Unread {
    /// The line lists none.
    Bad(LineFault),
    /// Out of memory.
    Memory,
}

/// The fault of a line, given the fault of the event file that it forms.
fn fault_of(fault: EventFault) -> Unread
    ensures { fault ≡ NoMemory → result ≡ Memory }
{
    match fault {
        EventFault::Byte(position) => Unread::Bad(LineFault::Byte(position.column)),
        EventFault::Number(position) => Unread::Bad(LineFault::Number(position.column)),
        EventFault::Expected(position) => Unread::Bad(LineFault::Expected(position.column)),
        EventFault::Memory => Unread::Memory,
    }
}

/// The steps of a line; a line is an event file of its own.
pub(crate) fn steps_of_line(alloc: Global, line: &[u8]) -> Result<Vec<Step>, Unread>
    requires { length line.now ≤ 65536 }
    ensures found { IfOk result (λ steps. LineHolds line.now steps.items) }
    ensures none { IfErr result (λ unread. unread ≢ Memory → ListsNone line.now) }
{
    let text = match str::from_utf8(line) {
        Ok(text) => text,
        Err(_) => return Err(Unread::Bad(LineFault::NoText)),
    };
    match read_events(alloc, text) {
        Ok(steps) => Ok(steps),
        Err(fault) => Err(fault_of(fault)),
    }
}
