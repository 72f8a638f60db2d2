//! Ways through the code of a state.

use crate::terms::Known;
use plan_code::{ContactId, DayFrame, Instr};

/// A way through the code of a state: the decision that is next, and what is known there.
#[derive(Clone, Copy, Debug, PartialEq, Eq)]
pub(crate) struct Way {
    pub(crate) node: u16,
    /// The state that is on air.
    pub(crate) current: u16,
    /// The state whose configuration the next one is.
    pub(crate) next: u16,
    pub(crate) known: Known,
    /// The frame of the day in which what is known of the time ends; None where nothing is known.
    pub(crate) until: Option<DayFrame>,
}

impl Way {
    /// The way on to another decision, once a contact is known to be closed, or open.
    pub(crate) fn knowing(&self, contact: ContactId, closed: bool, node: u16) -> Way {
        Way {
            node,
            current: self.current,
            next: self.next,
            known: self.known.with(contact, closed),
            until: self.until,
        }
    }

    /// The way on to another decision, in a window that ends in this frame of the day.
    pub(crate) fn within(&self, end: DayFrame, node: u16) -> Way {
        Way {
            node,
            current: self.current,
            next: self.next,
            known: self.known,
            until: Some(end),
        }
    }

    /// The way on to another decision, outside a window that begins in this frame of the day: until
    /// then, if nothing is known of the time.
    pub(crate) fn outside(&self, begin: DayFrame, node: u16) -> Way {
        Way {
            node,
            current: self.current,
            next: self.next,
            known: self.known,
            until: Some(self.until.unwrap_or(begin)),
        }
    }

    /// The same way once the next configuration is that of another state.
    pub(crate) fn editing(&self, next: u16) -> Way {
        Way {
            node: self.node,
            current: self.current,
            next,
            known: self.known,
            until: self.until,
        }
    }
}

/// The instruction with another target.
pub(crate) fn with_target(instr: Instr, target: u16) -> Instr {
    match instr {
        Instr::Test { contact, .. } => Instr::Test { contact, target },
        Instr::TestTime { from, to, .. } => Instr::TestTime { from, to, target },
        Instr::Jump(_) => Instr::Jump(target),
        other => other,
    }
}
