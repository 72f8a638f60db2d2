//! The instructions of waits with alternatives and of conditions.

ghost use Rattle.std.specs.Prelude.{◌≡◌, true, false};
ghost use Rattle.script_compiler.specs.Alternatives.{with_level, with_alternative, contacts_in};
ghost use Rattle.script_compiler.specs.Alternatives.{moment_in, frames_in, test_of};
ghost use Rattle.plan_code.specs.declared.instr.Instr.TheVariants.{WaitAny};

use plan_code::{ContactId, Contacts, DayFrame, Frames, Instr};
use script_front::{Alternative, Condition};

/// The instruction of a wait with these alternatives.
pub fn wait_any(alternatives: &[Alternative]) -> Instr
    ensures { result ≡ WaitAny (contacts_in true alternatives.now) (contacts_in false
        alternatives.now) (moment_in alternatives.now) (frames_in alternatives.now) }
{
    Instr::WaitAny {
        closed: contacts_of(alternatives, true),
        opened: contacts_of(alternatives, false),
        until: moment_of(alternatives),
        frames: frames_of(alternatives),
    }
}

/// The instruction that tests a condition and jumps to the target where it does not hold.
pub fn test_of(condition: Condition, target: u16) -> Instr
    ensures { result ≡ test_of condition target }
{
    match condition {
        Condition::Contact(contact) => Instr::Test { contact, target },
        Condition::Time { from, to } => Instr::TestTime {
            from: from.frame(),
            to: to.frame(),
            target,
        },
    }
}

/// The contacts that are to be closed in one of these alternatives, or open.
fn contacts_of(alternatives: &[Alternative], closed: bool) -> Contacts
    ensures { result ≡ contacts_in closed alternatives.now }
{
    let mut set = Contacts(0);
    for alternative in alternatives {
        set = with_alternative(set, *alternative, closed);
    }
    set
}

/// The set with the contact of an alternative, if there it is to be closed, or open.
fn with_alternative(set: Contacts, alternative: Alternative, closed: bool) -> Contacts
    ensures { result ≡ with_alternative closed alternative set }
{
    match alternative {
        Alternative::Contact {
            contact,
            closed: level,
        } => with_level(set, contact, closed, level),
        Alternative::Until(_) | Alternative::Frames(_) => set,
    }
}

fn with_level(set: Contacts, contact: ContactId, closed: bool, level: bool) -> Contacts
    ensures { result ≡ with_level closed level contact set }
{
    if closed == level {
        set.with(contact, true)
    } else {
        set
    }
}

/// The frame of the day of the moment among these alternatives, if there is one.
fn moment_of(alternatives: &[Alternative]) -> Option<DayFrame>
    ensures { result ≡ moment_in alternatives.now }
{
    for alternative in alternatives {
        if let Alternative::Until(moment) = alternative {
            return Some(moment.frame());
        }
    }
    None
}

/// The number of frames among these alternatives, if there is one.
fn frames_of(alternatives: &[Alternative]) -> Option<Frames>
    ensures { result ≡ frames_in alternatives.now }
{
    for alternative in alternatives {
        if let Alternative::Frames(frames) = alternative {
            return Some(*frames);
        }
    }
    None
}
