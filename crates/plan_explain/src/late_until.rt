//! `until` directly behind `wait contact`: the wait for the time begins only once the contact has
//! its level.

ghost use Rattle.std.specs.Prelude.{◌≡◌};
ghost use Rattle.plan_explain.specs.LateUntils.{contact_wait};

use crate::straight::ContactWait;
use plan_code::ContactId;
use script_front::{Act, Moment};

/// An `until` directly behind a `wait contact` in one block: the plan waits for both, one after the
/// other.
#[derive(Clone, Copy, PartialEq, Eq)]
pub struct LateUntil {
    /// The line of `until`.
    pub line: u16,
    /// The contact.
    pub contact: ContactId,
    /// Whether the plan waits until it is closed, or else until it is open.
    pub closed: bool,
    /// The moment of the day.
    pub until: Moment,
}

/// The wait for a contact that an act is.
pub(crate) fn contact_wait(act: &Act) -> Option<ContactWait>
    ensures { result ≡ contact_wait act.now }
{
    match act {
        Act::WaitContact { contact, closed } => Some(ContactWait {
            contact: *contact,
            closed: *closed,
        }),
        _ => None,
    }
}
