//! The start of a playback: CIF count, frame of the day and contacts of the first frame.

ghost use Rattle.std.specs.Prelude.{◌≡◌};

use plan_code::Contacts;
use plan_player::Start;
use plan_verifier::Verified;

/// The start of a playback, which the code does not define.
#[derive(Clone, Copy, Debug, PartialEq, Eq)]
pub struct StartOptions {
    /// The CIF count of the first frame; a code can be started at 0 to 4,999.
    pub count: u16,
    /// The frame of the day of the first frame; a code can be started at 0 to 3,599,999.
    pub day: u32,
    /// The contacts that are closed at the start.
    pub contacts: Contacts,
}

/// The start of a player of this code: in the ensemble of its plan.
pub fn start_with(code: &Verified, start: StartOptions) -> Start
    ensures { result ≡ record {
      eid = code.now.plan.eid;
      count = start.count;
      day = start.day;
      contacts = start.contacts;
    } }
{
    Start {
        eid: code.code().plan().eid,
        count: start.count,
        day: start.day,
        contacts: start.contacts,
    }
}
