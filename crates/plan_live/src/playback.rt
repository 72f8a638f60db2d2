//! Plays a code file line by line.

ghost use Rattle.std.specs.Prelude.{◌≡◌, [], true, OnOk, IfErr};
ghost use Rattle.plan_player.specs.Playing.{Playing};
ghost use Rattle.plan_session.specs.Playback.{asked_from, Begins};
ghost use Rattle.plan_live.specs.Beginning.{Lives, IsLiveFault};
ghost use Rattle.plan_live.specs.Living.{streams_at, IsPrompt};

use crate::driving::drive;
use crate::ends::Ends;
use crate::fault::LiveFault;
use crate::options::LiveOptions;
use plan_session::{Session, StartOptions};
use std::alloc::Global;

/// Plays the code in a file over the lines of an input as they arrive, from this start. It ends at
/// the end of the input.
///
/// # Errors
///
/// The first of these: `Playback` if the code can't be played from there, with `Code`, `Refused` or
/// `Start`; nothing was read or written then. `Stopped` if the run stops, as in [`drive`].
pub fn live<E: Ends>(
    alloc: Global,
    code: &[u8],
    start: StartOptions,
    options: LiveOptions,
    ends: &mut E,
) -> Result<(), LiveFault>
    requires flushed { E.is_flushed ends.old ≡ true }
    // A typed code and a start in range are played, barring allocation failure for the code.
    ensures played { let at = streams_at E.left E.written in (p : Playing)
        → Begins (asked_from code.now [] start) p
        → Lives options.skip p (at ends.old) (at ends.new) result }
    // Nothing else is played.
    ensures only { OnOk result ((p : Playing) × Begins (asked_from code.now [] start) p) }
    ensures first_fault { let at = streams_at E.left E.written in IfErr result (λ e.
        IsLiveFault (asked_from code.now [] start) (at ends.old) (at ends.new) e) }
    // Each time a line is requested, all lines before it have been processed.
    ensures prompt { let at = streams_at E.left E.written in (p : Playing)
        → Begins (asked_from code.now [] start) p
        → IsPrompt options.skip p (at ends.old) (E.moments ends.old) (E.moments ends.new) }
{
    let session = match Session::new(alloc, code, start) {
        Ok(session) => session,
        Err(fault) => return Err(LiveFault::Playback(fault)),
    };
    let mut player = session.player();
    match drive(alloc, &mut player, options, ends) {
        Ok(()) => Ok(()),
        Err(stop) => Err(LiveFault::Stopped(stop)),
    }
}
