//! Decodes the announcement of a frame.

ghost use Rattle.std.specs.Prelude.{◌≡◌, Some, None, List, ◌∷◌, false};
ghost use Rattle.std.specs.List.{AllByRecursion};
ghost use Rattle.mux_types.specs.Entries.{EnsembleInformation};
ghost use Rattle.mux_types.specs.Facts.{marked};
ghost use Rattle.mux_types.specs.declared.entry.Entry.TheVariants.{Ensemble as EnsembleOf};
ghost use Rattle.fib_codec.specs.Grammar.{Fig, IsFib};
ghost use Rattle.fib_codec.specs.Heard.{IsInFig};
ghost use Rattle.plan_code.specs.declared.plan.Plan.{Plan};
ghost use Rattle.plan_code.specs.Machine.{State};
ghost use Rattle.plan_runs.specs.RightBytes.{IsNoHeader, IsRight};
ghost use Rattle.fib_codec.specs.Ranges.{IsEnsembleInformation};
ghost use Rattle.fib_reader.specs.Raw.{raw_entry};
ghost use Rattle.plan_debug.specs.Announcements.{announced_by, shown_announcement};

use crate::announcement::Announcement;
use fib_codec::{Extension, FibFrame};
use fib_reader::{RawEntry, check};
use mux_config::{Ensemble, Entry};

/// The announcement of ensemble information; `None` if it has no change flag.
fn announcement_of(ensemble: Ensemble) -> Option<Announcement>
    ensures { result ≡ announced_by (Some ensemble) }
{
    let occurrence = ensemble.occurrence()?;
    if ensemble.change() == 0 {
        return None;
    }
    Some(Announcement {
        count: ensemble.count(),
        occurrence,
        change: ensemble.change(),
    })
}

/// The announcement of an entry.
fn announcement_of_entry(entry: &RawEntry) -> Option<Announcement>
    ensures { (e : EnsembleInformation) → entry.now ≡ raw_entry (EnsembleOf e)
        → IsEnsembleInformation e → result ≡ announced_by (Some e) }
{
    match entry.value() {
        Entry::Ensemble(ensemble) => announcement_of(ensemble),
        Entry::Sub(_) => None,
        Entry::Short(_) => None,
        Entry::Service(_) => None,
        Entry::Packet(_) => None,
    }
}

/// The announcement in the first FIG of a FIB.
fn announcement_in_fib(fib: &[u8; 32]) -> Option<Announcement>
    ensures headed { (header : Fig) (others : List Fig) (e : EnsembleInformation)
        → IsFib fib.now (header ∷ others) → IsInFig header (marked false (EnsembleOf e))
        → result ≡ announced_by (Some e) }
    ensures unheaded { (figs : List Fig) → IsFib fib.now figs → AllByRecursion IsNoHeader figs
        → result ≡ None }
{
    let mut figs = match check(fib) {
        Ok(figs) => figs,
        Err(_damaged) => return None,
    };
    let first = figs.next()?;
    let head = first.head()?;
    if head.ext != Extension::Ensemble.number() {
        return None;
    }
    let entry = first.entries().next()?;
    announcement_of_entry(&entry)
}

/// The announcement of a frame.
pub(crate) fn announcement_in(frame: &FibFrame) -> Option<Announcement>
    ensures { (plan : Plan) (s : State) → IsRight plan s frame.now
        → result ≡ shown_announcement plan s }
{
    let fib = frame.fib(0)?;
    announcement_in_fib(fib)
}
