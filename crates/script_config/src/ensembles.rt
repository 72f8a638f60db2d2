//! The EId that a stream of FIBs signals (EN 300 401 clause 6.4).

ghost use Rattle.std.specs.Prelude.{◌≡◌};
ghost use Rattle.script_config.specs.Ensembles.{named_by_entries, named_by_figs, NamesAfter};

use fib_reader::{Entries, Figs, check};

/// The last EId in the entries of one FIG; if there is none, the previous one.
fn eid_of_entries(mut entries: Entries<'_>, before: Option<u16>) -> Option<u16>
    ensures { result ≡ named_by_entries entries.entry before }
{
    let mut eid = before;
    while let Some(entry) = entries.next() {
        if entry.is_ensemble() {
            eid = Some(entry.ensemble().eid());
        }
    }
    eid
}

/// The last EId in FIGs; if there is none, the previous one.
fn eid_of_figs(mut figs: Figs<'_>, before: Option<u16>) -> Option<u16>
    ensures { result ≡ named_by_figs figs.entry before }
{
    let mut eid = before;
    while let Some(fig) = figs.next() {
        eid = eid_of_entries(fig.entries(), eid);
    }
    eid
}

/// The EId of the last FIG 0/0 for this ensemble (OE 0) in FIBs; if there is none, the previous
/// one. Damaged FIBs are skipped.
pub fn eid_after(fibs: &[[u8; 32]], before: Option<u16>) -> Option<u16>
    ensures { NamesAfter fibs.now before result }
{
    let mut eid = before;
    for fib in fibs {
        if let Ok(figs) = check(fib) {
            eid = eid_of_figs(figs, eid);
        }
    }
    eid
}
