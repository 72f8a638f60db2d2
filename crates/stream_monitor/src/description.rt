//! What a finding is called, and what it is about: said once, for text and for JSON.

use crate::description::Detail::{Ensemble, Entry, Named, Nothing, Number, Subs};
use fig_mentions::Mention;
use stream_check::{Contradiction, EntryName, Fault, StreamEvent};

/// What a finding is about: a word or two of text, and a field or two of JSON.
#[derive(Clone, Copy)]
pub(crate) enum Detail {
    /// Nothing.
    Nothing,
    /// A number, with the name of its field.
    Number(&'static str, u64),
    /// An EId.
    Ensemble(u16),
    /// An entry of FIG 0/1 to 0/3.
    Entry(EntryName),
    /// What an entry of another FIG names.
    Named(Mention),
    /// Two sub-channels.
    Subs(u64, u64),
}

/// How an event or a fault is printed.
#[derive(Clone, Copy)]
pub(crate) struct Description {
    /// Its name in JSON.
    pub(crate) name: &'static str,
    /// Its text before, between and after the details.
    pub(crate) words: [&'static str; 3],
    /// What it is about.
    pub(crate) details: [Detail; 2],
}

/// The description of this name, with these words around one detail.
fn one(name: &'static str, [before, after]: [&'static str; 2], detail: Detail) -> Description {
    two(name, [before, after, ""], [detail, Nothing])
}

/// The description of this name, with these words around two details.
fn two(name: &'static str, words: [&'static str; 3], details: [Detail; 2]) -> Description {
    Description {
        name,
        words,
        details,
    }
}

/// A number of at most 16 bits, with the name of its field.
fn small<N: Into<u16>>(field: &'static str, value: N) -> Detail {
    Number(field, u64::from(value.into()))
}

/// How an event is printed.
pub(crate) fn event(event: StreamEvent) -> Description {
    match event {
        StreamEvent::Ensemble(eid) => one("ensemble", ["ensemble ", ""], Ensemble(eid)),
        StreamEvent::Announced(change, low) => {
            let details = [small("change", change), small("low", low)];
            two("announced", ["announced ", " swap at low ", ""], details)
        }
        StreamEvent::Swap => one("swap", ["swap", ""], Nothing),
    }
}

/// How what a FIG names wrongly is printed.
fn contradiction(contradiction: Contradiction) -> Description {
    match contradiction {
        Contradiction::NotThere(ext, mention) => {
            let details = [small("extension", ext), Named(mention)];
            two(
                "not-there",
                ["FIG 0/", " names ", ", which is not there"],
                details,
            )
        }
        Contradiction::NotWhole(ext) => {
            one(
                "not-whole",
                ["FIG 0/", " is not whole entries"],
                small("extension", ext),
            )
        }
    }
}

/// How a fault is printed.
pub(crate) fn fault(fault: Fault) -> Description {
    match fault {
        Fault::ShortFrame(n) => one("short-frame", ["frame of ", " FIBs"], Number("fibs", n)),
        Fault::Damaged(n) => one("damaged", ["damaged ", ""], Number("fibs", n)),
        Fault::NoEnsemble => one("no-ensemble", ["FIG 0/0 is missing", ""], Nothing),
        Fault::OtherEnsemble(eid) => one("other-ensemble", ["ensemble ", ""], Ensemble(eid)),
        Fault::Count(due) => one("count", ["count: ", " was due"], small("due", due)),
        Fault::OutOfPlace => one("out-of-place", ["FIG 0/0 out of place", ""], Nothing),
        Fault::AnnouncedAgain(change, low) => {
            let details = [small("change", change), small("low", low)];
            two(
                "announced-again",
                ["announced again: ", " at low ", ""],
                details,
            )
        }
        Fault::NoSwapAt(n) => one(
            "no-swap-at",
            ["no swap can fall at low ", ""],
            small("low", n),
        ),
        Fault::NextUnannounced => {
            one(
                "next-unannounced",
                ["next without change flags", ""],
                Nothing,
            )
        }
        Fault::Changed(name) => one("changed", ["changed: ", ""], Entry(name)),
        Fault::NextChanged(name) => one("next-changed", ["next changed: ", ""], Entry(name)),
        Fault::Appeared(name) => one("appeared", ["appeared: ", ""], Entry(name)),
        Fault::AnnouncedFor(n) => one("announced-for", ["announced for low ", ""], small("low", n)),
        Fault::AnnouncedTimes(n) => {
            one(
                "announced-times",
                ["announced ", " times"],
                Number("times", n),
            )
        }
        Fault::NextHeard(n) => one("next-heard", ["next heard ", " times"], Number("times", n)),
        Fault::Flags(change, changes) => {
            let details = [small("change", change), small("changes", changes)];
            two("flags", ["flags ", ", but ", " changes"], details)
        }
        Fault::Overlap(n, m) => one("overlap", ["overlap ", ""], Subs(n, m)),
        Fault::PastEnd(sub) => one("past-end", ["past the end: ", ""], Number("sub", sub)),
        Fault::Silent(name) => one("silent", ["silent: ", ""], Entry(name)),
        Fault::Contradicts(found) => contradiction(found),
    }
}
