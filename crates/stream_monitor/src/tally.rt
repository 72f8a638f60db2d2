//! The numbers of swaps and faults found.

ghost use Rattle.std.specs.Prelude.{◌≡◌, ◌+◌, [], if◌then◌else◌};
ghost use Rattle.std.specs.Io.Iter.{u64_saturate};
ghost use Rattle.stream_monitor.specs.Findings.{counted, reports_swap, is_fault};

use stream_check::{Finding, StreamEvent, What};

/// The numbers of swaps and of faults found, each at most 2^64 - 1.
#[derive(Clone, Copy, Debug, PartialEq, Eq)]
pub struct Tally {
    /// The number of swaps.
    pub swaps: u64,
    /// The number of faults.
    pub faults: u64,
}

/// The numbers of swaps and faults where nothing was found.
pub fn no_tally() -> Tally
    ensures { result ≡ record { swaps = 0; faults = 0 } }
{
    Tally {
        swaps: 0,
        faults: 0,
    }
}

/// The numbers with those of more findings.
#[tactic(auto, using(crate::proofs::Counting::saturated_more))]
pub fn counted(start: Tally, findings: &[Finding]) -> Tally
    ensures { result ≡ counted start findings.now }
{
    let mut swaps = start.swaps;
    let mut faults = start.faults;
    let mut rest = findings;
    while let Some((finding, after)) = rest.split_first() {
        swaps = more(swaps, is_swap(finding.what));
        faults = more(faults, is_fault(finding.what));
        rest = after;
    }
    sum_of(swaps, faults)
}

/// These numbers, with nothing more found.
fn sum_of(swaps: u64, faults: u64) -> Tally
    ensures { result ≡ counted (record { swaps = swaps; faults = faults }) [] }
{
    Tally { swaps, faults }
}

/// One more, if there is one, but not more than 2^64 - 1.
fn more(count: u64, is_one: bool) -> u64
    ensures { result ≡ u64_saturate (count + (if is_one then 1 else 0)) }
{
    if is_one {
        count.saturating_add(1)
    } else {
        count
    }
}

/// Whether this is a swap.
fn is_swap(what: What) -> bool
    ensures { result ≡ reports_swap what }
{
    match what {
        What::Event(StreamEvent::Swap) => true,
        What::Event(StreamEvent::Ensemble(_) | StreamEvent::Announced(_, _)) => false,
        What::Fault(_) => false,
    }
}

/// Whether this is a fault.
fn is_fault(what: What) -> bool
    ensures { result ≡ is_fault what }
{
    match what {
        What::Event(_) => false,
        What::Fault(_) => true,
    }
}
