//! Findings in a stream: events and faults, each with its frame.

use crate::contradiction::Contradiction;

/// The name of an entry of FIG 0/1 to 0/3: its kind and identifier.
#[derive(Clone, Copy, Debug, PartialEq, Eq)]
pub enum EntryName {
    /// A sub-channel, by its SubChId, 0 to 63.
    Sub(u64),
    /// A service, by its SId of 16 bits.
    Service(u64),
    /// A service, by its SId of 32 bits.
    LongService(u64),
    /// A packet component, by its SCId, 0 to 4095.
    Packet(u64),
}

/// What happens in a valid stream.
#[derive(Clone, Copy, Debug, PartialEq, Eq)]
pub enum StreamEvent {
    /// The ensemble of the stream, by its EId.
    Ensemble(u16),
    /// A reconfiguration is announced: its change flags, 1 to 3, and the low part of the CIF count
    /// of its swap.
    Announced(u8, u8),
    /// The next configuration becomes the current one.
    Swap,
}

/// What a stream gets wrong.
#[derive(Clone, Copy, Debug, PartialEq, Eq)]
pub enum Fault {
    /// A frame has this many FIBs, fewer than the mode requires.
    ShortFrame(u64),
    /// This many of the frame's FIBs are damaged.
    Damaged(u64),
    /// The frame should begin with a FIG 0/0.
    NoEnsemble,
    /// The EId differs from the last one.
    OtherEnsemble(u16),
    /// The CIF count differs from the one that was due, which is given.
    Count(u16),
    /// A FIG 0/0 is not the first FIG of its frame, or its count is not a multiple of the mode's
    /// step.
    OutOfPlace,
    /// A swap is awaited, and other change flags or another occurrence change, which are given, are
    /// sent.
    AnnouncedAgain(u8, u8),
    /// An occurrence change at which no swap can fall.
    NoSwapAt(u8),
    /// Entries of the next configuration are sent without change flags.
    NextUnannounced,
    /// An entry of the current configuration has changed.
    Changed(EntryName),
    /// An entry of the next configuration has changed.
    NextChanged(EntryName),
    /// An entry that was not in the current configuration.
    Appeared(EntryName),
    /// The low part of the CIF count for which a swap was announced that falls on another count.
    AnnouncedFor(u8),
    /// A swap comes after only this many flagged FIG 0/0.
    AnnouncedTimes(u64),
    /// A swap comes after the next configuration could be read only this many times.
    NextHeard(u64),
    /// The change flags of an announcement, and different ones that the configurations require.
    Flags(u8, u8),
    /// Two sub-channels of the next configuration share a capacity unit.
    Overlap(u64, u64),
    /// A sub-channel of the next configuration ends past the 864 capacity units.
    PastEnd(u64),
    /// An entry of the current configuration has not been heard for too long.
    Silent(EntryName),
    /// A FIG names what is not in the current configuration, or is not whole entries.
    Contradicts(Contradiction),
}

/// An event or a fault.
#[derive(Clone, Copy, Debug, PartialEq, Eq)]
pub enum What {
    /// An event.
    Event(StreamEvent),
    /// A fault.
    Fault(Fault),
}

/// A finding and its frame.
#[derive(Clone, Copy, Debug, PartialEq, Eq)]
pub struct Finding {
    /// The number of the frame, from 0.
    pub frame: u64,
    /// The CIF count of the frame, 0 to 4999.
    pub count: u16,
    /// The finding.
    pub what: What,
}

impl Default for Finding {
    /// A swap in frame 0. It fills the unused slots of an array.
    fn default() -> Finding {
        Finding {
            frame: 0,
            count: 0,
            what: What::Event(StreamEvent::Swap),
        }
    }
}
