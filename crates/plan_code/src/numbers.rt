//! Operands of instructions that are within their range by their type.

ghost use Rattle.std.specs.Prelude.{◌≡◌, ◌<◌, ◌≤◌, ◌↔◌, IsSome, IfSome};

use crate::limits::{CONTACTS, COUNTERS, FRAMES_A_DAY, LONGEST_DELAY};
use std::marker::Model;

/// The number of a contact, 0 to 15.
#[derive(Clone, Copy, Debug, PartialEq, Eq, PartialOrd, Ord)]
pub struct ContactId {
    id: u8,
}

impl Model for ContactId {
    ghost use Rattle.std.specs.Prelude.{ℕ, ◌<◌};
    ghost use Rattle.plan_code.specs.declared.limits.TheConstants.{CONTACTS};

    ghost Value = { ℕ };

    ghost view = { λ c. c.id };

    ghost invariant = { λ c. c.id < CONTACTS };

    ghost inverse = { λ n. record { id = n } };
}

impl ContactId {
    /// The contact with this number; None where it is above 15.
    pub fn new(id: u8) -> Option<ContactId>
        ensures in_range { IsSome result ↔ (id < CONTACTS) }
        ensures value { IfSome result (λ c. c ≡ id) }
    {
        if id < CONTACTS {
            Some(ContactId { id })
        } else {
            None
        }
    }

    /// Its number, 0 to 15.
    pub fn get(self) -> u8
        ensures value { result ≡ self }
        ensures in_range { result < CONTACTS }
    {
        self.id
    }
}

/// The number of a counter, 0 to 7.
#[derive(Clone, Copy, Debug, PartialEq, Eq, PartialOrd, Ord)]
pub struct CounterId {
    id: u8,
}

impl Model for CounterId {
    ghost use Rattle.std.specs.Prelude.{ℕ, ◌<◌};
    ghost use Rattle.plan_code.specs.declared.limits.TheConstants.{COUNTERS};

    ghost Value = { ℕ };

    ghost view = { λ c. c.id };

    ghost invariant = { λ c. c.id < COUNTERS };

    ghost inverse = { λ n. record { id = n } };
}

impl CounterId {
    /// The counter with this number; None where it is above 7.
    pub fn new(id: u8) -> Option<CounterId>
        ensures in_range { IsSome result ↔ (id < COUNTERS) }
        ensures value { IfSome result (λ c. c ≡ id) }
    {
        if id < COUNTERS {
            Some(CounterId { id })
        } else {
            None
        }
    }

    /// Its number, 0 to 7.
    pub fn get(self) -> u8
        ensures value { result ≡ self }
        ensures in_range { result < COUNTERS }
    {
        self.id
    }
}

/// A number of frames to wait, 1 to 65,535.
#[derive(Clone, Copy, Debug, PartialEq, Eq, PartialOrd, Ord)]
pub struct Frames {
    frames: u16,
}

impl Model for Frames {
    ghost use Rattle.std.specs.Prelude.{ℕ, ◌≤◌};

    ghost Value = { ℕ };

    ghost view = { λ f. f.frames };

    ghost invariant = { λ f. 1 ≤ f.frames };

    ghost inverse = { λ n. record { frames = n } };
}

impl Frames {
    /// This many frames; None for 0.
    pub fn new(frames: u16) -> Option<Frames>
        ensures in_range { IsSome result ↔ (1 ≤ frames) }
        ensures value { IfSome result (λ f. f ≡ frames) }
    {
        if frames >= 1 {
            Some(Frames { frames })
        } else {
            None
        }
    }

    /// The number of frames, 1 to 65,535.
    pub fn get(self) -> u16
        ensures value { result ≡ self }
        ensures in_range { 1 ≤ result }
    {
        self.frames
    }
}

/// How many times the body of a loop runs, 1 to 65,535.
#[derive(Clone, Copy, Debug, PartialEq, Eq, PartialOrd, Ord)]
pub struct Times {
    times: u16,
}

impl Model for Times {
    ghost use Rattle.std.specs.Prelude.{ℕ, ◌≤◌};

    ghost Value = { ℕ };

    ghost view = { λ t. t.times };

    ghost invariant = { λ t. 1 ≤ t.times };

    ghost inverse = { λ n. record { times = n } };
}

impl Times {
    /// This many times; None for 0.
    pub fn new(times: u16) -> Option<Times>
        ensures in_range { IsSome result ↔ (1 ≤ times) }
        ensures value { IfSome result (λ t. t ≡ times) }
    {
        if times >= 1 {
            Some(Times { times })
        } else {
            None
        }
    }

    /// The number of times, 1 to 65,535.
    pub fn get(self) -> u16
        ensures value { result ≡ self }
        ensures in_range { 1 ≤ result }
    {
        self.times
    }
}

/// The minimum number of frames from a commit to its swap, 1 to 60,000.
#[derive(Clone, Copy, Debug, PartialEq, Eq, PartialOrd, Ord)]
pub struct Delay {
    frames: u16,
}

impl Model for Delay {
    ghost use Rattle.std.specs.Prelude.{ℕ, ◌≤◌};
    ghost use Rattle.plan_code.specs.declared.limits.TheConstants.{LONGEST_DELAY};

    ghost Value = { ℕ };

    ghost view = { λ d. d.frames };

    ghost invariant = { λ d. (1 ≤ d.frames) × (d.frames ≤ LONGEST_DELAY) };

    ghost inverse = { λ n. record { frames = n } };
}

impl Delay {
    /// This many frames; None where the number is not 1 to 60,000.
    pub fn new(frames: u16) -> Option<Delay>
        ensures in_range { IsSome result ↔ ((1 ≤ frames) × (frames ≤ LONGEST_DELAY)) }
        ensures value { IfSome result (λ d. d ≡ frames) }
    {
        if frames < 1 {
            return None;
        }
        if frames > LONGEST_DELAY {
            return None;
        }
        Some(Delay { frames })
    }

    /// The number of frames, 1 to 60,000.
    pub fn get(self) -> u16
        ensures value { result ≡ self }
        ensures from_one { 1 ≤ result }
        ensures in_range { result ≤ LONGEST_DELAY }
    {
        self.frames
    }
}

/// A frame of the day, 0 to 3,599,999: a day has 3,600,000 frames of 24 ms.
#[derive(Clone, Copy, Debug, PartialEq, Eq, PartialOrd, Ord)]
pub struct DayFrame {
    frame: u32,
}

impl Model for DayFrame {
    ghost use Rattle.std.specs.Prelude.{ℕ, ◌<◌};
    ghost use Rattle.plan_code.specs.declared.limits.TheConstants.{FRAMES_A_DAY};

    ghost Value = { ℕ };

    ghost view = { λ d. d.frame };

    ghost invariant = { λ d. d.frame < FRAMES_A_DAY };

    ghost inverse = { λ n. record { frame = n } };
}

impl DayFrame {
    /// The frame with this number; None where the number is past the end of the day.
    pub fn new(frame: u32) -> Option<DayFrame>
        ensures in_range { IsSome result ↔ (frame < FRAMES_A_DAY) }
        ensures value { IfSome result (λ d. d ≡ frame) }
    {
        if frame < FRAMES_A_DAY {
            Some(DayFrame { frame })
        } else {
            None
        }
    }

    /// Its number, 0 to 3,599,999.
    pub fn get(self) -> u32
        ensures value { result ≡ self }
        ensures in_range { result < FRAMES_A_DAY }
    {
        self.frame
    }
}
