//! Sets of counters and of contacts, as bit sets.

ghost use Rattle.std.specs.Prelude.{⊤, ◌≡◌, ◌<◌, ◌↔◌, IsTrue, [], ◌∷◌, codes};
ghost use Rattle.plan_code.specs.Flags.{is_set, is_closed, with_counter, without_counter};
ghost use Rattle.plan_code.specs.Flags.{with_contact, any_closed, any_open, Includes};

use crate::numbers::{ContactId, CounterId};
use bitflags::{Flag, Flags, bitflag_items};

/// A set of counters: bit `r` is set where counter `r` is in it.
#[derive(Clone, Copy, Debug, PartialEq, Eq)]
pub struct Counters(pub u8);

bitflag_items! {
    impl Counters: u8 {
        const COUNTER_0 = 1;
        const COUNTER_1 = 2;
        const COUNTER_2 = 4;
        const COUNTER_3 = 8;
        const COUNTER_4 = 16;
        const COUNTER_5 = 32;
        const COUNTER_6 = 64;
        const COUNTER_7 = 128;
    }
}

impl Flags for Counters {
    type Bits = u8;

    ghost exact = { ⊤ };

    ghost table = { (codes "COUNTER_0", 1) ∷ (codes "COUNTER_1", 2)
        ∷ (codes "COUNTER_2", 4) ∷ (codes "COUNTER_3", 8)
        ∷ (codes "COUNTER_4", 16) ∷ (codes "COUNTER_5", 32)
        ∷ (codes "COUNTER_6", 64) ∷ (codes "COUNTER_7", 128) ∷ [] };

    ghost set_of = { λ s. s.0 };

    fn flags<'a>() -> &'a [Flag<Counters>] {
        Counters::FLAGS
    }

    fn bits(&self) -> u8 {
        self.0
    }

    fn from_bits_retain(bits: u8) -> Counters {
        Counters(bits)
    }
}

impl Counters {
    /// Whether the counter is in the set.
    pub fn has(self, counter: CounterId) -> bool
        ensures { result ≡ is_set self counter }
    {
        (self.0 >> counter.get()) & 1 == 1
    }

    /// The set with the counter.
    pub fn with(self, counter: CounterId) -> Counters
        ensures value { result ≡ with_counter counter self }
    {
        Counters(self.0 | (1 << counter.get()))
    }

    /// The set without the counter.
    pub fn without(self, counter: CounterId) -> Counters
        ensures value { result ≡ without_counter counter self }
    {
        Counters(self.0 & !(1 << counter.get()))
    }

    /// Whether every counter of the other set is in this one.
    pub fn includes(self, other: Counters) -> bool
        ensures { IsTrue result ↔ Includes self other }
    {
        self.contains(other)
    }
}

/// A set of contacts: bit `c` is set where contact `c` is in it. The contacts of a player are those
/// that are closed.
#[derive(Clone, Copy, Debug, PartialEq, Eq)]
pub struct Contacts(pub u16);

bitflag_items! {
    impl Contacts: u16 {
        const CONTACT_0 = 1;
        const CONTACT_1 = 2;
        const CONTACT_2 = 4;
        const CONTACT_3 = 8;
        const CONTACT_4 = 16;
        const CONTACT_5 = 32;
        const CONTACT_6 = 64;
        const CONTACT_7 = 128;
        const CONTACT_8 = 256;
        const CONTACT_9 = 512;
        const CONTACT_10 = 1024;
        const CONTACT_11 = 2048;
        const CONTACT_12 = 4096;
        const CONTACT_13 = 8192;
        const CONTACT_14 = 16384;
        const CONTACT_15 = 32768;
    }
}

impl Flags for Contacts {
    type Bits = u16;

    ghost exact = { ⊤ };

    ghost table = { (codes "CONTACT_0", 1) ∷ (codes "CONTACT_1", 2)
        ∷ (codes "CONTACT_2", 4) ∷ (codes "CONTACT_3", 8)
        ∷ (codes "CONTACT_4", 16) ∷ (codes "CONTACT_5", 32)
        ∷ (codes "CONTACT_6", 64) ∷ (codes "CONTACT_7", 128)
        ∷ (codes "CONTACT_8", 256) ∷ (codes "CONTACT_9", 512)
        ∷ (codes "CONTACT_10", 1024) ∷ (codes "CONTACT_11", 2048)
        ∷ (codes "CONTACT_12", 4096) ∷ (codes "CONTACT_13", 8192)
        ∷ (codes "CONTACT_14", 16384) ∷ (codes "CONTACT_15", 32768) ∷ [] };

    ghost set_of = { λ s. s.0 };

    fn flags<'a>() -> &'a [Flag<Contacts>] {
        Contacts::FLAGS
    }

    fn bits(&self) -> u16 {
        self.0
    }

    fn from_bits_retain(bits: u16) -> Contacts {
        Contacts(bits)
    }
}

impl Contacts {
    /// Whether the contact is closed.
    pub fn is_closed(self, contact: ContactId) -> bool
        ensures { result ≡ is_closed self contact }
    {
        (self.0 >> contact.get()) & 1 == 1
    }

    /// Whether one of the contacts of the set is closed.
    pub fn any_closed(self, set: Contacts) -> bool
        ensures { result ≡ any_closed set self }
    {
        set.intersects(self)
    }

    /// Whether one of the contacts of the set is open.
    pub fn any_open(self, set: Contacts) -> bool
        ensures { result ≡ any_open set self }
    {
        !self.contains(set)
    }

    /// The contacts with this one closed or open, and the others unchanged.
    pub fn with(self, contact: ContactId, closed: bool) -> Contacts
        ensures value { result ≡ with_contact contact closed self }
    {
        if closed {
            Contacts(self.0 | (1 << contact.get()))
        } else {
            Contacts(self.0 & !(1 << contact.get()))
        }
    }
}
