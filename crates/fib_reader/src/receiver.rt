//! A receiver's view of the multiplex configuration.

use crate::basis::Basis;
use crate::entries::{Entries, RawEntry};
use crate::figs::Figs;
use crate::picture::Picture;
use mux_config::Ensemble;
use std::marker::Model;
use std::mem;

/// A receiver's view of the multiplex: pictures of the current and of the next configuration, and
/// when a swap is awaited (EN 300 401 clauses 6.4 and 6.5). Until it has heard a FIG 0/0 it keeps
/// no entry.
#[derive(Drop)]
pub(crate) struct Receiver {
    tuned: bool,
    current: Picture,
    next: Picture,
    awaited: Option<u8>,
}

impl Model for Receiver {
    ghost use Rattle.fib_reader.specs.Listening.{Listening};

    ghost Value = { Listening };

    ghost view = { λ l.
        record { tuned = l.tuned; current = l.current; next = l.next; awaited = l.awaited } };
}

impl Receiver {
    ghost use Rattle.std.specs.Prelude.{◌≡◌, true, false, Some, None, IfSome};
    ghost use Rattle.std.specs.List.{AllByRecursion};
    ghost use Rattle.fib_reader.specs.Forecast.{IsKnownTo, LeavesRoom};
    ghost use Rattle.fib_reader.specs.Listening.{untuned, at_ensemble, hear_entry, hear_entries};
    ghost use Rattle.fib_reader.specs.Listening.{hear_figs, swapped};
    ghost use Rattle.fib_reader.specs.Remembering.{IsKnownBy};

    /// A receiver that has heard nothing.
    pub(crate) fn new() -> Receiver
        ensures { result ≡ untuned }
    {
        Receiver {
            tuned: false,
            current: Picture::new(),
            next: Picture::new(),
            awaited: None,
        }
    }

    /// Whether it has heard a FIG 0/0 yet, and so keeps entries.
    pub(crate) fn is_tuned(&self) -> bool
        ensures { result ≡ self.now.tuned }
    {
        self.tuned
    }

    /// What it has heard of the current configuration.
    pub(crate) fn current(&self) -> &Picture
        ensures { result.now ≡ self.now.current }
    {
        &self.current
    }

    /// What it has heard of the next configuration.
    pub(crate) fn next(&self) -> &Picture
        ensures { result.now ≡ self.now.next }
    {
        &self.next
    }

    /// The low part of the CIF count at which a swap is awaited; None if none is.
    pub(crate) fn swap_at(&self) -> Option<u8>
        ensures { result ≡ self.now.awaited }
    {
        self.awaited
    }

    /// Makes the next picture the current one, and empties the next one.
    // (rare, and needs a lot of stack)
    #[inline(never)]
    fn swap(&mut self)
        ensures { self.new ≡ swapped self.old }
    {
        mem::swap(&mut self.current, &mut self.next);
        self.next = Picture::new();
        self.awaited = None;
    }

    /// Applies a FIG 0/0.
    fn hear_ensemble(&mut self, ensemble: &Ensemble)
        ensures { self.new ≡ at_ensemble ensemble.now self.old }
    {
        if let Some(low) = self.awaited {
            if ensemble.change() == 0 || ensemble.count() % 250 == u16::from(low) {
                self.swap();
            }
        }
        if ensemble.change() > 0 {
            self.awaited = ensemble.occurrence();
        }
        self.tuned = true;
    }

    /// Applies one entry; false if the picture has no room for it, and then nothing changes.
    fn hear_entry(&mut self, next: bool, entry: &RawEntry<'_>) -> bool
        ensures heard { result ≡ true → hear_entry next entry.now self.old ≡ Some self.new }
        ensures full { result ≡ false → hear_entry next entry.now self.old ≡ None }
    {
        if entry.is_ensemble() {
            self.hear_ensemble(&entry.ensemble());
            return true;
        }
        if !self.tuned {
            return true;
        }
        if next {
            self.next.take_in(entry)
        } else {
            self.current.take_in(entry)
        }
    }

    /// Applies the entries of one FIG; false if a picture has no room for one of them.
    fn hear_entries(&mut self, next: bool, mut entries: Entries<'_>) -> bool
        ensures heard { result ≡ true → hear_entries next entries.entry self.old ≡ Some self.new }
        ensures full { result ≡ false → hear_entries next entries.entry self.old ≡ None }
    {
        while let Some(entry) = entries.next() {
            if !self.hear_entry(next, &entry) {
                return false;
            }
        }
        true
    }

    /// Applies FIGs in order; false if a picture has no room for one of their entries.
    fn hear_figs(&mut self, mut figs: Figs<'_>) -> bool
        ensures heard { result ≡ true → hear_figs figs.entry self.old ≡ Some self.new }
        ensures full { result ≡ false → hear_figs figs.entry self.old ≡ None }
    {
        while let Some(fig) = figs.next() {
            if let Some(head) = fig.head() {
                if !self.hear_entries(head.next, fig.entries()) {
                    return false;
                }
            }
        }
        true
    }

    /// Whether it knows this ensemble information, so that hearing it changes nothing.
    fn knows_ensemble(&self, ensemble: &Ensemble) -> bool
        ensures { result ≡ true → IsKnownTo self.now ensemble.now }
    {
        if !self.is_tuned() {
            return false;
        }
        match self.awaited {
            None => ensemble.change() == 0,
            Some(low) => {
                ensemble.change() > 0
                    && ensemble.count() % 250 != u16::from(low)
                    && ensemble.occurrence() == self.awaited
            }
        }
    }

    /// Whether it knows this entry, so that hearing it changes nothing.
    fn knows_entry(&self, next: bool, entry: &RawEntry<'_>) -> bool
        ensures { result ≡ true → hear_entry next entry.now self.now ≡ Some self.now }
    {
        if entry.is_ensemble() {
            return self.knows_ensemble(&entry.ensemble());
        }
        if !self.is_tuned() {
            return true;
        }
        if next {
            self.next.has(entry)
        } else {
            self.current.has(entry)
        }
    }

    /// Whether it knows the entries of one FIG, so that hearing them changes nothing.
    fn knows_entries(&self, next: bool, mut entries: Entries<'_>) -> bool
        ensures { result ≡ true → AllByRecursion
            (λ raw. hear_entry next raw self.now ≡ Some self.now) entries.entry }
    {
        while let Some(entry) = entries.next() {
            if !self.knows_entry(next, &entry) {
                return false;
            }
        }
        true
    }

    /// The basis of FIGs that it knows, so that hearing them changes nothing; None if it may not
    /// know them.
    pub(crate) fn knows(&self, mut figs: Figs<'_>) -> Option<Basis>
        ensures { IfSome result (λ basis. IsKnownBy basis self.now (hear_figs figs.entry)) }
    {
        let mut basis = Basis::Current;
        while let Some(fig) = figs.next() {
            if let Some(head) = fig.head() {
                if !self.knows_entries(head.next, fig.entries()) {
                    return None;
                }
                basis = basis.and(Basis::of(head));
            }
        }
        Some(basis)
    }

    /// The number of new members after this entry is heard too, if at most `others` of those heard
    /// before were new; None if there may be no room for it, and for ensemble information that it
    /// does not know.
    fn new_at_entry(&self, next: bool, others: usize, entry: &RawEntry<'_>) -> Option<usize>
        ensures { IfSome result (λ all.
            LeavesRoom self.now others all (hear_entry next entry.now)) }
    {
        if entry.is_ensemble() {
            return if self.knows_ensemble(&entry.ensemble()) {
                Some(others)
            } else {
                None
            };
        }
        if !self.is_tuned() {
            return Some(others);
        }
        if next {
            self.next.new_members(others, entry)
        } else {
            self.current.new_members(others, entry)
        }
    }

    /// The same for the entries of one FIG.
    fn new_at_entries(&self, next: bool, others: usize, mut entries: Entries<'_>) -> Option<usize>
        ensures { IfSome result (λ all.
            LeavesRoom self.now others all (hear_entries next entries.entry)) }
    {
        let mut new = others;
        while let Some(entry) = entries.next() {
            new = self.new_at_entry(next, new, &entry)?;
        }
        Some(new)
    }

    /// Whether there is certainly room for all entries of FIGs. New members of all kinds are
    /// counted together, and ensemble information that it does not know counts as no room.
    fn has_room(&self, mut figs: Figs<'_>) -> bool
        ensures { result ≡ true → hear_figs figs.entry self.now ≡ None → ⊥ }
    {
        let mut new = 0;
        while let Some(fig) = figs.next() {
            if let Some(head) = fig.head() {
                match self.new_at_entries(head.next, new, fig.entries()) {
                    Some(all) => new = all,
                    None => return false,
                }
            }
        }
        true
    }

    /// Applies FIGs in order to a copy, so that nothing changes if a picture becomes full; then the
    /// result is false.
    #[inline(never)]
    fn hear_aside(&mut self, figs: Figs<'_>) -> bool
        ensures heard { result ≡ true → hear_figs figs.entry self.old ≡ Some self.new }
        ensures full { result ≡ false → hear_figs figs.entry self.old ≡ None }
        ensures unchanged { result ≡ false → self.new ≡ self.old }
    {
        let mut copy = Receiver::new();
        copy.copy_from(self);
        if !copy.hear_figs(figs) {
            return false;
        }
        mem::swap(self, &mut copy);
        true
    }

    /// Becomes a copy of another receiver.
    fn copy_from(&mut self, other: &Self)
        ensures { self.new ≡ other.now }
    {
        self.tuned = other.tuned;
        self.current.copy_from(&other.current);
        self.next.copy_from(&other.next);
        self.awaited = other.awaited;
    }

    /// Applies FIGs in order; false if a picture has no room for one of their entries, and then
    /// nothing changes.
    pub(crate) fn hear_all(&mut self, figs: Figs<'_>) -> bool
        ensures heard { result ≡ true → hear_figs figs.entry self.old ≡ Some self.new }
        ensures full { result ≡ false → hear_figs figs.entry self.old ≡ None }
        ensures unchanged { result ≡ false → self.new ≡ self.old }
    {
        if self.has_room(figs.again()) {
            return self.hear_figs(figs);
        }
        self.hear_aside(figs)
    }
}
