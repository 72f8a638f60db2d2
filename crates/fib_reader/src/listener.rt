//! A listener: a receiver that hears FIBs.

use crate::basis::are_of_next;
use crate::checking::check;
use crate::fault::ListenFault;
use crate::known_fibs::KnownFibs;
use crate::picture::Picture;
use crate::receiver::Receiver;
use std::marker::Model;

/// A receiver's view of the multiplex: pictures of the current and of the next configuration, and
/// when a swap is awaited (EN 300 401 clauses 6.4 and 6.5). Until it has heard a FIG 0/0 it keeps
/// no entry.
#[derive(Drop)]
pub struct Listener {
    receiver: Receiver,
    /// FIBs with nothing new to it. Most FIBs of a multiplex are repeated many times.
    known: KnownFibs,
}

impl Model for Listener {
    ghost use Rattle.fib_reader.specs.Listening.{Listening};
    ghost use Rattle.fib_reader.specs.Remembering.{AreRemembered};

    ghost Value = { Listening };

    ghost view = { λ l. l.receiver };

    ghost invariant = { λ l. AreRemembered l.known l.receiver };
}

impl Listener {
    ghost use Rattle.std.specs.Prelude.{◌≡◌, List};
    ghost use Rattle.fib_codec.specs.Grammar.{Fig, IsFib};
    ghost use Rattle.fib_reader.specs.Listening.{untuned, hear_figs, Hears, Heard};

    /// A listener that has heard nothing.
    pub fn new() -> Listener
        ensures { result ≡ untuned }
    {
        Listener {
            receiver: Receiver::new(),
            known: KnownFibs::new(),
        }
    }

    /// Whether it has heard a FIG 0/0 yet, and so keeps entries.
    pub fn is_tuned(&self) -> bool
        ensures { result ≡ self.now.tuned }
    {
        self.receiver.is_tuned()
    }

    /// What it has heard of the current configuration.
    pub fn current(&self) -> &Picture
        ensures { result.now ≡ self.now.current }
    {
        self.receiver.current()
    }

    /// What it has heard of the next configuration.
    pub fn next(&self) -> &Picture
        ensures { result.now ≡ self.now.next }
    {
        self.receiver.next()
    }

    /// The low part of the CIF count at which a swap is awaited; None if none is.
    pub fn swap_at(&self) -> Option<u8>
        ensures { result ≡ self.now.awaited }
    {
        self.receiver.swap_at()
    }

    /// Hears one FIB, FIG by FIG. FIGs that are not parsed, and entries before the first FIG 0/0,
    /// are skipped. An entry with C/N 0 goes into the current picture, one with C/N 1 into the next
    /// one, replacing one with the same identifier. At a FIG 0/0 an awaited swap is made if the
    /// change flags are cleared or the low part of the CIF count is the awaited one; and if flags
    /// are set, its occurrence change is awaited from then on (EN 300 401 clauses 6.4 and 6.5).
    ///
    /// On a fault nothing changes:
    /// - `Fib`: the 32 bytes are not a valid FIB; see [`check`];
    /// - `Full`: a picture would have received a 65th service or packet component.
    pub fn hear(&mut self, bytes: &[u8; 32]) -> Result<(), ListenFault>
        ensures answer { Hears bytes.now self.old self.new result }
        ensures every { (figs : List Fig) → IsFib bytes.now figs
            → Heard (hear_figs figs self.old) self.old self.new result }
    {
        if self.known.has(bytes) {
            return Ok(());
        }
        self.hear_anew(bytes)
    }

    /// Hears a FIB that is not remembered.
    #[inline(never)]
    fn hear_anew(&mut self, bytes: &[u8; 32]) -> Result<(), ListenFault>
        ensures answer { Hears bytes.now self.old self.new result }
        ensures every { (figs : List Fig) → IsFib bytes.now figs
            → Heard (hear_figs figs self.old) self.old self.new result }
    {
        let figs = match check(bytes) {
            Ok(figs) => figs,
            Err(fault) => return Err(ListenFault::Fib(fault)),
        };
        if let Some(basis) = self.receiver.knows(figs.again()) {
            self.known.keep(bytes, basis);
            return Ok(());
        }
        let of_next = are_of_next(figs.again());
        if !self.receiver.hear_all(figs) {
            return Err(ListenFault::Full);
        }
        if of_next {
            self.known.forget_next();
        } else {
            self.known.forget();
        }
        Ok(())
    }
}
