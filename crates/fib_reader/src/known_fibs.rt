//! FIBs that are known to contain nothing new: their repetitions are recognised.

ghost use Rattle.std.specs.Prelude.{◌<◌};

use crate::basis::Basis;

/// The number of slots for FIBs.
const FIBS: usize = 1024;

/// FIBs that contained nothing new to a receiver, each in the slot selected by its CRC, where a
/// later one replaces it.
#[derive(Drop)]
pub(crate) struct KnownFibs {
    fibs: [[u8; 32]; FIBS],
    /// Which of them have the current picture alone as their basis.
    of_current: [bool; FIBS],
    /// Which of them have both pictures as their basis.
    of_pictures: [bool; FIBS],
}

impl KnownFibs {
    ghost use Rattle.std.specs.Prelude.{◌≡◌, ◌⊎◌, true, List, ℕ};
    ghost use Rattle.fib_reader.specs.declared.basis.Basis.{Basis};
    ghost use Rattle.fib_reader.specs.declared.basis.Basis.TheVariants.{Current};
    ghost use Rattle.fib_reader.specs.Remembering.{Remembers};

    /// No FIB is known.
    pub(crate) fn new() -> KnownFibs
        ensures { (bytes : List ℕ) (basis : Basis) → Remembers result bytes basis → ⊥ }
    {
        KnownFibs::of([[0; 32]; FIBS])
    }

    /// Slots for FIBs, none of which is remembered.
    fn of(fibs: [[u8; 32]; FIBS]) -> KnownFibs
        ensures { (bytes : List ℕ) (basis : Basis) → Remembers result bytes basis → ⊥ }
    {
        KnownFibs {
            fibs,
            of_current: [false; FIBS],
            of_pictures: [false; FIBS],
        }
    }

    /// Whether a FIB is remembered.
    #[inline(always)]
    pub(crate) fn has(&self, bytes: &[u8; 32]) -> bool
        ensures { result ≡ true → (basis : Basis) × Remembers self.now bytes.now basis }
    {
        let slot = slot_of(bytes);
        if self.fibs[slot] != *bytes {
            return false;
        }
        if self.of_current[slot] {
            return true;
        }
        self.of_pictures[slot]
    }

    /// Remembers a FIB with this basis in its slot, replacing the one there; a FIB whose basis is
    /// `All` is not remembered.
    pub(crate) fn keep(&mut self, bytes: &[u8; 32], basis: Basis)
        ensures { (other : List ℕ) (of : Basis) → Remembers self.new other of
            → Remembers self.old other of ⊎ ((other ≡ bytes.now) × (of ≡ basis)) }
    {
        if basis == Basis::All {
            return;
        }
        let slot = slot_of(bytes);
        self.fibs[slot] = *bytes;
        self.of_current[slot] = basis == Basis::Current;
        self.of_pictures[slot] = basis == Basis::Pictures;
    }

    /// Forgets the FIBs whose basis includes the next picture.
    pub(crate) fn forget_next(&mut self)
        ensures { (bytes : List ℕ) (basis : Basis) → Remembers self.new bytes basis
            → Remembers self.old bytes basis × (basis ≡ Current) }
    {
        self.of_pictures = [false; FIBS];
    }

    /// Forgets all FIBs.
    pub(crate) fn forget(&mut self)
        ensures { (bytes : List ℕ) (basis : Basis) → Remembers self.new bytes basis → ⊥ }
    {
        self.of_current = [false; FIBS];
        self.of_pictures = [false; FIBS];
    }
}

/// The slot of a FIB, below 1,024: the lowest ten bits of its CRC.
fn slot_of(bytes: &[u8; 32]) -> usize
    ensures { result < 1024 }
{
    usize::from(u16::from_be_bytes([bytes[30], bytes[31]]) % 1024)
}
