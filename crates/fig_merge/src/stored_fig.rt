//! A FIG that waits, with its bytes.

ghost use Rattle.std.specs.Prelude.{◌≡◌, ◌≤◌, length};
ghost use Rattle.std.specs.Str.{bytes_eq};

use std::marker::Model;

/// The most bytes of a FIG: the data bytes of a FIB (EN 300 401 clause 5.2.1).
pub(crate) const LONGEST: usize = 30;

/// A FIG with its bytes, at most 30. Contracts see these bytes.
#[derive(Drop)]
pub(crate) struct StoredFig {
    bytes: [u8; LONGEST],
    len: usize,
}

impl Model for StoredFig {
    ghost use Rattle.std.specs.Prelude.{List, ℕ, take};
    ghost use Rattle.fig_merge.specs.Stored.{IsStored};

    ghost Value = { List ℕ };

    ghost view = { λ f. take f.len f.bytes };

    ghost invariant = { λ f. IsStored f.len f.bytes };
}

impl StoredFig {
    /// A copy of a FIG.
    pub(crate) fn of(fig: &[u8]) -> StoredFig
        requires { length fig.now ≤ 30 }
        ensures { result ≡ fig.now }
    {
        let mut bytes = [0; LONGEST];
        bytes[..fig.len()].copy_from_slice(fig);
        StoredFig {
            bytes,
            len: fig.len(),
        }
    }

    /// The number of its bytes.
    pub(crate) fn len(&self) -> usize
        ensures value { result ≡ length self.now }
        ensures bound { result ≤ 30 }
    {
        self.len
    }

    /// Its bytes.
    pub(crate) fn as_slice(&self) -> &[u8]
        ensures value { result.now ≡ self.now }
        ensures bound { length result.now ≤ 30 }
    {
        &self.bytes[..self.len]
    }

    /// Whether these are its bytes.
    pub(crate) fn is(&self, fig: &[u8]) -> bool
        ensures { result ≡ bytes_eq fig.now self.now }
    {
        fig == self.as_slice()
    }
}

impl Default for StoredFig {
    /// No bytes. It fills the unused slots of a queue.
    fn default() -> StoredFig {
        StoredFig {
            bytes: [0; LONGEST],
            len: 0,
        }
    }
}
