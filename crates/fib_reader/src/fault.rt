//! Why 32 bytes are not a valid FIB.

use thiserror::Error;

/// Why 32 bytes are not a valid FIB. Of several faults the first is reported: the CRC before all
/// others, then from the front. The numbers are byte offsets in the FIB, from 0.
#[derive(Clone, Copy, Debug, PartialEq, Eq, Error)]
pub enum FibFault {
    /// The last two bytes are not the CRC of the thirty before them (clause 5.2.1).
    #[error("Crc")]
    Crc,
    /// The FIG whose header is at this offset is longer than the data bytes that are left.
    #[error("Overrun {0}")]
    Overrun(usize),
    /// At this offset is an entry that is not whole, an entry with a CIF count out of range, or
    /// what follows the one entry of FIG 0/0; or the header of a FIG of type 0 without the byte
    /// that has its extension.
    #[error("Entry {0}")]
    Entry(usize),
}

/// Why a listener rejected a FIB. Its state is then unchanged.
#[derive(Clone, Copy, Debug, PartialEq, Eq, Error)]
pub enum ListenFault {
    /// The 32 bytes are not a valid FIB.
    #[error("{0}")]
    Fib(FibFault),
    /// A picture would have received a 65th service or packet component.
    #[error("Full")]
    Full,
}
