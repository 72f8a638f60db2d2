//! SIds of services.

use std::fmt::{self, Display, Formatter};

/// The number of SIds of 16 bits.
const SHORT: u64 = 1 << 16;

/// An SId as it is printed: four hexadecimal digits, or eight for one of 32 bits, to which 65,536
/// is added here.
#[derive(Clone, Copy)]
pub(crate) struct Sid(pub(crate) u64);

impl Display for Sid {
    fn fmt<W: fmt::Write>(&self, f: &mut Formatter<W>) -> fmt::Result {
        let sid = self.0;
        if sid < SHORT {
            write!(f, "{sid:04X}")
        } else {
            write!(f, "{:08X}", (sid - SHORT) % (1 << 32))
        }
    }
}
