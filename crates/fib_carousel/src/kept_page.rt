//! A page kept to be sent in several frames.

ghost use Rattle.std.specs.Prelude.{◌≡◌, ℕ, ◌+◌, ◌-◌, ◌≤◌, ◌++◌, List, length, take, Some, None};
ghost use Rattle.mux_types.specs.Facts.{Marked};
ghost use Rattle.fib_codec.specs.declared.frame_layout.FrameLayout.{FrameLayout};
ghost use Rattle.fib_codec.specs.Modes.{with_fib};
ghost use Rattle.fib_codec.specs.Spelling.{figs_bytes, checked};
ghost use Rattle.fib_carousel.specs.Bytes.{ensemble_figs, page_bytes};
ghost use Rattle.fib_carousel.specs.Kept.{IsKept};

use byteorder::{BigEndian, ByteOrder};
use fib_codec::{FibFrame, fig0_0};
use mux_config::Ensemble;

/// A page computed once by a cursor and sent in several frames, in each with that frame's own FIG
/// 0/0 or without one. Only the first FIB changes with the FIG 0/0, so only its CRC is computed
/// again.
#[derive(Clone, Copy, Debug, PartialEq, Eq)]
pub struct KeptPage {
    plain: FibFrame,
}

/// Overwrites the first FIB of a frame with FIG 0/0 and the FIGs of `plain`, which leave room for
/// it. The bytes of `plain` that are cut off are padding.
fn put_first(ensemble: Ensemble, plain: &[u8; 32], frame: &mut FibFrame)
    requires { 32 ≤ length frame.old }
    ensures { let fig = figs_bytes (ensemble_figs (Some ensemble)) in
        frame.new ≡ with_fib 0 (checked (fig ++ take (30 - length fig) plain.now)) frame.old }
{
    let mut eid = [0u8; 2];
    BigEndian::write_u16(&mut eid, ensemble.eid());
    let high = fig0_0::third_byte(ensemble);
    let low = fig0_0::fourth_byte(ensemble);
    match ensemble.occurrence() {
        None => frame.join_fib(0, &[5, 0, eid[0], eid[1], high, low], plain),
        Some(swap) => frame.join_fib(0, &[6, 0, eid[0], eid[1], high, low, swap], plain),
    }
}

impl KeptPage {
    /// The page with these FIBs, which have no FIG 0/0.
    pub(crate) fn new(plain: FibFrame) -> KeptPage
        ensures { result.plain ≡ plain }
    {
        KeptPage { plain }
    }

    /// The page without FIG 0/0.
    pub fn without_ensemble(&self) -> &FibFrame
        ensures value { result.now ≡ self.now.plain }
        ensures page { (layout : FrameLayout) (ms : List Marked) (k : ℕ)
            → IsKept layout ms k self.now → result.now ≡ page_bytes layout None k ms }
    {
        &self.plain
    }

    /// Overwrites a frame with the page, this FIG 0/0 first.
    pub fn with_ensemble(&self, ensemble: Ensemble, frame: &mut FibFrame)
        ensures { (layout : FrameLayout) (ms : List Marked) (k : ℕ)
            → IsKept layout ms k self.now → frame.new ≡ page_bytes layout (Some ensemble) k ms }
    {
        *frame = self.plain;
        if let Some(first) = self.plain.fib(0) {
            put_first(ensemble, first, frame);
        }
    }
}
