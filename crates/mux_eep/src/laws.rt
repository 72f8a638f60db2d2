//! Laws that hold for all sizes, whatever computes them.

ghost use Rattle.mux_eep.specs.Sizes.{SizesGrow, OneRate};

/// The law of sizes: at each protection profile a greater bit rate takes more capacity units, so
/// that no two rates share a size. The function does nothing; its contract is the law.
pub fn sizes()
    ensures grow { SizesGrow }
    ensures one_rate { OneRate }
{}
