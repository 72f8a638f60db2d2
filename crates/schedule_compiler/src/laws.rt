//! A law of the combinations of overlays, for which a schedule is refused.

ghost use Rattle.schedule_compiler.specs.Refusals.{CombinationsMakeDue};

/// The law of combinations: where no edit has a fault, the overlays that hold at a moment make what
/// is due there. So what a refusal says of a combination, it says of what would be on air.
#[tactic(auto, using(crate::proofs::Blaming::combinations_make))]
pub fn combinations_make_due()
    ensures { CombinationsMakeDue }
{}
