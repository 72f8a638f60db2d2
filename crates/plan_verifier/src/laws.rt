//! The law of all codes.

ghost use Rattle.plan_verifier.specs.Refusals.{CodesHaveOneVerdict};

/// The law of verdicts: a code is typed, or it is refused at exactly one instruction with one
/// cause, and never both. The function does nothing; its contract is the law.
pub fn verdicts()
    ensures { CodesHaveOneVerdict }
{}
