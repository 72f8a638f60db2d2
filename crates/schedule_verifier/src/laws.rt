//! The law of schedules. The function does nothing; its contract is the law.

ghost use Rattle.schedule_verifier.specs.Playing.{CertifiedCodesPlay};

/// The law of schedules: a typed code that is certified plays as the schedule prescribes. From
/// every start in range and over every list of contact changes and frames, the schedule's machine
/// comes to exactly one airing, and the code to the same one: current and next configuration,
/// frames until the swap, contacts, CIF count and frame of the day.
pub fn schedules()
    ensures { CertifiedCodesPlay }
{
    schedule_runs::laws::one_airing();
}
