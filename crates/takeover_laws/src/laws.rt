//! Laws of every plan that takes over from what is on air.
//! Each law is a function that does nothing; its contract is the law.

ghost use Rattle.takeover_laws.specs.Moved.{PlansPlayOn};
ghost use Rattle.takeover_laws.specs.TakingOver.{PlansTakeOver, PlansTakeOverInTime};

/// The law of a plan's own instructions: in the code that takes over they do what they do in the
/// plan's own code. Two players of these codes whose states differ in the pc alone, by the number
/// of instructions that lead to the plan, send the same bytes over any contact changes and frames,
/// and their states still differ in the pc alone, by that number.
pub fn plays_on()
    ensures { PlansPlayOn }
{}

/// The law of taking over: from every start in range, over any contact changes and frames, what was
/// on air stays on air until the frame of the first swap. From that frame on the bytes are those of
/// the plan played alone, started in that frame: with its CIF count, its frame of the day, and the
/// contacts as they are then. The states differ in the pc alone. That start is in range, so what is
/// proved of the plan's own code from every start holds from there on.
///
/// The swap comes: with a budget of 2 or more, at most so many frames come before its own: those
/// that the edits fill, one edit less than the budget in each, the notice, and those up to the next
/// CIF count on which a swap can fall.
pub fn takes_over()
    ensures hands_over { PlansTakeOver }
    ensures in_time { PlansTakeOverInTime }
{
    script_config::laws::transforming();
}
