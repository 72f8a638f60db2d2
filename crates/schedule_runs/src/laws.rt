//! Laws of every schedule, for any code that implements it.
//! Each law is a function that does nothing; its contract is the law.

ghost use Rattle.schedule_runs.specs.Machine.{SchedulesComeToOne};
ghost use Rattle.schedule_runs.specs.Kept.{SchedulesAreKept};

/// The law of one airing: over the same contact changes and frames a schedule comes to exactly one
/// airing. What is on air and what comes next follow from the start and the events alone.
pub fn one_airing()
    ensures { SchedulesComeToOne }
{}

/// The law that a schedule is kept, in every run, from every start in range and over every list of
/// contact changes and frames. N is the notice and S the mode's step, the number of frames between
/// the counts on which a swap can fall.
///
/// What comes was due: a swap brings what was due in the frame that committed it, and nothing else
/// was committed in between. What stays due comes: where one configuration is due in each of the
/// frames m to n, it is on air in frame n if n is at least N + S - 2 + U frames after m, where U is
/// N rounded up to a multiple of S; a change under way is finished first. What the clock changes is
/// on air at its hour: if nothing is pending a notice before a frame of the day, such as one in
/// which a window begins or ends, and what is wanted then is not on air, the swap to it falls on
/// that frame of the day, or on the next count on which one can, at most S - 1 frames later,
/// whatever the contacts do meanwhile.
pub fn kept()
    ensures { SchedulesAreKept }
{
    plan_code::laws::commits();
}
