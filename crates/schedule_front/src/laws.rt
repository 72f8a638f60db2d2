//! Laws of schedules and their texts.

ghost use Rattle.schedule_front.specs.Alike.{SchedulesHaveTheirOwnTokens, TextsAreOfOneSchedule};
ghost use Rattle.schedule_front.specs.Alike.{PrintedSchedulesAreRead};
ghost use Rattle.schedule_front.specs.Parsing.{SchedulesAreRead};

/// Two schedules have the same tokens only where they are alike: apart from lines, they have the
/// same header, the same edits in their items, the same names, and the same conditions and edits in
/// each overlay.
pub fn schedules()
    ensures { SchedulesHaveTheirOwnTokens }
{}

/// A text is that of at most one schedule: two schedules with this text are the same, with their
/// lines.
pub fn texts_of_schedules()
    ensures { TextsAreOfOneSchedule }
{}

/// A schedule that is read from what is printed of another one is alike: apart from lines, it is
/// the same.
pub fn printed()
    ensures { PrintedSchedulesAreRead }
{}

/// What is read from some tokens, by `schedule_at`, is the schedule that they spell on its lines;
/// and where they spell a schedule, it is read.
pub fn readings()
    ensures { SchedulesAreRead }
{}
