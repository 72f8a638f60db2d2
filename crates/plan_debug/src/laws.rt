//! A law of all announcements. The function does nothing; its contract is the law.

ghost use Rattle.plan_debug.specs.Flagged.{AnnouncementsAreFlagged};

/// The announcements that a debugger logs of the frames of a typed code are exactly the FIG 0/0
/// with change flags that are received in the bytes of these frames, one for each frame that has
/// one, in order.
pub fn announcements()
    ensures { AnnouncementsAreFlagged }
{
    plan_runs::laws::headers();
    plan_runs::laws::reached();
}
