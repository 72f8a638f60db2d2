//! Laws of live runs. Each law is a function that does nothing; its contract is the law.

ghost use Rattle.plan_live.specs.OneFile.{LinesListInTurn, LiveIsPlayback, InputIsPlayback};

/// The law of lines and event files: where each line of a text lists steps as an event file of its
/// own, the text lists the steps of all of them, one after another. Its last line may end without a
/// line feed.
pub fn one_file()
    ensures { LinesListInTurn }
{}

/// The law of live runs and playbacks: what a live run to the end of its input writes, with nothing
/// skipped, is what the playback of one event file writes: of any file whose lines are those lines
/// of the input that list steps.
pub fn as_played()
    ensures { LiveIsPlayback }
{
    console::laws::lines();
}

/// The same where each line of the input lists steps: the input itself is that event file.
pub fn input_as_played()
    ensures { InputIsPlayback }
{
    console::laws::lines();
    plan_session::laws::one_list();
}
