//! Explains limits of codes that a script would exceed.

use crate::note::Note;
use plan_code::limits::{COUNTERS, MOST_CONFIGURATIONS, MOST_INSTRUCTIONS, MOST_LABELS};
use script_compiler::CodeLimit;
use std::io::{self, Write};

/// Explains which limit of codes is exceeded by a statement: the maximum, and that this line would
/// add one more.
pub(crate) fn explain_limit(limit: CodeLimit, note: &mut Note) -> io::Result<()> {
    let (most, what, hint) = match limit {
        CodeLimit::Instructions => (
            MOST_INSTRUCTIONS,
            "instructions",
            "'repeat' in place of copies; each 'apply' adds the instructions of its block again",
        ),
        CodeLimit::Labels => (
            MOST_LABELS,
            "labels",
            "'repeat' in place of copies; each 'if', 'repeat' and 'forever' has a label or two, \
             again with each 'apply'",
        ),
        CodeLimit::Configurations => (
            MOST_CONFIGURATIONS,
            "configurations at its labels",
            "go back to earlier configurations, which count once; or fewer 'if', 'repeat' and \
             'forever' among the edits",
        ),
        CodeLimit::Counters => {
            write!(
                &mut note.text,
                "this 'repeat' is inside {COUNTERS} others, and a code has {COUNTERS} counters, \
                 one for each"
            )?;
            return note.hint.write_all(
                b"one 'repeat' in place of two, as 'repeat 6' for a 'repeat 3' in a 'repeat 2'",
            );
        }
    };
    let next = most.saturating_add(1);
    write!(
        &mut note.text,
        "the code has {most} {what} before this line is done, the most of a code: number {next} \
         would come here"
    )?;
    note.hint.write_all(hint.as_bytes())
}
