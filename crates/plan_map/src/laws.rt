//! Laws of the rows of a map: what they say of every run of its code.
//! Each law is a function that does nothing; its contract is the law.

ghost use Rattle.plan_map.specs.Committed.{RowsAreCommits, RunsBeginWithTheFirst, CommitsAreRows};
ghost use Rattle.plan_map.specs.Committed.{FramesSendRows};

/// The law of rows: after the first row, a typed code has one row for each commit, in the order of
/// the code, in the line of the commit, with the next configuration that is known there.
pub fn rows()
    ensures { RowsAreCommits }
{}

/// The law of runs: every run of a typed code begins with the configuration of the first row. A
/// commit that it executes commits the configuration of its row: the next one in that state. And
/// each frame sends the configuration of a row, in a notice together with that of a commit's row.
pub fn runs()
    ensures begins { RunsBeginWithTheFirst }
    ensures commits { CommitsAreRows }
    ensures sends { FramesSendRows }
{
    plan_runs::laws::typed_code_runs();
}
