//! Laws of the player, and those of the crates below on runs of typed codes, contacts and
//! listeners. Each law is a function that does nothing; its contract is the law.

ghost use Rattle.plan_player.specs.Positions.{Progress};
ghost use Rattle.plan_player.specs.Quiet.{QuietFramesAreCopied};

pub use plan_runs::laws::{
    bursts, contacts, frames, headers, headline, heard, listener, notices, pages_in_turn, periods,
    reached, runs, swaps, typed_code_runs, waits,
};

/// The law of progress: in every state that a typed code reaches, the instructions of the next
/// frame can be executed without a test for traps or for the budget, and then the frame can be
/// sent, in 60 pages or fewer.
pub fn progress()
    ensures { Progress }
{}

/// The law of quiet frames: in any code, frames that make no swap, execute no instruction and begin
/// no phase are the pages in turn of what the state sends, and n of them advance the counts by n
/// frames.
pub fn quiet()
    ensures { QuietFramesAreCopied }
{}
