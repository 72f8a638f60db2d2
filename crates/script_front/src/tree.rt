//! The tree of a script: its items and its statements.

ghost use Rattle.std.specs.Prelude.{◌≡◌, ◌<◌, ◌↔◌, IsSome, IfSome};

use crate::alternatives::Alternatives;
use crate::moment::Moment;
use mux_config::Edit;
use plan_code::{ContactId, Delay, Frames, Times};
use script_tokens::time::TimeOfDay;
use std::marker::Model;

/// An item: an edit of the opening configuration that, in a script, adds a sub-channel, a service,
/// a component or a packet component.
#[derive(Clone, Copy, Debug, PartialEq, Eq)]
pub struct Item {
    /// The line of its first token, 1 to 65,535.
    pub line: u16,
    /// The edit.
    pub edit: Edit,
}

/// The number of a defined block, 0 to 63, in the order of their definitions.
#[derive(Clone, Copy, Debug, PartialEq, Eq, PartialOrd, Ord)]
pub struct BlockId {
    id: u8,
}

impl Model for BlockId {
    ghost use Rattle.std.specs.Prelude.{ℕ, ◌<◌};

    ghost Value = { ℕ };

    ghost view = { λ b. b.id };

    ghost invariant = { λ b. b.id < 64 };

    ghost inverse = { λ n. record { id = n } };
}

impl BlockId {
    /// The block with this number; None above 63.
    pub fn new(id: u8) -> Option<BlockId>
        ensures in_range { IsSome result ↔ (id < 64) }
        ensures value { IfSome result (λ b. b ≡ id) }
    {
        if id < 64 { Some(BlockId { id }) } else { None }
    }

    /// Its number, 0 to 63.
    pub fn get(self) -> u8
        ensures value { result ≡ self }
        ensures in_range { result < 64 }
    {
        self.id
    }
}

/// A statement without a block after which the next one follows, at once or after suspending; each
/// is one instruction of a plan code.
#[derive(Clone, Copy, Debug, PartialEq, Eq)]
pub enum Act {
    /// One of the ten edits: edits the next configuration.
    Edit(Edit),
    /// `wait N`: suspends for this many frames.
    Wait(Frames),
    /// `wait contact C closed` or `open`: suspends until the contact has this level in a later
    /// frame.
    WaitContact { contact: ContactId, closed: bool },
    /// `until MOMENT`: suspends until a later frame is the one of this moment of the day.
    Until(Moment),
    /// `wait ALT or ALT ..`: suspends until the first later frame in which one of the alternatives
    /// is there.
    WaitAny(Alternatives),
    /// `commit in K`: commits the next configuration; the swap falls after this many frames, or in
    /// the first frame after that whose CIF count is a multiple of the mode's step.
    CommitIn(Delay),
    /// `commit at COUNT`: commits the next configuration; the swap falls in the first frame with
    /// this CIF count, 0 to 65,535 in a script, that leaves a whole notice before it.
    CommitAt(u16),
    /// `join`: suspends until the pending swap has been made.
    Join,
    /// `settle`: if a swap is pending, suspends until it has been made.
    Settle,
}

/// What an `if` tests.
#[derive(Clone, Copy, Debug, PartialEq, Eq)]
pub enum Condition {
    /// `contact C`: whether the contact is closed.
    Contact(ContactId),
    /// `time A to B`: whether the frame of the day is at A or later, and before B; over midnight
    /// where B is before A, and never where they are equal.
    Time { from: TimeOfDay, to: TimeOfDay },
}

/// A statement, with the line of its first token, 1 to 65,535. Blocks in braces are lists of
/// statements.
#[derive(Drop)]
pub enum Statement {
    /// A statement without a block.
    Act {
        line: u16,
        act: Act,
    },
    /// `end`: nothing more is executed.
    End {
        line: u16,
    },
    /// `if contact C { .. }` or `if time A to B { .. }`: the block, if the condition holds.
    If {
        line: u16,
        condition: Condition,
        first: Vec<Statement>,
    },
    /// The same with `else { .. }`: the first block if the condition holds, the second if it does
    /// not.
    IfElse {
        line: u16,
        condition: Condition,
        first: Vec<Statement>,
        second: Vec<Statement>,
    },
    /// `repeat N { .. }`: the block, N times.
    Repeat {
        line: u16,
        times: Times,
        body: Vec<Statement>,
    },
    /// `forever { .. }`: the block, repeated without end.
    Forever {
        line: u16,
        body: Vec<Statement>,
    },
    /// `apply NAME`: the block defined with this name.
    Apply {
        line: u16,
        block: BlockId,
    },
}
