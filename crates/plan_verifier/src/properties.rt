//! The properties of an instruction: whether it commits a configuration, and what can run after it.

ghost use Rattle.std.specs.Prelude.{◌≡◌};
ghost use Rattle.plan_verifier.specs.Rules.{commits, continues, suspends, target_of};

use plan_code::Instr;

/// Whether an instruction commits the next configuration.
pub fn commits(instr: Instr) -> bool
    ensures { result ≡ commits instr }
{
    match instr {
        Instr::CommitIn(_) | Instr::CommitAt(_) => true,
        Instr::Edit(_) | Instr::Join | Instr::Settle | Instr::End | Instr::Jump(_) => false,
        Instr::Wait(_) | Instr::Until(_) | Instr::WaitContact { .. } => false,
        Instr::WaitAny { .. } | Instr::Test { .. } | Instr::TestTime { .. } => false,
        Instr::Set { .. } | Instr::Loop { .. } => false,
    }
}

/// Whether an instruction can continue to the one after it.
pub fn continues(instr: Instr) -> bool
    ensures { result ≡ continues instr }
{
    match instr {
        Instr::Jump(_) | Instr::End => false,
        Instr::Edit(_) | Instr::CommitIn(_) | Instr::CommitAt(_) | Instr::Join => true,
        Instr::Settle | Instr::Wait(_) | Instr::Until(_) | Instr::WaitContact { .. } => true,
        Instr::WaitAny { .. } | Instr::Test { .. } | Instr::TestTime { .. } => true,
        Instr::Set { .. } | Instr::Loop { .. } => true,
    }
}

/// Whether the next instruction, if any, runs in a later frame.
pub fn suspends(instr: Instr) -> bool
    ensures { result ≡ suspends instr }
{
    match instr {
        Instr::Wait(_) | Instr::Until(_) | Instr::WaitContact { .. } => true,
        Instr::WaitAny { .. } | Instr::Join | Instr::End => true,
        Instr::Edit(_) | Instr::CommitIn(_) | Instr::CommitAt(_) | Instr::Settle => false,
        Instr::Test { .. } | Instr::TestTime { .. } | Instr::Jump(_) => false,
        Instr::Set { .. } | Instr::Loop { .. } => false,
    }
}

/// The target of an instruction that can jump, as an index from 0.
pub fn target_of(instr: Instr) -> Option<u16>
    ensures { result ≡ target_of instr }
{
    match instr {
        Instr::Test { target, .. } | Instr::TestTime { target, .. } => Some(target),
        Instr::Jump(target) | Instr::Loop { target, .. } => Some(target),
        Instr::Edit(_) | Instr::CommitIn(_) | Instr::CommitAt(_) | Instr::Join => None,
        Instr::Settle | Instr::End | Instr::Wait(_) | Instr::Until(_) => None,
        Instr::WaitContact { .. } | Instr::WaitAny { .. } | Instr::Set { .. } => None,
    }
}
