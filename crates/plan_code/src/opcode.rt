//! Opcodes: the first byte of an instruction in a code file.

/// The opcode of an instruction.
#[derive(Clone, Copy)]
pub(crate) enum Opcode {
    /// Suspends for a number of frames.
    Wait = 0x01,
    /// Suspends until a frame of the day.
    Until = 0x02,
    /// Suspends until a contact is closed, or open.
    WaitContact = 0x03,
    /// Commits, with the swap after a minimum number of frames.
    CommitIn = 0x04,
    /// Commits, with the swap at a CIF count.
    CommitAt = 0x05,
    /// Suspends until the swap.
    Join = 0x06,
    /// Suspends for good.
    End = 0x07,
    /// Suspends until the swap if one is pending.
    Settle = 0x08,
    /// Suspends until one of several alternatives.
    WaitAny = 0x09,
    /// Adds a sub-channel.
    AddSub = 0x10,
    /// Drops a sub-channel.
    DropSub = 0x11,
    /// Moves a sub-channel to another start address.
    MoveSub = 0x12,
    /// Changes the rate of a sub-channel.
    RateSub = 0x13,
    /// Adds a service without components.
    AddService = 0x14,
    /// Drops a service.
    DropService = 0x15,
    /// Adds a component to a service.
    AddComponent = 0x16,
    /// Drops the component of a service with this carrier.
    DropComponent = 0x17,
    /// Adds a packet component.
    AddPacket = 0x18,
    /// Drops a packet component.
    DropPacket = 0x19,
    /// Jumps if a contact is open.
    Test = 0x20,
    /// Jumps.
    Jump = 0x21,
    /// Sets a counter.
    Set = 0x22,
    /// Decrements a counter, and jumps if the result is not 0.
    Loop = 0x23,
    /// Jumps outside a window of the day.
    TestTime = 0x24,
}

/// A byte that is not an opcode.
#[derive(Clone, Copy)]
pub(crate) struct UnknownOpcode;

impl From<Opcode> for u8 {
    ghost use Rattle.std.specs.Prelude.{◌≡◌};
    ghost use Rattle.plan_code.specs.Opcodes.{opcode_byte};

    ghost from_gives = { λ opcode byte. byte ≡ opcode_byte opcode };

    fn from(opcode: Opcode) -> u8 {
        opcode as u8
    }
}

impl TryFrom<u8> for Opcode {
    ghost use Rattle.std.specs.Prelude.{◌≡◌, Some, None, MatchResult};
    ghost use Rattle.plan_code.specs.Opcodes.{opcode_of};

    type Error = UnknownOpcode;

    ghost try_from_gives = { λ byte result. MatchResult result
        (λ opcode. opcode_of byte ≡ Some opcode) (λ _. opcode_of byte ≡ None) };

    #[tactic(auto, unfolding(crate::specs::Opcodes::opcode_of))]
    fn try_from(byte: u8) -> Result<Opcode, UnknownOpcode> {
        match byte {
            0x01 => Ok(Opcode::Wait),
            0x02 => Ok(Opcode::Until),
            0x03 => Ok(Opcode::WaitContact),
            0x04 => Ok(Opcode::CommitIn),
            0x05 => Ok(Opcode::CommitAt),
            0x06 => Ok(Opcode::Join),
            0x07 => Ok(Opcode::End),
            0x08 => Ok(Opcode::Settle),
            0x09 => Ok(Opcode::WaitAny),
            0x10 => Ok(Opcode::AddSub),
            0x11 => Ok(Opcode::DropSub),
            0x12 => Ok(Opcode::MoveSub),
            0x13 => Ok(Opcode::RateSub),
            0x14 => Ok(Opcode::AddService),
            0x15 => Ok(Opcode::DropService),
            0x16 => Ok(Opcode::AddComponent),
            0x17 => Ok(Opcode::DropComponent),
            0x18 => Ok(Opcode::AddPacket),
            0x19 => Ok(Opcode::DropPacket),
            0x20 => Ok(Opcode::Test),
            0x21 => Ok(Opcode::Jump),
            0x22 => Ok(Opcode::Set),
            0x23 => Ok(Opcode::Loop),
            0x24 => Ok(Opcode::TestTime),
            _ => Err(UnknownOpcode),
        }
    }
}
