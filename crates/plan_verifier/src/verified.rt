//! Accepted and refused codes.

ghost use Rattle.std.specs.Prelude.{◌≡◌, ◌↔◌, IsOk, IfOk, IfErr};
ghost use Rattle.plan_code.specs.Program.{IsProgram};
ghost use Rattle.plan_verifier.specs.Typing.{IsTyped};
ghost use Rattle.plan_verifier.specs.Refusals.{IsRefused};

use crate::Cause;
use crate::walk::refusal;
use mux_config::Store;
use plan_code::Code;
use std::marker::Model;

/// A code that `verify` has accepted: it is typed. In contracts it is the program that the code
/// represents.
#[derive(Drop)]
pub struct Verified {
    code: Code,
}

impl Model for Verified {
    ghost use Rattle.plan_code.specs.Program.{Program, IsProgram};
    ghost use Rattle.plan_verifier.specs.Typing.{IsTyped};

    ghost Value = { Program };

    ghost view = { λ v. v.code };

    ghost invariant = { λ v. IsProgram v.code × IsTyped v.code };
}

impl Verified {
    /// The code.
    pub fn code(&self) -> &Code
        ensures value { result.now ≡ self.now }
        ensures formed { IsProgram self.now }
        ensures typed { IsTyped self.now }
    {
        &self.code
    }
}

/// A code that `verify` has refused, returned with the instruction and the cause.
#[derive(Drop)]
pub struct Refused {
    /// The code.
    pub code: Code,
    /// The index of the instruction at which it is refused, from 0; or the pc of a label past the
    /// last instruction.
    pub pc: u16,
    /// Why it is refused there.
    pub cause: Cause,
}

/// Checks that a code is typed: then no playback of it traps, for any frames and contact changes.
/// It makes one pass over the code from its first instruction, with two configurations in stores of
/// this type, and does not allocate.
///
/// `Refused` returns the code, with the first instruction that has a cause and its first cause, in
/// this order. First instruction: `Table`, where it has no label; `Mismatch`, where its label
/// declares two different configurations, a pending swap or a counter; `Cost`, where the label's
/// cost is over the budget; `Config`, where its configuration is not sound; `Round`, where its
/// pages take longer than the period. Other instructions: `Mismatch` and `Cost` at a label;
/// `Table`, without a label after an instruction that does not continue. All instructions: `Cost`,
/// where no allowance is left; the causes of the instruction itself; `FallsOff`, where the last one
/// continues. Last of all, `Table` at the first label past the last instruction.
pub fn verify<S: Store>(code: Code) -> Result<Verified, Refused>
    ensures typed { IsOk result ↔ IsTyped code }
    ensures same { IfOk result (λ v. v ≡ code) }
    ensures back { IfErr result (λ r. r.code ≡ code) }
    ensures refused { IfErr result (λ r. IsRefused code r.pc r.cause) }
{
    match refusal::<S>(&code) {
        Some(found) => Err(Refused {
            code,
            pc: found.pc,
            cause: found.cause,
        }),
        None => Ok(Verified { code }),
    }
}
