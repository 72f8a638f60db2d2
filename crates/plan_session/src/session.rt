//! The beginning of every session: a typed code, and a start in range.

ghost use Rattle.std.specs.Prelude.{◌≡◌};
ghost use Rattle.plan_player.specs.Playing.{start_fault};

use crate::code_file::typed_code;
use crate::run_fault::RunFault;
use crate::start::{StartOptions, start_with};
use mux_tables::Tables;
use plan_player::{Player, Start, StartFault};
use plan_verifier::Verified;
use std::alloc::Global;
use std::marker::Model;

/// A code that can be played from a start: it is typed, and the start is in range. A playback, a
/// debugger and a live run begin with its player.
#[derive(Drop)]
pub struct Session {
    code: Verified,
    start: Start,
}

impl Model for Session {
    ghost use Rattle.std.specs.Prelude.{◌≡◌, None};
    ghost use Rattle.plan_player.specs.Playing.{start_fault};
    ghost use Rattle.plan_session.specs.Playback.{Opened};

    ghost Value = { Opened };

    ghost view = { λ s. record { code = s.code; start = s.start } };

    ghost invariant = { λ s. start_fault s.start ≡ None };
}

impl Session {
    ghost use Rattle.std.specs.Prelude.{ℕ, List, IfOk, IfErr};
    ghost use Rattle.plan_code.specs.declared.fault.CodeFault.TheVariants.{Memory as NoMemoryForCode};
    ghost use Rattle.plan_code.specs.Program.{Program};
    ghost use Rattle.plan_player.specs.Playing.{IsAtStart};
    ghost use Rattle.plan_session.specs.declared.run_fault.RunFault.TheVariants.{Code as OfCode};
    ghost use Rattle.plan_session.specs.Playback.{asked_from, CanStart, IsBeginFault, IsSessionOf};

    /// The session of the code in a file from this start.
    ///
    /// # Errors
    ///
    /// The first of these: `Code` if the bytes are not a code file, or memory for it runs out;
    /// `Refused` if the code is not typed; `Start` if the count is 5000 or more, or the frame of
    /// the day 3,600,000 or more.
    pub fn new(alloc: Global, code: &[u8], start: StartOptions) -> Result<Session, RunFault>
        ensures found { IfOk result (λ s. (text : List ℕ)
            → IsSessionOf (asked_from code.now text start) s) }
        ensures ready { IfOk result (λ s. (text : List ℕ)
            → CanStart s.code (asked_from code.now text start)) }
        ensures fault { IfErr result (λ e. (text : List ℕ)
            → IsBeginFault (asked_from code.now text start) e) }
        ensures memory { (text : List ℕ) (program : Program)
            → CanStart program (asked_from code.now text start)
            → IfErr result (λ e. e ≡ OfCode NoMemoryForCode) }
    {
        let code = typed_code(alloc, code)?;
        let start = start_with(&code, start);
        match fault_of(&code, start) {
            None => Ok(Session { code, start }),
            Some(fault) => Err(RunFault::Start(fault)),
        }
    }

    /// The code.
    pub(crate) fn code(&self) -> &Verified
        ensures { result.now ≡ self.now.code }
    {
        &self.code
    }

    /// A player at the start.
    pub fn player(&self) -> Player<'_, Tables>
        ensures { IsAtStart self.now.code self.now.start result }
    {
        match Player::new(&self.code, self.start) {
            Ok(player) => player,
            Err(_) => unreachable!(),
        }
    }
}

/// Why a code can't be played from a start; None if it can.
fn fault_of(code: &Verified, start: Start) -> Option<StartFault>
    ensures { result ≡ start_fault start }
{
    let made: Result<Player<Tables>, StartFault> = Player::new(code, start);
    match made {
        Ok(_player) => None,
        Err(fault) => Some(fault),
    }
}
