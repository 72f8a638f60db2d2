//! The state of the machine, over any store of configurations.

mod burst;
mod commit;
mod counts;
mod frame_start;
mod instruction;
mod quiet;
mod sending;

ghost use Rattle.std.specs.Prelude.{◌≡◌};
ghost use Rattle.plan_code.specs.Program.{Program};
ghost use Rattle.plan_runs.specs.Runs.{IsStart, happens};
ghost use Rattle.plan_runs.specs.declared.event.Event.TheVariants.{Contact};
ghost use Rattle.plan_player.specs.Positions.{state_of};

pub(crate) use burst::run;
pub(crate) use counts::{count_after, count_later, page_after, pass, pass_many};
pub(crate) use frame_start::begin;
use mux_config::Store;
use plan_code::{ContactId, Contacts, Hold};
use plan_runs::Start;
use plan_verifier::Verified;
pub(crate) use quiet::quiet_frames;
pub(crate) use sending::{
    Header, begin_notice, ensemble, is_first_noticed, is_on_step, make_header, next_sent,
};

/// The machine between two steps of a frame: its current and its next configuration in two stores,
/// its wait condition and its counts. In contracts it is a `State`. Each step of a frame is a
/// function: `begin` makes a due swap and ends a wait, `run` executes the frame's instructions
/// without testing for traps, `begin_notice` and `ensemble` give what is sent, and `pass` advances
/// the counts. `quiet_frames` counts frames in which the first three have nothing to do; for these,
/// `make_header` gives what is sent, and `pass_many` advances the counts.
#[derive(Drop)]
pub(crate) struct Machine<S: Store> {
    /// The current configuration.
    pub(crate) current: S,
    /// The next configuration.
    pub(crate) next: S,
    /// The number of frames left until the swap, if one is pending.
    pub(crate) left: Option<u16>,
    /// The index of the next instruction, from 0.
    pub(crate) pc: u16,
    /// What the machine waits for before it executes that instruction.
    pub(crate) hold: Hold,
    /// The remaining iterations of each of the eight counters: 0 where it is not set.
    counters: [u16; 8],
    /// The contacts that are closed.
    contacts: Contacts,
    /// The CIF count of the next frame, 0 to 4999 (EN 300 401 clause 5.1).
    pub(crate) count: u16,
    /// The frame of the day, 0 to 3,599,999, in frames of 24 ms.
    pub(crate) day: u32,
    /// The identifier of the ensemble, EId (EN 300 401 clause 6.4).
    eid: u16,
    /// The index of the page in turn, from 0.
    pub(crate) page_index: u8,
    /// The index of the last commit that was executed, if there was one: nothing that is sent
    /// depends on it.
    pub(crate) committed: Option<u16>,
}

impl<S: Store> Machine<S> {
    /// The machine at the start of a typed code: both configurations are those of its first label,
    /// no swap is pending, no counter is set, and the instructions start in the first frame. It
    /// does not allocate.
    pub(crate) fn start(code: &Verified, start: Start) -> Machine<S>
        ensures { IsStart code.now start (state_of S.content result) }
    {
        let code = code.code();
        let label = code.label_at(0).unwrap();
        let config = code.config(label.cur).unwrap();
        Machine {
            current: S::from_config(config),
            next: S::from_config(config),
            left: None,
            pc: 0,
            hold: Hold::Running,
            counters: [0; 8],
            contacts: start.contacts,
            count: start.count,
            day: start.day,
            eid: start.eid,
            page_index: 0,
            committed: None,
        }
    }

    /// Closes or opens a contact, and leaves the others unchanged.
    pub(crate) fn set_contact(&mut self, contact: ContactId, closed: bool)
        ensures { (p : Program) → state_of S.content self.new ≡
            happens p (state_of S.content self.old) (Contact contact closed) }
    {
        self.contacts = self.contacts.with(contact, closed);
    }
}
