//! Emission: the instructions of each state.

use crate::decisions::{Decisions, Node};
use crate::fault::{BuildFault, ScheduleLimit};
use crate::lines::{line_of, line_of_contact};
use crate::reach::{Distances, at};
use crate::states::State;
use crate::terms::{UNKNOWN, bit, short};
use crate::way::{Way, with_target};
use mux_config::Edit;
use plan_code::limits::MOST_INSTRUCTIONS;
use plan_code::{ContactId, DayFrame, Delay, Instr, Line};
use schedule_front::Schedule;
use script_config::edits_between;
use std::alloc::Global;

/// The current and the next configuration before an instruction, by their states.
#[derive(Clone, Copy, Debug, PartialEq, Eq)]
pub(crate) struct Point {
    pub(crate) current: u16,
    pub(crate) next: u16,
}

/// The code of a decision that others of the same state can jump to.
#[derive(Clone, Copy, Debug, PartialEq, Eq)]
struct Shared {
    node: u16,
    next: u16,
    pc: u16,
}

/// A jump to the code of a state.
#[derive(Clone, Copy, Debug, PartialEq, Eq)]
pub(crate) struct Return {
    pub(crate) pc: u16,
    pub(crate) state: u16,
}

/// The code of a schedule as it is emitted.
#[derive(Drop)]
pub(crate) struct Emission<'a> {
    alloc: Global,
    schedule: &'a Schedule,
    delay: Delay,
    states: &'a [State],
    decisions: &'a Decisions,
    reach: &'a [u64],
    distances: &'a Distances,
    pub(crate) code: Vec<Line>,
    pub(crate) points: Vec<Point>,
    pub(crate) returns: Vec<Return>,
    shared: Vec<Shared>,
    /// The line of the instructions that are emitted next.
    line: u16,
}

impl<'a> Emission<'a> {
    /// No code yet.
    pub(crate) fn new(
        alloc: Global,
        schedule: &'a Schedule,
        delay: Delay,
        states: &'a [State],
        decisions: &'a Decisions,
        reach: &'a [u64],
        distances: &'a Distances,
    ) -> Emission<'a> {
        Emission {
            alloc,
            schedule,
            delay,
            states,
            decisions,
            reach,
            distances,
            code: Vec::new(alloc),
            points: Vec::new(alloc),
            returns: Vec::new(alloc),
            shared: Vec::new(alloc),
            line: 0,
        }
    }

    /// The pc of the next instruction.
    pub(crate) fn len(&self) -> u16 {
        short(self.code.len())
    }

    /// The states that can be due behind a decision.
    fn behind(&self, node: u16) -> u64 {
        at(self.reach, node)
    }

    /// Whether what is on air can be due behind this way's decision.
    fn can_rest(&self, way: &Way) -> bool {
        self.behind(way.node) & bit(way.current) != 0
    }

    /// Appends an instruction and returns its pc.
    fn push(&mut self, way: &Way, instr: Instr) -> Result<u16, BuildFault> {
        let pc = self.code.len();
        if pc >= usize::from(MOST_INSTRUCTIONS) {
            return Err(BuildFault::Limit(ScheduleLimit::Instructions));
        }
        let number = self.line;
        let point = Point {
            current: way.current,
            next: way.next,
        };
        if self.points.push(point).is_err() {
            return Err(BuildFault::Memory);
        }
        match self.code.push(Line { number, instr }) {
            Ok(()) => Ok(short(pc)),
            Err(_full) => Err(BuildFault::Memory),
        }
    }

    /// Appends an instruction.
    fn put(&mut self, way: &Way, instr: Instr) -> Result<(), BuildFault> {
        match self.push(way, instr) {
            Ok(_pc) => Ok(()),
            Err(fault) => Err(fault),
        }
    }

    /// Appends a jump to the code of a state.
    fn push_return(&mut self, way: &Way, state: u16) -> Result<(), BuildFault> {
        let pc = self.push(way, Instr::Jump(0))?;
        match self.returns.push(Return { pc, state }) {
            Ok(()) => Ok(()),
            Err(_full) => Err(BuildFault::Memory),
        }
    }

    /// Sets where a test jumps to, if it fails.
    pub(crate) fn set_target(&mut self, pc: u16, target: u16) {
        if let Some(line) = self.code.get_mut(usize::from(pc)) {
            line.instr = with_target(line.instr, target);
        }
    }

    /// The pc of the code of this decision, from this next configuration; None if there is none
    /// yet.
    fn shared_at(&self, way: &Way) -> Option<u16> {
        for shared in &self.shared {
            if shared.node == way.node && shared.next == way.next {
                return Some(shared.pc);
            }
        }
        None
    }

    /// Lets other ways jump to the code of this decision, which begins here.
    fn share(&mut self, way: &Way) -> Result<(), BuildFault> {
        let shared = Shared {
            node: way.node,
            next: way.next,
            pc: self.len(),
        };
        match self.shared.push(shared) {
            Ok(()) => Ok(()),
            Err(_full) => Err(BuildFault::Memory),
        }
    }

    /// The first combination of overlays that makes a state.
    fn overlays_of(&self, state: u16) -> u64 {
        match self.states.get(usize::from(state)) {
            Some(state) => state.overlays,
            None => 0,
        }
    }

    /// The line of the last overlay that holds in one of two states alone.
    fn line_between(&self, from: u16, to: u16) -> u16 {
        line_of(self.schedule, self.overlays_of(from) ^ self.overlays_of(to))
    }

    /// The edits that lead from one state to another.
    fn edits(&self, from: u16, to: u16) -> Result<Vec<Edit>, BuildFault> {
        let Some(old) = self.states.get(usize::from(from)) else {
            return Err(BuildFault::Uncertified);
        };
        let Some(new) = self.states.get(usize::from(to)) else {
            return Err(BuildFault::Uncertified);
        };
        let edits = edits_between(self.alloc, &old.config, &new.config)?;
        Ok(edits)
    }

    /// Edits the next configuration into that of another state.
    fn edit(&mut self, way: &Way, to: u16) -> Result<(), BuildFault> {
        let edits = self.edits(way.next, to)?;
        self.line = self.line_between(way.next, to);
        for edit in &edits {
            if let Err(fault) = self.put(way, Instr::Edit(*edit)) {
                return Err(fault);
            }
        }
        Ok(())
    }

    /// The state to edit towards before this way's decision.
    fn first_on(&self, way: &Way) -> u16 {
        match self.decisions.get(way.node) {
            Some(Node::State(state)) => state,
            _ => self
                .distances
                .first_on_the_way(way.next, self.behind(way.node)),
        }
    }

    /// The line of the last overlay of a state, or of `schedule`.
    fn line_of_state(&self, state: u16) -> u16 {
        match self.states.get(usize::from(state)) {
            Some(state) => state.line,
            None => self.schedule.line(),
        }
    }

    /// Waits for another level of a contact that was tested, or for the end of what is known of the
    /// time, and begins the state anew.
    fn wait(&mut self, way: &Way) -> Result<(), BuildFault> {
        let wait = Instr::WaitAny {
            closed: way.known.open,
            opened: way.known.closed,
            until: way.until,
            frames: None,
        };
        match self.put(way, wait) {
            Ok(()) => self.push_return(way, way.current),
            Err(fault) => Err(fault),
        }
    }

    /// Rests in what is on air.
    fn rest(&mut self, way: &Way) -> Result<(), BuildFault> {
        self.line = self.line_of_state(way.current);
        if way.known == UNKNOWN && way.until.is_none() {
            self.put(way, Instr::End)
        } else {
            self.wait(way)
        }
    }

    /// Commits the next configuration, which is that of a state, and goes on with that state's code
    /// once it is on air.
    fn change(&mut self, way: &Way, state: u16) -> Result<(), BuildFault> {
        self.line = self.line_between(way.current, state);
        let delay = self.delay;
        if let Err(fault) = self.put(way, Instr::CommitIn(delay)) {
            return Err(fault);
        }
        if let Err(fault) = self.put(way, Instr::Join) {
            return Err(fault);
        }
        self.push_return(way, state)
    }

    /// Emits the code of a way's decision and of all that follow; at most `left` follow each other.
    #[cycle(walks)]
    fn walk(&mut self, way: &Way, left: u8) -> Result<(), BuildFault> {
        if left == 0 {
            return Err(BuildFault::Uncertified);
        }
        if self.can_rest(way) {
            return self.decide(way, left - 1);
        }
        if let Some(pc) = self.shared_at(way) {
            return self.put(way, Instr::Jump(pc));
        }
        if let Err(fault) = self.share(way) {
            return Err(fault);
        }
        let first = self.first_on(way);
        if first == way.next {
            return self.decide(way, left - 1);
        }
        if let Err(fault) = self.edit(way, first) {
            return Err(fault);
        }
        self.walk_on(&way.editing(first), left - 1)
    }

    /// Emits the code of a way's decision and of all that follow, where the next configuration was
    /// edited; or jumps to it where it is there.
    #[cycle(walks)]
    fn walk_on(&mut self, way: &Way, left: u8) -> Result<(), BuildFault> {
        if let Some(pc) = self.shared_at(way) {
            return self.put(way, Instr::Jump(pc));
        }
        if let Err(fault) = self.share(way) {
            return Err(fault);
        }
        self.decide(way, left)
    }

    /// Appends the test of a contact.
    fn test_contact(&mut self, way: &Way, contact: ContactId) -> Result<u16, BuildFault> {
        self.line = line_of_contact(self.schedule, contact);
        self.push(way, Instr::Test { contact, target: 0 })
    }

    /// Appends the test of a window.
    fn test_window(&mut self, way: &Way, from: DayFrame, to: DayFrame) -> Result<u16, BuildFault> {
        self.line = self.schedule.line();
        let instr = Instr::TestTime {
            from,
            to,
            target: 0,
        };
        self.push(way, instr)
    }

    /// Rests in a state that is on air, or changes to another one.
    fn arrive(&mut self, way: &Way, state: u16) -> Result<(), BuildFault> {
        if state == way.current {
            self.rest(way)
        } else {
            self.change(way, state)
        }
    }

    /// Emits the code of a way's decision itself, and of all that follow.
    #[cycle(walks)]
    fn decide(&mut self, way: &Way, left: u8) -> Result<(), BuildFault> {
        let Some(node) = self.decisions.get(way.node) else {
            return Err(BuildFault::Uncertified);
        };
        match node {
            Node::State(state) => self.arrive(way, state),
            Node::Contact {
                contact,
                closed,
                open,
            } => {
                let test = self.test_contact(way, contact)?;
                if let Err(fault) = self.walk(&way.knowing(contact, true, closed), left) {
                    return Err(fault);
                }
                self.otherwise(test, &way.knowing(contact, false, open), left)
            }
            Node::Window {
                from,
                to,
                inside,
                outside,
            } => {
                let test = self.test_window(way, from, to)?;
                if let Err(fault) = self.walk(&way.within(to, inside), left) {
                    return Err(fault);
                }
                self.otherwise(test, &way.outside(from, outside), left)
            }
        }
    }

    /// Emits the code of a test's other way, or lets the test jump to it where it is there.
    #[cycle(walks)]
    fn otherwise(&mut self, test: u16, way: &Way, left: u8) -> Result<(), BuildFault> {
        if !self.can_rest(way) {
            if let Some(pc) = self.shared_at(way) {
                self.set_target(test, pc);
                return Ok(());
            }
        }
        let here = self.len();
        self.set_target(test, here);
        self.walk(way, left)
    }

    /// Emits the code of a state, and returns where it begins.
    pub(crate) fn state(&mut self, current: u16) -> Result<u16, BuildFault> {
        let pc = self.len();
        self.shared.clear();
        let way = Way {
            node: self.decisions.root,
            current,
            next: current,
            known: UNKNOWN,
            until: None,
        };
        match self.walk(&way, 40) {
            Ok(()) => Ok(pc),
            Err(fault) => Err(fault),
        }
    }
}
