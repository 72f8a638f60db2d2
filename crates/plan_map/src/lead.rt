//! What leads to a commit: the last statement before it that suspends or tests a contact, on every
//! path there from before.

ghost use Rattle.std.specs.Prelude.{◌≡◌};
ghost use Rattle.plan_map.specs.declared.lead.Ways.TheVariants.{One};
ghost use Rattle.plan_map.specs.Leads.{after, both, is_same_any, is_same_lead, is_same_level};
ghost use Rattle.plan_map.specs.Leads.{is_same_number, lead_of, way_to, ways_from};

use plan_code::{ContactId, Contacts, DayFrame, Frames, Instr};

/// The alternatives of a wait, as its instruction has them.
#[derive(Clone, Copy, Debug, PartialEq, Eq)]
pub struct AnyOf {
    /// The contacts of which one is closed.
    pub closed: Contacts,
    /// The contacts of which one is open.
    pub opened: Contacts,
    /// The frame of the day.
    pub until: Option<DayFrame>,
    /// The number of frames.
    pub frames: Option<Frames>,
}

/// What leads to a commit.
#[derive(Clone, Copy, Debug, PartialEq, Eq)]
pub enum Lead {
    /// The begin of the plan.
    Begin,
    /// `wait N`.
    Wait(Frames),
    /// `until TIME`.
    Until(DayFrame),
    /// A contact that is closed, or open: `wait contact`, `if`, or `else`.
    Contact {
        contact: ContactId,
        closed: bool,
    },
    /// `wait` with alternatives.
    Any(AnyOf),
    /// A window of the day that the frame is in, or not in: `if time`, or its `else`.
    Window {
        from: DayFrame,
        to: DayFrame,
        inside: bool,
    },
    /// `join`.
    Join,
    /// `settle`.
    Settle,
}

/// What leads to an instruction, or on from it, on all paths.
#[derive(Clone, Copy, Debug, PartialEq, Eq)]
pub enum Ways {
    /// There is no path.
    Nothing,
    /// The same on each path.
    One(Lead),
    /// Different statements on different paths.
    Others,
}

/// An instruction, and what leads to it.
#[derive(Clone, Copy, Debug, PartialEq, Eq)]
pub struct Reached {
    /// The instruction.
    pub instr: Instr,
    /// What leads to it.
    pub ways: Ways,
}

/// Whether two levels of a contact are the same.
fn is_same_level(a: bool, b: bool) -> bool
    ensures { result ≡ is_same_level a b }
{
    if a { b } else { !b }
}

/// Whether two frames of the day, either of which may be none, are the same.
fn is_same_until(a: Option<DayFrame>, b: Option<DayFrame>) -> bool
    ensures { result ≡ is_same_number a b }
{
    match (a, b) {
        (None, None) => true,
        (Some(s), Some(t)) => s == t,
        _ => false,
    }
}

/// Whether two numbers of frames, either of which may be none, are the same.
fn is_same_count(a: Option<Frames>, b: Option<Frames>) -> bool
    ensures { result ≡ is_same_number a b }
{
    match (a, b) {
        (None, None) => true,
        (Some(m), Some(n)) => m == n,
        _ => false,
    }
}

/// Whether the alternatives of two waits are the same.
fn is_same_any(a: &AnyOf, b: &AnyOf) -> bool
    ensures { result ≡ is_same_any a.now b.now }
{
    a.closed.0 == b.closed.0
        && a.opened.0 == b.opened.0
        && is_same_until(a.until, b.until)
        && is_same_count(a.frames, b.frames)
}

/// Whether two statements that lead to a commit are the same.
fn is_same_lead(a: Lead, b: Lead) -> bool
    ensures { result ≡ is_same_lead a b }
{
    match a {
        Lead::Begin => match b {
            Lead::Begin => true,
            _ => false,
        },
        Lead::Wait(m) => match b {
            Lead::Wait(n) => m == n,
            _ => false,
        },
        Lead::Until(s) => match b {
            Lead::Until(t) => s == t,
            _ => false,
        },
        Lead::Contact { contact, closed } => match b {
            Lead::Contact {
                contact: other,
                closed: level,
            } => contact == other && is_same_level(closed, level),
            _ => false,
        },
        Lead::Any(one) => match b {
            Lead::Any(other) => is_same_any(&one, &other),
            _ => false,
        },
        Lead::Window { from, to, inside } => match b {
            Lead::Window {
                from: first,
                to: last,
                inside: within,
            } => from == first && to == last && is_same_level(inside, within),
            _ => false,
        },
        Lead::Join => match b {
            Lead::Join => true,
            _ => false,
        },
        Lead::Settle => match b {
            Lead::Settle => true,
            _ => false,
        },
    }
}

/// What leads somewhere on two paths with these statements.
fn met(a: &Lead, b: &Lead) -> Ways
    ensures { result ≡ both (One a.now) (One b.now) }
{
    if is_same_lead(*a, *b) {
        Ways::One(*a)
    } else {
        Ways::Others
    }
}

/// What leads somewhere on the paths of both.
fn both(a: Ways, b: Ways) -> Ways
    ensures { result ≡ both a b }
{
    match a {
        Ways::Nothing => b,
        Ways::One(one) => match b {
            Ways::Nothing => Ways::One(one),
            Ways::One(other) => met(&one, &other),
            Ways::Others => Ways::Others,
        },
        Ways::Others => Ways::Others,
    }
}

/// What leads on from an instruction to the one behind it, given what leads to it.
pub(crate) fn after(instr: Instr, ways: Ways) -> Ways
    ensures { result ≡ after instr ways }
{
    match instr {
        Instr::Wait(frames) => Ways::One(Lead::Wait(frames)),
        Instr::Until(frame) => Ways::One(Lead::Until(frame)),
        Instr::WaitContact { contact, closed } => Ways::One(Lead::Contact { contact, closed }),
        Instr::WaitAny {
            closed,
            opened,
            until,
            frames,
        } => Ways::One(Lead::Any(AnyOf {
            closed,
            opened,
            until,
            frames,
        })),
        Instr::Join => Ways::One(Lead::Join),
        Instr::Settle => Ways::One(Lead::Settle),
        Instr::Test { contact, target: _ } => Ways::One(Lead::Contact {
            contact,
            closed: true,
        }),
        Instr::TestTime {
            from,
            to,
            target: _,
        } => Ways::One(Lead::Window {
            from,
            to,
            inside: true,
        }),
        Instr::End => Ways::Nothing,
        Instr::Jump(_) => Ways::Nothing,
        _ => ways,
    }
}

/// What leads to a pc, with the jump of one more instruction, if it jumps there, given what leads
/// to that.
fn way_to(pc: u16, instr: Instr, its: Ways, ways: Ways) -> Ways
    ensures { result ≡ way_to pc instr its ways }
{
    match instr {
        Instr::Test { contact, target } if target == pc => both(
            ways,
            Ways::One(Lead::Contact {
                contact,
                closed: false,
            }),
        ),
        Instr::TestTime { from, to, target } if target == pc => both(
            ways,
            Ways::One(Lead::Window {
                from,
                to,
                inside: false,
            }),
        ),
        Instr::Jump(target) if target == pc => both(ways, its),
        _ => ways,
    }
}

/// What leads to a pc, given what leads on from the instruction before it, and those before it,
/// which may jump there.
pub(crate) fn ways_to(pc: u16, before: Ways, passed: &[Reached]) -> Ways
    ensures { result ≡ ways_from pc before passed.now }
{
    let mut ways = before;
    for reached in passed {
        ways = way_to(pc, reached.instr, reached.ways, ways);
    }
    ways
}

/// What leads somewhere, if that is the same on every path.
pub(crate) fn lead_of(ways: Ways) -> Option<Lead>
    ensures { result ≡ lead_of ways }
{
    match ways {
        Ways::One(lead) => Some(lead),
        _ => None,
    }
}
