//! The rows of a map: the configurations of a plan, in the order of its text.

ghost use Rattle.std.specs.Prelude.{◌≡◌, ◌++◌, ◌∷◌, [], IfOk, OnOk};
ghost use Rattle.plan_map.specs.Leads.{lead_of};
ghost use Rattle.plan_map.specs.Rows.{rows_of, row_at, known_next, left_by};

use crate::lead::{Lead, Reached, Ways, after, lead_of, ways_to};
use mux_config::Config;
use mux_types::BoundedVec;
use plan_code::{Code, Instr, Line};
use plan_verifier::properties::commits;
use std::alloc::{AllocError, Global};

/// The kind of a row.
#[derive(Clone, Copy, Debug, PartialEq, Eq)]
pub enum RowKind {
    /// The configuration that the plan begins with.
    Begin,
    /// A configuration that is committed.
    Commit,
}

/// A row of a map: a configuration, and the line of the script that it comes from.
#[derive(Drop)]
pub struct Row {
    /// Its kind.
    pub kind: RowKind,
    /// The line of `begin`, or that of the commit.
    pub line: u16,
    /// The name of the block that the commit is in, or its first 32 letters; empty outside of
    /// blocks.
    pub block: BoundedVec<u8, 32>,
    /// What leads to the commit, if that is the same on every way to it.
    pub lead: Option<Lead>,
    /// The configuration.
    pub config: Config,
}

/// The next configuration at a pc of a code, given the one that the instruction before left: that
/// of the label there, if there is one.
fn enter(code: &Code, pc: u16, next: &mut Config)
    ensures { next.new ≡ known_next code.now pc next.old }
{
    let Some(label) = code.label_at(pc) else {
        return;
    };
    if let Some(config) = code.config(label.next) {
        next.copy_from(config);
    }
}

/// Applies an instruction to the next configuration. An edit with a fault leaves it unchanged.
fn follow(instr: Instr, next: &mut Config)
    ensures { next.new ≡ left_by instr next.old }
{
    if let Instr::Edit(edit) = instr {
        let _ = edit.apply(next);
    }
}

/// Appends an instruction to those passed, with what leads to it.
fn pass(passed: &mut Vec<Reached>, line: &Line, ways: &Ways) -> Result<(), AllocError>
    ensures { let l = line.now in OnOk result (passed.new.items ≡ passed.old.items ++ record {
      instr = l.instr;
      ways = ways.now;
    } ∷ []) }
{
    passed.push(Reached {
        instr: line.instr,
        ways: *ways,
    })?;
    Ok(())
}

/// A row of this configuration.
fn row_of(kind: RowKind, line: u16, lead: Option<Lead>, config: &Config) -> Row
    ensures { result ≡ record {
      kind = kind;
      line = line;
      block = [];
      lead = lead;
      config = config.now;
    } }
{
    let mut copy = Config::new();
    copy.copy_from(config);
    Row {
        kind,
        line,
        block: BoundedVec::new(),
        lead,
        config: copy,
    }
}

/// Appends a row.
fn push(rows: &mut Vec<Row>, row: Row) -> Result<(), AllocError>
    ensures { OnOk result (rows.new.items ≡ rows.old.items ++ row ∷ []) }
{
    rows.push(row)?;
    Ok(())
}

/// Appends a row, if an instruction commits this configuration.
fn push_commit(
    rows: &mut Vec<Row>,
    line: &Line,
    ways: &Ways,
    next: &Config,
) -> Result<(), AllocError>
    ensures { OnOk result (rows.new.items ≡ rows.old.items ++ row_at line.now ways.now next.now) }
{
    if commits(line.instr) {
        return push(
            rows,
            row_of(RowKind::Commit, line.number, lead_of(*ways), next),
        );
    }
    Ok(())
}

/// The rows of a code's map: its opening at the line of `begin`, and the configuration of each
/// commit, in the order of the code, which is that of the script's text with each block where it is
/// applied. At a label, the next configuration is the one that it declares, which holds there on
/// every path. What leads to a commit is the last statement before it that suspends or tests a
/// contact; none where different ones lead to it. In a loop it is what leads to it at first. A code
/// has no names: the caller adds those of blocks.
///
/// # Errors
///
/// Out of memory.
#[tactic(auto, using(crate::proofs::Walking::row_more, crate::proofs::Walking::rows_all))]
pub fn rows_of(alloc: Global, begin_line: u16, code: &Code) -> Result<Vec<Row>, AllocError>
    ensures { IfOk result (λ v. v.items ≡ rows_of begin_line code.now) }
{
    let mut next = Config::new();
    enter(code, 0, &mut next);
    let mut rows = Vec::new(alloc);
    push(&mut rows, row_of(RowKind::Begin, begin_line, None, &next))?;
    let mut ways = Ways::One(Lead::Begin);
    let mut passed = Vec::new(alloc);
    let mut pc = 0u16;
    for line in code.lines() {
        enter(code, pc, &mut next);
        ways = ways_to(pc, ways, passed.as_slice());
        push_commit(&mut rows, line, &ways, &next)?;
        pass(&mut passed, line, &ways)?;
        ways = after(line.instr, ways);
        follow(line.instr, &mut next);
        pc += 1;
    }
    Ok(rows)
}
