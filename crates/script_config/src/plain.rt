//! Makes scripts without blocks, from a configuration and the acts after `begin`.

ghost use Rattle.std.specs.Prelude.{◌≡◌, ◌≤◌, ◌+◌, [], length, IfOk};
ghost use Rattle.std.specs.List.{All};
ghost use Rattle.mux_config.specs.Configuration.{nothing};
ghost use Rattle.script_config.specs.Making.{edits_that_make};
ghost use Rattle.script_config.specs.Sequences.{Transform};
ghost use Rattle.script_front.specs.Alike.{added_by};
ghost use Rattle.script_front.specs.Block.{Block, and_then};
ghost use Rattle.script_front.specs.Tree.{IsAct};
ghost use Rattle.plan_code.specs.Program.{IsPlan};
ghost use Rattle.script_config.specs.Plain.{items_from, acts_from, IsPlain};

use crate::edits_that_make;
use crate::list::put;
use mux_config::{Config, Edit};
use plan_code::Plan;
use script_front::make::acting;
use script_front::{Act, Item, Names, Script, Statement};
use std::alloc::{AllocError, Global};

/// The maximum number of acts in such a script.
pub const MOST_ACTS: usize = 7000;

/// The edits as items, one per line from this line on.
fn items_from(alloc: Global, first: u16, edits: &[Edit]) -> Result<Vec<Item>, AllocError>
    requires { first + length edits.now ≤ 65535 }
    ensures { IfOk result (λ v. v.items ≡ items_from first edits.now) }
{
    let mut items = Vec::new(alloc);
    let mut line = first;
    for edit in edits {
        put(&mut items, Item { line, edit: *edit })?;
        line += 1;
    }
    Ok(items)
}

/// The acts as statements, one per line from this line on.
fn statements_from(alloc: Global, first: u16, acts: &[Act]) -> Result<Vec<Statement>, AllocError>
    requires { first + length acts.now ≤ 65535 }
    ensures { IfOk result (λ v. (b : Block) → and_then [] v.items b
        ≡ acts_from first acts.now b) }
{
    let mut statements = Vec::new(alloc);
    let mut line = first;
    for act in acts {
        put(&mut statements, acting(line, *act))?;
        line += 1;
    }
    Ok(statements)
}

/// The script with this header that begins with a configuration, which may be unsound, and has
/// these acts. The edits that make the configuration are its items and the acts its statements, on
/// the lines on which `print` prints them.
pub fn script_of(
    alloc: Global,
    header: Plan,
    config: &Config,
    acts: &[Act],
) -> Result<Script, AllocError>
    requires headed { IsPlan header }
    requires acts { All IsAct acts.now }
    requires few { length acts.now ≤ MOST_ACTS }
    ensures plain { IfOk result (λ s. IsPlain header (edits_that_make config.now) acts.now s) }
    ensures makes { IfOk result (λ s. Transform (added_by s.items) nothing config.now) }
{
    let edits = edits_that_make(alloc, config)?;
    let items = items_from(alloc, 3, edits.as_slice())?;
    let begin_line = 3 + edits.len() as u16;
    let statements = statements_from(alloc, begin_line + 1, acts)?;
    let last_line = begin_line + acts.len() as u16;
    let names = Names::new(alloc);
    let blocks = Vec::new(alloc);
    Ok(Script::new(
        header, items, names, blocks, begin_line, statements, last_line,
    ))
}
