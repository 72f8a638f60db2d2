//! The context in which statements are compiled: the plan, the blocks that they may apply, and the
//! enclosing repeats.

use plan_code::Plan;
use script_front::Statement;

/// What is known of a block before it is compiled.
#[derive(Clone, Copy)]
pub(crate) struct BlockFacts {
    /// Whether control reaches its end.
    pub(crate) reaches_end: bool,
    /// Whether it emits no instructions.
    pub(crate) emits_nothing: bool,
}

/// The context in which statements are compiled.
#[derive(Clone, Copy)]
pub(crate) struct Context<'a> {
    /// The plan, from the script's header.
    pub(crate) plan: &'a Plan,
    /// The blocks that can be applied here: those defined earlier.
    pub(crate) blocks: &'a [Vec<Statement>],
    /// What is known of each of them, in the same order.
    pub(crate) facts: &'a [BlockFacts],
    /// The number of enclosing repeats: 0 to 8.
    pub(crate) counters: u8,
}
