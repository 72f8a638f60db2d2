//! The laws of scripts and their codes. Each law is a function that does nothing; its contract is
//! the law.

ghost use Rattle.script_compiler.specs.Alternatives.{AlternativesAreKept};
ghost use Rattle.script_compiler.specs.Compiled.{ScriptsHaveOneCode};
ghost use Rattle.script_compiler.specs.FrameCosts.{LongestPathIsLeastBudget};
ghost use Rattle.script_compiler.specs.Meaning.{ScenesSuffice, ScriptsPlayAsTheyRead};

/// The law of codes: a script has at most one code in which each label costs what the code needs
/// from there, the most instructions that can run in one frame.
pub fn codes()
    ensures { ScriptsHaveOneCode }
{}

/// The law of budgets: a code whose longest path is known has no more instructions in a frame than
/// a budget allows, exactly if the budget is at least the number of the path's instructions.
pub fn budgets()
    ensures { LongestPathIsLeastBudget }
{}

/// The law of alternatives: a contact is among those that the instruction of a wait awaits closed,
/// or open, exactly if one of its alternatives is for that contact and that level.
pub fn alternatives()
    ensures { AlternativesAreKept }
{}

/// The law of scenes: how a frame and a statement change the configurations, the swap, the
/// contacts, the counts and the wait, and whether the statement traps, depends on these alone, and
/// on nothing else in a player's state.
pub fn scenes()
    ensures { ScenesSuffice }
{}

/// The law of scripts: a typed code of a script plays as the script reads. From every start in
/// range and over every list of contact changes and frames, the abstract machine for scripts never
/// traps and reaches exactly one state. The code reaches the same current and next configuration,
/// frames until the swap and CIF count, and the same contacts, frame of the day and wait.
pub fn scripts()
    ensures { ScriptsPlayAsTheyRead }
{}
