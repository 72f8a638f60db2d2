//! Laws of scripts and their texts.

ghost use Rattle.script_front.specs.Alike.{ScriptsHaveTheirOwnTokens, TextsAreOfOneScript};
ghost use Rattle.script_front.specs.Moments.{MomentsAreFrames};
ghost use Rattle.script_front.specs.Parsing.{ScriptsAreRead};

pub use script_tokens::laws::texts;

/// Two scripts have the same tokens only where they are alike: apart from lines, they have the same
/// header, the same edits in their items, the same block names, and the same statements in each
/// block and after `begin`.
pub fn scripts()
    ensures { ScriptsHaveTheirOwnTokens }
{}

/// A text is that of at most one script: two scripts with this text are the same, with their lines.
pub fn texts_of_scripts()
    ensures { TextsAreOfOneScript }
{}

/// What is read from some tokens, by `script_at`, is the content of the script that they spell on
/// its lines; and where they spell a script, its content is read.
pub fn readings()
    ensures { ScriptsAreRead }
{}

/// The frame of the day of `TIME` is the first one that does not begin before it, and that of `TIME
/// early N` the one from which it takes N frames to that of `TIME`, over midnight too.
#[tactic(auto, using(crate::proofs::Moments::moments_are_frames))]
pub fn moments()
    ensures { MomentsAreFrames }
{}
