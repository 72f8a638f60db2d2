//! Laws of tokens and of values.

ghost use Rattle.script_tokens.specs.FirstFrames.{TimesAreFirstFrames};
ghost use Rattle.script_tokens.specs.Texts.{TextsAreCut};
ghost use Rattle.script_tokens.specs.Reading.{FirstKeywordsAreFound};
ghost use Rattle.script_tokens.specs.Taking.{ValuesAreRead};

/// A text is cut into tokens exactly where it consists of blanks, comments, braces and atoms, no
/// two atoms are adjacent, each comment ends with its line or the text, and no token exceeds a
/// limit. The tokens are its braces and atoms, each with its span and its position.
#[tactic(auto, using(crate::proofs::Pieces::texts_are_cut))]
pub fn texts()
    ensures { TextsAreCut }
{}

/// A value that is read from the front of some tokens is in range and is spelled by the tokens
/// taken; and tokens that spell a value in range are read as that value, whatever follows them.
#[tactic(auto, using(crate::proofs::Combining::values_are_read))]
pub fn values()
    ensures { ValuesAreRead }
{}

/// The keyword that is found to begin a statement or an item is the first token, and each such
/// keyword is found.
#[tactic(auto, using(crate::proofs::FirstKeywords::first_keywords_are_found))]
pub fn first_keywords()
    ensures { FirstKeywordsAreFound }
{}

/// The frame of the day of a time is the first one that does not begin before it, where each frame
/// begins 24 ms after the one before, and the first one at midnight.
#[tactic(auto, using(crate::proofs::FirstFrames::times_are_first_frames))]
pub fn first_frames()
    ensures { TimesAreFirstFrames }
{}
