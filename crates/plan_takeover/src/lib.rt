//! Plans that take over from what is on air.
//!
//! [`take_over`] puts instructions before the code of a plan: the edits from the configuration that
//! is on air to the one with which the plan begins, a commit for a notice, and `join`. From that
//! swap on the plan does what it does without them. What the code is then is defined in
//! `specs/Takeover.antt`; the verifier accepts it, or it is refused.
#![tactic(auto)]

mod leading;
mod moving;
mod takeover;

pub use takeover::take_over;
