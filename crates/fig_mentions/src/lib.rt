//! FIGs that name sub-channels, packet components and components of services: FIG 0/4, 0/5, 0/8,
//! 0/14 and 0/19 of this ensemble, and whether what they name is in a configuration.
//!
//! `specs/Mentions.antt` defines their grammar, and `specs/Agreeing.antt` which of them agree with
//! a configuration.
#![tactic(auto)]

mod agreeing;
mod grammar;
mod mention;
mod presence;

pub use agreeing::{agrees, is_judged};
pub use grammar::{entry_mention, entry_size};
pub use mention::Mention;
pub use presence::{is_named, is_nothing};
