//! Configurations as scripts, and the plans between them (EN 300 401 clauses 6.1 to 6.5).
//!
//! - From a script or a schedule: [`made_by`] applies its items to the empty configuration, and
//! [`read_opening`]
//!   returns the [`Opening`] of a text, whose configuration is sound.
//! - To a script: [`script_of`] makes the script that begins with a configuration, and
//! [`config_text`] its text.
//! - From a stream of FIBs: [`eid_after`] returns the EId that it signals last, and
//! [`config_heard`] the configuration
//!   that a picture shows, or the first entry that no configuration has.
//! - Between two configurations: [`edits_that_make`] returns the edits that make a configuration
//! from the empty one,
//!   and [`edits_between`] those that turn one into another.
//! - Between two openings: [`fault_between`] says why there is no plan, and [`plan_between`] makes
//! the plan that turns
//!   one configuration into the other by one reconfiguration.
//! - That no edit of these has a fault, and what they result in, is a law in [`laws`], and so is
//! that a configuration
//!   which is sent page by page is heard again.
//!
//! What items make is defined in `specs/Items.antt`, the script of a configuration in
//! `specs/Plain.antt` and its text in `specs/Texts.antt`; the EId of a stream in
//! `specs/Ensembles.antt`, and entries that no configuration has in `specs/Unsaid.antt`; edits in
//! `specs/Making.antt` and `specs/Differences.antt`; the plan in `specs/Plan.antt`, the refusals in
//! `specs/Refusals.antt`, and what is heard again in `specs/HeardAgain.antt`.
#![tactic(auto)]

pub mod additions;
pub mod alterations;
pub mod difference;
pub mod ensembles;
pub mod heard;
pub mod items;
pub mod laws;
mod list;
pub mod opening;
pub mod plain;
pub mod plan;
pub mod refusal;
pub mod removals;
pub mod text;

pub use difference::{edits_between, edits_that_make};
pub use ensembles::eid_after;
pub use heard::config_heard;
pub use items::{ItemFault, made_by};
pub use opening::{Opening, OpeningFault, read_opening};
pub use plain::{MOST_ACTS, script_of};
pub use plan::{acts_between, plan_between};
pub use refusal::{DiffFault, fault_between, fits_period};
pub use text::{config_text, usual_period};
