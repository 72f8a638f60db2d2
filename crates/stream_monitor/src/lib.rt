//! Monitors a stream of FIBs: checks it as its bytes come, and tells each finding at once, as a
//! line of text or of JSON.
//!
//! What a check finds and how it ends is defined in `specs/Outcome.antt`, and what it has told
//! before it reads on in `specs/Log.antt`. The lines that are printed of this have no contract:
//! they are tested.
#![tactic(auto)]

mod advice;
mod check;
mod clock;
mod description;
mod ending;
mod fibs;
mod file_monitor;
mod format;
mod frame_findings;
mod hint;
mod json;
pub mod laws;
mod line;
mod logging_monitor;
mod monitor;
mod options;
mod sid;
mod tally;
mod text;

pub use check::{CheckFailure, check_stream};
pub use ending::Ending;
pub use fibs::{FileFibs, Next};
pub use file_monitor::FileMonitor;
pub use format::{Format, format_of, is_other};
pub use hint::{Hints, OtherFormat};
pub use line::{Cause, Form, Line, Totals, print_line};
pub use logging_monitor::LoggingMonitor;
pub use monitor::Monitor;
pub use options::CheckOptions;
