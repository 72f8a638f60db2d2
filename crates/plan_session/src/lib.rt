//! Sessions: loading a plan, loading its event file or command file, and playing it.
//!
//! A [`Session`] is a code that can be played from a start; `play`, `debug` and `live` begin with
//! one. [`read_text`] reads the text of an event file or of a command file; [`StepList`] and
//! [`CommandList`] give the [`Step`]s or the [`Command`]s of a text one by one and keep none,
//! [`read_events`] and [`read_commands`] all of them. [`play_into`] plays the steps of a list from
//! the start of a session, in large pieces. [`play`] plays a loaded code over the text of an event
//! file into a sink; [`run`] does so from the bytes of a code file. What a text lists is defined in
//! `specs/Events.antt` and `specs/Commands.antt`; a playback, what it delivers and its faults in
//! `specs/Playback.antt`.
#![tactic(auto)]

mod buffer;
pub mod buffered;
pub mod code_file;
pub mod command;
pub mod command_list;
pub mod commands;
pub mod event_fault;
pub mod events;
mod item_fault;
mod items;
pub mod laws;
mod listing;
pub mod playback;
mod playing;
mod reading;
pub mod run_fault;
pub mod session;
pub mod start;
pub mod step;
pub mod step_list;
pub mod text_fault;
pub mod text_file;

pub use buffered::play_into;
pub use code_file::typed_code;
pub use command::Command;
pub use command_list::CommandList;
pub use commands::read_commands;
pub use event_fault::EventFault;
pub use events::read_events;
pub use playback::{play, run};
pub use run_fault::RunFault;
pub use session::Session;
pub use start::{StartOptions, start_with};
pub use step::Step;
pub use step_list::StepList;
pub use text_fault::TextFault;
pub use text_file::read_text;
