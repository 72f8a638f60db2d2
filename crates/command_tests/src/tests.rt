//! Tests of commands: what is printed, what the output file holds, and how the command ends.

mod answering;
mod comparing;
mod compiling;
mod flushing;
mod playing;
mod verifying;
