//! Plan codes: the compact code that a reconfiguration script compiles to, as a value and as a
//! file.
//!
//! Every field of the value is within its limits. `Code` is a plan, a table of configurations, a
//! table of labels and the instructions; `decode` and `encode` read and write its file. What an
//! instruction does, and what it needs so as not to trap, is defined in `specs/Machine.antt`; the
//! file format in `specs/Parts.antt`, `specs/Spelling.antt` and `specs/Reading.antt`.
#![tactic(auto)]

pub mod code;
mod code_reader;
mod code_writer;
pub mod fault;
pub mod flags;
pub mod hold;
pub mod instr;
pub mod label;
pub mod laws;
pub mod limits;
pub mod numbers;
mod opcode;
mod operand;
pub mod plan;
mod ranges;
mod read_label;
mod read_line;

pub use code::Code;
pub use code_reader::decode;
pub use code_writer::encode;
pub use fault::CodeFault;
pub use fib_codec::{FrameLayout, Mode};
pub use flags::{Contacts, Counters};
pub use hold::Hold;
pub use instr::{Instr, Line};
pub use label::{Label, Swap};
pub use numbers::{ContactId, CounterId, DayFrame, Delay, Frames, Times};
pub use plan::Plan;
