//! Reads event and command files.

ghost use Rattle.std.specs.Prelude.{◌≡◌, IfOk, IfSome, string_bytes};
ghost use Rattle.console.specs.World.{Stays};

use console::exit::Failure;
use console::files::Files;
use plan_session::{TextFault, read_text};
use std::alloc::Global;

/// The text of an event or command file, or why it can't be read. The file is read once, to its
/// end, and kept. A file that is not UTF-8 can't be read.
pub fn read_event_text<'a, F: Files>(
    alloc: Global,
    files: &mut F,
    path: &'a str,
) -> Result<String, Failure<'a>>
    ensures text { IfOk result (λ text. IfSome (F.known files.old path.now)
        (λ bytes. bytes ≡ string_bytes text)) }
    ensures world { Stays (F.world files.old) (F.world files.new) }
{
    let file = files.open(path);
    let file = file.map_err(|fault| Failure::of_file(fault, path))?;
    match read_text(alloc, file) {
        Ok(text) => Ok(text),
        Err(TextFault::Memory) => Err(Failure::Memory),
        Err(TextFault::Failed | TextFault::NotUtf8) => Err(Failure::Read(path)),
    }
}
