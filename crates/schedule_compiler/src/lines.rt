//! The lines that instructions and refusals have.

ghost use Rattle.std.specs.Prelude.{◌≡◌, map};
ghost use Rattle.schedule_front.specs.Tree.{overlay_of};
ghost use Rattle.schedule_compiler.specs.Refusals.{last_line};

use plan_code::ContactId;
use schedule_front::{Overlay, Schedule, Test};

/// The line of the last overlay of a set, the first one the lowest bit; of `schedule` where it is
/// empty.
pub(crate) fn line_of(schedule: &Schedule, set: u64) -> u16
    ensures { result ≡ last_line schedule.now.line set schedule.now.overlays }
{
    last_line(schedule.line(), set, schedule.overlays())
}

/// The line of the last of these overlays that is in a set; else this one.
fn last_line(none: u16, set: u64, overlays: &[Overlay]) -> u16
    ensures { result ≡ last_line none set (map overlay_of overlays.now) }
{
    let mut line = none;
    let mut rest = set;
    for overlay in overlays {
        if rest % 2 == 1 {
            line = overlay.line;
        }
        rest /= 2;
    }
    line
}

/// Whether one of these tests is of a contact.
fn has_contact(tests: &[Test], wanted: ContactId) -> bool {
    for test in tests {
        if let Test::Contact { contact, .. } = *test {
            if contact == wanted {
                return true;
            }
        }
    }
    false
}

/// Whether an overlay tests a contact.
fn tests_contact(overlay: &Overlay, wanted: ContactId) -> bool {
    for tests in &overlay.condition {
        if has_contact(tests.as_slice(), wanted) {
            return true;
        }
    }
    false
}

/// The line of the first overlay that tests a contact; of `schedule` where none does.
pub(crate) fn line_of_contact(schedule: &Schedule, contact: ContactId) -> u16 {
    for overlay in schedule.overlays() {
        if tests_contact(overlay, contact) {
            return overlay.line;
        }
    }
    schedule.line()
}
