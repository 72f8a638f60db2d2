//! The lines that `dabplan debug` prints of its commands.

use mux_tables::Tables;
use plan_debug::{Announcement, Command, Debugger, Report};
use plan_session::CommandList;
use std::io::{self, Write};

/// Executes the commands of a list in order, and prints the lines of each.
pub(crate) fn drive<W: Write>(
    debugger: &mut Debugger<'_, Tables>,
    commands: &mut CommandList<'_>,
    out: &mut W,
) -> io::Result<()> {
    while let Some(command) = commands.next() {
        let report = debugger.command(command);
        print_report(&report, out)?;
        if command == Command::Show {
            print_announcements(debugger, out)?;
        }
    }
    Ok(())
}

/// Prints the line of a report, and `break` if the break line was reached.
fn print_report<W: Write>(report: &Report, out: &mut W) -> io::Result<()> {
    let Report {
        frames,
        steps,
        pc,
        line,
        count,
        ..
    } = report;
    write!(out, "frames {frames} steps {steps} pc {pc} line {line}")?;
    match report.remaining {
        Some(frames) => writeln!(out, " count {count} remaining {frames}")?,
        None => writeln!(out, " count {count} remaining none")?,
    }
    if report.broke {
        writeln!(out, "break")?;
    }
    Ok(())
}

/// Prints the recorded announcements, oldest first.
fn print_announcements<W: Write>(debugger: &Debugger<'_, Tables>, out: &mut W) -> io::Result<()> {
    let mut index = 0;
    while let Some(announcement) = debugger.announcement(index) {
        let Announcement {
            count,
            occurrence,
            change,
        } = announcement;
        writeln!(out, "announced {count} swap {occurrence} change {change}")?;
        index += 1;
    }
    Ok(())
}
