//! Lines of text.

use crate::clock::{Clock, time_of};
use crate::description::{Description, Detail, event, fault};
use crate::line::{Line, Totals};
use crate::sid::Sid;
use fig_mentions::Mention;
use std::fmt::{self, Display, Formatter};
use std::io::{self, Write};
use stream_check::{EntryName, Finding, What};

/// Prints a line of text.
pub(crate) fn print_text<W: Write>(
    start: Option<u32>,
    before: u64,
    line: &Line,
    out: &mut W,
) -> io::Result<()> {
    match line {
        Line::Found(finding) => print_finding(time_of(start, before, finding), finding, out),
        Line::Alive(totals) => writeln!(out, "alive {}", TotalsText(totals)),
        Line::Ended(totals) => writeln!(out, "{}", TotalsText(totals)),
        Line::Refused(cause) => writeln!(out, "refused: {cause}"),
    }
}

/// Prints a finding: its time, if that is known, its frame and count, and what was found.
fn print_finding<W: Write>(time: Option<Clock>, finding: &Finding, out: &mut W) -> io::Result<()> {
    if let Some(time) = time {
        write!(out, "{time} ")?;
    }
    let Finding { frame, count, what } = *finding;
    match what {
        What::Event(found) => writeln!(out, "{frame} {count} {}", DescriptionText(event(found))),
        What::Fault(found) => {
            writeln!(
                out,
                "{frame} {count} fault: {}",
                DescriptionText(fault(found))
            )
        }
    }
}

/// A description as text.
#[derive(Clone, Copy)]
struct DescriptionText(Description);

impl Display for DescriptionText {
    fn fmt<W: fmt::Write>(&self, f: &mut Formatter<W>) -> fmt::Result {
        let Description { words, details, .. } = self.0;
        let ([before, between, after], [one, other]) = (words, details);
        write!(
            f,
            "{before}{}{between}{}{after}",
            DetailText(one),
            DetailText(other)
        )
    }
}

/// What a finding is about, as text.
#[derive(Clone, Copy)]
struct DetailText(Detail);

impl Display for DetailText {
    fn fmt<W: fmt::Write>(&self, f: &mut Formatter<W>) -> fmt::Result {
        match self.0 {
            Detail::Nothing => Ok(()),
            Detail::Number(_, value) => write!(f, "{value}"),
            Detail::Ensemble(eid) => write!(f, "{eid:04X}"),
            Detail::Entry(name) => NameText(name).fmt(f),
            Detail::Named(mention) => MentionText(mention).fmt(f),
            Detail::Subs(one, other) => write!(f, "{one} {other}"),
        }
    }
}

/// What an entry of a FIG names, as text.
#[derive(Clone, Copy)]
struct MentionText(Mention);

impl Display for MentionText {
    fn fmt<W: fmt::Write>(&self, f: &mut Formatter<W>) -> fmt::Result {
        match self.0 {
            Mention::Nothing => f.write_str("nothing"),
            Mention::Sub(sub) => write!(f, "sub {sub}"),
            Mention::Packet(scid) => write!(f, "packet {scid}"),
            Mention::OnSub(sid, sub) => write!(f, "sub {sub} of service {}", Sid(sid)),
            Mention::ByPacket(sid, scid) => write!(f, "packet {scid} of service {}", Sid(sid)),
        }
    }
}

/// The name of an entry as text.
#[derive(Clone, Copy)]
struct NameText(EntryName);

impl Display for NameText {
    fn fmt<W: fmt::Write>(&self, f: &mut Formatter<W>) -> fmt::Result {
        match self.0 {
            EntryName::Sub(id) => write!(f, "sub {id}"),
            EntryName::Service(sid) => write!(f, "service {:04X}", sid % (1 << 16)),
            EntryName::LongService(sid) => write!(f, "service {:08X}", sid % (1 << 32)),
            EntryName::Packet(scid) => write!(f, "packet {scid}"),
        }
    }
}

/// Totals as text.
#[derive(Clone, Copy)]
struct TotalsText<'t>(&'t Totals);

impl Display for TotalsText<'_> {
    fn fmt<W: fmt::Write>(&self, f: &mut Formatter<W>) -> fmt::Result {
        let Totals {
            summary,
            swaps,
            faults,
        } = *self.0;
        let (frames, skipped) = (summary.frames, summary.skipped);
        let (left_over, damaged) = (summary.left_over, summary.damaged);
        write!(
            f,
            "frames {frames} skipped {skipped} left over {left_over} damaged {damaged} "
        )?;
        write!(f, "swaps {swaps} faults {faults}")
    }
}
