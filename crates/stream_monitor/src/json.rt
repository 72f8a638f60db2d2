//! Lines of JSON: one object each, without blanks outside of strings.

use crate::clock::{Clock, time_of};
use crate::description::{Detail, event, fault};
use crate::line::{Line, Totals};
use crate::sid::Sid;
use fig_mentions::Mention;
use std::fmt::{self, Display, Formatter};
use std::io::{self, Write};
use stream_check::{EntryName, Finding, What};

/// Prints a line of JSON.
pub(crate) fn print_json<W: Write>(
    start: Option<u32>,
    before: u64,
    line: &Line,
    out: &mut W,
) -> io::Result<()> {
    match line {
        Line::Found(finding) => print_finding(time_of(start, before, finding), finding, out),
        Line::Alive(totals) => print_totals("alive", totals, out),
        Line::Ended(totals) => print_totals("summary", totals, out),
        Line::Refused(cause) => { writeln!(out, "{{\"kind\":\"refused\",\"cause\":\"{cause}\"}}") }
    }
}

/// Prints a finding: its kind, its time, if that is known, its frame and count, and what was found.
fn print_finding<W: Write>(time: Option<Clock>, finding: &Finding, out: &mut W) -> io::Result<()> {
    let Finding { frame, count, what } = *finding;
    let (kind, found) = match what {
        What::Event(found) => (event(found).name, event(found)),
        What::Fault(found) => ("fault", fault(found)),
    };
    write!(out, "{{\"kind\":\"{kind}\",")?;
    if let Some(time) = time {
        write!(out, "\"time\":\"{time}\",")?;
    }
    write!(out, "\"frame\":{frame},\"count\":{count}")?;
    if let What::Fault(_) = what {
        write!(out, ",\"fault\":\"{}\"", found.name)?;
    }
    let [one, other] = found.details;
    writeln!(out, "{}{}}}", DetailFields(one), DetailFields(other))
}

/// What a finding is about, as fields.
#[derive(Clone, Copy)]
struct DetailFields(Detail);

impl Display for DetailFields {
    fn fmt<W: fmt::Write>(&self, f: &mut Formatter<W>) -> fmt::Result {
        match self.0 {
            Detail::Nothing => Ok(()),
            Detail::Number(field, value) => write!(f, ",\"{field}\":{value}"),
            Detail::Ensemble(eid) => write!(f, ",\"eid\":\"{eid:04X}\""),
            Detail::Entry(name) => NameField(name).fmt(f),
            Detail::Named(mention) => MentionFields(mention).fmt(f),
            Detail::Subs(one, other) => write!(f, ",\"subs\":[{one},{other}]"),
        }
    }
}

/// What an entry of a FIG names, as fields.
#[derive(Clone, Copy)]
struct MentionFields(Mention);

impl Display for MentionFields {
    fn fmt<W: fmt::Write>(&self, f: &mut Formatter<W>) -> fmt::Result {
        match self.0 {
            Mention::Nothing => Ok(()),
            Mention::Sub(sub) => write!(f, ",\"sub\":{sub}"),
            Mention::Packet(scid) => write!(f, ",\"packet\":{scid}"),
            Mention::OnSub(sid, sub) => write!(f, ",\"sub\":{sub},\"service\":\"{}\"", Sid(sid)),
            Mention::ByPacket(sid, scid) => {
                write!(f, ",\"packet\":{scid},\"service\":\"{}\"", Sid(sid))
            }
        }
    }
}

/// The name of an entry as a field.
#[derive(Clone, Copy)]
struct NameField(EntryName);

impl Display for NameField {
    fn fmt<W: fmt::Write>(&self, f: &mut Formatter<W>) -> fmt::Result {
        match self.0 {
            EntryName::Sub(id) => write!(f, ",\"sub\":{id}"),
            EntryName::Service(sid) => write!(f, ",\"service\":\"{:04X}\"", sid % (1 << 16)),
            EntryName::LongService(sid) => write!(f, ",\"service\":\"{:08X}\"", sid % (1 << 32)),
            EntryName::Packet(scid) => write!(f, ",\"packet\":{scid}"),
        }
    }
}

/// Prints totals of this kind.
fn print_totals<W: Write>(kind: &str, totals: &Totals, out: &mut W) -> io::Result<()> {
    let Totals {
        summary,
        swaps,
        faults,
    } = *totals;
    let (frames, skipped) = (summary.frames, summary.skipped);
    let (left_over, damaged) = (summary.left_over, summary.damaged);
    write!(
        out,
        "{{\"kind\":\"{kind}\",\"frames\":{frames},\"skipped\":{skipped},\"left_over\":{left_over}"
    )?;
    writeln!(
        out,
        ",\"damaged\":{damaged},\"swaps\":{swaps},\"faults\":{faults}}}"
    )
}
