//! The lines that are to blame for a refusal: each is left out, or changed, and what becomes of the
//! refusal is tried.

use crate::follow::follow;
use crate::source::{Source, Spot, number_in};
use crate::stop::{Refused, Stop, cause_of};
use crate::trial::{TextPatch, Verdict, patched};
use crate::trier::Trier;
use crate::words::edit_words;
use mux_config::{Carrier, Edit, Store, SubId};
use plan_code::{Code, Instr};
use script_front::{ScriptFault, parse};
use std::alloc::{AllocError, Global};

/// What a statement does.
#[derive(Clone, Copy)]
pub(crate) enum ExecutedStatement {
    /// Adds a sub-channel or a packet component.
    Adds(Carrier),
    /// Drops a member, as this edit does.
    Drops(Edit),
    /// Moves a sub-channel, or gives it another rate.
    Changes(SubId),
}

impl ExecutedStatement {
    /// Drops a sub-channel or a packet component.
    pub(crate) fn drops(carrier: Carrier) -> ExecutedStatement {
        ExecutedStatement::Drops(match carrier {
            Carrier::Sub(id) => Edit::DropSub(id),
            Carrier::Packet(scid) => Edit::DropPacket(scid),
        })
    }

    /// Whether an edit does this.
    pub(crate) fn is_done_by(&self, edit: &Edit) -> bool {
        match (self, *edit) {
            (ExecutedStatement::Adds(Carrier::Sub(id)), Edit::AddSub(sub)) => sub.get().id == *id,
            (ExecutedStatement::Adds(Carrier::Packet(scid)), Edit::AddPacket(packet)) => {
                packet.scid == *scid
            }
            (ExecutedStatement::Drops(drop), edit) => *drop == edit,
            (ExecutedStatement::Changes(of), Edit::MoveSub { id, .. } | Edit::RateSub { id, .. }) =>
                { id == *of }
            _ => false,
        }
    }

    /// The words of the statements that do this, where `_` stands for any: of one kind, or of two.
    fn patterns(&self, alloc: Global) -> Result<[String; 2], AllocError> {
        let none = String::new(alloc);
        match *self {
            ExecutedStatement::Adds(Carrier::Sub(id)) => {
                Ok([format!(in alloc; "sub {} at _ eep _ _", id.get())?, none])
            }
            ExecutedStatement::Adds(Carrier::Packet(scid)) => {
                let scid = scid.get();
                Ok([
                    format!(in alloc; "packet {scid} _ type _ sub _ address _")?,
                    none,
                ])
            }
            ExecutedStatement::Drops(drop) => Ok([edit_words(alloc, drop)?, none]),
            ExecutedStatement::Changes(id) => {
                let id = id.get();
                let moves = format!(in alloc; "move sub {id} at _")?;
                Ok([moves, format!(in alloc; "rate sub {id} _")?])
            }
        }
    }
}

/// A line that is to blame.
#[derive(Clone, Copy)]
pub(crate) struct Blame {
    pub(crate) line: usize,
    /// Whether the refusal is passed without it. Otherwise all that is known is what the line does.
    pub(crate) is_tried: bool,
}

/// The most lines that are tried.
const MOST: u32 = 8;

/// Where the same statement is refused with other words in the place of these tokens, and what is
/// known there; none if it is not.
fn stop_with(
    trier: &Trier,
    stop: &Stop,
    spot: &Spot,
    words: &str,
) -> Result<Option<Stop>, AllocError> {
    let patch = TextPatch::at(trier.alloc, spot, words)?;
    let Some(text) = patched(trier.alloc, trier.source.text, &patch)? else {
        return Ok(None);
    };
    let there = match parse(trier.alloc, text.as_str()) {
        Ok(script) => follow(trier.alloc, &script)?,
        Err(ScriptFault::Memory) => return Err(AllocError),
        Err(_fault) => None,
    };
    Ok(there.filter(|there| match (stop.refused, there.refused) {
        _ if stop.line != there.line => false,
        (Refused::Instr(a, _), Refused::Instr(b, _)) => a == b,
        (Refused::Opening(_), Refused::Opening(_)) => true,
        _ => false,
    }))
}

/// Another protection profile, of the same set, than this one: the one that takes least, if it is
/// not that.
fn other_profile(profile: &str) -> &'static str {
    match profile {
        "4-A" => "3-A",
        "4-B" => "3-B",
        "1-B" | "2-B" | "3-B" => "4-B",
        _ => "4-A",
    }
}

/// Whether a sub-channel has another profile where a plan is refused, if its addition at these
/// tokens has: then it was added there.
fn is_added_by(trier: &Trier, stop: &Stop, id: SubId, spot: &Spot) -> Result<bool, AllocError> {
    let index = spot.index.saturating_add(5);
    let Some(token) = trier.source.spot(index, 1) else {
        return Ok(false);
    };
    let profile = other_profile(trier.source.word(index));
    let Some(there) = stop_with(trier, stop, &token, profile)? else {
        return Ok(false);
    };
    match (stop.here.next.sub(id), there.here.next.sub(id)) {
        (Some(before), Some(after)) => Ok(before.protection != after.protection),
        _ => Ok(false),
    }
}

/// Whether the line of these tokens is to blame for a refusal by what it does, given what becomes
/// of it without them.
fn is_due(
    trier: &Trier,
    stop: &Stop,
    executed: &ExecutedStatement,
    spot: &Spot,
    verdict: Option<Verdict>,
) -> Result<bool, AllocError> {
    match (verdict, executed) {
        (Some(Verdict::Accepted) | Some(Verdict::Passed), _) => Ok(true),
        (Some(Verdict::Other), ExecutedStatement::Adds(Carrier::Sub(id))) => {
            is_added_by(trier, stop, *id, spot)
        }
        (Some(Verdict::Other), _) => {
            let there = stop_with(trier, stop, spot, "")?;
            Ok(there.is_some_and(|there| cause_of(there.refused) != cause_of(stop.refused)))
        }
        _ => Ok(false),
    }
}

/// The line before the refused one that is to blame by what it does: the last one for which this is
/// found. Or else the last one without which the text is refused otherwise, or of a code, of which
/// nothing is known but what it does.
pub(crate) fn blamed_line(
    trier: &Trier,
    stop: &Stop,
    executed: &ExecutedStatement,
) -> Result<Option<Blame>, AllocError> {
    if let Some((code, pc)) = trier.code {
        return Ok(last_in(code, pc, executed));
    }
    let patterns = executed.patterns(trier.alloc)?;
    let [one, two] = &patterns;
    let first = Source::new(trier.alloc, one.as_str())?;
    let words = [first, Source::new(trier.alloc, two.as_str())?];
    let mut before = trier.before;
    let mut other = None;
    for _line in 0..MOST {
        let Some(spot) = trier.source.last_before(before, &words) else {
            return Ok(other);
        };
        let verdict = trier.without(&spot)?;
        let is_tried = is_due(trier, stop, executed, &spot, verdict)?;
        let blame = Some(Blame {
            line: spot.line,
            is_tried,
        });
        if is_tried {
            return Ok(blame);
        }
        if verdict == Some(Verdict::Other) && other.is_none() {
            other = blame;
        }
        before = spot.index;
    }
    Ok(other)
}

/// Whether another swap is or may be pending where a plan is refused, if the commit at these tokens
/// has another delay: then it is pending by this commit.
fn is_pending_by(trier: &Trier, stop: &Stop, spot: &Spot) -> Result<bool, AllocError> {
    let source = &trier.source;
    let delay = if source.word(spot.index.saturating_add(1)) == "in" {
        number_in(source.word(spot.index.saturating_add(2))).saturating_add(1)
    } else {
        source.number_after("notice")
    };
    let words = format!(in trier.alloc; "commit in {delay}")?;
    let there = stop_with(trier, stop, spot, words.as_str())?;
    Ok(there.is_some_and(|there| there.here.pending != stop.here.pending))
}

/// The line of the commit by which a swap is or may be pending where a plan is refused; none if it
/// is not found, or there are several.
pub(crate) fn commit_of(trier: &Trier, stop: &Stop) -> Result<Option<usize>, AllocError> {
    let commit = [Source::new(trier.alloc, "commit _ _")?];
    let mut before = trier.before;
    let mut found = None;
    for _line in 0..MOST {
        let Some(spot) = trier.source.last_before(before, &commit) else {
            return Ok(found);
        };
        if is_pending_by(trier, stop, &spot)? {
            if found.is_some() {
                return Ok(None);
            }
            found = Some(spot.line);
        }
        before = spot.index;
    }
    Ok(found)
}

/// The line of the last instruction before a pc that does something.
fn last_in(code: &Code, pc: u16, executed: &ExecutedStatement) -> Option<Blame> {
    let before = code.lines().get(..usize::from(pc))?;
    let line = before.iter().rev().find(|line| match &line.instr {
        Instr::Edit(edit) => executed.is_done_by(edit),
        _ => false,
    })?;
    Some(Blame {
        line: usize::from(line.number),
        is_tried: false,
    })
}
