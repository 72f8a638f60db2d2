//! Explains why the items of a script are refused, or the configuration that they make.

use crate::because::ExecutedStatement;
use crate::edits::hint_on_edit;
use crate::fact::Fact;
use crate::facts::{facts_of, unsound};
use crate::follow::opening_stop;
use crate::hint::explain_known;
use crate::list::push_owned;
use crate::note::Note;
use crate::sentence::{put_plain, put_refused};
use crate::stop::{Refused, Stop, cause_of};
use crate::trier::Trier;
use mux_config::{Carrier, Config, Edit, EditFault, Sid};
use plan_code::Instr;
use plan_verifier::Cause;
use script_front::{Item, Script};
use std::alloc::{AllocError, Global};
use std::io::{self, Write};

/// An item with a fault.
#[derive(Clone, Copy)]
struct ItemFault {
    line: u16,
    edit: Edit,
    fault: EditFault,
}

/// The items of a script, those that have a fault apart.
#[derive(Drop)]
struct Items<'a> {
    alloc: Global,
    script: &'a Script,
    faults: Vec<ItemFault>,
    /// The configuration that the others make.
    config: Config,
}

impl<'a> Items<'a> {
    /// Those of a script.
    fn of(alloc: Global, script: &'a Script) -> Result<Items<'a>, AllocError> {
        let mut items = Items {
            alloc,
            script,
            faults: Vec::new(alloc),
            config: Config::new(),
        };
        for item in script.items() {
            if let Err(fault) = item.edit.apply(&mut items.config) {
                let (line, edit) = (item.line, item.edit);
                push_owned(&mut items.faults, ItemFault { line, edit, fault })?;
            }
        }
        Ok(items)
    }

    /// Whether an item with a fault before this one adds the service that this one misses, or
    /// misses it too.
    fn is_due(&self, at: usize, item: &ItemFault) -> bool {
        match (item.edit, item.fault) {
            (Edit::AddComponent { sid, .. }, EditFault::IdAbsent) => self.concerns(at, sid),
            _ => false,
        }
    }

    /// Whether one of so many items with a fault adds a service, or a component to it.
    fn concerns(&self, count: usize, sid: Sid) -> bool {
        let mut before = self.faults.as_slice().iter().take(count);
        before.any(|item| match item.edit {
            Edit::AddService(other) | Edit::AddComponent { sid: other, .. } => other == sid,
            _ => false,
        })
    }

    /// Whether an item with a fault adds this carrier.
    fn refuses(&self, carrier: Carrier) -> bool {
        let adds = ExecutedStatement::Adds(carrier);
        let mut items = self.faults.as_slice().iter();
        items.any(|item| adds.is_done_by(&item.edit))
    }

    /// Whether a fact about the other items may be due to those with a fault.
    fn explain(&self, fact: &Fact) -> bool {
        match fact {
            Fact::Empty(sid) => self.concerns(self.faults.len(), *sid),
            Fact::Orphan(_, carrier) => self.refuses(*carrier),
            Fact::OrphanPacket(packet) => self.refuses(Carrier::Sub(packet.sub)),
            _ => false,
        }
    }

    /// The line of the item that adds what a fact is about; that of `begin` if there is none.
    fn line_of(&self, fact: &Fact) -> u16 {
        let mut items = self.script.items().iter();
        let item = items.find(|item| makes(&item.edit, fact));
        item.map_or(self.script.begin_line(), |item| item.line)
    }

    /// The line of a later item that adds the service which a refused one misses.
    fn later_service(&self, stop: &Stop) -> Option<u16> {
        let (Some(Instr::Edit(Edit::AddComponent { sid, .. })), Cause::Edit(EditFault::IdAbsent)) =
            (stop.instr(), cause_of(stop.refused)) else {
            return None;
        };
        let mut items = self.script.items().iter();
        let is_it = |item: &&Item| item.line >= stop.line && item.edit == Edit::AddService(sid);
        Some(items.find(is_it)?.line)
    }

    /// Says why an item is refused.
    fn put_item(&self, trier: &Trier, stop: &Stop, out: &mut Vec<u8>) -> io::Result<()> {
        let facts = facts_of(self.alloc, stop)?;
        let Some(later) = self.later_service(stop) else {
            return put_refused(trier, stop, facts.first(), out);
        };
        match facts.first() {
            Some(fact) => put_plain(fact, stop, out)?,
            None => out.write_all(b"the service is not there yet")?,
        }
        write!(out, "; it comes in line {later}")
    }

    /// Appends a note on each further item with a fault, except those that may be due to others.
    fn note_others(&self, trier: &Trier, notes: &mut Vec<Note>) -> io::Result<()> {
        for (at, item) in self.faults.as_slice().iter().enumerate() {
            if at > 0 && !self.is_due(at, item) {
                let refused = Refused::Instr(Instr::Edit(item.edit), Cause::Edit(item.fault));
                let stop = opening_stop(self.script, item.line, refused, &self.config);
                let mut note = Note::on_line(self.alloc, item.line);
                self.put_item(trier, &stop, &mut note.text)?;
                push_owned(notes, note)?;
            }
        }
        Ok(())
    }

    /// Appends a note on each of these facts about the configuration of the items, in the line of
    /// the item that it is about, except those that may be due to items with a fault.
    fn note_facts(&self, stop: &Stop, facts: &[Fact], notes: &mut Vec<Note>) -> io::Result<()> {
        for fact in facts {
            if !self.explain(fact) {
                let mut note = Note::on_line(self.alloc, self.line_of(fact));
                put_plain(fact, stop, &mut note.text)?;
                push_owned(notes, note)?;
            }
        }
        Ok(())
    }
}

/// Whether an edit adds what a fact about a configuration is about, the second of two sub-channels.
fn makes(edit: &Edit, fact: &Fact) -> bool {
    match (edit, fact) {
        (Edit::AddSub(sub), Fact::Shared(overlap)) => sub.get().id == overlap.second.id,
        (Edit::AddService(sid), Fact::Empty(other)) => sid == other,
        (Edit::AddComponent { sid, component }, Fact::Orphan(other, carrier)) => {
            sid == other && component.carrier() == *carrier
        }
        (Edit::AddPacket(packet), Fact::OrphanPacket(other)) => packet.scid == other.scid,
        (Edit::AddPacket(packet), Fact::SameAddress(_, other)) => packet.scid == other.scid,
        _ => false,
    }
}

/// Notes on a refused opening: its first item with a fault, or else the configuration; and each
/// other fault.
pub(crate) fn notes_on_opening(
    trier: &mut Trier,
    script: &Script,
    stop: &Stop,
    notes: &mut Vec<Note>,
) -> io::Result<()> {
    let items = Items::of(trier.alloc, script)?;
    let mut note = Note::on_line(trier.alloc, stop.line);
    if let Some(item) = items.faults.first() {
        items.put_item(trier, stop, &mut note.text)?;
        hint_on_edit(trier, &items.config, &item.edit, item.fault)?;
        trier.put_hint(&mut note)?;
        push_owned(notes, note)?;
        trier.before = 0;
        items.note_others(trier, notes)?;
        let refused = Refused::Opening(Cause::NoChange);
        let whole = opening_stop(script, script.begin_line(), refused, &items.config);
        let facts = unsound(trier.alloc, &whole)?;
        return items.note_facts(&whole, facts.as_slice(), notes);
    }
    let facts = facts_of(trier.alloc, stop)?;
    explain_known(trier, stop, facts.as_slice(), &mut note)?;
    trier.put_hint(&mut note)?;
    push_owned(notes, note)?;
    items.note_facts(stop, facts.as_slice().get(1..).unwrap_or(&[]), notes)
}
