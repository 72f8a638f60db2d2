//! Parsing items and the statements without a block.

ghost use Rattle.std.specs.Prelude.{◌≡◌, ℕ, ◌≢◌, true, false, None, IfOk, OnOk, IfErr, suc};
ghost use Rattle.script_tokens.specs.declared.fault.ScriptFault.TheVariants.{Memory};
ghost use Rattle.script_tokens.specs.declared.first_keyword.ItemKeyword.TheVariants as the;
ghost use Rattle.script_tokens.specs.Reading.{Takes, first_item};
ghost use Rattle.script_front.specs.Readers.{sub_at, service_at, new_sub_at, new_packet_at};
ghost use Rattle.script_front.specs.Readers.{groups_at, typed_sub_at, component_from, item_from};
ghost use Rattle.script_front.specs.Readers.{carrier_at, dropping, dropped_at, moved_at, rated_at};
ghost use Rattle.script_front.specs.Readers.{edit_from, committing_at, act_from, items_at};
ghost use Rattle.script_front.specs.Parsing.{ReadsItems, HasMore};

use crate::tree::{Act, Item};
use crate::waits::{moment, waiting};
use mux_config::{Carrier, Component, Edit, NewSub, Packet, ScTy, Sid, SubId};
use script_tokens::fault::ScriptFault;
use script_tokens::first_keyword::{ActKeyword, ComponentKeyword, EditKeyword, ItemKeyword};
use script_tokens::keyword::Keyword;
use script_tokens::token_reader::TokenReader;
use script_tokens::values::{any_u16, delay, profile, sc_id, sc_ty, sid, start, sub_id};
use std::alloc::Global;

/// `sub ID`
#[tactic(auto, unfolding(crate::specs::Readers::sub_at))]
fn sub(reader: &mut TokenReader) -> Result<SubId, ScriptFault>
    ensures { Takes (sub_at reader.old.lexemes) result reader.old reader.new }
{
    reader.expect(Keyword::Sub)?;
    sub_id(reader)
}

/// `in SID`
#[tactic(auto, unfolding(crate::specs::Readers::service_at))]
fn in_service(reader: &mut TokenReader) -> Result<Sid, ScriptFault>
    ensures { Takes (service_at reader.old.lexemes) result reader.old reader.new }
{
    reader.expect(Keyword::In)?;
    sid(reader)
}

/// `ID at START eep PROFILE RATE`
#[tactic(auto, unfolding(crate::specs::Readers::new_sub_at))]
fn new_sub(reader: &mut TokenReader) -> Result<NewSub, ScriptFault>
    ensures { Takes (new_sub_at reader.old.lexemes) result reader.old reader.new }
{
    let id = sub_id(reader)?;
    reader.expect(Keyword::At)?;
    let start = start(reader)?;
    reader.expect(Keyword::Eep)?;
    let protection = profile(reader)?;
    let kbits = any_u16(reader)?;
    Ok(NewSub::from_parts(id, start, protection, kbits))
}

/// `SCID groups type TYPE sub ID address ADDR`, or with `raw` in place of `groups`
#[tactic(auto, unfolding(crate::specs::Readers::new_packet_at))]
fn new_packet(reader: &mut TokenReader) -> Result<Packet, ScriptFault>
    ensures { Takes (new_packet_at reader.old.lexemes) result reader.old reader.new }
{
    let scid = sc_id(reader)?;
    let dg = data_groups(reader)?;
    reader.expect(Keyword::TypeWord)?;
    let ty = sc_ty(reader)?;
    let sub = sub(reader)?;
    reader.expect(Keyword::Address)?;
    let address = any_u16(reader)?;
    Ok(Packet {
        scid,
        dg,
        ty,
        sub,
        address,
    })
}

/// `groups` for DG flag 0, or `raw` for 1
#[tactic(auto, unfolding(crate::specs::Readers::groups_at))]
fn data_groups(reader: &mut TokenReader) -> Result<bool, ScriptFault>
    ensures { Takes (groups_at reader.old.lexemes) result reader.old reader.new }
{
    if reader.is_next(Keyword::Groups) {
        reader.advance();
        return Ok(false);
    }
    reader.expect(Keyword::Raw)?;
    Ok(true)
}

/// `TYPE sub ID`
#[tactic(auto, unfolding(crate::specs::Readers::typed_sub_at))]
fn typed_sub(reader: &mut TokenReader) -> Result<(ScTy, SubId), ScriptFault>
    ensures { Takes (typed_sub_at reader.old.lexemes) result reader.old reader.new }
{
    let ty = sc_ty(reader)?;
    let sub = sub(reader)?;
    Ok((ty, sub))
}

/// `audio`, `data` or `carry`, then the rest of the component
#[tactic(auto, unfolding(crate::specs::Readers::item_from))]
fn component(reader: &mut TokenReader, first: ComponentKeyword) -> Result<Edit, ScriptFault>
    ensures { Takes (item_from (the.Component first) reader.old.lexemes) result
        reader.old reader.new }
{
    let component = carried(reader, first)?;
    let sid = in_service(reader)?;
    Ok(Edit::AddComponent { sid, component })
}

/// What is carried: `audio`, `data` or `carry` with its arguments, up to `in`
#[tactic(auto, unfolding(crate::specs::Readers::component_from))]
fn carried(reader: &mut TokenReader, first: ComponentKeyword) -> Result<Component, ScriptFault>
    ensures { Takes (component_from first reader.old.lexemes) result reader.old reader.new }
{
    match first {
        ComponentKeyword::Audio => {
            let (ty, sub) = typed_sub(reader)?;
            Ok(Component::Sound { ty, sub })
        }
        ComponentKeyword::Data => {
            let (ty, sub) = typed_sub(reader)?;
            Ok(Component::Stream { ty, sub })
        }
        ComponentKeyword::Carry => {
            let scid = sc_id(reader)?;
            Ok(Component::Packet { scid })
        }
    }
}

/// An item, after its first keyword.
#[tactic(auto, unfolding(crate::specs::Readers::item_from))]
fn item(reader: &mut TokenReader, first: ItemKeyword) -> Result<Edit, ScriptFault>
    ensures { Takes (item_from first reader.old.lexemes) result reader.old reader.new }
{
    match first {
        ItemKeyword::Sub => {
            let sub = new_sub(reader)?;
            Ok(Edit::AddSub(sub))
        }
        ItemKeyword::Service => {
            let sid = sid(reader)?;
            Ok(Edit::AddService(sid))
        }
        ItemKeyword::Packet => {
            let packet = new_packet(reader)?;
            Ok(Edit::AddPacket(packet))
        }
        ItemKeyword::Component(keyword) => component(reader, keyword),
    }
}

/// `sub ID` or `packet SCID`
#[tactic(auto, unfolding(crate::specs::Readers::carrier_at))]
fn carrier(reader: &mut TokenReader) -> Result<Carrier, ScriptFault>
    ensures { Takes (carrier_at reader.old.lexemes) result reader.old reader.new }
{
    if reader.is_next(Keyword::Sub) {
        reader.advance();
        let id = sub_id(reader)?;
        return Ok(Carrier::Sub(id));
    }
    reader.expect(Keyword::Packet)?;
    let scid = sc_id(reader)?;
    Ok(Carrier::Packet(scid))
}

/// The rest of an edit after `drop`
#[tactic(auto, unfolding(crate::specs::Readers::dropped_at))]
fn dropped(reader: &mut TokenReader) -> Result<Edit, ScriptFault>
    ensures { Takes (dropped_at reader.old.lexemes) result reader.old reader.new }
{
    if reader.is_next(Keyword::Service) {
        reader.advance();
        let sid = sid(reader)?;
        return Ok(Edit::DropService(sid));
    }
    if reader.is_next(Keyword::Component) {
        reader.advance();
        let carrier = carrier(reader)?;
        let sid = in_service(reader)?;
        return Ok(Edit::DropComponent { sid, carrier });
    }
    let carrier = carrier(reader)?;
    Ok(dropping(carrier))
}

/// An edit that drops this carrier.
fn dropping(carrier: Carrier) -> Edit
    ensures { result ≡ dropping carrier }
{
    match carrier {
        Carrier::Sub(id) => Edit::DropSub(id),
        Carrier::Packet(scid) => Edit::DropPacket(scid),
    }
}

/// `sub ID at START` after `move`
#[tactic(auto, unfolding(crate::specs::Readers::moved_at))]
fn moved(reader: &mut TokenReader) -> Result<Edit, ScriptFault>
    ensures { Takes (moved_at reader.old.lexemes) result reader.old reader.new }
{
    let id = sub(reader)?;
    reader.expect(Keyword::At)?;
    let start = start(reader)?;
    Ok(Edit::MoveSub { id, start })
}

/// `sub ID RATE` after `rate`
#[tactic(auto, unfolding(crate::specs::Readers::rated_at))]
fn rated(reader: &mut TokenReader) -> Result<Edit, ScriptFault>
    ensures { Takes (rated_at reader.old.lexemes) result reader.old reader.new }
{
    let id = sub(reader)?;
    let kbits = any_u16(reader)?;
    Ok(Edit::RateSub { id, kbits })
}

/// An edit, after its first keyword.
///
/// # Errors
///
/// The first in text order of: `Number` for an atom where a value is required that is not such a
/// value in range, `Expected` for any other wrong token or the end of the text.
#[tactic(auto, unfolding(crate::specs::Readers::edit_from))]
pub fn edit(reader: &mut TokenReader, first: EditKeyword) -> Result<Edit, ScriptFault>
    ensures { Takes (edit_from first reader.old.lexemes) result reader.old reader.new }
{
    match first {
        EditKeyword::Drop => dropped(reader),
        EditKeyword::Move => moved(reader),
        EditKeyword::Rate => rated(reader),
        EditKeyword::Item(keyword) => item(reader, keyword),
    }
}

/// `in K` or `at COUNT`, after `commit`
#[tactic(auto, unfolding(crate::specs::Readers::committing_at))]
fn committing(reader: &mut TokenReader) -> Result<Act, ScriptFault>
    ensures { Takes (committing_at reader.old.lexemes) result reader.old reader.new }
{
    if reader.is_next(Keyword::In) {
        reader.advance();
        let delay = delay(reader)?;
        return Ok(Act::CommitIn(delay));
    }
    reader.expect(Keyword::At)?;
    let count = any_u16(reader)?;
    Ok(Act::CommitAt(count))
}

/// A statement without a block, after its first keyword.
#[tactic(auto, unfolding(crate::specs::Readers::act_from))]
pub fn act(reader: &mut TokenReader, first: ActKeyword) -> Result<Act, ScriptFault>
    ensures { Takes (act_from first reader.old.lexemes) result reader.old reader.new }
{
    match first {
        ActKeyword::Wait => waiting(reader),
        ActKeyword::Until => {
            let moment = moment(reader)?;
            Ok(Act::Until(moment))
        }
        ActKeyword::Commit => committing(reader),
        ActKeyword::Join => Ok(Act::Join),
        ActKeyword::Settle => Ok(Act::Settle),
        ActKeyword::Edit(keyword) => {
            let edit = edit(reader, keyword)?;
            Ok(Act::Edit(edit))
        }
    }
}

/// Whether the next token begins an item.
pub fn begins_item(reader: &TokenReader) -> bool
    ensures begins { result ≡ true → first_item reader.now.lexemes ≢ None }
    ensures none { result ≡ false → first_item reader.now.lexemes ≡ None }
{
    reader.item_keyword().is_some()
}

/// Items, as long as one begins; `left` is how many more items and statements the script may have.
#[tactic(auto, using(crate::proofs::ReadingItems::goes_on, crate::proofs::ReadingItems::all_read, crate::proofs::ReadingItems::none_left, crate::proofs::ReadingItems::none_next))]
pub fn items(
    alloc: Global,
    reader: &mut TokenReader,
    left: &mut u16,
) -> Result<Vec<Item>, ScriptFault>
    ensures read { IfOk result (λ v. ReadsItems v.items left.old left.new reader.old reader.new) }
    ensures none { IfErr result (λ e. e ≢ Memory → items_at left.old reader.old.lines
        reader.old.lexemes ≡ None) }
{
    let mut list = Vec::new(alloc);
    while begins_item(reader) {
        if *left == 0 {
            return Err(ScriptFault::Limit(reader.position()));
        }
        *left -= 1;
        one_more(reader, &mut list)?;
    }
    Ok(list)
}

/// Reads an item and appends it to a list.
#[tactic(auto, unfolding(crate::specs::Readers::items_at))]
fn one_more(reader: &mut TokenReader, list: &mut Vec<Item>) -> Result<(), ScriptFault>
    requires { first_item reader.old.lexemes ≢ None }
    ensures more { OnOk result (HasMore list.old.items list.new.items reader.old reader.new) }
    ensures none { IfErr result (λ e. e ≢ Memory → (left : ℕ) → items_at (suc left) reader.old.lines
        reader.old.lexemes ≡ None) }
{
    let Some(first) = reader.item_keyword() else {
        return Err(reader.expected());
    };
    let line = reader.line();
    reader.advance();
    let edit = item(reader, first)?;
    match list.push(Item { line, edit }) {
        Ok(()) => Ok(()),
        Err(_full) => Err(ScriptFault::Memory),
    }
}
