//! The keywords that begin items, edits and statements.

ghost use Rattle.std.specs.Prelude.{◌≡◌};
ghost use Rattle.script_tokens.specs.First.{statement_of, item_of};
ghost use Rattle.script_tokens.specs.declared.first_keyword.EditKeyword.TheVariants as edit;
ghost use Rattle.script_tokens.specs.declared.first_keyword.ActKeyword.TheVariants as act;
ghost use Rattle.script_tokens.specs.declared.first_keyword.StatementKeyword.TheVariants as statement;

use crate::keyword::Keyword;

/// A keyword that begins a component.
#[derive(Clone, Copy, Debug, PartialEq, Eq)]
pub enum ComponentKeyword {
    Audio,
    Data,
    Carry,
}

/// A keyword that begins an item.
#[derive(Clone, Copy, Debug, PartialEq, Eq)]
pub enum ItemKeyword {
    Sub,
    Service,
    Packet,
    Component(ComponentKeyword),
}

/// A keyword that begins an edit.
#[derive(Clone, Copy, Debug, PartialEq, Eq)]
pub enum EditKeyword {
    Drop,
    Move,
    Rate,
    Item(ItemKeyword),
}

/// A keyword that begins a statement without a block.
#[derive(Clone, Copy, Debug, PartialEq, Eq)]
pub enum ActKeyword {
    Wait,
    Until,
    Commit,
    Join,
    Settle,
    Edit(EditKeyword),
}

/// A keyword that begins a statement.
#[derive(Clone, Copy, Debug, PartialEq, Eq)]
pub enum StatementKeyword {
    End,
    If,
    Repeat,
    Forever,
    Apply,
    Act(ActKeyword),
}

fn edit(keyword: EditKeyword) -> StatementKeyword
    ensures { result ≡ statement.Act (act.Edit keyword) }
{
    StatementKeyword::Act(ActKeyword::Edit(keyword))
}

fn item(keyword: ItemKeyword) -> StatementKeyword
    ensures { result ≡ statement.Act (act.Edit (edit.Item keyword)) }
{
    edit(EditKeyword::Item(keyword))
}

impl Keyword {
    /// This keyword as one that begins a statement; None if it begins none.
    pub fn statement(self) -> Option<StatementKeyword>
        ensures { result ≡ statement_of self }
    {
        match self {
            Keyword::Sub => Some(item(ItemKeyword::Sub)),
            Keyword::Service => Some(item(ItemKeyword::Service)),
            Keyword::Packet => Some(item(ItemKeyword::Packet)),
            Keyword::Audio => Some(item(ItemKeyword::Component(ComponentKeyword::Audio))),
            Keyword::Data => Some(item(ItemKeyword::Component(ComponentKeyword::Data))),
            Keyword::Carry => Some(item(ItemKeyword::Component(ComponentKeyword::Carry))),
            Keyword::Drop => Some(edit(EditKeyword::Drop)),
            Keyword::Move => Some(edit(EditKeyword::Move)),
            Keyword::Rate => Some(edit(EditKeyword::Rate)),
            Keyword::Wait => Some(StatementKeyword::Act(ActKeyword::Wait)),
            Keyword::Until => Some(StatementKeyword::Act(ActKeyword::Until)),
            Keyword::Commit => Some(StatementKeyword::Act(ActKeyword::Commit)),
            Keyword::Join => Some(StatementKeyword::Act(ActKeyword::Join)),
            Keyword::Settle => Some(StatementKeyword::Act(ActKeyword::Settle)),
            Keyword::End => Some(StatementKeyword::End),
            Keyword::If => Some(StatementKeyword::If),
            Keyword::Repeat => Some(StatementKeyword::Repeat),
            Keyword::Forever => Some(StatementKeyword::Forever),
            Keyword::Apply => Some(StatementKeyword::Apply),
            Keyword::Ensemble
            | Keyword::Mode
            | Keyword::Period
            | Keyword::Notice
            | Keyword::Budget
            | Keyword::Reserve
            | Keyword::Define
            | Keyword::Begin
            | Keyword::Schedule
            | Keyword::Overlay
            | Keyword::While
            | Keyword::And
            | Keyword::At
            | Keyword::Eep
            | Keyword::In
            | Keyword::Groups
            | Keyword::Raw
            | Keyword::TypeWord
            | Keyword::Address
            | Keyword::Component
            | Keyword::Contact
            | Keyword::Closed
            | Keyword::Open
            | Keyword::Early
            | Keyword::Or
            | Keyword::Time
            | Keyword::To
            | Keyword::Else
            | Keyword::OpenBrace
            | Keyword::CloseBrace => None,
        }
    }
}

impl StatementKeyword {
    /// This keyword as one that begins an item; None if it begins none.
    pub fn item(self) -> Option<ItemKeyword>
        ensures { result ≡ item_of self }
    {
        match self {
            StatementKeyword::Act(ActKeyword::Edit(EditKeyword::Item(item))) => Some(item),
            StatementKeyword::Act(
                ActKeyword::Edit(EditKeyword::Drop | EditKeyword::Move | EditKeyword::Rate),
            )
            | StatementKeyword::Act(
                ActKeyword::Wait
                | ActKeyword::Until
                | ActKeyword::Commit
                | ActKeyword::Join
                | ActKeyword::Settle,
            )
            | StatementKeyword::End
            | StatementKeyword::If
            | StatementKeyword::Repeat
            | StatementKeyword::Forever
            | StatementKeyword::Apply => None,
        }
    }
}
