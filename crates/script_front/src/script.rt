//! A script: its tree, with every number in range and all limits kept.

ghost use Rattle.std.specs.Prelude.{◌≡◌, map};

use crate::names::Names;
use crate::tree::{Item, Statement};
use plan_code::Plan;
use std::marker::Model;

/// A script. Every number is in range, every name is well formed and defined once, at most 64
/// blocks are defined, each applies only those before it, braces are at most 16 deep, and there are
/// at most 8,192 items and statements.
#[derive(Drop)]
pub struct Script {
    header: Plan,
    items: Vec<Item>,
    names: Names,
    blocks: Vec<Vec<Statement>>,
    begin_line: u16,
    statements: Vec<Statement>,
    last_line: u16,
}

impl Model for Script {
    ghost use Rattle.script_front.specs.Tree.{Tree, IsScript};
    ghost use Rattle.std.specs.Prelude.{map};
    ghost use Rattle.script_front.specs.contracts.tree.Statement as e;
    ghost use Rattle.std.specs.Coded.{codes};

    ghost Value = { Tree };

    ghost coded = { Prim.hlevel (codes, e.the_row.coded) };

    ghost view = { λ s. record {
      header = s.header;
      items = s.items.items;
      names = s.names;
      blocks = map (λ b. b.items) s.blocks.items;
      begin_line = s.begin_line;
      statements = s.statements.items;
      last_line = s.last_line;
    } };

    ghost invariant = { λ s. IsScript (record {
      header = s.header;
      items = s.items.items;
      names = s.names;
      blocks = map (λ b. b.items) s.blocks.items;
      begin_line = s.begin_line;
      statements = s.statements.items;
      last_line = s.last_line;
    }) };
}

impl Script {
    ghost use Rattle.script_front.specs.Tree.{IsScript};

    /// A script of these parts.
    pub fn new(
        header: Plan,
        items: Vec<Item>,
        names: Names,
        blocks: Vec<Vec<Statement>>,
        begin_line: u16,
        statements: Vec<Statement>,
        last_line: u16,
    ) -> Script
        requires { IsScript (record {
          header = header;
          items = items.items;
          names = names;
          blocks = map (λ b. b.items) blocks.items;
          begin_line = begin_line;
          statements = statements.items;
          last_line = last_line;
        }) }
        ensures { result ≡ record {
          header = header;
          items = items.items;
          names = names;
          blocks = map (λ b. b.items) blocks.items;
          begin_line = begin_line;
          statements = statements.items;
          last_line = last_line;
        } }
    {
        Script {
            header,
            items,
            names,
            blocks,
            begin_line,
            statements,
            last_line,
        }
    }

    /// Its header: the plan that it declares, within its limits.
    pub fn header(&self) -> Plan
        ensures value { result ≡ self.now.header }
        ensures formed { IsScript self.now }
    {
        self.header
    }

    /// Its items.
    pub fn items(&self) -> &[Item]
        ensures value { result.now ≡ self.now.items }
        ensures formed { IsScript self.now }
    {
        self.items.as_slice()
    }

    /// The names of its defined blocks.
    pub fn names(&self) -> &Names
        ensures value { result.now ≡ self.now.names }
        ensures formed { IsScript self.now }
    {
        &self.names
    }

    /// Its defined blocks in the order of their definitions, which is that of their names and
    /// numbers.
    pub fn blocks(&self) -> &[Vec<Statement>]
        ensures value { map (λ b. b.items) result.now ≡ self.now.blocks }
        ensures formed { IsScript self.now }
    {
        self.blocks.as_slice()
    }

    /// The line of `begin`, 1 to 65,535.
    pub fn begin_line(&self) -> u16
        ensures { result ≡ self.now.begin_line }
    {
        self.begin_line
    }

    /// Its statements after `begin`.
    pub fn statements(&self) -> &[Statement]
        ensures value { result.now ≡ self.now.statements }
        ensures formed { IsScript self.now }
    {
        self.statements.as_slice()
    }

    /// The line of the last token, 1 to 65,535.
    pub fn last_line(&self) -> u16
        ensures { result ≡ self.now.last_line }
    {
        self.last_line
    }
}
