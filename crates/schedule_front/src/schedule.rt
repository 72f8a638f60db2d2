//! A schedule: its tree, with every number in range and all limits kept.

ghost use Rattle.std.specs.Prelude.{◌≡◌, map};
ghost use Rattle.schedule_front.specs.Tree.{overlay_of};

use crate::tree::Overlay;
use plan_code::Plan;
use script_front::{Item, Names};
use std::marker::Model;

/// A schedule. Every number is in range, every name is well formed and that of one overlay, there
/// are at most 64 overlays, each with at most 32 tests, and at most 8,192 items, overlays and edits
/// in all.
#[derive(Drop)]
pub struct Schedule {
    header: Plan,
    items: Vec<Item>,
    line: u16,
    names: Names,
    overlays: Vec<Overlay>,
    last_line: u16,
}

impl Model for Schedule {
    ghost use Rattle.schedule_front.specs.Tree.{Tree, IsSchedule, overlay_of};
    ghost use Rattle.std.specs.Prelude.{map};

    ghost Value = { Tree };

    ghost view = { λ s. record {
      header = s.header;
      items = s.items.items;
      line = s.line;
      names = s.names;
      overlays = map overlay_of s.overlays.items;
      last_line = s.last_line;
    } };

    ghost invariant = { λ s. IsSchedule (record {
      header = s.header;
      items = s.items.items;
      line = s.line;
      names = s.names;
      overlays = map overlay_of s.overlays.items;
      last_line = s.last_line;
    }) };
}

impl Schedule {
    ghost use Rattle.schedule_front.specs.Tree.{IsSchedule};

    /// A schedule of these parts.
    pub fn new(
        header: Plan,
        items: Vec<Item>,
        line: u16,
        names: Names,
        overlays: Vec<Overlay>,
        last_line: u16,
    ) -> Schedule
        requires { IsSchedule (record {
          header = header;
          items = items.items;
          line = line;
          names = names;
          overlays = map overlay_of overlays.items;
          last_line = last_line;
        }) }
        ensures { result ≡ record {
          header = header;
          items = items.items;
          line = line;
          names = names;
          overlays = map overlay_of overlays.items;
          last_line = last_line;
        } }
    {
        Schedule {
            header,
            items,
            line,
            names,
            overlays,
            last_line,
        }
    }

    /// Its header: the plan that it declares, within its limits.
    pub fn header(&self) -> Plan
        ensures value { result ≡ self.now.header }
        ensures formed { IsSchedule self.now }
    {
        self.header
    }

    /// Its items.
    pub fn items(&self) -> &[Item]
        ensures value { result.now ≡ self.now.items }
        ensures formed { IsSchedule self.now }
    {
        self.items.as_slice()
    }

    /// The line of the word `schedule`, 1 to 65,535.
    pub fn line(&self) -> u16
        ensures { result ≡ self.now.line }
    {
        self.line
    }

    /// The names of its overlays, one for each, in their order.
    pub fn names(&self) -> &Names
        ensures value { result.now ≡ self.now.names }
        ensures formed { IsSchedule self.now }
    {
        &self.names
    }

    /// Its overlays in the order of the text.
    pub fn overlays(&self) -> &[Overlay]
        ensures value { map overlay_of result.now ≡ self.now.overlays }
        ensures formed { IsSchedule self.now }
    {
        self.overlays.as_slice()
    }

    /// The line of the last token, 1 to 65,535.
    pub fn last_line(&self) -> u16
        ensures { result ≡ self.now.last_line }
    {
        self.last_line
    }
}
