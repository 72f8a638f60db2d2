//! Tests with `parse` which tokens are valid at a position of a script.

use crate::source::Source;
use crate::trial::position_of;
use script_front::{ScriptFault, parse};
use std::alloc::{AllocError, Global};

/// The tokens of a script up to one at fault, in one line: so a token after them exceeds no limit
/// on texts and lines.
#[derive(Drop)]
pub(crate) struct Front<'a> {
    pub(crate) alloc: Global,
    text: String,
    /// The last of the tokens; empty if there is none.
    pub(crate) last: &'a str,
}

impl<'a> Front<'a> {
    /// The first tokens of a text, so many.
    pub(crate) fn new(
        alloc: Global,
        source: &Source<'a>,
        count: usize,
    ) -> Result<Front<'a>, AllocError> {
        let mut front = Front {
            alloc,
            text: String::new(alloc),
            last: "",
        };
        for index in 0..count {
            let word = source.word(index);
            front.text.push_str(word)?;
            front.text.push_str(" ")?;
            front.last = word;
        }
        Ok(front)
    }

    /// The fault that `parse` finds at a token after the front, if it finds one.
    fn fault_at(&self, token: &str) -> Result<Option<ScriptFault>, AllocError> {
        let text = format!(in self.alloc; "{}{token}", self.text)?;
        let fault = match parse(self.alloc, text.as_str()) {
            Ok(_script) => return Ok(None),
            Err(fault) => fault,
        };
        let Some(at) = position_of(fault) else {
            return Err(AllocError);
        };
        let is_there = at.line == 1 && at.column == self.text.len().saturating_add(1);
        Ok(is_there.then_some(fault))
    }

    /// Whether a token is valid after the front.
    pub(crate) fn passes(&self, token: &str) -> Result<bool, AllocError> {
        Ok(self.fault_at(token)?.is_none())
    }

    /// Whether a name is valid after the front, be this one used or unknown.
    pub(crate) fn takes_name(&self) -> Result<bool, AllocError> {
        Ok(match self.fault_at("zz_name")? {
            None | Some(ScriptFault::NameUsed(_) | ScriptFault::NameUnknown(_)) => true,
            Some(_) => false,
        })
    }

    /// Whether the script may end after the front.
    pub(crate) fn may_end(&self) -> Result<bool, AllocError> {
        match parse(self.alloc, self.text.as_str()) {
            Ok(_script) => Ok(true),
            Err(ScriptFault::Memory) => Err(AllocError),
            Err(_fault) => Ok(false),
        }
    }

    /// Whether a decimal is valid after the front.
    fn passes_number(&self, number: u32) -> Result<bool, AllocError> {
        let token = format!(in self.alloc; "{number}")?;
        self.passes(token.as_str())
    }

    /// The least and the greatest decimal that are valid, if any is: the ranges of the grammar
    /// begin at 0, 1, 2 or 12 and end at or below 65,535.
    pub(crate) fn range(&self) -> Result<Option<(u32, u32)>, AllocError> {
        for low in [0u32, 1, 2, 12] {
            if self.passes_number(low)? {
                return Ok(Some((low, self.last_number(low)?)));
            }
        }
        Ok(None)
    }

    /// The greatest decimal that is valid, found by bisection from one that is.
    fn last_number(&self, first: u32) -> Result<u32, AllocError> {
        let mut low = first;
        let mut step = 65_536u32;
        for _halving in 0..17 {
            let tested = low.saturating_add(step);
            if tested <= 65_535 && self.passes_number(tested)? {
                low = tested;
            }
            step /= 2;
        }
        Ok(low)
    }
}
