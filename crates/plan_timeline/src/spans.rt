//! How long each sub-channel is on air with its services, and each contact closed.

use crate::swap::Swap;
use mux_config::{Config, Sid, Sub, SubId};
use mux_types::sameness::is_same_sub;
use plan_code::{ContactId, Contacts};
use plan_map::is_carried_by;
use std::alloc::{AllocError, Global};

/// The services that a sub-channel carries: the first of them, and how many there are.
#[derive(Clone, Copy, Debug, PartialEq, Eq)]
pub(crate) struct Carried {
    pub(crate) first: Option<Sid>,
    pub(crate) count: usize,
}

/// A sub-channel that stays as it is from one frame up to another, which it is not in.
#[derive(Clone, Copy, Debug)]
pub(crate) struct Span {
    pub(crate) sub: Sub,
    pub(crate) carried: Carried,
    pub(crate) from: u64,
    pub(crate) to: u64,
}

/// A contact that is closed from one frame up to another, which it is not in.
#[derive(Clone, Copy, Debug)]
pub(crate) struct Closed {
    pub(crate) contact: u8,
    pub(crate) from: u64,
    pub(crate) to: u64,
}

/// What a drawing of a run shows.
#[derive(Drop)]
pub struct Drawing {
    /// The sub-channels, each for as long as it stays as it is; those without an end end with the
    /// run.
    pub(crate) spans: Vec<Span>,
    /// The contacts that are closed.
    pub(crate) closed: Vec<Closed>,
    /// The numbers of the frames in which swaps are made.
    pub(crate) swaps: Vec<u64>,
}

/// The end of what is not over.
pub(crate) const OPEN: u64 = u64::MAX;

/// The services that a sub-channel of a configuration carries.
fn carried_by(config: &Config, id: SubId) -> Carried {
    let mut carried = Carried {
        first: None,
        count: 0,
    };
    for service in config.services() {
        if is_carried_by(config, service.components.as_slice(), id) {
            if carried.first.is_none() {
                carried.first = Some(service.sid);
            }
            carried.count = carried.count.saturating_add(1);
        }
    }
    carried
}

/// Whether a sub-channel that is on air stays as it is in a configuration.
fn stays(span: &Span, config: &Config) -> bool {
    config.subs().iter().any(|sub| is_same_sub(*sub, span.sub))
        && carried_by(config, span.sub.id) == span.carried
}

/// Whether a sub-channel of a configuration is one of the spans that are not over.
fn is_on_air(spans: &[Span], sub: &Sub, carried: Carried) -> bool {
    spans.iter().any(|span| span.to == OPEN
        && is_same_sub(*sub, span.sub)
        && span.carried == carried)
}

impl Drawing {
    /// The drawing of a run that begins with this configuration.
    ///
    /// # Errors
    ///
    /// Out of memory.
    pub fn new(alloc: Global, first: &Config) -> Result<Drawing, AllocError> {
        let mut drawing = Drawing {
            spans: Vec::new(alloc),
            closed: Vec::new(alloc),
            swaps: Vec::new(alloc),
        };
        drawing.begin_spans(first, 0)?;
        Ok(drawing)
    }

    /// Begins spans for the sub-channels of a configuration that are not on air.
    fn begin_spans(&mut self, config: &Config, frame: u64) -> Result<(), AllocError> {
        for sub in config.subs() {
            let carried = carried_by(config, sub.id);
            if !is_on_air(self.spans.as_slice(), sub, carried) {
                self.spans.push(Span {
                    sub: *sub,
                    carried,
                    from: frame,
                    to: OPEN,
                })?;
            }
        }
        Ok(())
    }

    /// Adds a swap.
    ///
    /// # Errors
    ///
    /// Out of memory.
    pub fn add_swap(&mut self, swap: &Swap) -> Result<(), AllocError> {
        for span in self.spans.as_mut_slice().iter_mut() {
            if span.to == OPEN && !stays(span, &swap.now) {
                span.to = swap.frame;
            }
        }
        self.swaps.push(swap.frame)?;
        self.begin_spans(&swap.now, swap.frame)
    }

    /// Closes or opens a contact before the frame of this number.
    ///
    /// # Errors
    ///
    /// Out of memory.
    pub fn set_contact(
        &mut self,
        contact: ContactId,
        closed: bool,
        frame: u64,
    ) -> Result<(), AllocError> {
        let contact = contact.get();
        let mut is_closed = false;
        for bar in self.closed.as_mut_slice().iter_mut() {
            if bar.contact == contact && bar.to == OPEN {
                is_closed = true;
                if !closed {
                    bar.to = frame;
                }
            }
        }
        if closed && !is_closed {
            self.closed.push(Closed {
                contact,
                from: frame,
                to: OPEN,
            })?;
        }
        Ok(())
    }

    /// Closes the contacts that are closed at the start.
    ///
    /// # Errors
    ///
    /// Out of memory.
    pub fn set_contacts(&mut self, contacts: Contacts) -> Result<(), AllocError> {
        for number in 0..16u8 {
            if let Some(contact) = ContactId::new(number) {
                if contacts.is_closed(contact) {
                    self.set_contact(contact, true, 0)?;
                }
            }
        }
        Ok(())
    }
}
