//! The log of the last announcements.

ghost use Rattle.std.specs.Prelude.{◌≡◌, ◌≤◌, IfOk, [], ◌++◌, length, slice_get};
ghost use Rattle.circular_buffer.specs.Buffer.{keep_last};
ghost use Rattle.plan_debug.specs.Announcements.{announcement_list};

use crate::announcement::Announcement;
use circular_buffer::HeapCircularBuffer;
use std::alloc::{AllocError, Global};
use std::marker::Model;

/// The number of announcements kept.
const KEPT: usize = 64;

/// The last 64 announcements, oldest first.
#[derive(Drop)]
pub struct Log {
    ring: HeapCircularBuffer<Announcement>,
}

impl Model for Log {
    ghost use Rattle.std.specs.Prelude.{List, ◌≡◌, ◌≤◌, length};
    ghost use Rattle.plan_debug.specs.declared.announcement.Announcement.{Announcement};

    ghost Value = { List Announcement };

    ghost view = { λ l. l.ring.items };

    ghost invariant = { λ l. (l.ring.capacity ≡ 64) × (length l.ring.items ≤ 64) };
}

impl Log {
    /// An empty log, with memory for all announcements that it keeps.
    pub fn new(alloc: Global) -> Result<Log, AllocError>
        ensures { IfOk result (λ l. l ≡ []) }
    {
        Ok(Log {
            ring: HeapCircularBuffer::with_capacity(alloc, KEPT)?,
        })
    }

    /// Adds an announcement, if there is one; beyond 64, the oldest is dropped.
    pub fn note(&mut self, announcement: Option<Announcement>)
        ensures { self.new ≡ keep_last 64 (self.old ++ announcement_list announcement) }
    {
        if let Some(announcement) = announcement {
            let _oldest = self.ring.push_back(announcement);
        }
    }

    /// The announcement at this index, from 0, oldest first.
    pub fn get(&self, index: usize) -> Option<Announcement>
        ensures value { result ≡ slice_get self.now index }
        ensures few { length self.now ≤ 64 }
    {
        self.ring.get(index).copied()
    }
}
