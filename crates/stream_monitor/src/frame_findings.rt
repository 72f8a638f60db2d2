//! The findings of one frame.

use arrayvec::ArrayVec;
use std::marker::Model;
use stream_check::{Finding, Report};

/// The findings in the frame that one FIB ends: up to 1,024.
#[derive(Drop)]
pub struct FrameFindings {
    items: ArrayVec<Finding, 1024>,
    has_more: bool,
}

impl Model for FrameFindings {
    ghost use Rattle.std.specs.Prelude.{if◌then◌else◌};
    ghost use Rattle.stream_check.specs.Reported.{Reported, Unknown, AtMost};

    ghost Value = { Reported };

    ghost view = { λ s. if s.has_more then Unknown else AtMost 1024 s.items.items };
}

impl FrameFindings {
    ghost use Rattle.std.specs.Prelude.{◌≡◌, [], IfSome, IfNone};
    ghost use Rattle.stream_check.specs.Reported.{Unknown, AtMost};

    /// Without findings.
    pub fn new() -> Self
        ensures { result ≡ AtMost 1024 [] }
    {
        FrameFindings {
            items: ArrayVec::new(),
            has_more: false,
        }
    }

    /// Lets all findings go.
    pub fn clear(&mut self)
        ensures { self.new ≡ AtMost 1024 [] }
    {
        self.items.clear();
        self.has_more = false;
    }

    /// The findings, in order; `None` if there are more than 1,024.
    pub fn findings(&self) -> Option<&[Finding]>
        ensures some { IfSome result (λ findings. self.now ≡ AtMost 1024 findings.now) }
        ensures none { IfNone result (self.now ≡ Unknown) }
    {
        if self.has_more {
            None
        } else {
            Some(self.items.as_slice())
        }
    }
}

impl Report for FrameFindings {
    ghost reported = { λ s. s };

    fn note(&mut self, finding: Finding) {
        if self.items.is_full() {
            self.has_more = true;
        } else {
            self.items.push(finding);
        }
    }
}
