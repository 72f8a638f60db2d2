//! Moments of the day.

ghost use Rattle.std.specs.Prelude.{◌≡◌};
ghost use Rattle.script_front.specs.Waits.{moment_frame};

use plan_code::limits::FRAMES_A_DAY;
use plan_code::{DayFrame, Frames};
use script_tokens::time::TimeOfDay;
use std::marker::Model;

/// How a moment is written.
#[derive(Clone, Copy, Debug, PartialEq, Eq)]
pub enum MomentForm {
    /// `TIME`: the first frame at this time.
    At(TimeOfDay),
    /// `TIME early N`: this many frames before that frame, over midnight too.
    Early { time: TimeOfDay, frames: Frames },
}

impl MomentForm {
    /// The frame of the day.
    pub fn frame(self) -> DayFrame
        ensures { result ≡ moment_frame self }
    {
        match self {
            MomentForm::At(time) => time.frame(),
            MomentForm::Early { time, frames } => {
                let early = u32::from(frames.get());
                match DayFrame::new((time.frame().get() + FRAMES_A_DAY - early) % FRAMES_A_DAY) {
                    Some(frame) => frame,
                    None => unreachable!(),
                }
            }
        }
    }
}

/// A moment of the day. Contracts see it as its form.
#[derive(Clone, Copy, Debug, PartialEq, Eq)]
pub struct Moment {
    form: MomentForm,
}

impl Model for Moment {
    ghost use Rattle.script_front.specs.declared.moment.MomentForm.{MomentForm};

    ghost Value = { MomentForm };

    ghost view = { λ m. m.form };

    ghost invariant = { λ m. Unit {0} };

    ghost inverse = { λ form. record { form = form } };
}

impl Moment {
    /// The moment of this form.
    pub fn new(form: MomentForm) -> Moment
        ensures { result ≡ form }
    {
        Moment { form }
    }

    /// How it is written.
    pub fn form(self) -> MomentForm
        ensures { result ≡ self }
    {
        self.form
    }

    /// The frame of the day.
    pub fn frame(self) -> DayFrame
        ensures { result ≡ moment_frame self }
    {
        self.form().frame()
    }
}
