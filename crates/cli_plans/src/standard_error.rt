//! Standard error as the message sink of a live run.

use console::files::Files;
use plan_live::{JsonMessage, Message, Messages};

/// The most messages that are held.
const MOST_HELD: usize = 64;

/// The most messages of a frame.
const MOST_OF_A_FRAME: usize = 4;

/// A message in place of one that is not held yet.
const NO_MESSAGE: Message = Message::Passed { frame: 0, count: 0 };

/// Standard error as a message sink. Messages are written when they are released, and where
/// standard error fails, the rest of a message is lost.
#[derive(Drop)]
pub(crate) struct StandardError<'f, F> {
    files: &'f mut F,
    is_json: bool,
    messages: [Message; MOST_HELD],
    held: usize,
}

impl<'f, F: Files> StandardError<'f, F> {
    /// Standard error, with no message held.
    pub(crate) fn new(files: &'f mut F, is_json: bool) -> Self {
        StandardError {
            files,
            is_json,
            messages: [NO_MESSAGE; MOST_HELD],
            held: 0,
        }
    }

    /// Writes a message.
    fn show(&mut self, message: Message) {
        if self.is_json {
            self.files.report(JsonMessage(message));
        } else {
            self.files.report(message);
        }
    }
}

impl<F: Files> Messages for StandardError<'_, F> {
    fn has_room(&self) -> bool {
        self.held <= MOST_HELD - MOST_OF_A_FRAME
    }

    fn report(&mut self, message: Message) {
        if let Some(place) = self.messages.get_mut(self.held) {
            *place = message;
            self.held += 1;
        }
    }

    fn release(&mut self) {
        let messages = self.messages;
        for message in messages.iter().take(self.held) {
            self.show(*message);
        }
        self.held = 0;
    }
}
