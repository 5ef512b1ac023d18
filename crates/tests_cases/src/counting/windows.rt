//! The windows of a session.

use crate::counting::words::{Event, events, optional};
use flow_counts::WindowEvent;
use kit_cases::{Answer, Subject, behind, done, parted, small, told, word};
use session_window::{Violation, Window, window_after};
use std::alloc::Global;

/// The windows of one session.
#[derive(Drop)]
pub struct Windows {
    alloc: Global,
    window: Window,
}

impl Windows {
    pub fn new(alloc: Global) -> Windows {
        Windows {
            alloc,
            window: Window::begin(0, 0, 0),
        }
    }
}

impl Subject for Windows {
    fn answer(&mut self, words: &[&str]) -> Answer {
        let (verb, rest) = parted(words);
        let (first, second, third) = (word(rest, 0), word(rest, 1), word(rest, 2));
        match verb {
            "begin" => self.window = Window::begin(small(first), small(second), small(third)),
            "flow" => self.window.on_flow(optional(first), small(second)),
            "told" => self.window.told(),
            "sent" => return told(self.alloc, self.sent(small(first))),
            "received" => return told(self.alloc, self.received(small(first))),
            "counts" => return told(self.alloc, counts_of(&self.window)),
            "after" => {
                let events = behind(rest, 3);
                return self.after(small(first), small(second), small(third), events);
            }
            _ => return Ok(None),
        }
        done(self.alloc)
    }
}

impl Windows {
    /// So many transfers are sent, if the window has room for them: how many were.
    fn sent(&mut self, times: u32) -> u32 {
        for count in 0..times {
            if !self.window.can_send() {
                return count;
            }
            self.window.sent();
        }
        times
    }

    /// So many transfers come.
    fn received(&mut self, times: u32) -> Result<(), Violation> {
        for _ in 0..times {
            self.window.received()?;
        }
        Ok(())
    }

    /// All of these events happen on a new session.
    fn after(&self, next_out: u32, next_in: u32, remote: u32, words: &[&str]) -> Answer {
        let Some(events) = events::<WindowEvent>(self.alloc, words)? else {
            return Ok(None);
        };
        let window = window_after(next_out, next_in, remote, events.as_slice());
        told(self.alloc, window.map(|window| counts_of(&window)))
    }
}

/// What may still be sent and the id of the next transfer, then the same of what the client may send.
fn counts_of(window: &Window) -> (u32, u32, u32, u32) {
    (
        window.left(),
        window.next_outgoing(),
        window.given(),
        window.next_incoming(),
    )
}

/// What happens on a session.
impl Event for WindowEvent {
    fn of(parts: &[&str]) -> Option<WindowEvent> {
        let (verb, rest) = parted(parts);
        match verb {
            "flow" => Some(WindowEvent::TheirFlow {
                next_incoming: optional(word(rest, 0)),
                incoming_window: small(word(rest, 1)),
            }),
            "sent" => Some(WindowEvent::Sent),
            "told" => Some(WindowEvent::OurFlow),
            "received" => Some(WindowEvent::Received),
            _ => None,
        }
    }
}
