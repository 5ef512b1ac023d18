//! What the windows of a session come to by what happens on it.

use crate::window::Window;
use flow_counts::WindowEvent;

impl Window {
    ghost use Rattle.std.specs.Prelude.{IsTrue, IsSome, IfSome, ◌≡◌, ◌↔◌, List};
    ghost use Rattle.flow_counts.specs.declared.events.WindowEvent.{WindowEvent};
    ghost use Rattle.session_window.specs.Counters.{Opening, counted, CountsOneMore};
    ghost use Rattle.session_window.specs.History.{has_room};

    /// The windows with one event more, where there is room for it.
    fn after(mut self, event: WindowEvent) -> Option<Window>
        ensures room { (begun : Opening) (past : List WindowEvent) → self ≡ counted begun past → IsTrue (has_room begun past event) ↔ IsSome result }
        ensures counted { IfSome result (λ window. CountsOneMore self window event) }
    {
        match event {
            WindowEvent::TheirFlow {
                next_incoming,
                incoming_window,
            } => self.on_flow(next_incoming, incoming_window),
            WindowEvent::Sent if self.can_send() => self.sent(),
            WindowEvent::Sent => return None,
            WindowEvent::OurFlow => self.told(),
            WindowEvent::Received => self.received().ok()?,
        }
        Some(self)
    }
}

ghost use Rattle.std.specs.Prelude.{◌≡◌, ◌↔◌, IsTrue, IsSome, IfSome, OnSome, reverse};
ghost use Rattle.session_window.specs.Counters.{opening, counted};
ghost use Rattle.session_window.specs.History.{stays_within, IsWithinWindows};

/// What the windows of a session come to that began with these numbers, as `Window::begin` takes them, and on which
/// this happened, the oldest first. `None` where a transfer found nothing left of the window that it takes from.
#[tactic(auto, using(crate::proofs::Within::within))]
pub fn window_after(
    next_out: u32,
    next_in: u32,
    remote: u32,
    events: &[WindowEvent],
) -> Option<Window>
    ensures kept { IsSome result ↔ IsTrue (stays_within (opening next_out next_in remote) (reverse events.now)) }
    ensures counted { IfSome result (λ window. window ≡ counted (opening next_out next_in remote) (reverse events.now)) }
    // What was sent and received since each window was last given is no more than it gave.
    ensures within { OnSome result (IsWithinWindows (opening next_out next_in remote) (reverse events.now)) }
{
    let mut window = Window::begin(next_out, next_in, remote);
    for event in events {
        window = window.after(*event)?;
    }
    Some(window)
}
