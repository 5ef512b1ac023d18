//! The counters of a session's windows, in transfers.

use flow_counts::INCOMING_WINDOW;
use std::error::Error;
use std::fmt;
use std::marker::Model;

/// A transfer found nothing left of the window that it takes from.
#[derive(Clone, Copy, Debug, PartialEq, Eq)]
pub struct Violation;

impl fmt::Display for Violation {
    fn fmt<W: fmt::Write>(&self, f: &mut fmt::Formatter<W>) -> fmt::Result {
        f.write_str("a transfer found no window left")
    }
}

impl Error for Violation {}

/// The windows of one session, and the transfer-ids that they are counted from.
#[derive(Clone, Copy, Debug, PartialEq, Eq)]
pub struct Window {
    /// The id of the session's first transfer to the client.
    first_outgoing_id: u32,
    next_outgoing_id: u32,
    next_incoming_id: u32,
    /// How many transfers may still be sent.
    left: u32,
    /// How many the client may still send.
    given: u32,
}

impl Model for Window {
    ghost use Rattle.session_window.specs.Counters.{Counters};

    ghost Value = { Counters };

    ghost view = { λ w. record {
      first_outgoing_id = w.first_outgoing_id;
      next_outgoing_id = w.next_outgoing_id;
      next_incoming_id = w.next_incoming_id;
      left = w.left;
      given = w.given;
    } };

    ghost inverse = { λ c. record {
      first_outgoing_id = c.first_outgoing_id;
      next_outgoing_id = c.next_outgoing_id;
      next_incoming_id = c.next_incoming_id;
      left = c.left;
      given = c.given;
    } };
}

impl Window {
    ghost use Rattle.std.specs.Prelude.{◌≡◌, ◌<◌, ◌↔◌, [], IsTrue, IsErr, OnOk, OnErr};
    ghost use Rattle.flow_counts.specs.declared.events.WindowEvent.TheVariants.{TheirFlow, Sent, OurFlow, Received};
    ghost use Rattle.session_window.specs.Counters.{opening, counted, next_outgoing, next_incoming, remote_window, given_left, CountsOneMore, IsCount};

    /// The windows of a session as it begins: `next_out` is the next-outgoing-id of the begin to the client, `next_in`
    /// that of the client's begin, and `remote` the client's incoming-window, in transfers. The client is given
    /// `INCOMING_WINDOW`.
    pub fn begin(next_out: u32, next_in: u32, remote: u32) -> Window
        ensures { result ≡ counted (opening next_out next_in remote) [] }
    {
        Window {
            first_outgoing_id: next_out,
            next_outgoing_id: next_out,
            next_incoming_id: next_in,
            left: remote,
            given: INCOMING_WINDOW,
        }
    }

    /// A flow came from the client: the id of the transfer that it expects next, absent where it has not seen the begin
    /// yet, and its incoming-window, in transfers. What was on its way to the client is taken off that window.
    pub fn on_flow(&mut self, next_incoming: Option<u32>, incoming_window: u32)
        ensures { CountsOneMore self.old self.new (TheirFlow next_incoming incoming_window) }
    {
        let expected = next_incoming.unwrap_or(self.first_outgoing_id);
        let on_its_way = self.next_outgoing_id.wrapping_sub(expected);
        self.left = incoming_window.saturating_sub(on_its_way);
    }

    /// Whether a transfer may be sent.
    pub fn can_send(&self) -> bool
        ensures room { IsTrue result ↔ (0 < self.now.left) }
    {
        self.left > 0
    }

    /// A transfer is sent to the client.
    pub fn sent(&mut self)
        // `can_send` tells.
        requires { 0 < self.old.left }
        ensures { CountsOneMore self.old self.new Sent }
    {
        self.left -= 1;
        self.next_outgoing_id = self.next_outgoing_id.wrapping_add(1);
    }

    /// A transfer came from the client. Where nothing was left of its window, `Violation` is the answer, and the
    /// transfer is not counted.
    pub fn received(&mut self) -> Result<(), Violation>
        ensures refused { IsErr result ↔ (self.old.given ≡ 0) }
        ensures counted { OnOk result (CountsOneMore self.old self.new Received) }
        ensures unchanged { OnErr result (self.new ≡ self.old) }
    {
        if self.given == 0 {
            return Err(Violation);
        }
        self.given -= 1;
        self.next_incoming_id = self.next_incoming_id.wrapping_add(1);
        Ok(())
    }

    /// A flow is written to the client, and gives it `INCOMING_WINDOW` anew.
    pub fn told(&mut self)
        ensures anew { self.new.given ≡ INCOMING_WINDOW }
        ensures counted { CountsOneMore self.old self.new OurFlow }
    {
        self.given = INCOMING_WINDOW;
    }

    /// How many transfers may still be sent to the client.
    pub fn left(&self) -> u32
        ensures value { result ≡ self.now.left }
        ensures count { IsCount self.now result remote_window }
    {
        self.left
    }

    /// How many transfers the client may still send.
    pub fn given(&self) -> u32
        ensures value { result ≡ self.now.given }
        ensures count { IsCount self.now result given_left }
    {
        self.given
    }

    /// The id of the next transfer to the client, for a flow's next-outgoing-id.
    pub fn next_outgoing(&self) -> u32
        ensures value { result ≡ self.now.next_outgoing_id }
        ensures count { IsCount self.now result next_outgoing }
    {
        self.next_outgoing_id
    }

    /// The id of the client's next transfer, for a flow's next-incoming-id.
    pub fn next_incoming(&self) -> u32
        ensures value { result ≡ self.now.next_incoming_id }
        ensures count { IsCount self.now result next_incoming }
    {
        self.next_incoming_id
    }
}
