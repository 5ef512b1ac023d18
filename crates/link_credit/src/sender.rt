//! The counters of a consumer's link, in deliveries.

use std::marker::Model;

/// The credit that the client has given on a consumer's link, and the delivery-count that it is counted from.
#[derive(Clone, Copy, Debug, PartialEq, Eq)]
pub struct SenderCredit {
    /// The delivery-count of the attach to the client.
    first: u32,
    snd: u32,
    /// How many deliveries may still begin.
    left: u32,
    draining: bool,
}

impl Model for SenderCredit {
    ghost use Rattle.link_credit.specs.SenderCounts.{Counters};

    ghost Value = { Counters };

    ghost view = { λ c. record { first = c.first; snd = c.snd; left = c.left; draining = c.draining } };

    ghost inverse = { λ c. record { first = c.first; snd = c.snd; left = c.left; draining = c.draining } };
}

impl SenderCredit {
    ghost use Rattle.std.specs.Prelude.{◌≡◌, ◌<◌, [], IsTrue, Some, true};
    ghost use Rattle.flow_counts.specs.Serial.{serial_add};
    ghost use Rattle.flow_counts.specs.Credit.{TheirFlow, OurFlow, Begun, delivery_count, credit};
    ghost use Rattle.link_credit.specs.Counting.{CountsOneMore, IsCount};
    ghost use Rattle.link_credit.specs.SenderCounts.{counted, asks_drain};

    /// A link as it is attached, with this initial delivery-count (0 where the attach has none), and without credit.
    pub fn new(initial: u32) -> SenderCredit
        ensures { result ≡ counted initial [] }
    {
        SenderCredit {
            first: initial,
            snd: initial,
            left: 0,
            draining: false,
        }
    }

    /// A flow came from the client: the delivery-count that it knows, absent where it has not seen the attach yet, its
    /// link-credit, in deliveries, and whether it asks to drain. What began meanwhile is taken off that credit. Without
    /// a link-credit nothing changes.
    pub fn on_flow(&mut self, delivery_count: Option<u32>, link_credit: Option<u32>, drain: bool)
        ensures { CountsOneMore counted self.old self.new (TheirFlow delivery_count link_credit drain) }
    {
        if let Some(credit) = link_credit {
            let known = delivery_count.unwrap_or(self.first);
            let begun_meanwhile = self.snd.wrapping_sub(known);
            self.left = credit.saturating_sub(begun_meanwhile);
            self.draining = drain;
        }
    }

    /// A delivery begins.
    pub fn begun(&mut self)
        // `left` tells.
        requires { 0 < self.old.left }
        ensures { CountsOneMore counted self.old self.new Begun }
    {
        self.left -= 1;
        self.snd = self.snd.wrapping_add(1);
    }

    /// A flow is written that tells the client that nothing more can go: it takes the delivery-count, which is the
    /// answer here, to where the credit left would have taken it, and has link-credit 0 and drain true.
    pub fn drain_answer(&mut self) -> u32
        // `draining` and `left` tell.
        requires asked { IsTrue self.old.draining }
        requires left { 0 < self.old.left }
        ensures advanced { result ≡ serial_add self.old.snd self.old.left }
        ensures snd { self.new.snd ≡ result }
        ensures counted { CountsOneMore counted self.old self.new (OurFlow (Some result) (Some 0) true) }
    {
        self.snd = self.snd.wrapping_add(self.left);
        self.left = 0;
        self.snd
    }

    /// How many deliveries may still begin.
    pub fn left(&self) -> u32
        ensures value { result ≡ self.now.left }
        ensures count { IsCount counted self.now result credit }
    {
        self.left
    }

    /// The delivery-count that the link's sender, which the router is, has come to (part 2, 2.6.7).
    pub fn snd(&self) -> u32
        ensures value { result ≡ self.now.snd }
        ensures count { IsCount counted self.now result delivery_count }
    {
        self.snd
    }

    /// Whether the client's last flow with a link-credit asks to drain.
    pub fn draining(&self) -> bool
        ensures value { result ≡ self.now.draining }
        ensures asks { IsCount counted self.now result asks_drain }
    {
        self.draining
    }
}
