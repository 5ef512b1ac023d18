//! The counters of a producer's link, in deliveries.

use flow_counts::{CAPACITY, LOW_MARK};
use std::error::Error;
use std::fmt;
use std::marker::Model;

/// A delivery began on a producer's link, and no credit was left for it.
#[derive(Clone, Copy, Debug, PartialEq, Eq)]
pub struct Over;

impl fmt::Display for Over {
    fn fmt<W: fmt::Write>(&self, f: &mut fmt::Formatter<W>) -> fmt::Result {
        f.write_str("a delivery began, and no credit was left for it")
    }
}

impl Error for Over {}

/// The credit that a client is given on a producer's link, and the delivery-count that it is told with.
#[derive(Clone, Copy, Debug, PartialEq, Eq)]
pub struct GivenCredit {
    rcv: u32,
    /// How many deliveries the client may still begin.
    left: u32,
}

impl Model for GivenCredit {
    ghost use Rattle.link_credit.specs.GivenCounts.{Counters};

    ghost Value = { Counters };

    ghost view = { λ c. record { rcv = c.rcv; left = c.left } };

    ghost inverse = { λ c. record { rcv = c.rcv; left = c.left } };
}

impl GivenCredit {
    ghost use Rattle.std.specs.Prelude.{◌≡◌, ◌+◌, ◌-◌, ◌≤◌, ◌↔◌, [], IsErr, OnOk, OnErr, IsSome, IfSome, IfNone, Some, false};
    ghost use Rattle.flow_counts.specs.Credit.{OurFlow, Begun};
    ghost use Rattle.link_credit.specs.Counting.{CountsOneMore, IsCount};
    ghost use Rattle.link_credit.specs.GivenCounts.{counted, credit_left, received_count};

    /// A link as it is attached, with the initial delivery-count of the client's attach (0 where it has none), and
    /// without credit.
    pub fn new(initial: u32) -> GivenCredit
        ensures { result ≡ counted initial [] }
    {
        GivenCredit {
            rcv: initial,
            left: 0,
        }
    }

    /// The client began a delivery. Where it had no credit left, `Over` is the answer, and the delivery is not counted.
    pub fn begun(&mut self) -> Result<(), Over>
        ensures refused { IsErr result ↔ (self.old.left ≡ 0) }
        ensures counted { OnOk result (CountsOneMore counted self.old self.new Begun) }
        ensures unchanged { OnErr result (self.new ≡ self.old) }
    {
        if self.left == 0 {
            return Err(Over);
        }
        self.left -= 1;
        self.rcv = self.rcv.wrapping_add(1);
        Ok(())
    }

    /// Gives credit again where little is left: with so many deliveries of the link undecided, the answer is the
    /// link-credit of the flow that is to be written now, and that is left from here on. `None` where enough is left;
    /// then nothing changes.
    pub fn top_up(&mut self, undecided: u32) -> Option<u32>
        ensures due { IsSome result ↔ (self.old.left + undecided ≤ LOW_MARK) }
        ensures fills { IfSome result (λ credit. credit ≡ CAPACITY - undecided) }
        ensures left { IfSome result (λ credit. self.new.left ≡ credit) }
        ensures never_less { IfSome result (λ credit. self.old.left ≤ credit) }
        ensures counted { IfSome result (λ credit. CountsOneMore counted self.old self.new (OurFlow (Some self.old.rcv) (Some credit) false)) }
        ensures unchanged { IfNone result (self.new ≡ self.old) }
    {
        if self.left.saturating_add(undecided) > LOW_MARK {
            return None;
        }
        self.left = CAPACITY - undecided;
        Some(self.left)
    }

    /// How many deliveries the client may still begin.
    pub fn left(&self) -> u32
        ensures value { result ≡ self.now.left }
        ensures count { IsCount counted self.now result credit_left }
    {
        self.left
    }

    /// The delivery-count that the link's receiver, which the router is, has come to (part 2, 2.6.7).
    pub fn rcv(&self) -> u32
        ensures value { result ≡ self.now.rcv }
        ensures count { IsCount counted self.now result received_count }
    {
        self.rcv
    }
}
