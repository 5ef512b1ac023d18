//! Questions about the past. What judges a record, finds its fault, the row of an outcome or the clause that it breaks asks
//! them of what stands for the records so far, and is written once over the traits here: the plain checker answers by
//! scans of the events on the stack (`trace_law`), the auditor's tables by look-ups (`state_answers::LentTables`).
//!
//! - `Inputs`: what a client's frame asks;
//! - `Outcomes`: what outcomes and settlings ask;
//! - `Openings`: what opens and ends connections, sessions and links;
//! - `Counts`: windows, credits, and what waits;
//! - `Carriage`: which incoming delivery a transfer carries.

mod carriage;
mod counts;
mod inputs;
mod openings;
mod outcomes;

pub use self::carriage::Carriage;
pub use self::counts::Counts;
pub use self::inputs::Inputs;
pub use self::openings::Openings;
pub use self::outcomes::Outcomes;

/// What stands for the events before a record. Several histories may stand behind the same value, which then answers the
/// same of each. It need not know of all that was: what it can tell of deliveries, begins and attaches is its own matter
/// (`knows_number` and the others), and it is asked of nothing else.
pub trait History {
    ghost use Rattle.std.specs.Prelude.{ℕ, List};
    ghost use Rattle.capture_form.specs.Rules.{RuleSet};
    ghost use Rattle.trace_events.specs.Event.{Incoming, Outgoing};
    ghost use Rattle.trace_events.specs.declared.session.Session.{Session};
    ghost use Rattle.trace_events.specs.View.{Events};

    /// These are the events, judged by these rules of addresses.
    ghost stands_for: { Self → RuleSet → Events → Type 0 };

    /// It can tell of the client's delivery that begins in the record of this number.
    ghost knows_number: { Self → ℕ → Events → Type 0 };

    /// It can tell of this delivery of a client.
    ghost knows_incoming: { Self → Incoming → Events → Type 0 };

    /// It can tell of this delivery to a client.
    ghost knows_outgoing: { Self → Outgoing → Events → Type 0 };

    /// It can tell the client's last begin on the channel of a connection.
    ghost knows_begin: { Self → ℕ → ℕ → Events → Type 0 };

    /// It can tell the client's last attach of the handle on a session.
    ghost knows_attach: { Self → Session → ℕ → Events → Type 0 };

    /// What it stands for is short enough to be counted in 64 bits.
    ghost is_short: { Self → Type 0 };

    /// It has kept all that a transfer may name, also what no lawful one names any more.
    ghost is_whole: { Self → Type 0 };

    /// It has kept what the last delivery of each live link of a consumer carries, so that what the next one carries can be compared
    /// with it.
    ghost keeps_last: { Self → Events → Type 0 };
}

/// All questions.
pub trait Questions<'a>: Inputs<'a> + Outcomes<'a> + Openings<'a> + Counts + Carriage<'a> {}
