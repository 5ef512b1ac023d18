//! How many messages there were.

ghost use Rattle.std.specs.Prelude.{◌≡◌};
ghost use Rattle.clients_program.specs.Outcomes as outcomes;

use amqp_perf::Outcome;
use std::fmt;

/// How many messages were sent, and what became of them.
#[derive(Clone, Copy, Debug, PartialEq, Eq)]
pub struct ExchangeCounts {
    pub sent: usize,
    pub arrived: usize,
    pub accepted: usize,
    pub rejected: usize,
}

impl ExchangeCounts {
    ghost use Rattle.clients_program.specs.Counts.{counts_of};

    /// So many messages were sent, and those that arrived were decided so.
    pub fn of(sent: u8, decided: &[Outcome]) -> ExchangeCounts
        ensures { result ≡ counts_of sent decided.now }
    {
        ExchangeCounts {
            sent: usize::from(sent),
            arrived: decided.len(),
            accepted: decided
                .iter()
                .filter(|outcome| is_accepted(outcome))
                .count(),
            rejected: decided
                .iter()
                .filter(|outcome| is_rejected(outcome))
                .count(),
        }
    }
}

/// Whether a message was accepted.
fn is_accepted(outcome: &Outcome) -> bool
    ensures { result ≡ outcomes.is_accepted outcome.now }
{
    matches!(outcome, Outcome::Accepted)
}

/// Whether a message was rejected.
fn is_rejected(outcome: &Outcome) -> bool
    ensures { result ≡ outcomes.is_rejected outcome.now }
{
    matches!(outcome, Outcome::Rejected)
}

/// The line that tells them, without its newline.
impl fmt::Display for ExchangeCounts {
    ghost use Rattle.std.specs.Prelude.{Some};
    ghost use Rattle.clients_program.specs.Counts.{counts_line};

    ghost output = { λ counts. Some (counts_line counts) };

    fn fmt<W: fmt::Write>(&self, f: &mut fmt::Formatter<W>) -> fmt::Result {
        let (sent, arrived) = (self.sent, self.arrived);
        let (accepted, rejected) = (self.accepted, self.rejected);
        write!(
            f,
            "{sent} sent, {arrived} arrived, {accepted} accepted, {rejected} rejected"
        )
    }
}
