//! Of which deliveries from clients nothing more is to be told, for the table of deliveries to clients.

use state_incoming::Deliveries;
use state_outgoing::Closings;

/// What the table of deliveries from clients tells of those that it keeps; of one that it let go nothing more is to be told.
#[derive(Clone, Copy)]
pub(crate) struct HeldClosings<'t> {
    pub(crate) deliveries: &'t Deliveries,
}

impl<'t> Closings for HeldClosings<'t> {
    ghost use Rattle.state_incoming.specs.EntryAnswers.{is_shut};
    ghost use Rattle.state_incoming.specs.HeldTables.{held_in};

    ghost does_close = { λ own number. is_shut (held_in own.deliveries.now number) };

    fn is_closed(&self, number: u64) -> bool {
        self.deliveries.is_shut(number)
    }
}
