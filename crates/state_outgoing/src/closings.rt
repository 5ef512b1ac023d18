//! Of which deliveries from clients nothing more is to be told, asked by their numbers.

ghost use Rattle.std.specs.Prelude.{◌≡◌};
ghost use Rattle.number_groups.specs.Groups.{is_member};
ghost use Rattle.pairing_cert.specs.Notes as notes;
ghost use Rattle.state_outgoing.specs.SentAnswers as law;
ghost use Rattle.state_outgoing.specs.SentTables.{sent_in};

use crate::deliveries::SentDeliveries;
use number_groups::NumberTest;
use pairing_cert::Note;

/// Of which deliveries from clients nothing more is to be told.
pub trait Closings {
    ghost use Rattle.std.specs.Prelude.{◌≡◌, ℕ, Bool};

    /// Nothing more is to be told of the one of this number.
    ghost does_close: { Self → ℕ → Bool };

    /// Nothing more is to be told of the delivery that began in the record of this number.
    fn is_closed(&self, number: u64) -> bool
        ensures { result ≡ Self.does_close self.now number };
}

/// Nothing more is to be told of the delivery that the note names.
fn closes<C: Closings>(closings: &C, note: Note) -> bool
    ensures { result ≡ law.closes (C.does_close closings.now) note }
{
    match note {
        Note::Pair(number) => closings.is_closed(number),
        Note::None | Note::Told(_) => false,
    }
}

/// The deliveries that the router is to settle.
#[derive(Drop)]
pub(crate) struct Settleable<'t, C> {
    pub(crate) deliveries: &'t SentDeliveries,
    pub(crate) closings: &'t C,
}

impl<'t, C: Closings> NumberTest for Settleable<'t, C> {
    ghost does_pass = { λ s number. law.is_settleable (C.does_close s.closings.now) (sent_in s.deliveries.now number) };

    fn passes(&self, number: u64) -> bool {
        match self.deliveries.get(number) {
            Some(own) => own.is_to_settle(closes(self.closings, own.note())),
            None => false,
        }
    }
}
