//! Why a record is refused.

use crate::connection::{FrameFacts, WritingFacts};
use crate::ending::{DetachFacts, EndFacts};
use crate::flow::FlowFacts;
use crate::opening::{AttachFacts, BeginFacts};
use crate::outcome::{OutcomeFacts, SettlingFacts};
use crate::payload::PayloadFacts;
use crate::transfer::{BeginningFacts, CarryingFacts, GoingOnFacts, OrderFacts, SendingFacts};
use pairing_cert::Note;
use trace_events::Clause;

/// Why a record is refused: the first clause that it breaks, and what that clause compares.
#[derive(Clone, Copy)]
pub struct Reason<'a> {
    /// The record's number.
    pub number: u64,
    /// The record's connection.
    pub connection: u32,
    /// The channel of its frame, if it is one.
    pub channel: Option<u16>,
    pub clause: Clause,
    pub facts: Facts<'a>,
}

/// What a clause compares, each number as it was before the record.
#[derive(Clone, Copy)]
pub enum Facts<'a> {
    /// L1, of octets that are no performative.
    Frame(FrameFacts<'a>),
    /// L1, of a performative.
    Writing(WritingFacts),
    /// L2.
    Begin(BeginFacts),
    /// L3.
    Attach(AttachFacts<'a>),
    /// L4.
    Sending(SendingFacts<'a>),
    /// L5.
    Beginning(BeginningFacts<'a>),
    /// L6.
    GoingOn(GoingOnFacts<'a>),
    /// L7.
    Carrying(CarryingFacts<'a>),
    /// L8.
    Payload(PayloadFacts<'a>),
    /// L9.
    Order(OrderFacts<'a>),
    /// L10.
    Flow(FlowFacts<'a>),
    /// L11.
    Outcome(OutcomeFacts<'a>),
    /// L12.
    Settling(SettlingFacts),
    /// L13, of a detach.
    Detach(DetachFacts<'a>),
    /// L13, of an end.
    End(EndFacts),
    /// L14: the note that should not be there.
    Noted(Note),
    /// None: the event is of no kind of which the clause speaks.
    Nothing,
}
