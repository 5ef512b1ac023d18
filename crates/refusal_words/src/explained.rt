//! A reason, in words.

use crate::Origins;
use crate::clauses::sentence;
use crate::flow::write_flow;
use crate::opening::{
    write_attach, write_begin, write_detach, write_end, write_frame, write_writing,
};
use crate::outcome::{write_outcome, write_settling};
use crate::text::Noted;
use crate::transfer::{
    write_beginning, write_carrying, write_going_on, write_order, write_payload, write_sending,
};
use refusal_facts::{Facts, Reason};
use std::fmt;

/// A reason, with the records from which windows and credits come. Its text has several lines, without a newline at the end.
#[derive(Clone, Copy)]
pub struct Explained<'r, 'a> {
    pub reason: &'r Reason<'a>,
    pub origins: &'r Origins,
}

impl fmt::Display for Explained<'_, '_> {
    fn fmt<W: fmt::Write>(&self, f: &mut fmt::Formatter<W>) -> fmt::Result {
        let reason = self.reason;
        let (number, clause) = (reason.number, reason.clause);
        write!(f, "record {number} breaks {clause}: {}", sentence(clause))?;
        write_facts(f, &reason.facts, self.origins)
    }
}

/// A line for each thing that the clause compares.
fn write_facts<W: fmt::Write>(
    f: &mut fmt::Formatter<W>,
    facts: &Facts,
    origins: &Origins,
) -> fmt::Result {
    match facts {
        Facts::Frame(facts) => write_frame(f, facts),
        Facts::Writing(facts) => write_writing(f, facts),
        Facts::Begin(facts) => write_begin(f, facts),
        Facts::Attach(facts) => write_attach(f, facts),
        Facts::Sending(facts) => write_sending(f, facts, origins),
        Facts::Beginning(facts) => write_beginning(f, facts, origins),
        Facts::GoingOn(facts) => write_going_on(f, facts),
        Facts::Carrying(facts) => write_carrying(f, facts, origins),
        Facts::Payload(facts) => write_payload(f, facts),
        Facts::Order(facts) => write_order(f, facts, origins),
        Facts::Flow(facts) => write_flow(f, facts, origins),
        Facts::Outcome(facts) => write_outcome(f, facts),
        Facts::Settling(facts) => write_settling(f, facts),
        Facts::Detach(facts) => write_detach(f, facts, origins),
        Facts::End(facts) => write_end(f, facts),
        Facts::Noted(note) => write!(f, "\nnote: {}, due none", Noted(*note)),
        Facts::Nothing => Ok(()),
    }
}
