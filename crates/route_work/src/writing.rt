//! The record of a frame that is due.

ghost use Rattle.std.specs.Prelude.{◌≡◌, true, List, [], IfOk, IfSome, OnOk};
ghost use Rattle.pairing_cert.specs.declared.note.Note.TheVariants as notes;
ghost use Rattle.capture_form.specs.Rules.{RuleSet};
ghost use Rattle.capture_form.specs.Text.{IsRecord};
ghost use Rattle.trace_judge.specs.Told.{told_view};
ghost use Rattle.trace_events.specs.View.{Events, incoming_view};
ghost use Rattle.route_dues.specs.Outcomes.{HasState};
ghost use Rattle.route_dues.specs.Writing.{IsInOrder};
ghost use Rattle.due_outcomes.specs.DueOutcomes.{IsDueOutcome};
ghost use Rattle.route_work.specs.Dues as dues;
ghost use Rattle.route_work.specs.Dues.{IsDue, IsDueBehind, IsNextFrame, IsFrameFor, is_in_turn};

use crate::due::Due;
use capture_form::{Frame, Record, RuleSet, What};
use due_outcomes::DueOutcome;
use pairing_cert::Note;
use route_dues::{
    put_credit, put_drain, put_first, put_next, put_outcome, put_settling, put_window,
};
use std::alloc::{AllocError, Global};
use trace_judge::{Counts, Outcomes};

/// The connection that it is written on.
fn connection_of(due: &Due<'_>) -> u32
    ensures { result ≡ dues.connection_of due.now }
{
    match due {
        Due::Outcome(told) => told.delivery.link.session.connection,
        Due::Settling(delivery) => delivery.link.session.connection,
        Due::Part(part) => part.link.session.connection,
        Due::Waiting(begin) => begin.link.session.connection,
        Due::Copy(copy) => copy.link.session.connection,
        Due::Drain(link) | Due::Credit(link) => link.session.connection,
        Due::Window(session) => session.connection,
    }
}

/// What is certified of it.
fn note_of(due: &Due<'_>) -> Note
    ensures { result ≡ dues.note_of due.now }
{
    match due {
        Due::Outcome(told) => Note::Told(told.why),
        Due::Part(part) => part.note,
        Due::Waiting(begin) => Note::Pair(begin.delivery.number),
        Due::Copy(copy) => Note::Pair(copy.delivery.number),
        Due::Settling(_) | Due::Drain(_) | Due::Credit(_) | Due::Window(_) => Note::None,
    }
}

/// Appends the outcome of a delivery to no octets. A consumer's own state is read again in `scratch`, in the place of what
/// stands there.
///
/// # Errors
///
/// Where memory is refused.
fn put_told(
    out: &mut Vec<u8>,
    scratch: &mut Vec<u8>,
    due: &DueOutcome<'_>,
) -> Result<(), AllocError>
    requires told { IfSome (told_view due.now.told) HasState }
    requires none { out.old.items ≡ [] }
    ensures frame { (rules : RuleSet) (history : Events) → IsInOrder rules history →
        IsDueOutcome rules history (incoming_view due.now.delivery) due.now.why (told_view due.now.told) →
        OnOk result (IsFrameFor rules history due.now.delivery.link.session.connection (notes.Told due.now.why) out.new.items) }
{
    match due.state(scratch) {
        Ok(state) => put_outcome(out, &due.delivery, state),
        Err(refused) => Err(refused),
    }
}

/// Appends the octets of the frame to none. What stands in `scratch` may change.
///
/// # Errors
///
/// Where memory is refused.
fn put_due<'a, P: Counts + Outcomes<'a>>(
    out: &mut Vec<u8>,
    scratch: &mut Vec<u8>,
    past: &P,
    rules: &RuleSet,
    due: &Due<'_>,
) -> Result<(), AllocError>
    requires few { P.is_short past.now }
    requires due { IsDueBehind (λ history. P.stands_for past.now rules.now history) rules.now due.now }
    requires none { out.old.items ≡ [] }
    ensures frame { (history : Events) → P.stands_for past.now rules.now history → IsInOrder rules.now history → IsDue rules.now history due.now →
        is_in_turn rules.now history due.now ≡ true → OnOk result (IsFrameFor rules.now history (dues.connection_of due.now) (dues.note_of due.now) out.new.items) }
{
    match due {
        Due::Outcome(told) => put_told(out, scratch, told),
        Due::Settling(delivery) => put_settling(out, delivery),
        Due::Part(part) => put_next(out, past, &part.link, part.rest),
        Due::Waiting(begin) => put_first(out, past, &begin.link, &begin.delivery, begin.payload),
        Due::Copy(copy) => put_first(out, past, &copy.link, &copy.delivery, copy.payload),
        Due::Drain(link) => put_drain(out, past, link),
        Due::Credit(link) => put_credit(out, past, rules, link),
        Due::Window(session) => put_window(out, past, *session),
    }
}

/// The record of the frame that is due, by what is asked of the past.
///
/// # Errors
///
/// Where memory is refused.
pub fn record_of<'a, P: Counts + Outcomes<'a>>(
    alloc: Global,
    past: &P,
    rules: &RuleSet,
    due: &Due<'_>,
) -> Result<Record, AllocError>
    requires few { P.is_short past.now }
    requires due { IsDueBehind (λ history. P.stands_for past.now rules.now history) rules.now due.now }
    ensures bounds { IfOk result IsRecord }
    ensures next { (history : Events) → P.stands_for past.now rules.now history → IsInOrder rules.now history → IsDue rules.now history due.now →
        is_in_turn rules.now history due.now ≡ true → IfOk result (IsNextFrame rules.now history) }
{
    let mut octets = Vec::new(alloc);
    let mut scratch = Vec::new(alloc);
    put_due(&mut octets, &mut scratch, past, rules, due)?;
    let frame = Frame::from_octets(octets)?;
    Ok(Record {
        connection: connection_of(due),
        what: What::Out(frame),
        note: note_of(due),
    })
}
