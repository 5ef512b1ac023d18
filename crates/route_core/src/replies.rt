//! The direct answer to an input, as records.

ghost use Rattle.std.specs.Prelude.{◌≡◌, IfOk};
ghost use Rattle.trace_events.specs.History.{moment_of};
ghost use Rattle.state_ledger.specs.HeldEvents.{held_event_view};
ghost use Rattle.route_answers.specs.Replies.{answer_view, reply_view, CanBeSaid, CanBeWritten};
ghost use Rattle.route_core.specs.Replies.{IsReply, AreReplies, IsAnswerable, IsAnswerOf, AreAnswers, replies_of};

use capture_form::{Frame, Record, RuleSet, What};
use pairing_cert::Note;
use route_answers::{Answer, Reply, answer_to};
use state_answers::LentTables;
use state_ledger::HeldEvent;
use std::alloc::{AllocError, Global};
use trace_events::ReadRecord;

/// The records of a direct answer, in order.
#[derive(Drop)]
pub(crate) enum Replies {
    Nothing,
    One(Record),
    Two(Record, Record),
}

/// The record of a reply.
///
/// # Errors
///
/// Where memory is refused.
fn record_of_reply(alloc: Global, connection: u32, reply: &Reply<'_>) -> Result<Record, AllocError>
    requires can { CanBeSaid reply.now.saying }
    ensures { IfOk result (IsReply connection (reply_view reply.now)) }
{
    let mut octets = Vec::new(alloc);
    reply.write(&mut octets)?;
    let frame = Frame::from_octets(octets)?;
    Ok(Record {
        connection,
        what: What::Out(frame),
        note: Note::None,
    })
}

/// The records of an answer's replies.
///
/// # Errors
///
/// Where memory is refused.
fn records_of(alloc: Global, connection: u32, answer: &Answer<'_>) -> Result<Replies, AllocError>
    requires can { CanBeWritten answer.now }
    ensures { IfOk result (λ replies. AreReplies connection (answer_view answer.now) (replies_of replies)) }
{
    match answer {
        Answer::Nothing => Ok(Replies::Nothing),
        Answer::One(reply) => {
            let first = record_of_reply(alloc, connection, reply)?;
            Ok(Replies::One(first))
        }
        Answer::Two(reply, other) => {
            let first = record_of_reply(alloc, connection, reply)?;
            let second = record_of_reply(alloc, connection, other)?;
            Ok(Replies::Two(first, second))
        }
    }
}

/// The direct answer to what a client did, by the tables of what was recorded up to it.
fn answer_by<'m>(
    tables: &LentTables<'_>,
    rules: &RuleSet,
    held: &HeldEvent,
    entry: &ReadRecord<'m>,
) -> Answer<'m>
    requires answerable { IsAnswerable rules.now (held_event_view held.now (moment_of entry.now.what)) }
    ensures says { IsAnswerOf rules.now tables.now (held_event_view held.now (moment_of entry.now.what)) (answer_view result) }
    ensures short { CanBeWritten result }
{
    let event = held.event(entry);
    answer_to(tables, rules, &event)
}

/// The records that answer what a client did, by the tables of what was recorded up to it.
///
/// # Errors
///
/// Where memory is refused.
pub(crate) fn replies_to(
    alloc: Global,
    tables: &LentTables<'_>,
    rules: &RuleSet,
    held: &HeldEvent,
    entry: &ReadRecord<'_>,
) -> Result<Replies, AllocError>
    requires answerable { IsAnswerable rules.now (held_event_view held.now (moment_of entry.now.what)) }
    requires connected { (held_event_view held.now (moment_of entry.now.what)).connection ≡ entry.now.connection }
    ensures { IfOk result (λ replies. AreAnswers rules.now tables.now (held_event_view held.now (moment_of entry.now.what)) (replies_of replies)) }
{
    let answer = answer_by(tables, rules, held, entry);
    let replies = records_of(alloc, entry.connection(), &answer)?;
    Ok(replies)
}
