//! The consumer and the producer, step by step.

ghost use Rattle.std.specs.Prelude.{◌≡◌, ◌<◌, IfOk, length};
ghost use Rattle.clients_program.specs.Greeting.{decisions};
ghost use Rattle.clients_program.specs.Counts.{IsWhole};

use crate::client::Client;
use crate::counts::ExchangeCounts;
use crate::fault::Fault;
use crate::greeting::word;
use crate::{consumer, opening, producer};
use amqp_perf::Outcome;
use std::alloc::Global;
use std::io::{Read, Write};

/// Lets so many messages go from the producer to the consumer, and what was decided back. Writes a line for each to
/// `out`.
#[tactic(auto, using(crate::proofs::Counted::counts_whole, crate::proofs::Counted::decisions_long))]
pub fn exchange<S: Read + Write, O: Write>(
    alloc: Global,
    consumer: &mut Client<S>,
    producer: &mut Client<S>,
    count: u8,
    out: &mut O,
) -> Result<ExchangeCounts, Fault>
    ensures { IfOk result (IsWhole count) }
{
    // A producer is given credit once there is a consumer.
    opening::open(consumer, "consumer")?;
    consumer::attach(consumer, count)?;
    opening::open(producer, "producer")?;
    producer::attach(producer, count)?;
    for id in 0..count {
        producer::send(producer, alloc, id + 1)?;
    }
    let decided = hear_all(alloc, consumer, count, out)?;
    be_told(producer, &decided, out)?;
    opening::close(producer)?;
    opening::close(consumer)?;
    Ok(ExchangeCounts::of(count, &decided))
}

/// The consumer hears and decides all messages: how each of them.
#[tactic(auto, using(crate::proofs::Counted::decisions_more))]
fn hear_all<S: Read + Write, O: Write>(
    alloc: Global,
    client: &mut Client<S>,
    count: u8,
    out: &mut O,
) -> Result<Vec<Outcome>, Fault>
    ensures { IfOk result (λ decided. decided.items ≡ decisions count) }
{
    let mut decided = Vec::new(alloc);
    for id in 0..count {
        let number = id + 1;
        consumer::hear(client, alloc, number)?;
        if writeln!(out, "greeting {number} arrived").is_err() {
            return Err(Fault::NotWritten);
        }
        decided.push(consumer::decide(client, number)?)?;
    }
    Ok(decided)
}

/// The producer is told how each of the messages was decided.
fn be_told<S: Read + Write, O: Write>(
    client: &mut Client<S>,
    decided: &[Outcome],
    out: &mut O,
) -> Result<(), Fault>
    requires { length decided.now < 256 }
{
    for (place, outcome) in decided.iter().enumerate() {
        let number = (place + 1) as u8;
        producer::hear(client, number, *outcome)?;
        let word = word(*outcome);
        if writeln!(out, "greeting {number}: {word}").is_err() {
            return Err(Fault::NotWritten);
        }
    }
    Ok(())
}
