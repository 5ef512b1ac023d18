//! What the producer says and hears.

ghost use Rattle.std.specs.Prelude.{◌<◌, OnOk};
ghost use Rattle.std.specs.Io.KnownBytes.{Appends};
ghost use Rattle.clients_program.specs.Greeting.{message_octets};

use crate::client::Client;
use crate::fault::{Fault, Wanted};
use crate::greeting::{id_of, put_message};
use crate::said;
use amqp_perf::{Disposition, Flow, Outcome, Performative, Role};
use std::alloc::Global;
use std::io::{Read, Write};

/// Attaches the producer's link, and waits until so many messages may be sent.
pub fn attach<S: Read + Write>(client: &mut Client<S>, count: u8) -> Result<(), Fault> {
    client.say(&said::produce())?;
    let heard = client.hear()?;
    match heard.says()?.0 {
        Performative::Attach(attach) if attach.role == Role::Receiver && attach.target.is_some() =>
            {}
        _ => return Err(Fault::Unheard(Wanted::Attach)),
    }
    let heard = client.hear()?;
    match heard.says()?.0 {
        Performative::Flow(flow) if gives(&flow, count) => Ok(()),
        _ => Err(Fault::Unheard(Wanted::Credit)),
    }
}

/// Whether the flow lets so many messages go, or more.
fn gives(flow: &Flow, count: u8) -> bool {
    flow.handle == Some(said::HANDLE)
        && flow
            .link_credit
            .is_some_and(|credit| credit >= u32::from(count))
}

/// Sends the message of this number.
pub fn send<S: Read + Write>(client: &mut Client<S>, alloc: Global, number: u8) -> Result<(), Fault>
    requires { 0 < number }
    ensures { OnOk result (Appends (S.contents client.old.stream) (S.contents client.new.stream) (message_octets number)) }
{
    let mut frame = Vec::new(alloc);
    put_message(&mut frame, number)?;
    client.write(&frame)
}

/// The outcome that a disposition tells of the delivery of this id, and settles it.
fn told(disposition: &Disposition<'_>, id: u32) -> Option<Outcome> {
    let is_of_it = disposition.role == Role::Receiver
        && disposition.first == id
        && disposition.last_id() == id
        && disposition.is_settled();
    if is_of_it {
        disposition.state?.outcome()
    } else {
        None
    }
}

/// Hears that the message of this number was decided so.
pub fn hear<S: Read + Write>(
    client: &mut Client<S>,
    number: u8,
    outcome: Outcome,
) -> Result<(), Fault>
    requires { 0 < number }
{
    let heard = client.hear_past_flows()?;
    match heard.says()?.0 {
        Performative::Disposition(disposition)
            if told(&disposition, id_of(number)) == Some(outcome) => Ok(()),
        _ => Err(Fault::Unheard(Wanted::Outcome(number))),
    }
}
