//! What the consumer says and hears.

ghost use Rattle.std.specs.Prelude.{◌≡◌, ◌<◌, IfOk};
ghost use Rattle.clients_program.specs.Greeting.{decision};

use crate::client::Client;
use crate::fault::{Fault, Wanted};
use crate::greeting::{decision_of, id_of, text_in, text_of};
use crate::said;
use amqp_perf::{Outcome, Performative, Role, Transfer};
use std::alloc::Global;
use std::io::{Read, Write};

/// Attaches the consumer's link, and lets so many messages come.
pub fn attach<S: Read + Write>(client: &mut Client<S>, count: u8) -> Result<(), Fault> {
    client.say(&said::consume())?;
    let heard = client.hear()?;
    match heard.says()?.0 {
        Performative::Attach(attach) if attach.role == Role::Sender && attach.source.is_some() => {
            client.say(&said::credit(count))
        }
        _ => Err(Fault::Unheard(Wanted::Attach)),
    }
}

/// Whether it is the whole delivery of this id, which the consumer is to decide.
fn is_whole(transfer: &Transfer<'_>, id: u32) -> bool {
    transfer.handle == said::HANDLE
        && transfer.delivery_id == Some(id)
        && transfer.settled != Some(true)
        && !transfer.has_more()
        && !transfer.is_aborted()
}

/// Hears the message of this number, with the text that was sent.
pub fn hear<S: Read + Write>(client: &mut Client<S>, alloc: Global, number: u8) -> Result<(), Fault>
    requires { 0 < number }
{
    let text = text_of(alloc, number)?;
    let heard = client.hear()?;
    match heard.says()? {
        (Performative::Transfer(transfer), message)
            if is_whole(&transfer, id_of(number)) && text_in(message) == Some(text.as_str()) => {
            Ok(())
        }
        _ => Err(Fault::Unheard(Wanted::Greeting(number))),
    }
}

/// Decides the message of this number, and settles it.
pub fn decide<S: Read + Write>(client: &mut Client<S>, number: u8) -> Result<Outcome, Fault>
    requires { 0 < number }
    ensures { IfOk result (λ outcome. outcome ≡ decision number) }
{
    let outcome = decision_of(number);
    client.say(&said::decide(id_of(number), outcome))?;
    Ok(outcome)
}
