//! What each client says first and last.

ghost use Rattle.std.specs.Prelude.{◌≤◌, length};

use crate::client::Client;
use crate::fault::{Fault, Wanted};
use crate::said;
use amqp_frames::ProtocolHeader;
use amqp_perf::Performative;
use std::io::{Read, Write};

/// Opens the connection of the client of this name, and begins its session.
pub fn open<S: Read + Write>(client: &mut Client<S>, name: &str) -> Result<(), Fault>
    requires { length name.now ≤ 100 }
{
    client.write(&ProtocolHeader::Amqp.octets())?;
    client.hear_header()?;
    client.say(&said::open(name))?;
    let Performative::Open(_) = client.hear()?.says()?.0 else {
        return Err(Fault::Unheard(Wanted::Open));
    };
    client.say(&said::begin())?;
    let Performative::Begin(_) = client.hear()?.says()?.0 else {
        return Err(Fault::Unheard(Wanted::Begin));
    };
    Ok(())
}

/// Closes the connection.
pub fn close<S: Read + Write>(client: &mut Client<S>) -> Result<(), Fault> {
    client.say(&said::close())?;
    let Performative::Close(None) = client.hear_past_flows()?.says()?.0 else {
        return Err(Fault::Unheard(Wanted::Close));
    };
    Ok(())
}
