//! Slots at a listener, and clients beside them.

use crate::scripts::step::{ScriptLine, tell};
use conn_engine::{Delivered, Gate, Ready, Taken};
use conn_workers::{ConnectionSlot, slots_at};
use mio::net::TcpListener;
use std::alloc::{AllocError, AllocGlobal, Global};
use std::io::{Read, Write};
use std::net::{Ipv4Addr, Net, SocketAddr, TcpStream};
use std::sync::Wait;
use std::time::Clock;
use std::{io, str};

/// How often a call is made again that has nothing to do yet.
const PATIENCE: u32 = 1000;

/// The octets that fill a socket, so many at a time.
const BLOCK: [u8; 4096] = [b'7'; 4096];

/// How many blocks a socket may take before it is full.
const BLOCKS: u32 = 100_000;

/// Opens so many slots of so many workers at a free port, and does with them and their clients what the steps say.
pub fn play<R>(rt: &R, subject: &ScriptLine<'_>, steps: &[&str]) -> io::Result<()>
where
    R: Wait + Net<Stream = TcpStream> + Clock + Print + AllocGlobal,
{
    let listener = TcpListener::bind(rt, SocketAddr::from((Ipv4Addr::LOCALHOST, 0)))?;
    let addr = listener.local_addr()?;
    let workers = subject.number().max(1) as usize;
    let mut slots = slots_at(rt, rt.alloc(), listener, workers, subject.count())?;
    play_steps(rt, addr, slots.as_mut_slice(), steps)
}

/// Does what the steps say with gates, and clients that connect to this address.
///
/// It borrows the gates, and the function below the clients: owned together, their drops would be proved on each way out.
fn play_steps<R, G: Gate>(
    rt: &R,
    addr: SocketAddr,
    gates: &mut [G],
    steps: &[&str],
) -> io::Result<()>
where
    R: Net<Stream = TcpStream> + Print + AllocGlobal,
{
    let mut clients = Vec::new(rt.alloc());
    play_beside(rt, addr, gates, &mut clients, steps)
}

/// The same with these clients, and more.
fn play_beside<R, G: Gate>(
    rt: &R,
    addr: SocketAddr,
    gates: &mut [G],
    clients: &mut Vec<TcpStream>,
    steps: &[&str],
) -> io::Result<()>
where
    R: Net<Stream = TcpStream> + Print + AllocGlobal,
{
    for line in steps {
        let told = step_told(rt, addr, gates, clients, &ScriptLine::of(line))?;
        tell(rt, line, told.as_str())?;
    }
    Ok(())
}

/// What comes of a step.
fn step_told<R: Net<Stream = TcpStream> + AllocGlobal, G: Gate>(
    rt: &R,
    addr: SocketAddr,
    gates: &mut [G],
    clients: &mut Vec<TcpStream>,
    step: &ScriptLine<'_>,
) -> io::Result<String> {
    match step.verb {
        "connect" | "leave" | "say" | "pour" | "hear" => client_told(rt, addr, clients, step),
        "each" => each_told(rt.alloc(), gates),
        "turns" => turns_told(rt.alloc(), gates, step.number()),
        _ => match gates.get_mut(step.number() as usize) {
            Some(gate) => Ok(gate_told(rt.alloc(), gate, step)?),
            None => Ok("no such gate".to_string(rt.alloc())?),
        },
    }
}

/// What comes of a step of a client: it connects or leaves, says a text or so many octets, or hears so many.
fn client_told<R: Net<Stream = TcpStream> + AllocGlobal>(
    rt: &R,
    addr: SocketAddr,
    clients: &mut Vec<TcpStream>,
    step: &ScriptLine<'_>,
) -> io::Result<String> {
    if step.verb == "connect" {
        clients.push(TcpStream::connect(rt, addr)?)?;
    } else if step.verb == "leave" {
        let _ = clients.pop();
    } else if let Some(client) = clients.get_mut(step.number() as usize) {
        match step.verb {
            "say" => client.write_all(step.rest.as_bytes())?,
            "pour" => pour(rt.alloc(), client, step.count())?,
            _ => return hear(rt.alloc(), client, step.count()),
        }
    }
    Ok("done".to_string(rt.alloc())?)
}

/// Writes so many octets.
fn pour<W: Write>(alloc: Global, stream: &mut W, count: u32) -> io::Result<()> {
    let octets = vec![in alloc; b'7'; count as usize]?;
    stream.write_all(octets.as_slice())
}

/// What so many octets are that are read.
fn hear<S: Read>(alloc: Global, stream: &mut S, count: u32) -> io::Result<String> {
    let mut octets = vec![in alloc; 0u8; count as usize]?;
    stream.read_exact(octets.as_mut_slice())?;
    Ok(heard_told(alloc, octets.as_slice())?)
}

/// The text of these octets, or how many they are.
fn heard_told(alloc: Global, octets: &[u8]) -> Result<String, AllocError> {
    match str::from_utf8(octets) {
        Ok(text) if octets.len() < 64 => text.to_string(alloc),
        _ => format!(in alloc; "{} octets", octets.len()),
    }
}

/// What comes of a step of a gate.
fn gate_told<G: Gate>(
    alloc: Global,
    gate: &mut G,
    step: &ScriptLine<'_>,
) -> Result<String, AllocError> {
    let mut buffer = [0u8; 64];
    match step.verb {
        "read" => {
            let read = gate.read(&mut buffer);
            read_told(alloc, read, &buffer)
        }
        "deliver" => {
            let read = delivered(gate, &mut buffer);
            read_told(alloc, read, &buffer)
        }
        "write" => format!(in alloc; "{:?}", gate.write(step.rest.as_bytes())),
        "ready" => format!(in alloc; "{:?}", gate.ready()),
        "shut" => {
            gate.shut();
            format!(in alloc; "{} failures", gate.failures())
        }
        _ => whole_told(alloc, gate, step.verb),
    }
}

/// What comes of a step of many calls: the gate is filled, takes more, or comes to rest.
fn whole_told<G: Gate>(alloc: Global, gate: &mut G, verb: &str) -> Result<String, AllocError> {
    let is_so = match verb {
        "fill" => is_filled(gate),
        "refill" => takes_again(gate),
        _ => comes_to_rest(gate),
    };
    is_so.to_string(alloc)
}

/// What a read gave.
fn read_told(alloc: Global, read: Delivered, buffer: &[u8; 64]) -> Result<String, AllocError> {
    match read {
        Delivered::Octets(count) => {
            let octets = buffer.get(..count).unwrap_or(&[]);
            heard_told(alloc, octets)
        }
        read => format!(in alloc; "{read:?}"),
    }
}

/// What the gate delivers once it has something.
fn delivered<G: Gate>(gate: &mut G, buffer: &mut [u8; 64]) -> Delivered {
    for _ in 0..PATIENCE {
        let delivered = gate.read(buffer);
        if delivered != Delivered::Nothing {
            return delivered;
        }
        let _ = gate.ready();
    }
    Delivered::Nothing
}

/// Whether the gate takes octets, and then no more.
fn is_filled<G: Gate>(gate: &mut G) -> bool {
    let mut has_taken = false;
    for _ in 0..BLOCKS {
        match gate.write(&BLOCK) {
            Taken::Took(_) => has_taken = true,
            Taken::Nothing => return has_taken,
            Taken::Fault => return false,
        }
    }
    false
}

/// Whether the gate takes octets, sooner or later.
fn takes_again<G: Gate>(gate: &mut G) -> bool {
    for _ in 0..PATIENCE {
        if matches!(gate.write(&BLOCK), Taken::Took(_)) {
            return true;
        }
        let _ = gate.ready();
    }
    false
}

/// Whether a wait of the gate comes to end without a sign, once those are seen that are there.
fn comes_to_rest<G: Gate>(gate: &mut G) -> bool {
    let mut buffer = [0u8; 64];
    for _ in 0..PATIENCE {
        let _ = gate.read(&mut buffer);
        if gate.ready() == Ready::No {
            return true;
        }
    }
    false
}

/// The first octet that each gate delivers, in the order of the octets.
fn each_told<G: Gate>(alloc: Global, gates: &mut [G]) -> io::Result<String> {
    let mut first = Vec::new(alloc);
    let mut buffer = [0u8; 64];
    for gate in gates.iter_mut() {
        if delivered(gate, &mut buffer) == Delivered::Octets(1) {
            first.push(buffer[0])?;
        }
    }
    first.sort_unstable();
    Ok(heard_told(alloc, first.as_slice())?)
}

/// How often the first gate delivers 64 octets in so many turns, and whether the second delivers one in any of them. No gate is
/// asked to wait.
fn turns_told<G: Gate>(alloc: Global, gates: &mut [G], turns: u32) -> io::Result<String> {
    let mut buffer = [0u8; 64];
    let (mut full, mut is_heard) = (0u32, false);
    let [busy, other, ..] = gates else {
        return Ok("there are no two gates".to_string(alloc)?);
    };
    for _ in 0..turns {
        if busy.read(&mut buffer) == Delivered::Octets(64) {
            full = full.saturating_add(1);
        }
        is_heard |= other.read(&mut buffer) == Delivered::Octets(1);
    }
    Ok(format!(in alloc; "{full} times 64 octets, the other is heard {is_heard}")?)
}
