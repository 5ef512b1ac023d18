//! What stands beside the messages that are measured.

use flow_counts::MAX_FRAME_SIZE;
use kit_talks::{
    BEGIN, DETACH, OPEN, attaching, attaching_settled, crediting, put_accepted, put_all_accepted,
    put_transfer,
};
use route_core::Core;
use route_items::Item;
use std::alloc::Global;
use std::io;
use std::io::ErrorKind;

/// What stands there.
#[derive(Clone, Copy, PartialEq, Eq)]
pub(crate) enum Shape {
    /// Other links, each of an address of its own.
    Links,
    /// Deliveries of others that are sent and not settled.
    Unsettled,
    /// Deliveries on the consumer's own session that it has not decided; it accepts ten messages at a time, by one frame.
    Ranges,
    /// Deliveries of others that wait for credit.
    Waiting,
    /// Each message goes, settled, to so many consumers.
    Copies,
    /// Each message goes to so many consumers, each of which accepts its copy.
    Deciding,
    /// Deliveries wait for credit of a consumer, which then leaves.
    Ending,
}

/// The connections of the producer and the consumer that are measured, and of others.
const PRODUCER: u32 = 0;

const CONSUMER: u32 = 1;

const OTHER_PRODUCER: u32 = 2;

const OTHER_CONSUMER: u32 = 3;

const OTHERS: u32 = 4;

/// How many links a session has at most here, and how many deliveries a producer sends that nobody decides.
const LINKS: u32 = 1000;

const SENT: u32 = 250;

impl Shape {
    /// The shape of a name.
    pub(crate) fn of(name: &str) -> Option<Shape> {
        let shape = match name {
            "links" => Shape::Links,
            "unsettled" => Shape::Unsettled,
            "ranges" => Shape::Ranges,
            "waiting" => Shape::Waiting,
            "copies" => Shape::Copies,
            "deciding" => Shape::Deciding,
            "ending" => Shape::Ending,
            _ => return None,
        };
        Some(shape)
    }

    /// Sets up what stands there, so many times, and the producer and the consumer that are measured.
    pub(crate) fn set_up(self, alloc: Global, core: &mut Core, size: u32) -> io::Result<()> {
        connect(core, PRODUCER)?;
        connect(core, CONSUMER)?;
        match self {
            Shape::Links => other_links(alloc, core, size)?,
            Shape::Unsettled => other_messages(alloc, core, size, true)?,
            Shape::Ranges => undecided(alloc, core, size)?,
            Shape::Waiting => other_messages(alloc, core, size, false)?,
            Shape::Copies => return copied(alloc, core, size, true),
            Shape::Deciding => return copied(alloc, core, size, false),
            Shape::Ending => return other_messages(alloc, core, size, false),
        }
        produce(alloc, core, PRODUCER, 0, "q")?;
        consume(alloc, core, CONSUMER, 0, "q")?;
        credit(alloc, core, CONSUMER, 0)
    }

    /// Sends so many messages beside what stands there so many times, and accepts each where that is to be done; or the
    /// consumer leaves for which deliveries wait.
    pub(crate) fn route(
        self,
        alloc: Global,
        core: &mut Core,
        size: u32,
        count: u32,
    ) -> io::Result<()> {
        if self == Shape::Ending {
            return send(core, OTHER_CONSUMER, DETACH);
        }
        let mut frame = Vec::with_capacity(alloc, 200)?;
        self.route_over(core, &mut frame, size, count)
    }

    /// The same where messages are sent. It writes over the frame, which it borrows: owned here, its drop would be proved on each
    /// way out.
    fn route_over(
        self,
        core: &mut Core,
        frame: &mut Vec<u8>,
        size: u32,
        count: u32,
    ) -> io::Result<()> {
        for id in 0..count {
            put_transfer(frame, 0, id)?;
            send(core, PRODUCER, frame.as_slice())?;
            self.decide(core, frame, size, id)?;
        }
        Ok(())
    }

    /// The consumers accept what they got of the message of this id. It writes over the frame.
    fn decide(self, core: &mut Core, frame: &mut Vec<u8>, size: u32, id: u32) -> io::Result<()> {
        match self {
            Shape::Copies | Shape::Ending => Ok(()),
            Shape::Deciding => accept_copies(core, frame, size, id),
            Shape::Ranges => accept_tens(core, frame, size, id),
            Shape::Links | Shape::Unsettled | Shape::Waiting => accept(core, frame, CONSUMER, id),
        }
    }
}

/// So many consumers, each of an address of its own.
fn other_links(alloc: Global, core: &mut Core, count: u32) -> io::Result<()> {
    for number in 0..count {
        let (further, handle) = (number / LINKS, number % LINKS);
        let connection = OTHERS.wrapping_add(further);
        if handle == 0 {
            connect(core, connection)?;
        }
        let address = format!(in alloc; "other{number}")?;
        consume(alloc, core, connection, handle, address.as_str())?;
    }
    Ok(())
}

/// So many messages of other producers, which a consumer gets and does not decide, or gives no credit for.
fn other_messages(alloc: Global, core: &mut Core, count: u32, has_credit: bool) -> io::Result<()> {
    connect(core, OTHER_PRODUCER)?;
    connect(core, OTHER_CONSUMER)?;
    consume(alloc, core, OTHER_CONSUMER, 0, "other")?;
    if has_credit {
        credit(alloc, core, OTHER_CONSUMER, 0)?;
    }
    send_others(core, &mut Vec::new(alloc), count)
}

/// So many messages of other producers, which the consumer that is measured gets on another link, and does not decide.
fn undecided(alloc: Global, core: &mut Core, count: u32) -> io::Result<()> {
    connect(core, OTHER_PRODUCER)?;
    consume(alloc, core, CONSUMER, 1, "other")?;
    credit(alloc, core, CONSUMER, 1)?;
    send_others(core, &mut Vec::new(alloc), count)
}

/// So many messages of other producers, each of whom attaches before its first one. It writes over the frame.
fn send_others(core: &mut Core, frame: &mut Vec<u8>, count: u32) -> io::Result<()> {
    for id in 0..count {
        let handle = id / SENT;
        if id % SENT == 0 {
            produce(*frame.allocator(), core, OTHER_PRODUCER, handle, "other")?;
        }
        put_transfer(frame, handle, id)?;
        send(core, OTHER_PRODUCER, frame.as_slice())?;
    }
    Ok(())
}

/// A producer of a multicast address, and so many consumers of it, which ask for settled copies or for nothing.
fn copied(alloc: Global, core: &mut Core, count: u32, is_settled: bool) -> io::Result<()> {
    produce(alloc, core, PRODUCER, 0, "news")?;
    for number in 0..count {
        let (further, handle) = (number / LINKS, number % LINKS);
        let connection = OTHERS.wrapping_add(further);
        if handle == 0 {
            connect(core, connection)?;
        }
        if is_settled {
            consume_settled(alloc, core, connection, handle, "news")?;
        } else {
            consume(alloc, core, connection, handle, "news")?;
        }
        credit(alloc, core, connection, handle)?;
    }
    Ok(())
}

/// Each of so many consumers accepts its copy of the message of this id. The copies of a message come to a session in the
/// order of its links, and their ids go on from those of the messages before.
fn accept_copies(core: &mut Core, frame: &mut Vec<u8>, count: u32, id: u32) -> io::Result<()> {
    for number in 0..count {
        let (further, handle) = (number / LINKS, number % LINKS);
        let links = count.wrapping_sub(further.wrapping_mul(LINKS)).min(LINKS);
        let copy = id.wrapping_mul(links).wrapping_add(handle);
        accept(core, frame, OTHERS.wrapping_add(further), copy)?;
    }
    Ok(())
}

/// The consumer accepts ten messages by one frame, once the last of them came; their ids follow those of the deliveries that it
/// does not decide. It writes over the frame.
fn accept_tens(core: &mut Core, frame: &mut Vec<u8>, undecided: u32, id: u32) -> io::Result<()> {
    if id % 10 != 9 {
        return Ok(());
    }
    let last = undecided.wrapping_add(id);
    put_all_accepted(frame, last.wrapping_sub(9), last)?;
    send(core, CONSUMER, frame.as_slice())
}

/// The client of a connection accepts the delivery of this id, and settles it. It writes over the frame.
fn accept(core: &mut Core, frame: &mut Vec<u8>, connection: u32, id: u32) -> io::Result<()> {
    put_accepted(frame, id)?;
    send(core, connection, frame.as_slice())
}

/// The client of a connection sends a frame, and the core takes it.
fn send(core: &mut Core, connection: u32, frame: &[u8]) -> io::Result<()> {
    if frame.len() > MAX_FRAME_SIZE as usize || core.step(Item::In(connection, frame)).is_err() {
        return Err(io::Error::from(ErrorKind::InvalidInput));
    }
    Ok(())
}

/// A client comes, with a session on channel 0.
fn connect(core: &mut Core, connection: u32) -> io::Result<()> {
    if core.step(Item::Opened(connection)).is_err() {
        return Err(io::Error::from(ErrorKind::InvalidInput));
    }
    send(core, connection, OPEN)?;
    send(core, connection, BEGIN)
}

/// It attaches as a producer.
fn produce(
    alloc: Global,
    core: &mut Core,
    connection: u32,
    handle: u32,
    address: &str,
) -> io::Result<()> {
    let frame = attaching(alloc, handle, false, address)?;
    send(core, connection, frame.as_slice())
}

/// It attaches as a consumer.
fn consume(
    alloc: Global,
    core: &mut Core,
    connection: u32,
    handle: u32,
    address: &str,
) -> io::Result<()> {
    let frame = attaching(alloc, handle, true, address)?;
    send(core, connection, frame.as_slice())
}

/// It attaches as a consumer, and asks for settled deliveries.
fn consume_settled(
    alloc: Global,
    core: &mut Core,
    connection: u32,
    handle: u32,
    address: &str,
) -> io::Result<()> {
    let frame = attaching_settled(alloc, handle, address)?;
    send(core, connection, frame.as_slice())
}

/// It gives a link as much credit as there may be.
fn credit(alloc: Global, core: &mut Core, connection: u32, handle: u32) -> io::Result<()> {
    let frame = crediting(alloc, handle)?;
    send(core, connection, frame.as_slice())
}
