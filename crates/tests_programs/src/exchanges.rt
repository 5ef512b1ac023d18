//! Greetings over a router whose octets were worked out beforehand, and are there before anything was said.

use crate::case::{Case, number_at};
use crate::fakes::{Input, Left, Output};
use clients_program::Client;
use clients_program::exchange::exchange as greet;
use std::alloc::{AllocGlobal, Global};
use std::io::{Read, Write};
use std::rt::Files;
use std::{fs, io};

/// How many greetings are exchanged.
const COUNT: u8 = 3;

/// A stream on which a router says these octets, whatever it hears.
#[derive(Debug, Drop)]
struct Scripted {
    says: Input,
    hears: Output,
}

impl Read for Scripted {
    fn read(&mut self, buf: &mut [u8]) -> io::Result<usize> {
        self.says.read(buf)
    }
}

impl Write for Scripted {
    fn write(&mut self, buf: &[u8]) -> io::Result<usize> {
        self.hears.write(buf)
    }

    fn flush(&mut self) -> io::Result<()> {
        Ok(())
    }
}

/// Exchanges greetings with a router that says to the consumer so many frames of `to_consumer.hex` as the first word tells,
/// and then the octets of the second; and to the producer the same of `to_producer.hex`, by the third word and the fourth. Tells
/// how it ended, and what the router heard.
pub fn exchange<R: Files + AllocGlobal>(
    rt: &R,
    case: &Case<'_>,
    left: &mut Left,
) -> io::Result<()> {
    let mut consumer = client(rt, "to_consumer.hex", case, 0)?;
    exchange_by(rt, case, &mut consumer, &mut left.out)
}

/// The same by this consumer.
///
/// It borrows the consumer, and the function below the producer: owned together, their drops would be proved on each way out.
fn exchange_by<R: Files + AllocGlobal>(
    rt: &R,
    case: &Case<'_>,
    consumer: &mut Client<Scripted>,
    out: &mut Output,
) -> io::Result<()> {
    let mut producer = client(rt, "to_producer.hex", case, 2)?;
    exchange_between(rt, consumer, &mut producer, out)
}

/// The same by both.
fn exchange_between<R: Files + AllocGlobal>(
    rt: &R,
    consumer: &mut Client<Scripted>,
    producer: &mut Client<Scripted>,
    out: &mut Output,
) -> io::Result<()> {
    match greet(rt.alloc(), consumer, producer, COUNT, out) {
        Ok(counts) => {
            writeln!(out, "{counts}")?;
            tell_heard(rt, "of_consumer.hex", consumer, out)?;
            tell_heard(rt, "of_producer.hex", producer, out)
        }
        Err(fault) => writeln!(out, "{fault:?}"),
    }
}

/// A client of a router that says so many frames of the file as the word at this place tells, and then the octets of the next.
fn client<R: Files + AllocGlobal>(
    rt: &R,
    path: &str,
    case: &Case<'_>,
    place: usize,
) -> io::Result<Client<Scripted>> {
    let count = number_at(case.words.as_slice(), place, usize::MAX);
    let mut octets = frames_of(rt, path, count)?;
    if let Some(last) = case.words.get(place.saturating_add(1)) {
        put_hex(&mut octets, last)?;
    }
    let stream = Scripted {
        says: Input::new(octets),
        hears: Output::new(rt.alloc(), usize::MAX),
    };
    Ok(Client::new(rt.alloc(), stream))
}

/// The octets of so many of the lines of a file, each of which has a frame in hexadecimal digits behind its name.
fn frames_of<R: Files + AllocGlobal>(rt: &R, path: &str, count: usize) -> io::Result<Vec<u8>> {
    let text = fs::read_to_string(rt, path)?;
    joined(rt.alloc(), text.as_str(), count)
}

/// The octets of so many of the lines of a text.
///
/// It borrows the text: owned here, its drop would be proved on each way out.
fn joined(alloc: Global, text: &str, count: usize) -> io::Result<Vec<u8>> {
    let mut octets = Vec::new(alloc);
    for line in text.lines().take(count) {
        let digits = line.split_once(' ').map_or(line, |(_, digits)| digits);
        put_hex(&mut octets, digits)?;
    }
    Ok(octets)
}

/// Appends the octets that hexadecimal digits are; none where they are none.
fn put_hex(octets: &mut Vec<u8>, digits: &str) -> io::Result<()> {
    let alloc = *octets.allocator();
    if let Ok(more) = hex::decode(alloc, digits) {
        octets.extend_from_slice(more.as_slice())?;
    }
    Ok(())
}

/// Tells whether the router heard of a client what stands in the file, or what else.
fn tell_heard<R: Files + AllocGlobal>(
    rt: &R,
    path: &str,
    client: &Client<Scripted>,
    out: &mut Output,
) -> io::Result<()> {
    let heard = client.stream.hears.octets();
    if heard == frames_of(rt, path, usize::MAX)?.as_slice() {
        return writeln!(out, "heard what {path} has");
    }
    let heard = hex::encode(rt.alloc(), heard)?;
    writeln!(out, "heard {heard}")
}
