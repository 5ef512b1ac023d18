//! What stood behind the records of captures, drawn as curves.

use capture_form::{Capture, Record, RuleSet, read_capture};
use credit_chart::draw_levels;
use credit_levels::{Levels, Pick, PickedLink};
use state_ledger::{Ledger, NotEntered};
use std::alloc::{AllocError, Global};
use std::{fs, io};

/// As many records as a ledger may have.
const MOST_RECORDS: u64 = 9223372036854775807;

/// Draws the links that the lines of `curves.cases` pick.
pub fn tell_curves(rt: &HostRuntime) -> io::Result<()> {
    let cases = fs::read_to_string(rt, "charts/curves.cases")?;
    for line in cases.lines() {
        tell_line(rt, line)?;
    }
    Ok(())
}

/// Draws the link that a line picks, or tells the line.
fn tell_line(rt: &HostRuntime, line: &str) -> io::Result<()> {
    let words: Vec<&str> = line.split_whitespace().collect(rt.alloc())?;
    tell_words(rt, line, words.as_slice())
}

/// The same of a line that has these words.
fn tell_words(rt: &HostRuntime, line: &str, words: &[&str]) -> io::Result<()> {
    match words {
        [capture, connection, name] => {
            println!(rt; "== {line}")?;
            tell_curve(rt, line, capture, picked(connection, name))
        }
        _ => rt.println(line),
    }
}

/// The links of this connection and name, where `-` is any.
fn picked<'a>(connection: &str, name: &'a str) -> Pick<'a> {
    Pick {
        connection: connection.parse::<u32>().ok(),
        name: if name == "-" { None } else { Some(name) },
    }
}

/// Tells where the link stands that is picked of a capture, and draws what stood behind each record of it.
fn tell_curve(rt: &HostRuntime, title: &str, capture: &str, pick: Pick<'_>) -> io::Result<()> {
    let octets = fs::read(rt, format!(in rt.alloc(); "charts/{capture}.cap")?)?;
    tell_octets(rt, title, octets.as_slice(), pick)
}

/// The same of the octets of a capture.
fn tell_octets(rt: &HostRuntime, title: &str, octets: &[u8], pick: Pick<'_>) -> io::Result<()> {
    match read_capture(rt.alloc(), octets) {
        Ok(capture) => tell_link(rt, title, &capture, &mut Levels::new(rt.alloc(), pick)),
        Err(_) => rt.println("no capture"),
    }
}

/// The same of a capture, with levels of no records yet.
///
/// It borrows them: owned here, their drop would be proved on each way out.
fn tell_link(
    rt: &HostRuntime,
    title: &str,
    capture: &Capture,
    levels: &mut Levels<'_>,
) -> io::Result<()> {
    if !take_levels(rt.alloc(), levels, capture)? {
        return rt.println("no lawful capture");
    }
    tell_place(rt, levels.place())?;
    rt.print(draw_levels(rt.alloc(), title, levels.levels())?.as_str())
}

fn tell_place(rt: &HostRuntime, place: Option<PickedLink>) -> io::Result<()> {
    match place {
        Some(place) => println!(rt;
            "opened in record {} on connection {}, channel {}, handle {}",
            place.number, place.connection, place.channel, place.handle
        ),
        None => rt.println("no link is picked"),
    }
}

/// Takes what stood behind each record of a capture, and says whether it is lawful.
fn take_levels(
    alloc: Global,
    levels: &mut Levels<'_>,
    capture: &Capture,
) -> Result<bool, AllocError> {
    take_all(&mut Ledger::new(alloc), levels, capture)
}

/// The same with a ledger that has taken no record yet.
///
/// It borrows that: owned here, its drop would be proved on each way out.
fn take_all(
    ledger: &mut Ledger,
    levels: &mut Levels<'_>,
    capture: &Capture,
) -> Result<bool, AllocError> {
    for entry in capture.records() {
        if !take(ledger, levels, capture.rules(), entry)? {
            return Ok(false);
        }
    }
    Ok(true)
}

/// Takes a record, and says whether it is lawful.
fn take(
    ledger: &mut Ledger,
    levels: &mut Levels<'_>,
    rules: &RuleSet,
    entry: &Record,
) -> Result<bool, AllocError> {
    let number = ledger.tally().records;
    if number >= MOST_RECORDS {
        return Ok(false);
    }
    match ledger.enter(rules, entry) {
        Ok(()) => {}
        Err(NotEntered::Memory) => return Err(AllocError),
        Err(NotEntered::Broken(_)) => return Ok(false),
    }
    levels.take(&ledger.lent(), rules, number, entry)?;
    Ok(true)
}
