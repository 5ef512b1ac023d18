//! What the plain checker says of a capture, record by record: where windows and credits change, where deliveries wait,
//! and which records break a clause.

use amqp_perf::Outcome;
use capture_form::{Capture, What, read_capture};
use capture_view::outcome_name;
use std::{fmt, fs, io};
use trace_law::{best_verdict_at, credit_at, slow_check, waiting_at, window_at};

/// What changes from record to record.
#[derive(Clone, Copy, Debug)]
enum Subject {
    /// The window of this connection, on channel 0.
    Window(u32),
    /// The credit of this connection's link of handle 0.
    Credit(u32),
    /// Whether the delivery that begins in this record waits.
    Delivery(usize),
    /// What the producer of this one would be told by the verdicts of its copies.
    Verdicts(usize),
}

/// How a subject stands by the records below a number.
#[derive(Clone, Copy, Debug, PartialEq, Eq)]
enum State {
    /// There is no such session or link, or the delivery does not wait, or its producer would be told nothing.
    Nothing,
    Count(u32),
    Waits,
    Told(Outcome),
}

impl State {
    fn of_count(count: Option<u32>) -> State {
        match count {
            Some(count) => State::Count(count),
            None => State::Nothing,
        }
    }
}

/// As it is told: what stands from a record on.
impl fmt::Display for State {
    fn fmt<W: fmt::Write>(&self, f: &mut fmt::Formatter<W>) -> fmt::Result {
        match self {
            State::Nothing => write!(f, "no more"),
            State::Count(count) => write!(f, "{count}"),
            State::Waits => write!(f, "waits"),
            State::Told(outcome) => write!(f, "{}", outcome_name(*outcome)),
        }
    }
}

impl Subject {
    fn at(self, capture: &Capture, below: usize) -> State {
        match self {
            Subject::Window(client) => State::of_count(window_at(capture, below, client, 0)),
            Subject::Credit(client) => State::of_count(credit_at(capture, below, client, 0, 0)),
            Subject::Delivery(first) => {
                if waiting_at(capture, below, first as u64) {
                    State::Waits
                } else {
                    State::Nothing
                }
            }
            Subject::Verdicts(first) => match best_verdict_at(capture, below, first as u64) {
                Some(outcome) => State::Told(outcome),
                None => State::Nothing,
            },
        }
    }

    /// Writes how the subject changes, if it ever does: `from 7` means by the records below 7.
    fn tell(self, rt: &HostRuntime, capture: &Capture) -> io::Result<()> {
        let (mut state, mut separator) = (State::Nothing, ": ");
        for below in 0..capture.records().len() + 2 {
            let now = self.at(capture, below);
            if now != state {
                if separator == ": " {
                    self.tell_name(rt)?;
                }
                print!(rt; "{separator}{now} from {below}")?;
                (state, separator) = (now, ", ");
            }
        }
        if separator == ", " {
            println!(rt; "")?;
        }
        Ok(())
    }

    fn tell_name(self, rt: &HostRuntime) -> io::Result<()> {
        let (name, number) = match self {
            Subject::Window(client) => ("window of client", client as usize),
            Subject::Credit(client) => ("credit of client", client as usize),
            Subject::Delivery(first) => ("delivery of record", first),
            Subject::Verdicts(first) => ("copies of record", first),
        };
        print!(rt; "  {name} {number}")
    }
}

/// Writes what is seen of a capture: a line for each subject that ever stands, and one for each record that breaks a
/// clause. Clients have the numbers of their connections.
pub fn tell_capture(rt: &HostRuntime, capture: &Capture) -> io::Result<()> {
    let clients = tell_clients(rt, capture)?;
    if has_others(capture, clients) {
        println!(rt; "  a session or link that nobody began")?;
    }
    tell_records(rt, capture)
}

/// Writes a line for each window and each credit that ever stands, and answers how many clients there are.
fn tell_clients(rt: &HostRuntime, capture: &Capture) -> io::Result<u32> {
    let mut clients: u32 = 0;
    for entry in capture.records() {
        if matches!(entry.what, What::Opened) {
            Subject::Window(clients).tell(rt, capture)?;
            Subject::Credit(clients).tell(rt, capture)?;
            clients = clients.wrapping_add(1);
        }
    }
    Ok(clients)
}

/// Whether a session or a link stands of a client behind so many, on another channel or of another handle, which nobody uses.
fn has_others(capture: &Capture, clients: u32) -> bool {
    let below = capture.records().len();
    window_at(capture, below, clients, 0).is_some()
        || credit_at(capture, below, clients, 0, 0).is_some()
        || window_at(capture, below, 0, 1).is_some()
        || credit_at(capture, below, 0, 0, 1).is_some()
}

/// Writes a line for each delivery that ever waits, and one for each record that breaks a clause.
fn tell_records(rt: &HostRuntime, capture: &Capture) -> io::Result<()> {
    for (i, entry) in capture.records().iter().enumerate() {
        if matches!(entry.what, What::In(_)) {
            Subject::Delivery(i).tell(rt, capture)?;
        }
        if let Err(clause) = slow_check(capture, i) {
            println!(rt; "  record {i}: breaks {clause}")?;
        }
    }
    Ok(())
}

/// Writes of each delivery of the capture `NAME.cap` what its producer would be told by the verdicts of its copies, if anything.
pub fn tell_verdicts(rt: &HostRuntime, name: &str) -> io::Result<()> {
    let octets = fs::read(rt, format!(in rt.alloc(); "examples/{name}.cap")?)?;
    tell_verdicts_of(rt, name, octets.as_slice())
}

/// The same of the capture that octets are, if they are one.
fn tell_verdicts_of(rt: &HostRuntime, name: &str, octets: &[u8]) -> io::Result<()> {
    match read_capture(rt.alloc(), octets) {
        Ok(capture) => tell_verdicts_in(rt, name, &capture),
        Err(_) => println!(rt; "{name}: no capture"),
    }
}

/// The same of a capture.
fn tell_verdicts_in(rt: &HostRuntime, name: &str, capture: &Capture) -> io::Result<()> {
    println!(rt; "{name}:")?;
    for (i, entry) in capture.records().iter().enumerate() {
        if matches!(entry.what, What::In(_)) {
            Subject::Verdicts(i).tell(rt, capture)?;
        }
    }
    Ok(())
}
