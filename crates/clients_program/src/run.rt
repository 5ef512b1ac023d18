//! A run over any words, network and writer.

ghost use Rattle.clients_program.specs.Run.{IsStatus};

use crate::client::Client;
use crate::counts::ExchangeCounts;
use crate::exchange::exchange;
use crate::fault::Fault;
use crate::words::{Task, USAGE};
use program_ends::{WORDS_FAULT, tell_line};
use std::alloc::Global;
use std::io::Write;
use std::net::{Net, OpenStream, SocketAddr, TcpStream};
use std::rt::Clock;
use std::thread;
use std::time::Duration;

/// The exit status where the exchange was not finished.
pub const UNFINISHED: u8 = 1;

/// How often a connection is tried in a second.
const TRIES: u32 = 5;

/// How many milliseconds each try may take, and the pause behind it.
const PAUSE: u64 = 200;

/// How many seconds a router may be silent.
const PATIENCE: u64 = 20;

/// Makes the exchange that the words ask for, those behind the program's name. Writes what happens to `out`, and answers
/// the exit status.
pub fn run_words<R: Net + Clock, O: Write>(
    rt: &R,
    alloc: Global,
    words: &[String],
    out: &mut O,
) -> u8
    ensures { IsStatus result }
{
    let Some(task) = Task::from_words(words) else {
        return tell_line(&USAGE, WORDS_FAULT, out);
    };
    match made(rt, alloc, &task, out) {
        Ok(counts) => tell_line(&counts, 0, out),
        Err(fault) => tell_line(&fault, UNFINISHED, out),
    }
}

/// Connects both clients, and makes the exchange.
fn made<R: Net + Clock, O: Write>(
    rt: &R,
    alloc: Global,
    task: &Task,
    out: &mut O,
) -> Result<ExchangeCounts, Fault> {
    let mut consumer = Client::new(alloc, connected(rt, task)?);
    let mut producer = Client::new(alloc, connected(rt, task)?);
    exchange(alloc, &mut consumer, &mut producer, task.count, out)
}

/// A connection to the router at the task's address, which may still be starting.
fn connected<R: Net + Clock>(rt: &R, task: &Task) -> Result<R::Stream, Fault> {
    let (addr, pause) = (SocketAddr::V4(task.address), Duration::from_millis(PAUSE));
    for _ in 0..=u32::from(task.wait) * TRIES {
        if let Ok(stream) = TcpStream::connect_timeout(rt, &addr, pause) {
            stream.set_read_timeout(Some(Duration::from_secs(PATIENCE)))?;
            // Each frame is to go at once.
            stream.set_nodelay(true)?;
            return Ok(stream);
        }
        thread::sleep(rt, pause);
    }
    Err(Fault::NoRouter(task.address))
}
