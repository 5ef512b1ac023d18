//! Serves clients in memory and over sockets, by threads over one core and by one owner, and lets the auditor judge what came of it.
//!
//! `README.md` says what is run. What is printed does not depend on which thread is first. In reading order:
//!
//! - `scripts`: sockets, the core that threads share, and what stands around them, step by step
//! - `workers`: clients in memory over one core, by threads
//! - `owner`: clients in memory over one server, round by round
#![tactic(auto)]

mod owner;
mod scripts;
mod workers;

use std::alloc::AllocGlobal;
use std::io;
use std::io::Read;
use std::net::{Net, TcpStream};
use std::process::ExitCode;
use std::sync::Wait;
use std::thread::Threads;
use std::time::Clock;

/// The status where memory was refused, a socket failed or a line was not written.
const SYSTEM_FAULT: u8 = 74;

fn main(rt: HostRuntime) -> ExitCode {
    ExitCode::from(match serve_all(&rt, rt.stdin()) {
        Ok(()) => 0,
        Err(_) => SYSTEM_FAULT,
    })
}

/// Plays the scripts of the input, and runs each kind of both.
fn serve_all<R, I: Read + Drop>(rt: &R, input: I) -> io::Result<()>
where
    R: Threads + Wait + Net<Stream = TcpStream> + Clock + Sync + Print + AllocGlobal,
{
    scripts::play_input(rt, input)?;
    workers::run_all(rt, rt.alloc())?;
    owner::run_all(rt, rt.alloc())
}
