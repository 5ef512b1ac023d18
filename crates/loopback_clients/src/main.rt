//! A producer and a consumer that exchange greetings over a router, as anybody's clients could.
//!
//! `loopback_clients ADDRESS COUNT [SECONDS]` connects to the router at ADDRESS, an IPv4 address with its port, once as a
//! consumer of the address `greetings` and once as a producer for it. The producer sends COUNT messages, 1 to 200; the
//! consumer accepts them, but rejects each third; and the router tells the producer so. A line on standard output tells of
//! each message that arrived and of each outcome that was told, and the last one how many there were. A router that does
//! not listen yet is waited for, SECONDS long, or else five.
//!
//! Where no router is at ADDRESS, or it says something else, the last line tells that, and the exit status is 1.
//! `README.md` has an example. The library `clients_program` is a run over any words, network and writer.
#![tactic(auto)]

use clients_program::run_words;
use program_ends::words_of;
use std::process::ExitCode;

fn main(rt: HostRuntime) -> ExitCode {
    // Words that are no texts ask for nothing, as no words do.
    let words = words_of(&rt).unwrap_or(Vec::new(rt.alloc()));
    ExitCode::from(run_words(&rt, rt.alloc(), &words, &mut rt.stdout()))
}
