//! Feeds random streams of a client to an engine, in pieces of 1, 7 and 4096 octets, and compares what the router is told
//! and what the client is given with a plain second reading of the whole stream.
//!
//! For each length of the pieces it prints how many streams agree, or how many do not, and the first of them. The streams
//! have headers that are taken or not, a SASL exchange or none, frames of any length and octets that were changed, and they
//! end anywhere. The modules, in reading order:
//!
//! - `streams`: streams
//! - `router`: a router that takes all items, and gives a frame for each
//! - `compared`: an engine that is fed a stream, and whether it did what the plain reading says

mod compared;
mod router;
mod streams;

ghost use Rattle.std.specs.Prelude.{◌<◌};

use compared::agrees;
use kit_clients::Chance;
use std::alloc::{AllocError, Global};
use std::io;

/// Tells of so many streams, from the one with this number on, how many agree.
pub(crate) fn feed_streams(rt: &HostRuntime, first: u64, count: u64) -> io::Result<()> {
    for most in [1, 7, 4096] {
        tell_pieces(rt, most, first, count)?;
    }
    Ok(())
}

/// Tells how many streams agree that come in pieces of this length, or how many do not, and the first of them.
fn tell_pieces(rt: &HostRuntime, most: usize, first: u64, count: u64) -> io::Result<()>
    requires { 0 < most }
{
    let others = others(rt.alloc(), most, first, count)?;
    let len = others.len();
    match others.first() {
        None => println!(rt; "pieces of {most}: {count} streams agree"),
        Some(seed) => println!(rt;
            "pieces of {most}: {len} of {count} streams do not agree, first {seed}"
        ),
    }
}

/// Of so many streams from this one on, those with which an engine that is fed pieces of this length does not agree.
fn others(alloc: Global, most: usize, first: u64, count: u64) -> Result<Vec<u64>, AllocError>
    requires { 0 < most }
{
    let mut others = Vec::new(alloc);
    for seed in first..first.saturating_add(count) {
        if !agrees_on(alloc, seed, most)? {
            others.push(seed)?;
        }
    }
    Ok(others)
}

/// Whether an engine that is fed pieces of this length agrees with the stream of this number.
fn agrees_on(alloc: Global, seed: u64, most: usize) -> Result<bool, AllocError>
    requires { 0 < most }
{
    let mut chance = Chance::new(seed);
    let stream = streams::stream(alloc, &mut chance)?;
    agrees_as_read(alloc, &mut chance, &stream, most)
}

/// The same of these octets.
fn agrees_as_read(
    alloc: Global,
    chance: &mut Chance,
    stream: &[u8],
    most: usize,
) -> Result<bool, AllocError>
    requires { 0 < most }
{
    let reading = kit_clients::read(alloc, stream)?;
    agrees(alloc, chance, stream, most, &reading)
}
