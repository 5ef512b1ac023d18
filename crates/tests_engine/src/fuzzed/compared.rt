//! An engine that is fed a stream.

ghost use Rattle.std.specs.Prelude.{◌<◌};

use crate::fuzzed::router::Router;
use capture_form::What;
use conn_engine::{EMPTY_FRAME, Engine, EngineFault};
use kit_clients::{Chance, Reading};
use std::alloc::{AllocError, Global};

/// The number of the connection.
const CONNECTION: u32 = 3;

/// Whether an engine that is fed a stream in pieces of this length tells and gives what a reading of the stream says.
/// After each piece the device takes some of the octets that wait.
pub fn agrees(
    alloc: Global,
    chance: &mut Chance,
    stream: &[u8],
    most: usize,
    reading: &Reading<'_>,
) -> Result<bool, AllocError>
    requires { 0 < most }
{
    let mut given = Vec::new(alloc);
    agrees_given(&mut given, chance, stream, most, reading)
}

/// The same where what is given is put into a list without octets.
///
/// It gives the engine away before anything is asked: kept, its drop would be proved on each way out.
fn agrees_given(
    given: &mut Vec<u8>,
    chance: &mut Chance,
    stream: &[u8],
    most: usize,
    reading: &Reading<'_>,
) -> Result<bool, AllocError>
    requires { 0 < most }
{
    let alloc = *given.allocator();
    let mut engine = Engine::new(alloc, CONNECTION, Router::new(alloc, CONNECTION));
    let fed = fed(&mut engine, given, chance, stream, most, reading);
    agrees_behind(fed, &engine.into_port(), given.as_slice(), reading)
}

/// Feeds an engine a stream in pieces of this length, and then the device is gone: whether it answers what the reading says.
fn fed(
    engine: &mut Engine<Router>,
    given: &mut Vec<u8>,
    chance: &mut Chance,
    stream: &[u8],
    most: usize,
    reading: &Reading<'_>,
) -> Result<bool, AllocError>
    requires { 0 < most }
{
    let mut first_fault = None;
    for piece in stream.chunks(most) {
        let fed = engine.feed(piece);
        if first_fault.is_some() && fed != further(reading) {
            return Ok(false);
        }
        first_fault = first_fault.or(fed.err());
        take_some(engine, given, chance)?;
    }
    given.extend_from_slice(engine.give())?;
    Ok(first_fault == reading.fault && engine.gone().is_ok() && engine.gone().is_ok())
}

/// The device takes some of the octets that wait.
fn take_some(
    engine: &mut Engine<Router>,
    given: &mut Vec<u8>,
    chance: &mut Chance,
) -> Result<(), AllocError> {
    engine.refill()?;
    let len = chance.below(engine.give().len() + 1);
    given.extend_from_slice(&engine.give()[..len])?;
    engine.gave(len);
    Ok(())
}

/// Whether an engine that was fed a stream, and answered this, told its router and gave what the reading says.
fn agrees_behind(
    fed: Result<bool, AllocError>,
    router: &Router,
    given: &[u8],
    reading: &Reading<'_>,
) -> Result<bool, AllocError> {
    Ok(fed? && gave_all(given, router.given(), reading) && told_all(router.items(), reading))
}

/// What is answered to a piece behind the fault.
fn further(reading: &Reading<'_>) -> Result<(), EngineFault> {
    if reading.is_open {
        Err(EngineFault::Frame)
    } else {
        Err(EngineFault::Over)
    }
}

/// Whether these octets are the answers and then so many frames of the router.
fn gave_all(given: &[u8], frames: usize, reading: &Reading<'_>) -> bool {
    match given.strip_prefix(reading.answers.as_slice()) {
        Some(rest) => {
            rest.len() / EMPTY_FRAME.len() == frames
                && rest
                    .chunks(EMPTY_FRAME.len())
                    .all(|frame| frame == EMPTY_FRAME.as_slice())
        }
        None => false,
    }
}

/// Whether these items are that the connection was opened, each frame, that octets were none, and that it is lost.
fn told_all(items: &[What], reading: &Reading<'_>) -> bool {
    if !reading.is_open {
        return items.is_empty();
    }
    let [What::Opened, frames @ .., What::Lost] = items else {
        return false;
    };
    match reading.fault {
        None => told_frames(frames, &reading.frames),
        Some(_) => match frames {
            [frames @ .., What::Broken] => told_frames(frames, &reading.frames),
            _ => false,
        },
    }
}

/// Whether these items are these frames.
fn told_frames(items: &[What], frames: &[&[u8]]) -> bool {
    items.len() == frames.len()
        && items.iter().zip(frames.iter()).all(|(
            item,
            frame,
        )| matches!(item, What::In(told) if told.octets() == *frame))
}
