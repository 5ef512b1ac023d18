//! Choices by chance, the frames of clients, and their streams read at once.

use crate::scripts::step::{ScriptLine, octets_of, tell};
use kit_clients::{Chance, Fields, Reading, framed, read};
use std::alloc::{AllocError, AllocGlobal, Global};
use std::io;

/// Prints the choice of each step, by a generator of this seed.
pub fn play_chance<R: Print + AllocGlobal>(rt: &R, seed: u64, steps: &[&str]) -> io::Result<()> {
    let mut chance = Chance::new(seed);
    for line in steps {
        let told = chosen(rt.alloc(), &mut chance, &ScriptLine::of(line))?;
        tell(rt, line, told.as_str())?;
    }
    Ok(())
}

/// The choice that a step asks for.
fn chosen(alloc: Global, chance: &mut Chance, step: &ScriptLine<'_>) -> Result<String, AllocError> {
    let number = step.number();
    match step.verb {
        "number" => chance.number(number).to_string(alloc),
        "below" => chance.below(number.max(1) as usize).to_string(alloc),
        "place" => chance.place(number as usize).to_string(alloc),
        "once-in" => chance.once_in(number).to_string(alloc),
        "octet" => chance.octet().to_string(alloc),
        _ => {
            let words = step.rest.split_whitespace();
            let choices: Vec<u32> = words
                .map(|word| word.parse::<u32>().unwrap_or(0))
                .collect(alloc)?;
            chance.one_of(choices.as_slice(), number).to_string(alloc)
        }
    }
}

/// Puts the field of each step. Prints for each step `described CODE` the octets of all so far, and for each step `framed CHANNEL
/// BODY` those of a frame.
pub fn play_fields<R: Print + AllocGlobal>(rt: &R, steps: &[&str]) -> io::Result<()> {
    let mut fields = Fields::new(rt.alloc());
    tell_fields(rt, &mut fields, steps)
}

/// The same.
///
/// It borrows the fields: owned here, their drop would be proved on each way out.
fn tell_fields<R: Print + AllocGlobal>(
    rt: &R,
    fields: &mut Fields,
    steps: &[&str],
) -> io::Result<()> {
    for line in steps {
        let step = ScriptLine::of(line);
        match step.verb {
            "described" => tell_described(rt, line, fields, octet_of(step.first))?,
            "framed" => tell_framed(rt, line, &step)?,
            _ => put(rt.alloc(), fields, &step)?,
        }
    }
    Ok(())
}

/// Prints the octets of all fields, as those of a value with this code.
fn tell_described<R: Print + AllocGlobal>(
    rt: &R,
    line: &str,
    fields: &Fields,
    code: u8,
) -> io::Result<()> {
    let octets = fields.described(code)?;
    tell_octets(rt, line, octets.as_slice())
}

/// Prints the octets of the frame of a step.
fn tell_framed<R: Print + AllocGlobal>(
    rt: &R,
    line: &str,
    step: &ScriptLine<'_>,
) -> io::Result<()> {
    let channel = step.first.parse::<u16>().unwrap_or(0);
    let octets = framed(rt.alloc(), channel, step.octets(rt.alloc()).as_slice())?;
    tell_octets(rt, line, octets.as_slice())
}

/// Prints that a step came to these octets.
fn tell_octets<R: Print + AllocGlobal>(rt: &R, line: &str, octets: &[u8]) -> io::Result<()> {
    let digits = hex::encode(rt.alloc(), octets)?;
    tell(rt, line, digits.as_str())
}

/// Puts the field of a step.
fn put(alloc: Global, fields: &mut Fields, step: &ScriptLine<'_>) -> Result<(), AllocError> {
    match step.verb {
        "sized" => fields.sized(octet_of(step.first), step.octets(alloc).as_slice()),
        "skip" => fields.skip(step.number()),
        "number" => fields.number(step.number()),
        "maybe" => fields.maybe(step.first.parse::<u32>().ok()),
        "flag" => fields.flag(step.first == "yes"),
        "mark" => fields.mark(step.first == "yes"),
        _ => fields.octet(step.first.parse::<u8>().ok()),
    }
}

/// The octet that two hexadecimal digits are.
fn octet_of(digits: &str) -> u8 {
    u8::from_str_radix(digits, 16).unwrap_or(0)
}

/// Prints what the octets of each step are as a client's stream, read at once.
pub fn play_streams<R: Print + AllocGlobal>(rt: &R, steps: &[&str]) -> io::Result<()> {
    for line in steps {
        let stream = octets_of(rt.alloc(), line);
        tell_stream(rt, stream.as_slice())?;
    }
    Ok(())
}

/// Prints what the octets of a stream are.
fn tell_stream<R: Print + AllocGlobal>(rt: &R, stream: &[u8]) -> io::Result<()> {
    let reading = read(rt.alloc(), stream)?;
    tell_reading(rt, &reading)
}

/// Prints what was read.
///
/// It borrows the reading: owned here, its drop would be proved on each way out.
fn tell_reading<R: Print + AllocGlobal>(rt: &R, reading: &Reading<'_>) -> io::Result<()> {
    println!(rt; "open {}, fault {:?}", reading.is_open, reading.fault)?;
    println!(rt;
        "answers {}",
        hex::encode(rt.alloc(), reading.answers.as_slice())?
    )?;
    tell_frames(rt, reading.frames.as_slice())
}

/// Prints the octets of each frame.
fn tell_frames<R: Print + AllocGlobal>(rt: &R, frames: &[&[u8]]) -> io::Result<()> {
    for frame in frames {
        println!(rt; "frame {}", hex::encode(rt.alloc(), *frame)?)?;
    }
    Ok(())
}
