//! The steps of a client's stream.

use crate::words::{Hex, NoAnswer, number, octets};
use kit_cases::{parted, word};
use std::alloc::{AllocError, Global};
use stream_reading::{Phase, StreamReader, answer_to, answer_to_fault, front};

/// What comes of a case about streams.
pub(crate) fn answer(alloc: Global, words: &[&str]) -> Result<String, NoAnswer> {
    let (verb, rest) = parted(words);
    let octets = octets(alloc, word(rest, 1))?;
    match verb {
        "front" => Ok(at_front(alloc, phase(word(rest, 0))?, &octets)?),
        "steps" => steps(alloc, number(word(rest, 0))?, &octets),
        _ => Err(NoAnswer::NoCase),
    }
}

fn phase(name: &str) -> Result<Phase, NoAnswer> {
    match name {
        "FirstHeader" => Ok(Phase::FirstHeader),
        "Exchange" => Ok(Phase::Exchange),
        "SecondHeader" => Ok(Phase::SecondHeader),
        "Open" => Ok(Phase::Open),
        _ => Err(NoAnswer::NoCase),
    }
}

/// What stands at the front of a stream, and what is answered to it.
fn at_front(alloc: Global, phase: Phase, octets: &[u8]) -> Result<String, AllocError> {
    match front(phase, octets) {
        Ok(Some(step)) => {
            let answer = Hex(answer_to(step.event));
            format!(in alloc;
                "{:?} {:?}\n  answer {answer:?}",
                step.event,
                Hex(step.octets)
            )
        }
        Ok(None) => "no step yet".to_string(alloc),
        Err(fault) => {
            let answer = Hex(answer_to_fault(fault));
            format!(in alloc; "{fault:?}\n  answer {answer:?}")
        }
    }
}

/// The steps of a stream that comes in pieces of this length, and what comes next behind them.
fn steps(alloc: Global, most: usize, octets: &[u8]) -> Result<String, NoAnswer> {
    if most == 0 {
        return Err(NoAnswer::NoCase);
    }
    let mut out = String::new(alloc);
    let mut reader = StreamReader::new(alloc);
    for piece in octets.chunks(most) {
        reader.feed(piece)?;
        take_steps(&mut out, &mut reader)?;
    }
    write!(out, "then {:?}", reader.phase())?;
    Ok(out)
}

/// Takes the steps that are whole by now.
fn take_steps(out: &mut String, reader: &mut StreamReader) -> Result<(), AllocError> {
    for _ in 0..6 {
        let (event, len) = match reader.peek() {
            Ok(Some(step)) => {
                write!(out, "{:?} {:?}\n  ", step.event, Hex(step.octets))?;
                (step.event, step.octets.len())
            }
            Ok(None) => break,
            Err(fault) => return write!(out, "{fault:?}\n  "),
        };
        reader.took(event, len);
    }
    Ok(())
}
