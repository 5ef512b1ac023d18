//! Streams of many frames that come in pieces, and what a splitter gives of them and keeps.

use crate::frames::fault_told;
use crate::words::{Hex, NoAnswer, number, octets};
use amqp_frames::{Splitter, cut_stream};
use kit_cases::{behind, word};
use std::alloc::{AllocError, Global};

/// What comes of a case about streams of frames.
pub(crate) fn answer(alloc: Global, verb: &str, words: &[&str]) -> Result<String, NoAnswer> {
    if verb == "pieces" {
        return in_pieces(alloc, words);
    }
    let (count, frame) = (number(word(words, 0))?, octets(alloc, word(words, 1))?);
    match verb {
        "batch" => Ok(batch(alloc, count, &frame)?),
        "rounds" => rounds(alloc, count, &frame, behind(words, 2)),
        _ => Err(NoAnswer::NoCase),
    }
}

/// A frame of this size, whose octets behind its header are `filling`.
fn frame_of_size(alloc: Global, size: u32, filling: u8) -> Result<Vec<u8>, AllocError> {
    let mut octets = Vec::new(alloc);
    octets.extend_from_slice(&size.to_be_bytes())?;
    octets.extend_from_slice(&[2, 0, 0, filling])?;
    octets.resize(size as usize, filling)?;
    Ok(octets)
}

/// 200 frames of sizes from 8 to 16384.
fn many_frames(alloc: Global) -> Result<Vec<Vec<u8>>, AllocError> {
    let mut frames = Vec::new(alloc);
    for number in 0..199u8 {
        let size = 8 + u32::from(number) * 82 + u32::from(number % 3);
        frames.push(frame_of_size(alloc, size, number)?)?;
    }
    frames.push(frame_of_size(alloc, 16384, 199)?)?;
    Ok(frames)
}

fn joined(alloc: Global, frames: &[Vec<u8>]) -> Result<Vec<u8>, AllocError> {
    let mut stream = Vec::new(alloc);
    for frame in frames {
        stream.extend_from_slice(frame)?;
    }
    Ok(stream)
}

/// The stream in pieces of these lengths, in turn.
fn pieces_of<'a>(
    alloc: Global,
    stream: &'a [u8],
    lengths: &[usize],
) -> Result<Vec<&'a [u8]>, AllocError> {
    let mut pieces = Vec::new(alloc);
    let mut rest = stream;
    for length in lengths.iter().cycle().take(stream.len()) {
        if rest.is_empty() {
            break;
        }
        let (piece, behind) = rest.split_at((*length).min(rest.len()));
        pieces.push(piece)?;
        rest = behind;
    }
    Ok(pieces)
}

/// How many frames a stream of many is cut into that comes in pieces of these lengths, and whether they are those that
/// were joined.
fn in_pieces(alloc: Global, words: &[&str]) -> Result<String, NoAnswer> {
    let lengths = lengths_of(alloc, words)?;
    Ok(cut_told(alloc, &many_frames(alloc)?, &lengths)?)
}

/// The lengths that words are.
fn lengths_of(alloc: Global, words: &[&str]) -> Result<Vec<usize>, NoAnswer> {
    let mut lengths = Vec::new(alloc);
    for word in words {
        lengths.push(number::<usize>(word)?)?;
    }
    Ok(lengths)
}

/// The same of these frames.
fn cut_told(alloc: Global, frames: &[Vec<u8>], lengths: &[usize]) -> Result<String, AllocError> {
    let stream = joined(alloc, frames)?;
    let pieces = pieces_of(alloc, &stream, lengths)?;
    let cut = cut_stream(alloc, pieces.as_slice())?;
    let same = cut.frames.as_slice() == frames;
    format!(in alloc;
        "{} frames, as they were {same}, {:?}",
        cut.frames.len(),
        cut.fault
    )
}

/// How many of so many frames are given back that come in one piece, and what is given behind them. Where a long stream
/// were moved for each of its small frames, this would not end in time.
fn batch(alloc: Global, count: u32, frame: &[u8]) -> Result<String, AllocError> {
    let stream = repeated(alloc, count, frame)?;
    batch_told(&mut Splitter::new(alloc), alloc, count, (&stream, frame))
}

/// The same of a splitter that was given nothing, of the stream and the frame that it is made of.
fn batch_told(
    splitter: &mut Splitter,
    alloc: Global,
    count: u32,
    (stream, frame): (&[u8], &[u8]),
) -> Result<String, AllocError> {
    splitter.feed(stream)?;
    let given = all_given(splitter, count, frame)?;
    let behind = next_told(alloc, splitter)?;
    format!(in alloc; "{given} given back, then {behind}")
}

/// How many of so many frames are given back.
fn all_given(splitter: &mut Splitter, count: u32, frame: &[u8]) -> Result<u32, AllocError> {
    let mut given = 0u32;
    for _ in 0..count {
        given = given.saturating_add(u32::from(splitter.next() == Ok(Some(frame))));
        splitter.feed(&[])?;
    }
    Ok(given)
}

fn repeated(alloc: Global, count: u32, octets: &[u8]) -> Result<Vec<u8>, AllocError> {
    let mut all = Vec::new(alloc);
    for _ in 0..count {
        all.extend_from_slice(octets)?;
    }
    Ok(all)
}

/// How many of so many frames are given back that come one by one, and how many octets are kept then; and the same of
/// further pieces.
fn rounds(alloc: Global, count: u32, frame: &[u8], words: &[&str]) -> Result<String, NoAnswer> {
    rounds_told(&mut Splitter::new(alloc), alloc, count, frame, words)
}

/// The same of a splitter that was given nothing.
fn rounds_told(
    splitter: &mut Splitter,
    alloc: Global,
    count: u32,
    frame: &[u8],
    words: &[&str],
) -> Result<String, NoAnswer> {
    let given = one_by_one(splitter, count, frame)?;
    let mut out = format!(in alloc; "{given} given back, {:?} kept", kept(alloc, splitter)?)?;
    tell_pieces(&mut out, splitter, words)?;
    Ok(out)
}

/// Tells what a splitter gives behind each further piece.
fn tell_pieces(out: &mut String, splitter: &mut Splitter, words: &[&str]) -> Result<(), NoAnswer> {
    for word in words {
        tell_piece(out, splitter, &octets(*out.allocator(), word)?)?;
    }
    Ok(())
}

/// Tells what a splitter gives behind a further piece, and how many octets it keeps then.
fn tell_piece(out: &mut String, splitter: &mut Splitter, piece: &[u8]) -> Result<(), AllocError> {
    let alloc = *out.allocator();
    splitter.feed(piece)?;
    let next = next_told(alloc, splitter)?;
    write!(out, "\n  {next}, {:?} kept", kept(alloc, splitter)?)
}

/// How many of so many frames are given back that come one by one.
fn one_by_one(splitter: &mut Splitter, count: u32, frame: &[u8]) -> Result<u32, AllocError> {
    let mut given = 0u32;
    for _ in 0..count {
        splitter.feed(frame)?;
        given = given.saturating_add(u32::from(splitter.next() == Ok(Some(frame))));
    }
    Ok(given)
}

/// What a splitter gives next.
fn next_told(alloc: Global, splitter: &mut Splitter) -> Result<String, AllocError> {
    match splitter.next() {
        Ok(Some(frame)) => format!(in alloc; "{:?}", Hex(frame)),
        Ok(None) => "none".to_string(alloc),
        Err(fault) => fault_told(alloc, fault),
    }
}

/// How many octets a splitter keeps: they stand in its debug text, between brackets.
fn kept(alloc: Global, splitter: &Splitter) -> Result<Option<usize>, AllocError> {
    let text = format!(in alloc; "{splitter:?}")?;
    let Some((_, behind)) = text.split_once("[") else {
        return Ok(None);
    };
    let Some((octets, _)) = behind.split_once("]") else {
        return Ok(None);
    };
    if octets.is_empty() {
        return Ok(Some(0));
    }
    Ok(Some(octets.split(",").count()))
}
