//! The frames of clients, made of the words that tell them.

use crate::said;
use crate::said::{Field, list, repeated};
use crate::words::Words;
use kit_clients::framed;
use std::alloc::{AllocError, Global};

/// The words without a value that a client's line may have.
const FLAGS: &str =
    "> open begin attach flow transfer disposition detach end close empty nonsense torn sender receiver \
    drain echo settled more aborted resume closed";

/// The names that may stand before a value there.
const NAMES: &str =
    "channel frame remote first-out window name handle snd rcv source target count awaited credit id tag \
    format payload first last state as times refused";

/// The first word of a client's line that says nothing here, where there is one.
pub fn unknown_word<'a>(words: &Words<'a>) -> Option<&'a str> {
    for word in words.all().iter().skip(1) {
        let (known, said) = match word.split_once('=') {
            Some((name, _)) => (NAMES, name),
            None => (FLAGS, *word),
        };
        if !is_among(known, said) {
            return Some(*word);
        }
    }
    None
}

/// Whether a word is one of these.
fn is_among(words: &str, word: &str) -> bool {
    words.split_whitespace().any(|other| other == word)
}

/// The octets of a payload, again and again.
const PAYLOAD: &[u8] = b"0123456789ABCDEFGHIJKLMNOPQRSTUVWXYZ+-abcdefghijklmnopqrstuvwxyz";

/// The frames that a client's line may name; `torn` is none.
const FRAMES: &str = "open begin attach flow transfer disposition detach end close empty nonsense";

/// The octets that a client's line sends, the so-manyth time that it does. Each delivery-id is one more than the last.
/// There are none where the line names no frame.
pub fn octets_of(
    alloc: Global,
    words: &Words<'_>,
    turn: u32,
) -> Result<Option<Vec<u8>>, AllocError> {
    Ok(if words.at(2) == "torn" {
        Some(repeated(alloc, 0, 7)?)
    } else if is_among(FRAMES, words.at(2)) {
        Some(frame(alloc, words, turn)?)
    } else {
        None
    })
}

/// The frame that a line names.
fn frame(alloc: Global, words: &Words<'_>, turn: u32) -> Result<Vec<u8>, AllocError> {
    let channel = (words.number("channel").unwrap_or(0) & 0xFFFF) as u16;
    let body = on_link(alloc, words, turn)?;
    framed(alloc, channel, body.as_slice())
}

/// The body of a frame of a link, or of its deliveries, or of another.
fn on_link(alloc: Global, words: &Words<'_>, turn: u32) -> Result<Vec<u8>, AllocError> {
    match words.at(2) {
        "attach" => attach(alloc, words),
        "flow" => flow(alloc, words),
        "transfer" => transfer(alloc, words, turn),
        "disposition" => disposition(alloc, words),
        "detach" => said::detach(alloc, words.number_or("handle", 0), words.has("closed")),
        _ => beside_links(alloc, words),
    }
}

/// The body of a frame of a session or a connection, and no octets of one that is `empty`.
fn beside_links(alloc: Global, words: &Words<'_>) -> Result<Vec<u8>, AllocError> {
    match words.at(2) {
        "open" => said::open(alloc, words.number("frame")),
        "begin" => begin(alloc, words),
        "end" => said::ending(alloc, 0x17),
        "close" => said::ending(alloc, 0x18),
        "nonsense" => repeated(alloc, 0x40, 1),
        _ => Ok(Vec::new(alloc)),
    }
}

/// The octets of a word; of `300-octets` it is so many times the letter a.
fn spelled(alloc: Global, word: &str) -> Result<Vec<u8>, AllocError> {
    match word.strip_suffix("-octets") {
        Some(count) => repeated(alloc, b'a', count.parse::<u32>().unwrap_or(0) as usize),
        None => word.as_bytes().to_vec(alloc),
    }
}

fn begin(alloc: Global, words: &Words<'_>) -> Result<Vec<u8>, AllocError> {
    let (first, window) = (
        words.number_or("first-out", 0),
        words.number_or("window", 100),
    );
    let remote = if words.value("remote").is_some() {
        Some(0)
    } else {
        None
    };
    said::begin(alloc, first, window, remote)
}

fn attach(alloc: Global, words: &Words<'_>) -> Result<Vec<u8>, AllocError> {
    let name = spelled(alloc, words.value("name").unwrap_or("link"))?;
    let source = terminus(alloc, 0x28, words.value("source"))?;
    let target = terminus(alloc, 0x29, words.value("target"))?;
    attach_of(alloc, words, &name, &source, &target)
}

/// An attach of this name, and of these octets of source and target. A sender's count of deliveries starts from 0, where the line
/// doesn't say.
fn attach_of<'a>(
    alloc: Global,
    words: &Words<'_>,
    name: &'a [u8],
    source: &'a [u8],
    target: &'a [u8],
) -> Result<Vec<u8>, AllocError> {
    let is_receiver = words.has("receiver");
    let count = if is_receiver {
        words.number("count")
    } else {
        words.number_or("count", 0)
    };
    let said = [
        Field::Sized(0xB1, name),
        Field::maybe(words.number_or("handle", 0)),
        Field::Flag(is_receiver),
        Field::octet(words.octet("snd")),
        Field::octet(words.octet("rcv")),
        Field::Octets(source),
        Field::Octets(target),
        Field::Absent,
        Field::Absent,
        Field::maybe(count),
    ];
    list(alloc, 0x12, &said)
}

/// A source (0x28) or a target (0x29): `-` none, `coordinator`, else one whose address a word tells.
fn terminus(alloc: Global, code: u8, word: Option<&str>) -> Result<Vec<u8>, AllocError> {
    match word {
        None | Some("-") => repeated(alloc, 0x40, 1),
        Some("coordinator") => said::ending(alloc, 0x30),
        Some(word) => addressed(alloc, code, word),
    }
}

/// The fields up to an address: `dynamic`, `nameless` without address, `numbered` one that is a number, `unnamed` one that is
/// empty, else the address.
fn addressed(alloc: Global, code: u8, word: &str) -> Result<Vec<u8>, AllocError> {
    match word {
        "dynamic" => said::terminus(alloc, code, &[], true),
        "nameless" => list(alloc, code, &[Field::Absent]),
        "numbered" => list(alloc, code, &[Field::Uint(1)]),
        "unnamed" => said::terminus(alloc, code, &[], false),
        _ => {
            let address = spelled(alloc, word)?;
            said::terminus(alloc, code, address.as_slice(), false)
        }
    }
}

fn flow(alloc: Global, words: &Words<'_>) -> Result<Vec<u8>, AllocError> {
    let said = [
        Field::maybe(words.number("awaited")),
        Field::maybe(words.number_or("window", 100)),
        Field::maybe(words.number_or("first-out", 0)),
        Field::Uint(100),
        Field::maybe(words.number("handle")),
        Field::maybe(words.number("count")),
        Field::maybe(words.number("credit")),
        Field::Absent,
        Field::mark(words.has("drain")),
        Field::mark(words.has("echo")),
    ];
    list(alloc, 0x13, &said)
}

/// A transfer has a tag of one octet, the message-format 0 and three octets of payload, where the line doesn't say.
fn transfer(alloc: Global, words: &Words<'_>, turn: u32) -> Result<Vec<u8>, AllocError> {
    let length = words.number_or("tag", 1);
    let tag = repeated(alloc, b't', length.unwrap_or(0) as usize)?;
    let tag = match length {
        Some(_) => Field::Sized(0xB0, tag.as_slice()),
        None => Field::Absent,
    };
    transfer_of(alloc, words, turn, tag)
}

/// The same of this tag.
fn transfer_of(
    alloc: Global,
    words: &Words<'_>,
    turn: u32,
    tag: Field<'_>,
) -> Result<Vec<u8>, AllocError> {
    let said = [
        Field::maybe(words.number_or("handle", 0)),
        Field::maybe(words.number("id").map(|id| id.wrapping_add(turn))),
        tag,
        Field::maybe(words.number_or("format", 0)),
        Field::mark(words.has("settled")),
        Field::mark(words.has("more")),
        Field::Absent,
        Field::Absent,
        Field::mark(words.has("resume")),
        Field::mark(words.has("aborted")),
    ];
    let mut body = list(alloc, 0x14, &said)?;
    put_payload(&mut body, words.number("payload").unwrap_or(3))?;
    Ok(body)
}

/// Puts a payload of so many octets.
fn put_payload(body: &mut Vec<u8>, length: u32) -> Result<(), AllocError> {
    for _ in 0..length / 64 {
        body.extend_from_slice(PAYLOAD)?;
    }
    body.extend_from_slice(PAYLOAD.get(..(length % 64) as usize).unwrap_or(&[]))
}

fn disposition(alloc: Global, words: &Words<'_>) -> Result<Vec<u8>, AllocError> {
    let state = state(alloc, words.value("state").unwrap_or("-"))?;
    said::disposition(
        alloc,
        words.has("receiver"),
        words.number_or("first", 0),
        words.number("last"),
        words.has("settled"),
        state.as_slice(),
    )
}

/// A state, by its name, `-` where there is none; of `reason-300` it is a rejection that gives a reason of so many octets.
fn state(alloc: Global, word: &str) -> Result<Vec<u8>, AllocError> {
    match word {
        "-" => repeated(alloc, 0x40, 1),
        "received" => said::ending(alloc, 0x23),
        "accepted" => said::ending(alloc, 0x24),
        "rejected" => said::ending(alloc, 0x25),
        "released" => said::ending(alloc, 0x26),
        "modified" => said::ending(alloc, 0x27),
        _ => said::rejection(alloc, reason_length(word)),
    }
}

/// How many octets the reason of a rejection has.
fn reason_length(word: &str) -> usize {
    match word.strip_prefix("reason-") {
        Some(count) => count.parse::<usize>().unwrap_or(0),
        None => 0,
    }
}
