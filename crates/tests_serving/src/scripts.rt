//! Plays scripts at sockets, at the core that threads share, and at what stands around them, and prints what each step came to.
//!
//! Standard input has the scripts, with an empty line between them. The first line of each names its subject, and the others
//! are its steps; a line that begins with `#` is none. What is printed does not depend on which thread is first. The modules, in
//! reading order:
//!
//! - `step`: a line in its parts
//! - `inputs`: which inputs may come, and where the frames that were written stand
//! - `kits`: choices by chance, the frames of clients, and their streams read at once
//! - `seats`: two ports of one exchange on one thread, and seats that are not what the capture has
//! - `gates`: slots at a listener, and clients beside them

mod gates;
mod inputs;
mod kits;
mod seats;
mod step;

use std::alloc::AllocGlobal;
use std::io;
use std::io::Read;
use std::net::{Net, TcpStream};
use std::sync::Wait;
use std::thread::Threads;
use std::time::Clock;
use step::ScriptLine;

/// Plays the scripts of the input.
pub fn play_input<R, I: Read + Drop>(rt: &R, input: I) -> io::Result<()>
where
    R: Threads + Wait + Net<Stream = TcpStream> + Clock + Sync + Print + AllocGlobal,
{
    let text = io::read_to_string(rt.alloc(), input)?;
    play_all(rt, text.as_str())
}

/// Plays the scripts of a text.
///
/// It borrows the text, as the function below borrows the lines of a script: owned together, their drops would be proved on each
/// way out.
fn play_all<R>(rt: &R, text: &str) -> io::Result<()>
where
    R: Threads + Wait + Net<Stream = TcpStream> + Clock + Sync + Print + AllocGlobal,
{
    for script in text.split("\n\n") {
        let lines = script.lines().filter(|line| !line.starts_with('#'));
        let lines: Vec<&str> = lines.collect(rt.alloc())?;
        play(rt, lines.as_slice())?;
    }
    Ok(())
}

/// Plays a script of these lines, if there are any.
fn play<R>(rt: &R, lines: &[&str]) -> io::Result<()>
where
    R: Threads + Wait + Net<Stream = TcpStream> + Clock + Sync + Print + AllocGlobal,
{
    let Some((heading, steps)) = lines.split_first() else {
        return Ok(());
    };
    println!(rt; "== {heading}")?;
    let subject = ScriptLine::of(heading);
    match subject.verb {
        "connection_states" => inputs::play_connection_states(rt, steps),
        "written_frames" => inputs::play_written_frames(rt, steps),
        "chance" => kits::play_chance(rt, u64::from(subject.number()), steps),
        "fields" => kits::play_fields(rt, steps),
        "streams" => kits::play_streams(rt, steps),
        "exchange" => seats::play(rt, steps),
        "gates" => gates::play(rt, &subject, steps),
        _ => println!(rt; "there is no such subject"),
    }
}
