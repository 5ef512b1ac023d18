//! Draws captures in the order of their names, texts that would break a document if they were written as they are, and curves
//! of what stood behind the records of captures.
//!
//! The files are those of the folder `charts`. In `names.cap` a client gives its links such names, and sends octets that are no
//! frames. In `outcomes.cap`, which no router wrote, ids of deliveries are used again, and told of three deliveries and of none. A
//! line of `curves.cases` names a capture and the consumer's link that is picked of it; in `curves/reopened.cap` that link is
//! drained, detached and opened again, and in `curves/waiting.cap` three deliveries wait, of which two go to it. Of the 2,500
//! levels of `levels.cases` four share a column, once columns were made one two times, and in some columns one of the four is an
//! extreme.
//!
//! What is expected of the curves was worked out by hand from docs/LAW and docs/FORMATS; an independent parser of XML read each
//! document of `stdout`, and found there each text that was handed in. In reading order: `drawn`, `texts`, `curves`, `levels`.

mod curves;
mod drawn;
mod levels;
mod texts;

use curves::tell_curves;
use drawn::chart_of;
use kit_cases::names_in;
use levels::tell_levels;
use std::{fs, io};
use texts::tell_texts;

/// Draws all.
pub fn tell_charts(rt: &HostRuntime) -> io::Result<()> {
    tell_drawn(rt)?;
    tell_texts(rt)?;
    tell_curves(rt)?;
    tell_levels(rt)
}

/// Draws the captures of the folder, in the order of their names.
fn tell_drawn(rt: &HostRuntime) -> io::Result<()> {
    for name in names_in(rt, "charts", ".cap")?.iter() {
        tell_capture(rt, name)?;
    }
    Ok(())
}

/// Draws the capture of this name.
fn tell_capture(rt: &HostRuntime, name: &str) -> io::Result<()> {
    let octets = fs::read(rt, format!(in rt.alloc(); "charts/{name}.cap")?)?;
    tell_chart(rt, name, octets.as_slice())
}

/// The same of its octets.
fn tell_chart(rt: &HostRuntime, name: &str, octets: &[u8]) -> io::Result<()> {
    println!(rt; "== {name}")?;
    match chart_of(rt.alloc(), name, octets)? {
        Some(document) => rt.print(document.as_str()),
        None => rt.println("no capture, or too many records"),
    }
}
