//! What is said of a worked capture.

use crate::examples::seen::tell_capture;
use crate::examples::taken::{is_audited, is_read, is_taken};
use audit_core::{Verdict, audit_bytes};
use capture_form::{Capture, read_capture, write_capture};
use std::alloc::{AllocError, Global};
use std::{fs, io};

/// Writes what is said of the capture `NAME.cap`, and whether its verdict is another than `NAME.line`.
pub fn tell_worked(rt: &HostRuntime, name: &str) -> io::Result<()> {
    let octets = fs::read(rt, format!(in rt.alloc(); "examples/{name}.cap")?)?;
    tell_octets(rt, name, octets.as_slice())
}

/// The same of its octets.
fn tell_octets(rt: &HostRuntime, name: &str, octets: &[u8]) -> io::Result<()> {
    let verdict = audit_bytes(rt.alloc(), octets);
    tell_verdict(rt, name, verdict)?;
    if !is_line_of(rt, name, verdict)? {
        println!(rt; "  another line than {name}.line")?;
    }
    tell_other_verdicts(rt, octets, verdict)?;
    tell_as_capture(rt, octets, verdict)
}

/// Whether `NAME.line` is the line of this verdict.
fn is_line_of(rt: &HostRuntime, name: &str, verdict: Verdict) -> io::Result<bool> {
    let wanted = fs::read_to_string(rt, format!(in rt.alloc(); "examples/{name}.line")?)?;
    Ok(is_line(rt.alloc(), wanted.as_str().trim_end(), verdict)?)
}

/// Whether a text is the line of this verdict.
fn is_line(alloc: Global, text: &str, verdict: Verdict) -> Result<bool, AllocError> {
    let line = format!(in alloc; "{verdict}")?;
    Ok(text == line.as_str())
}

/// Writes what is seen of the capture that octets are, if they are one, and where another text or another verdict comes of it.
fn tell_as_capture(rt: &HostRuntime, octets: &[u8], verdict: Verdict) -> io::Result<()> {
    match read_capture(rt.alloc(), octets) {
        Ok(capture) => tell_read(rt, &capture, octets, verdict),
        Err(_) => Ok(()),
    }
}

/// The same of a capture that was read of these octets.
///
/// It borrows the capture: owned here, its drop would be proved on each way out.
fn tell_read(
    rt: &HostRuntime,
    capture: &Capture,
    octets: &[u8],
    verdict: Verdict,
) -> io::Result<()> {
    if write_capture(rt.alloc(), capture)?.as_slice() != octets {
        println!(rt; "  another text of the capture that was read")?;
    }
    if !is_audited(rt.alloc(), capture, verdict) {
        println!(rt; "  another verdict of the capture than of its text")?;
    }
    tell_capture(rt, capture)
}

/// Says where the octets, read or taken record by record, get another verdict.
pub fn tell_other_verdicts(rt: &HostRuntime, octets: &[u8], verdict: Verdict) -> io::Result<()> {
    if !is_read(rt.alloc(), octets, verdict) {
        println!(rt; "  another verdict of a reader than of its octets")?;
    }
    if !is_taken(rt.alloc(), octets, verdict) {
        println!(rt; "  another verdict of its records than of the text")?;
    }
    Ok(())
}

/// Writes the line of a verdict, and what is wrong with a text that is malformed.
pub fn tell_verdict(rt: &HostRuntime, name: &str, verdict: Verdict) -> io::Result<()> {
    println!(rt; "{name}: {verdict}")?;
    if let Verdict::Malformed(_, kind) = verdict {
        println!(rt; "  fault: {kind:?}")?;
    }
    Ok(())
}
