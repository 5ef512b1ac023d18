//! The lines of a scenario.

use crate::words::Words;
use std::alloc::{AllocError, Global};

/// What a client and the router say to open and to begin.
const JOINS: &[&str] = &["opened", "> open", "< open", "> begin", "< begin"];

/// What they say for a producer's link, and for a consumer's, before its address.
const PRODUCES: &[&str] = &["> attach sender target=", "< attach receiver target="];

const CONSUMES: &[&str] = &["> attach receiver source=", "< attach sender source="];

/// A line that stands for itself.
const ITSELF: &[&str] = &[""];

/// The lines that a line stands for: mostly itself, and none where nothing happens. Of `joins`, `produces ADDRESS` and
/// `consumes ADDRESS` the further words belong to what the client sends.
///
/// # Errors
///
/// Where memory is refused.
pub fn lines_meant(alloc: Global, text: &str) -> Result<Vec<String>, AllocError> {
    if is_passed_over(text) {
        return Ok(Vec::new(alloc));
    }
    let words = Words::of(alloc, text)?;
    match words.at(1) {
        "joins" => meant(alloc, &words, JOINS, "", 2),
        "produces" => meant(alloc, &words, PRODUCES, words.at(2), 3),
        "consumes" => meant(alloc, &words, CONSUMES, words.at(2), 3),
        said => meant(alloc, &words, ITSELF, said, 2),
    }
}

/// A line of which nothing happens: a remark, what the core is made of, or an empty one.
fn is_passed_over(text: &str) -> bool {
    text.starts_with("#")
        || text.starts_with("rule ")
        || text.starts_with("limit ")
        || text.trim().is_empty()
}

/// These lines, with an address behind each, and what stands from a place on behind those of the client.
fn meant(
    alloc: Global,
    words: &Words<'_>,
    told: &[&str],
    address: &str,
    place: usize,
) -> Result<Vec<String>, AllocError> {
    let further = words.from(alloc, place)?;
    let mut lines = Vec::new(alloc);
    for part in told {
        lines.push(line(alloc, words.at(0), part, address, further.as_str())?)?;
    }
    Ok(lines)
}

/// A line: who speaks, what is said, of which address, and what else, which belongs to a client alone.
fn line(
    alloc: Global,
    who: &str,
    part: &str,
    address: &str,
    further: &str,
) -> Result<String, AllocError> {
    let further = if part.starts_with("<") { "" } else { further };
    format!(in alloc; "{who} {part}{address}{further}")
}
