//! Cases, each on a line of a file, and what is told of them.

use std::alloc::{AllocError, AllocGlobal, Global};
use std::fmt::Debug;
use std::rt::Files;
use std::{fs, io};

/// What is told of a case, behind its words; none where its words are none of the program's.
pub type Answer = Result<Option<String>, AllocError>;

/// What cases are about.
pub trait Subject {
    /// What comes of a case of these words.
    fn answer(&mut self, words: &[&str]) -> Answer;
}

/// The value is told, as Rust's `Debug` writes it.
pub fn told<T: Debug + Drop>(alloc: Global, value: T) -> Answer {
    Ok(Some(format!(in alloc; ": {value:?}")?))
}

/// The text is told.
pub fn said(alloc: Global, text: &str) -> Answer {
    Ok(Some(format!(in alloc; ": {text}")?))
}

/// Something was done, of which nothing is told.
pub fn done(alloc: Global) -> Answer {
    Ok(Some(String::new(alloc)))
}

/// Tells what comes of each case of a subject, in their order: those of the file `NAME.cases` in the folder that the program runs in.
///
/// It takes the subject itself: in a caller with several the drop of each would be proved on each way out.
///
/// # Errors
///
/// Where the file can't be read, a line can't be written, or memory is refused.
pub fn tell_cases<R: Files + Print + AllocGlobal, S: Subject + Drop>(
    rt: &R,
    name: &str,
    mut subject: S,
) -> io::Result<()> {
    let cases = fs::read_to_string(rt, format!(in rt.alloc(); "{name}.cases")?)?;
    println!(rt; "== {name}")?;
    for line in cases.lines() {
        tell_case(rt, line, &mut subject)?;
    }
    Ok(())
}

/// Tells what comes of the case on a line.
fn tell_case<R: Print + AllocGlobal, S: Subject>(
    rt: &R,
    line: &str,
    subject: &mut S,
) -> io::Result<()> {
    let words: Vec<&str> = line.split_whitespace().collect(rt.alloc())?;
    if line.starts_with('#') || words.is_empty() {
        return rt.println(line);
    }
    match subject.answer(words.as_slice())? {
        Some(told) => println!(rt; "{line}{told}"),
        None => println!(rt; "{line}: no words of this program"),
    }
}
