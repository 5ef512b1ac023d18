//! The words that the program was given.

use std::alloc::AllocGlobal;
use std::env::{self, Env};
use std::io;

/// The words behind the program's name, as the system gives them.
///
/// # Errors
///
/// A word is not valid UTF-8, or memory was refused (`is_refused_growth`).
pub fn words_of<R: Env + AllocGlobal>(rt: &R) -> io::Result<Vec<String>> {
    let words = env::args(rt)?.skip(1).collect(rt.alloc())?;
    Ok(words)
}
