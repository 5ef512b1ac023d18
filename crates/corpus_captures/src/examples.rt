//! What the auditor and the plain checker say of worked captures, and of longer ones that are made of these.
//!
//! The files lie in `examples/` of the folder that the program runs in, whose `README.md` says what each capture tells. Each line
//! of the input asks something of them, and the answers are printed in turn. The modules, in reading order:
//!
//! - `asked`: what is asked
//! - `worked`: of a capture: its verdict, and how windows, credits and waiting deliveries change from record to record
//! - `seen`: what the plain checker says from record to record
//! - `taken`: what the auditor says, asked in other ways
//! - `parts`: captures that are made piece by piece

mod asked;
mod parts;
mod seen;
mod taken;
mod worked;

use asked::answer;
use std::io;

/// Answers each line of the input.
pub fn answer_lines(rt: &HostRuntime) -> io::Result<()> {
    for line in rt.lines(rt.alloc()) {
        let line = line?;
        answer(rt, line.as_str())?;
    }
    Ok(())
}
