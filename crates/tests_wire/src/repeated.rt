//! Reads or writes over and over again, so that `./bench reading` can measure it from outside.
//!
//! `copy`, `frames`, `values`, `flow`, `transfer` and `disposition` are the tasks. What is told is how often the task's
//! one step was done, and a sum of what the steps gave. The modules, in reading order:
//!
//! - `task`: what can be done
//! - `reading`: the tasks that read
//! - `writing`: the tasks that write

mod reading;
mod task;
mod writing;

use crate::words::{NoAnswer, number, octets};
use std::alloc::Global;
use std::io;
use std::io::Read;
use task::Task;

/// What comes of a task of which a line says how often it is done, and with which octets.
pub fn answer(alloc: Global, words: &[&str]) -> Result<String, NoAnswer> {
    let [task, count, digits] = words else {
        return Err(NoAnswer::NoCase);
    };
    let Some(task) = Task::of(task) else {
        return Err(NoAnswer::NoCase);
    };
    let octets = octets(alloc, digits)?;
    let done = task.repeat(alloc, number::<u32>(count)?, octets.as_slice())?;
    Ok(format!(in alloc; "{done}")?)
}

/// Does the task of these words with the octets of standard input, and tells what comes of it. It answers whether the words
/// name a task and a number.
pub fn repeat_input(rt: &HostRuntime, task: &str, count: &str) -> io::Result<bool> {
    let (Some(task), Ok(count)) = (Task::of(task), count.parse::<u32>()) else {
        return Ok(false);
    };
    let mut octets = Vec::new(rt.alloc());
    rt.stdin().read_to_end(&mut octets)?;
    let done = task.repeat(rt.alloc(), count, octets.as_slice())?;
    println!(rt; "{done}")?;
    Ok(true)
}
