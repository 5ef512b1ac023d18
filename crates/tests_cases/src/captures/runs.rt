//! What comes of one number after the other.

use kit_cases::Answer;
use std::alloc::{AllocError, Global};
use std::mem;

/// What came of the numbers so far, a line for each run of those of which the same came.
#[derive(Drop)]
pub struct Runs {
    alloc: Global,
    lines: String,
    /// The first number of the run that goes on, and what came of it.
    first: usize,
    last: String,
}

impl Runs {
    pub fn new(alloc: Global) -> Runs {
        Runs {
            alloc,
            lines: String::new(alloc),
            first: 0,
            last: String::new(alloc),
        }
    }

    /// This came of the number, which is the next one.
    pub fn add(&mut self, number: usize, came: String) -> Result<(), AllocError> {
        if came.as_str() == self.last.as_str() {
            return Ok(());
        }
        let ended = mem::replace(&mut self.last, came);
        self.put(number, ended.as_str())?;
        self.first = number;
        Ok(())
    }

    /// The run ends before this number.
    fn put(&mut self, end: usize, came: &str) -> Result<(), AllocError> {
        if self.first < end {
            write!(self.lines, "\n    {}..{end} {came}", self.first)?;
        }
        Ok(())
    }

    /// What came of all numbers, which end before this one.
    pub fn told(self, end: usize) -> Answer {
        let mut runs = self;
        let ended = mem::replace(&mut runs.last, String::new(runs.alloc));
        runs.put(end, ended.as_str())?;
        Ok(Some(format!(in runs.alloc; ":{}", runs.lines)?))
    }
}
