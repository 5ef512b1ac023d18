//! What can be measured.

use crate::repeated::reading::{copy, read_frames, read_values};
use crate::repeated::writing::{write_disposition, write_flow, write_transfer};
use std::alloc::{AllocError, Global};
use std::fmt;
use std::fmt::{Display, Formatter};

/// What is done with the octets.
#[derive(Clone, Copy)]
pub(crate) enum Task {
    /// Copying them.
    Copy,
    /// Reading each of their frames, and the performative in it.
    Frames,
    /// Reading each of their values.
    Values,
    /// Writing a flow.
    Flow,
    /// Writing a transfer.
    Transfer,
    /// Writing a disposition.
    Disposition,
}

/// How much was done.
#[derive(Clone, Copy)]
pub(crate) struct Done {
    /// How many frames or values were read, and performatives written.
    pub(crate) steps: u64,
    /// What they say, added up.
    pub(crate) sum: u64,
}

impl Done {
    /// Nothing so far.
    pub(crate) const NOTHING: Done = Done { steps: 0, sum: 0 };

    /// With one step more.
    pub(crate) fn and(self, said: u64) -> Done {
        Done {
            steps: self.steps.wrapping_add(1),
            sum: self.sum.wrapping_add(said),
        }
    }
}

impl Display for Done {
    fn fmt<W: fmt::Write>(&self, f: &mut Formatter<W>) -> fmt::Result {
        write!(f, "steps={} sum={}", self.steps, self.sum)
    }
}

impl Task {
    /// The task of a name.
    pub(crate) fn of(name: &str) -> Option<Task> {
        let task = match name {
            "copy" => Task::Copy,
            "frames" => Task::Frames,
            "values" => Task::Values,
            "flow" => Task::Flow,
            "transfer" => Task::Transfer,
            "disposition" => Task::Disposition,
            _ => return None,
        };
        Some(task)
    }

    /// Does the task so many times.
    pub(crate) fn repeat(
        self,
        alloc: Global,
        count: u32,
        octets: &[u8],
    ) -> Result<Done, AllocError> {
        let mut out = Vec::with_capacity(alloc, octets.len())?;
        let mut done = Done::NOTHING;
        for i in 0..count {
            out.clear();
            done = match self {
                Task::Copy => copy(&mut out, octets, done)?,
                Task::Frames => read_frames(octets, done),
                Task::Values => read_values(octets, done),
                Task::Flow => write_flow(&mut out, i, done)?,
                Task::Transfer => write_transfer(&mut out, i, done)?,
                Task::Disposition => write_disposition(&mut out, i, done)?,
            };
        }
        Ok(done)
    }
}
