//! What the plain checker is asked of a capture.

pub(crate) mod check;
pub(crate) mod tally;
pub(crate) mod walk;
