//! What a connection's port took and gave.

use capture_form::{Frame, What};

/// The items that the router took of a connection, and the frames that it gave to it, both in order. Their octets are those of the
/// capture's records, which own them too.
#[derive(Debug, Drop)]
pub struct Seat {
    pub conn: u32,
    pub items: Vec<What>,
    pub frames: Vec<Frame>,
}
