//! One record of a capture, as it is looked at.

ghost use Rattle.std.specs.Prelude.{◌≡◌};
ghost use Rattle.capture_view.specs.Viewed.{happened_in, happening, view_of, viewed};

use crate::said::{Said, said_by};
use capture_form::{Record, What};
use pairing_cert::Note;

/// What happened on a connection, with the octets of a frame read.
#[derive(Clone, Copy, Debug)]
pub enum Happened<'a> {
    /// The client's AMQP header was accepted.
    Opened,
    /// The client sent a frame that says this.
    In(Said<'a>),
    /// A frame that says this was written to the client.
    Out(Said<'a>),
    /// The device ended or failed.
    Lost,
    /// The client's octets stopped being frames.
    Broken,
}

/// A record, with what it says.
#[derive(Clone, Copy, Debug)]
pub struct RecordView<'a> {
    /// How many records stand in front of it.
    pub number: u64,
    pub connection: u32,
    pub happened: Happened<'a>,
    pub note: Note,
}

/// The record of this number, looked at.
pub fn view_of(number: u64, entry: &Record) -> RecordView<'_>
    ensures { viewed result ≡ view_of number entry.now }
{
    RecordView {
        number,
        connection: entry.connection,
        happened: happened_in(&entry.what),
        note: entry.note,
    }
}

/// What happened, with the octets of a frame read.
fn happened_in(what: &What) -> Happened<'_>
    ensures { happening result ≡ happened_in what.now }
{
    match what {
        What::Opened => Happened::Opened,
        What::In(frame) => Happened::In(said_by(frame.octets())),
        What::Out(frame) => Happened::Out(said_by(frame.octets())),
        What::Lost => Happened::Lost,
        What::Broken => Happened::Broken,
    }
}
