//! A record whose frame is read, once for all that ask what it says.

ghost use Rattle.std.specs.Prelude.{◌≡◌};
ghost use Rattle.trace_events.specs.History as law;
ghost use Rattle.trace_events.specs.View.{moment_view};

use crate::event::Moment;
use crate::frame::Frame;
use capture_form::{Record, What};
use pairing_cert::Note;
use std::marker::Model;

/// A record of a capture, with the octets of its frame read.
#[derive(Drop)]
pub struct ReadRecord<'m> {
    entry: &'m Record,
    moment: Moment<'m>,
}

impl<'m> Model for ReadRecord<'m> {
    ghost use Rattle.std.specs.Prelude.{◌≡◌};
    ghost use Rattle.capture_form.specs.declared.records.Record.{Record};
    ghost use Rattle.trace_events.specs.History.{moment_of};
    ghost use Rattle.trace_events.specs.View.{moment_view};

    ghost Value = { Record };

    ghost view = { λ read. read.entry.now };

    ghost invariant = { λ read. moment_view read.moment ≡ moment_of read.entry.now.what };
}

impl<'m> ReadRecord<'m> {
    ghost use Rattle.std.specs.Prelude.{◌≡◌};
    ghost use Rattle.trace_events.specs.History.{moment_of};
    ghost use Rattle.trace_events.specs.View.{moment_view};

    /// The record, read.
    pub fn of(entry: &'m Record) -> ReadRecord<'m>
        ensures { result ≡ entry.now }
    {
        ReadRecord {
            entry,
            moment: moment_of(&entry.what),
        }
    }

    /// The connection that it is of.
    pub fn connection(&self) -> u32
        ensures { result ≡ self.now.connection }
    {
        self.entry.connection
    }

    /// What the router certifies of it.
    pub fn note(&self) -> Note
        ensures { result ≡ self.now.note }
    {
        self.entry.note
    }

    /// What happened.
    pub fn moment(&self) -> &Moment<'m>
        ensures { moment_view result.now ≡ moment_of self.now.what }
    {
        &self.moment
    }
}

/// What happened, with the octets of its frame read. It is no function of `Moment`, so that the statements of an event need none
/// of a record's.
pub fn moment_of<'a>(what: &'a What) -> Moment<'a>
    ensures { moment_view result ≡ law.moment_of what.now }
{
    match what {
        What::Opened => Moment::Opened,
        What::In(frame) => Moment::In(Frame::read(frame.octets())),
        What::Out(frame) => Moment::Out(Frame::read(frame.octets())),
        What::Lost => Moment::Lost,
        What::Broken => Moment::Broken,
    }
}
