//! What an event says: where it stands, and the performative that a frame is, by its kind (part 2 of the standard,
//! section 2.7).

use crate::event::{Event, Link, Moment};
use crate::frame::{Frame, Spoken};
use crate::session::Session;
use amqp_perf::{Attach, Begin, Detach, Disposition, Flow, Open, Performative, Role, Transfer};

impl<'a> Moment<'a> {
    ghost use Rattle.std.specs.Prelude.{◌≡◌, option_map};
    ghost use Rattle.trace_events.specs.Event.{in_frame, out_frame, is_opened, is_lost, is_broken, is_out, spoken_of, channel_of};
    ghost use Rattle.trace_events.specs.View.{spoken_view, frame_view, moment_view};

    fn in_frame(&self) -> Option<&Frame<'a>>
        ensures { option_map (λ frame. frame_view frame.now) result ≡ in_frame (moment_view self.now) }
    {
        match self {
            Moment::In(frame) => Some(frame),
            _ => None,
        }
    }

    fn out_frame(&self) -> Option<&Frame<'a>>
        ensures { option_map (λ frame. frame_view frame.now) result ≡ out_frame (moment_view self.now) }
    {
        match self {
            Moment::Out(frame) => Some(frame),
            _ => None,
        }
    }

    /// The client's AMQP header was accepted.
    pub fn is_opened(&self) -> bool
        ensures { result ≡ is_opened (moment_view self.now) }
    {
        matches!(self, Moment::Opened)
    }

    /// The device ended or failed.
    pub fn is_lost(&self) -> bool
        ensures { result ≡ is_lost (moment_view self.now) }
    {
        matches!(self, Moment::Lost)
    }

    /// The client's octets stopped being frames.
    pub fn is_broken(&self) -> bool
        ensures { result ≡ is_broken (moment_view self.now) }
    {
        matches!(self, Moment::Broken)
    }

    /// The router wrote a frame.
    pub fn is_out(&self) -> bool
        ensures { result ≡ is_out (moment_view self.now) }
    {
        matches!(self, Moment::Out(_))
    }

    /// The performative of a frame, in either direction. `None` where there is no frame, or it says none.
    pub fn spoken(&self) -> Option<&Spoken<'a>>
        ensures { option_map (λ spoken. spoken_view spoken.now) result ≡ spoken_of (moment_view self.now) }
    {
        match self {
            Moment::In(frame) | Moment::Out(frame) => frame.spoken(),
            _ => None,
        }
    }

    /// The channel of a whole frame, in either direction. `None` where there is none.
    pub fn channel(&self) -> Option<u16>
        ensures { result ≡ channel_of (moment_view self.now) }
    {
        match self {
            Moment::In(frame) | Moment::Out(frame) => frame.channel(),
            _ => None,
        }
    }
}

impl<'a, 'r, 'm> Event<'a, 'r, 'm> {
    ghost use Rattle.std.specs.Prelude.{◌≡◌, option_map};
    ghost use Rattle.amqp_perf.specs.View.{open_fields, attach_fields, transfer_fields, disposition_fields, detach_fields};
    ghost use Rattle.trace_events.specs.Event.{is_on_channel, is_on_session, is_on_link};
    ghost use Rattle.trace_events.specs.Said as said;
    ghost use Rattle.trace_events.specs.Verdict.{tells_outcome};
    ghost use Rattle.trace_events.specs.View.{spoken_view, link_view, event_view};

    /// It stands on the channel of the connection.
    pub fn is_on_channel(&self, connection: u32, channel: u16) -> bool
        ensures { result ≡ is_on_channel connection channel (event_view self.now) }
    {
        self.moment.channel() == Some(channel) && self.connection == connection
    }

    /// It stands on the session.
    pub fn is_on_session(&self, session: Session) -> bool
        ensures { result ≡ is_on_session session (event_view self.now) }
    {
        match self.session {
            Some(own) => own.number == session.number && self.connection == session.connection,
            None => false,
        }
    }

    /// It names the link while it lives.
    pub fn is_on_link(&self, link: &Link) -> bool
        ensures { result ≡ is_on_link (link_view link.now) (event_view self.now) }
    {
        match self.link {
            Some(own) => own.number == link.number && self.connection == link.session.connection,
            None => false,
        }
    }

    /// The performative that the client sent, if it is a frame of the client's that says one.
    pub fn in_spoken(&self) -> Option<&Spoken<'m>>
        ensures { option_map (λ spoken. spoken_view spoken.now) result ≡ said.in_spoken (event_view self.now) }
    {
        self.moment.in_frame()?.spoken()
    }

    /// The performative that the router wrote, if it is a frame of the router's that says one.
    pub fn out_spoken(&self) -> Option<&Spoken<'m>>
        ensures { option_map (λ spoken. spoken_view spoken.now) result ≡ said.out_spoken (event_view self.now) }
    {
        self.moment.out_frame()?.spoken()
    }

    /// The client's open, if it is one.
    pub fn in_open(&self) -> Option<Open<'m>>
        ensures { option_map open_fields result ≡ said.in_open (event_view self.now) }
    {
        match self.in_spoken()?.performative {
            Performative::Open(open) => Some(open),
            _ => None,
        }
    }

    /// The client's begin, if it is one.
    pub fn in_begin(&self) -> Option<Begin>
        ensures { result ≡ said.in_begin (event_view self.now) }
    {
        match self.in_spoken()?.performative {
            Performative::Begin(begin) => Some(begin),
            _ => None,
        }
    }

    /// The client's attach, if it is one.
    pub fn in_attach(&self) -> Option<Attach<'m>>
        ensures { option_map attach_fields result ≡ said.in_attach (event_view self.now) }
    {
        match self.in_spoken()?.performative {
            Performative::Attach(attach) => Some(attach),
            _ => None,
        }
    }

    /// The client's transfer, if it is one.
    pub fn in_transfer(&self) -> Option<Transfer<'m>>
        ensures { option_map transfer_fields result ≡ said.in_transfer (event_view self.now) }
    {
        match self.in_spoken()?.performative {
            Performative::Transfer(transfer) => Some(transfer),
            _ => None,
        }
    }

    /// The client's disposition, if it is one.
    pub fn in_disposition(&self) -> Option<Disposition<'m>>
        ensures { option_map disposition_fields result ≡ said.in_disposition (event_view self.now) }
    {
        match self.in_spoken()?.performative {
            Performative::Disposition(disposition) => Some(disposition),
            _ => None,
        }
    }

    /// The client's detach, if it is one.
    pub fn in_detach(&self) -> Option<Detach<'m>>
        ensures { option_map detach_fields result ≡ said.in_detach (event_view self.now) }
    {
        match self.in_spoken()?.performative {
            Performative::Detach(detach) => Some(detach),
            _ => None,
        }
    }

    /// The client sent an end.
    pub fn is_in_end(&self) -> bool
        ensures { result ≡ said.is_in_end (event_view self.now) }
    {
        match self.in_spoken() {
            Some(spoken) => matches!(spoken.performative, Performative::End(_)),
            None => false,
        }
    }

    /// The client sent a close.
    pub fn is_in_close(&self) -> bool
        ensures { result ≡ said.is_in_close (event_view self.now) }
    {
        match self.in_spoken() {
            Some(spoken) => matches!(spoken.performative, Performative::Close(_)),
            None => false,
        }
    }

    /// The router's begin, if it is one.
    pub fn out_begin(&self) -> Option<Begin>
        ensures { result ≡ said.out_begin (event_view self.now) }
    {
        match self.out_spoken()?.performative {
            Performative::Begin(begin) => Some(begin),
            _ => None,
        }
    }

    /// The router's attach, if it is one.
    pub fn out_attach(&self) -> Option<Attach<'m>>
        ensures { option_map attach_fields result ≡ said.out_attach (event_view self.now) }
    {
        match self.out_spoken()?.performative {
            Performative::Attach(attach) => Some(attach),
            _ => None,
        }
    }

    /// The router's transfer, if it is one.
    pub fn out_transfer(&self) -> Option<Transfer<'m>>
        ensures { option_map transfer_fields result ≡ said.out_transfer (event_view self.now) }
    {
        match self.out_spoken()?.performative {
            Performative::Transfer(transfer) => Some(transfer),
            _ => None,
        }
    }

    /// The router's disposition, if it is one.
    pub fn out_disposition(&self) -> Option<Disposition<'m>>
        ensures { option_map disposition_fields result ≡ said.out_disposition (event_view self.now) }
    {
        match self.out_spoken()?.performative {
            Performative::Disposition(disposition) => Some(disposition),
            _ => None,
        }
    }

    /// It tells an outcome.
    pub fn tells_outcome(&self) -> bool
        ensures { result ≡ tells_outcome (event_view self.now) }
    {
        match self.out_disposition() {
            Some(disposition) => disposition.role == Role::Receiver,
            None => false,
        }
    }

    /// The router's detach, if it is one.
    pub fn out_detach(&self) -> Option<Detach<'m>>
        ensures { option_map detach_fields result ≡ said.out_detach (event_view self.now) }
    {
        match self.out_spoken()?.performative {
            Performative::Detach(detach) => Some(detach),
            _ => None,
        }
    }

    /// The router wrote an end.
    pub fn is_out_end(&self) -> bool
        ensures { result ≡ said.is_out_end (event_view self.now) }
    {
        match self.out_spoken() {
            Some(spoken) => matches!(spoken.performative, Performative::End(_)),
            None => false,
        }
    }

    /// The router wrote a close.
    pub fn is_out_close(&self) -> bool
        ensures { result ≡ said.is_out_close (event_view self.now) }
    {
        match self.out_spoken() {
            Some(spoken) => matches!(spoken.performative, Performative::Close(_)),
            None => false,
        }
    }
}

ghost use Rattle.std.specs.Prelude.{◌≡◌};
ghost use Rattle.amqp_perf.specs.View.{view};
ghost use Rattle.trace_events.specs.Said as said;
ghost use Rattle.trace_events.specs.Heard as heard;

/// The handle that a flow, a transfer or a detach names. `None` of a flow of the session alone, and of all others.
pub fn handle_in(performative: &Performative) -> Option<u32>
    ensures { result ≡ said.handle_in (view performative.now) }
{
    match performative {
        Performative::Flow(flow) => flow.handle,
        Performative::Transfer(transfer) => Some(transfer.handle),
        Performative::Detach(detach) => Some(detach.handle),
        _ => None,
    }
}

/// An open or a close belongs to its connection, whatever its channel.
pub fn is_of_connection(performative: &Performative) -> bool
    ensures { result ≡ heard.is_of_connection (view performative.now) }
{
    matches!(performative, Performative::Open(_) | Performative::Close(_))
}
