//! A connection of a client, on which frames are said and heard.

ghost use Rattle.amqp_perf.specs.View.{view};
ghost use Rattle.std.specs.Prelude.{[], OnOk};
ghost use Rattle.std.specs.Io.KnownBytes.{Appends};
ghost use Rattle.clients_program.specs.Said.{IsSmall, frame_said};

use crate::fault::{Fault, Wanted};
use crate::said::CHANNEL;
use amqp_frames::{FrameKind, FrameView, ProtocolHeader, Splitter, put_frame};
use amqp_perf::Performative;
use flow_counts::MAX_FRAME_SIZE;
use std::alloc::Global;
use std::io::{ErrorKind, Read, Write};

/// How many octets are read at once.
const PIECE: usize = 4096;

/// A connection to a router over this stream.
#[derive(Debug, Drop)]
pub struct Client<S> {
    /// What is written goes there at once, whole.
    pub stream: S,
    /// What came of the stream and was not heard yet.
    ahead: Splitter,
    alloc: Global,
}

/// A frame that was heard.
#[derive(Debug, Drop)]
pub struct Heard {
    octets: Vec<u8>,
}

impl Heard {
    /// The performative of the frame, and its payload. A close with an error is none.
    pub fn says(&self) -> Result<(Performative<'_>, &[u8]), Fault> {
        let body = self.body().ok_or(Fault::Elsewhere)?;
        match Performative::read(body)? {
            (Performative::Close(Some(_)), _) => Err(Fault::Closed),
            said => Ok(said),
        }
    }

    /// The body of the frame, if it is of the client's session.
    fn body(&self) -> Option<&[u8]> {
        let frame = FrameView::whole(&self.octets, MAX_FRAME_SIZE)?;
        (frame.kind() == FrameKind::Amqp && frame.channel() == CHANNEL).then_some(frame.body())
    }

    /// Whether the frame is a flow.
    fn is_flow(&self) -> bool {
        matches!(self.says(), Ok((Performative::Flow(_), _)))
    }
}

impl<S: Read + Write> Client<S> {
    /// A client of which nothing was said or heard.
    pub fn new(alloc: Global, stream: S) -> Client<S> {
        Client {
            stream,
            ahead: Splitter::new(alloc),
            alloc,
        }
    }

    /// Says a performative in a frame.
    pub fn say(&mut self, performative: &Performative<'_>) -> Result<(), Fault>
        requires { IsSmall (view performative.now) }
        ensures { OnOk result (Appends (S.contents self.old.stream) (S.contents self.new.stream) (frame_said (view performative.now) [])) }
    {
        let mut frame = Vec::new(self.alloc);
        put_frame(&mut frame, CHANNEL, performative, &[])?;
        self.write(&frame)
    }

    /// Writes octets that were put together before.
    pub fn write(&mut self, octets: &[u8]) -> Result<(), Fault>
        ensures { OnOk result (Appends (S.contents self.old.stream) (S.contents self.new.stream) octets.now) }
    {
        self.stream.write_all(octets)?;
        Ok(())
    }

    /// Hears the header of the protocol, in front of all frames.
    pub fn hear_header(&mut self) -> Result<(), Fault> {
        let mut octets = [0; 8];
        self.stream.read_exact(&mut octets)?;
        match ProtocolHeader::of(&octets) {
            Some(ProtocolHeader::Amqp) => Ok(()),
            _ => Err(Fault::Unheard(Wanted::Header)),
        }
    }

    /// Hears the next frame.
    pub fn hear(&mut self) -> Result<Heard, Fault> {
        for _ in 0..u64::MAX {
            if let Some(octets) = self.ahead.next()? {
                let octets = octets.to_vec(self.alloc)?;
                return Ok(Heard { octets });
            }
            self.listen()?;
        }
        Err(Fault::Silent)
    }

    /// Hears the next frame that is no flow: a router may give credit at any time.
    pub fn hear_past_flows(&mut self) -> Result<Heard, Fault> {
        for _ in 0..u64::MAX {
            let heard = self.hear()?;
            if !heard.is_flow() {
                return Ok(heard);
            }
        }
        Err(Fault::Silent)
    }

    /// Waits for the next octets.
    fn listen(&mut self) -> Result<(), Fault> {
        let mut piece = [0; PIECE];
        match self.stream.read(&mut piece) {
            Ok(0) => Err(Fault::Broken),
            Ok(count) => {
                self.ahead.feed(&piece[..count])?;
                Ok(())
            }
            Err(error) if error.kind() == ErrorKind::Interrupted => Ok(()),
            Err(error) => Err(Fault::from(error)),
        }
    }
}
