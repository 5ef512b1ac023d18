//! What a client does that keeps to the standard.

use crate::deed::Deed;
use crate::driver::Driver;
use crate::known::{ChannelKey, Client, ConnectionStage, Life, Link, Session};
use crate::said;
use crate::said::{Attaching, Crediting, Sending};
use kit_clients::framed;
use std::alloc::AllocError;

/// Windows and credits.
const WINDOWS: [u32; 7] = [0, 1, 3, 20, 100, 1000, 0x7FFF_FFFF];

const CREDITS: [u32; 6] = [0, 1, 2, 5, 30, 1000];

/// First numbers of transfers and deliveries, two of them shortly before they wrap.
const FIRST_NUMBERS: [u32; 4] = [0, 0, 7, 0xFFFF_FFFC];

impl Driver {
    /// What a client does next.
    pub(crate) fn lawful(&mut self, client: Client) -> Result<Deed, AllocError> {
        match client.stage {
            ConnectionStage::Absent => Ok(Deed::Opened(client.connection)),
            ConnectionStage::Headed => {
                let limit = self
                    .chance
                    .one_of(&[0, 512, 512, 600, 1000, 16384, 100_000], 0);
                let limit = if limit == 0 { None } else { Some(limit) };
                let frame = self.framed(0, said::open(self.alloc, limit)?)?;
                Ok(Driver::sent(client, frame))
            }
            ConnectionStage::Open => self.speak(client),
            ConnectionStage::Closed => Ok(Deed::Lost(client.connection)),
            ConnectionStage::Lost => Ok(Deed::Opened(self.known.come_back(client.connection))),
        }
    }

    /// What a client says whose connection is open.
    fn speak(&mut self, client: Client) -> Result<Deed, AllocError> {
        let frame = match self.let_go(client)? {
            Some(frame) => Some(frame),
            None => self.some_frame(client)?,
        };
        match frame {
            Some(frame) => Ok(Driver::sent(client, frame)),
            None => self.fall_back(client),
        }
    }

    /// A frame of some kind, where the client can send one.
    pub(crate) fn some_frame(&mut self, client: Client) -> Result<Option<Vec<u8>>, AllocError> {
        match self.chance.number(34) {
            0 => self.begin(client),
            1..=4 => self.attach(client),
            5..=14 => self.transfer(client),
            15..=21 => self.flow(client),
            22..=29 => self.disposition(client),
            30 => self.detach(client),
            31 => self.detach(client),
            32 => self.end(client),
            _ => Ok(Some(framed(self.alloc, 0, &[])?)),
        }
    }

    /// Another frame, where the client could not send one of the kind that was chosen.
    fn fall_back(&mut self, client: Client) -> Result<Deed, AllocError> {
        let frame = match self.chance.number(5) {
            0 => None,
            1 => self.flow(client)?,
            2 => self.disposition(client)?,
            _ => self.transfer(client)?,
        };
        match frame {
            Some(frame) => Ok(Driver::sent(client, frame)),
            None => self.set_up(client),
        }
    }

    /// A session or a link, where the client has none that it could use.
    fn set_up(&mut self, client: Client) -> Result<Deed, AllocError> {
        let frame = match self.attach(client)? {
            Some(frame) => Some(frame),
            None => self.begin(client)?,
        };
        match frame {
            Some(frame) => Ok(Driver::sent(client, frame)),
            None => Ok(Driver::sent(client, framed(self.alloc, 0, &[])?)),
        }
    }

    /// The client's end of what the router has ended, mostly soon.
    fn let_go(&mut self, client: Client) -> Result<Option<Vec<u8>>, AllocError> {
        if self.chance.once_in(3) {
            return Ok(None);
        }
        let connection = client.connection;
        if let Some(session) = self
            .known
            .session_of(&mut self.chance, connection, Life::Over)
        {
            return self.on(session.place, said::ending(self.alloc, 0x17)?);
        }
        let is_producer = self.chance.once_in(2);
        match self
            .known
            .link_of(&mut self.chance, connection, Life::Over, is_producer)
        {
            Some(link) => self.on(
                link.place,
                said::detach(self.alloc, Some(link.handle), true)?,
            ),
            None => Ok(None),
        }
    }

    /// A frame of this body on a place's channel.
    pub(crate) fn on(
        &self,
        place: ChannelKey,
        body: Vec<u8>,
    ) -> Result<Option<Vec<u8>>, AllocError> {
        Ok(Some(self.framed(place.channel, body)?))
    }

    /// A begin, on a channel that is free.
    fn begin(&mut self, client: Client) -> Result<Option<Vec<u8>>, AllocError> {
        let channel = (self.chance.number(3) & 3) as u16;
        let place = ChannelKey {
            connection: client.connection,
            channel,
        };
        if self.known.life_at(place).is_some() {
            return Ok(None);
        }
        let first = self.chance.one_of(&FIRST_NUMBERS, 0);
        let window = self.chance.one_of(&WINDOWS, 0);
        self.on(
            place,
            said::begin(self.alloc, Some(first), Some(window), None)?,
        )
    }

    /// An attach, on a handle that is free.
    fn attach(&mut self, client: Client) -> Result<Option<Vec<u8>>, AllocError> {
        let connection = client.connection;
        let found = self
            .known
            .session_of(&mut self.chance, connection, Life::Live);
        let Some(session) = found else {
            return Ok(None);
        };
        let handle = self.chance.number(4);
        if self.known.has_link(session.place, handle) {
            return Ok(None);
        }
        if self.chance.once_in(2) {
            self.produce(session, handle)
        } else {
            self.consume(session, handle)
        }
    }

    /// A producer's attach.
    fn produce(&mut self, session: Session, handle: u32) -> Result<Option<Vec<u8>>, AllocError> {
        let address = self.address();
        let target = said::terminus(self.alloc, 0x29, address.as_bytes(), false)?;
        let attaching = Attaching {
            name: b"producer",
            handle,
            is_receiver: false,
            sender_mode: self.sender_mode(&[0, 1, 2, 3]),
            receiver_mode: None,
            source: &[0x40],
            target: target.as_slice(),
            initial_count: Some(self.chance.one_of(&FIRST_NUMBERS, 0)),
        };
        self.on(session.place, said::attach(self.alloc, attaching)?)
    }

    /// A consumer's attach.
    fn consume(&mut self, session: Session, handle: u32) -> Result<Option<Vec<u8>>, AllocError> {
        let address = self.address();
        let is_dynamic = self.chance.once_in(12);
        let source = said::terminus(self.alloc, 0x28, address.as_bytes(), is_dynamic)?;
        let attaching = Attaching {
            name: b"consumer",
            handle,
            is_receiver: true,
            sender_mode: self.sender_mode(&[0, 0, 1, 2, 3]),
            receiver_mode: if self.chance.number(2) == 1 {
                Some(1)
            } else {
                None
            },
            source: source.as_slice(),
            target: &[0x40],
            initial_count: None,
        };
        self.on(session.place, said::attach(self.alloc, attaching)?)
    }

    /// One of these sender settle modes, of which 3 is none.
    fn sender_mode(&mut self, modes: &[u32]) -> Option<u8> {
        let mode = self.chance.one_of(modes, 0);
        if mode < 3 {
            Some((mode & 3) as u8)
        } else {
            None
        }
    }

    /// A part of a delivery.
    fn transfer(&mut self, client: Client) -> Result<Option<Vec<u8>>, AllocError> {
        let connection = client.connection;
        let found = self
            .known
            .link_of(&mut self.chance, connection, Life::Live, true);
        let Some(link) = found else {
            return Ok(None);
        };
        match (link.begun, self.known.session_at(link.place)) {
            (None, Some(session)) if link.credit > 0 => self.first_part(link, session),
            (Some(id), _) => self.later_part(link, id),
            _ => Ok(None),
        }
    }

    /// The first part of a delivery.
    fn first_part(&mut self, link: Link, session: Session) -> Result<Option<Vec<u8>>, AllocError> {
        let tag = session.next_id.to_be_bytes();
        let sending = Sending {
            handle: link.handle,
            id: Some(session.next_id),
            tag: &tag,
            is_settled: self.chance.once_in(5),
            has_more: self.chance.once_in(4),
            is_resumed: false,
            is_aborted: self.chance.once_in(60),
        };
        let length = self.length();
        self.on(link.place, said::transfer(self.alloc, sending, length)?)
    }

    /// A later part of one.
    fn later_part(&mut self, link: Link, id: u32) -> Result<Option<Vec<u8>>, AllocError> {
        let sending = Sending {
            handle: link.handle,
            id: if self.chance.once_in(2) {
                Some(id)
            } else {
                None
            },
            tag: &[],
            is_settled: self.chance.once_in(12),
            has_more: self.chance.once_in(3),
            is_resumed: false,
            is_aborted: self.chance.once_in(8),
        };
        let length = self.length();
        self.on(link.place, said::transfer(self.alloc, sending, length)?)
    }

    /// A flow of a consumer, or of a session or a producer.
    fn flow(&mut self, client: Client) -> Result<Option<Vec<u8>>, AllocError> {
        let connection = client.connection;
        let is_producer = self.chance.once_in(8);
        let found = self
            .known
            .link_of(&mut self.chance, connection, Life::Live, is_producer);
        match found {
            Some(link) => match self.known.session_at(link.place) {
                Some(session) => self.link_flow(link, session),
                None => Ok(None),
            },
            None => {
                match self
                    .known
                    .session_of(&mut self.chance, connection, Life::Live)
                {
                    Some(session) => self.session_flow(session, None),
                    None => Ok(None),
                }
            }
        }
    }

    /// A flow that gives credit on a link, and may drain it.
    fn link_flow(&mut self, link: Link, session: Session) -> Result<Option<Vec<u8>>, AllocError> {
        let lag = self.chance.one_of(&[0, 0, 0, 0, 1, 2], 0);
        let count = link.count.wrapping_sub(lag.min(link.count));
        let crediting = Crediting {
            handle: link.handle,
            count: if link.count == 0 && self.chance.once_in(3) {
                None
            } else {
                Some(count)
            },
            credit: if self.chance.once_in(8) {
                None
            } else {
                Some(self.chance.one_of(&CREDITS, 0))
            },
            drains: self.chance.once_in(4),
        };
        self.session_flow(session, Some(crediting))
    }

    /// A flow of a session, with the numbers of a link where there are some.
    fn session_flow(
        &mut self,
        session: Session,
        crediting: Option<Crediting>,
    ) -> Result<Option<Vec<u8>>, AllocError> {
        let lag = self.chance.one_of(&[0, 0, 0, 0, 1, 2], 0);
        let awaited = session.seen.wrapping_sub(lag.min(session.seen));
        let window = self.chance.one_of(&WINDOWS, 0);
        let wants_echo = self.chance.once_in(8);
        let body = said::flow(
            self.alloc,
            Some(awaited),
            window,
            session.next,
            crediting,
            wants_echo,
        )?;
        self.on(session.place, body)
    }

    /// A consumer's disposition.
    fn disposition(&mut self, client: Client) -> Result<Option<Vec<u8>>, AllocError> {
        let found = self.known.held_of(&mut self.chance, client.connection);
        let Some(held) = found else {
            return Ok(None);
        };
        let state = self.state()?;
        let last = if self.chance.once_in(3) {
            Some(held.id.wrapping_add(self.chance.number(4)))
        } else {
            None
        };
        let is_settled = !self.chance.once_in(3);
        let body = said::disposition(
            self.alloc,
            true,
            Some(held.id),
            last,
            is_settled,
            state.as_slice(),
        )?;
        self.on(held.place, body)
    }

    /// The octets of a state, or none.
    pub(crate) fn state(&mut self) -> Result<Vec<u8>, AllocError> {
        let state: &[u8] = match self.chance.number(12) {
            0..=2 => &[0x00, 0x53, 0x24, 0x45],
            3 => &[0x00, 0x53, 0x25, 0x45],
            4 => &[0x00, 0x53, 0x26, 0x45],
            5 => &[0x00, 0x53, 0x27, 0xC0, 0x03, 0x02, 0x41, 0x42],
            6 => b"\x00\xA3\x12amqp:released:list\x45",
            7 => &[0x00, 0x53, 0x23, 0xC0, 0x03, 0x02, 0x43, 0x44],
            8..=10 => {
                let length = self.chance.one_of(&[10, 440, 560, 1000, 1000], 0);
                return said::rejection(self.alloc, length);
            }
            _ => &[],
        };
        state.to_vec(self.alloc)
    }

    /// A detach of some link.
    fn detach(&mut self, client: Client) -> Result<Option<Vec<u8>>, AllocError> {
        let is_producer = self.chance.once_in(2);
        let connection = client.connection;
        let found = self
            .known
            .link_of(&mut self.chance, connection, Life::Live, is_producer);
        let Some(link) = found else {
            return Ok(None);
        };
        let is_closed = self.chance.once_in(2);
        self.on(
            link.place,
            said::detach(self.alloc, Some(link.handle), is_closed)?,
        )
    }

    /// The end of some session, and now and then of the connection.
    fn end(&mut self, client: Client) -> Result<Option<Vec<u8>>, AllocError> {
        if self.chance.once_in(4) {
            return Ok(Some(self.framed(0, said::ending(self.alloc, 0x18)?)?));
        }
        let connection = client.connection;
        let found = self
            .known
            .session_of(&mut self.chance, connection, Life::Live);
        match found {
            Some(session) if self.chance.once_in(2) => {
                self.on(session.place, said::ending(self.alloc, 0x17)?)
            }
            _ => Ok(None),
        }
    }
}
