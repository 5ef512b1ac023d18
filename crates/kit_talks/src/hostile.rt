//! What a client does that does not keep to the standard, or to what it was told.

use crate::deed::Deed;
use crate::driver::Driver;
use crate::known::{ChannelKey, Client, Life};
use crate::said;
use crate::said::{Attaching, Crediting, Sending, repeated};
use std::alloc::AllocError;

/// Numbers that are likely to be no right ones.
const NUMBERS: [u32; 10] = [0, 1, 2, 3, 7, 250, 1023, 1024, 0x8000_0000, 0xFFFF_FFFF];

/// The octets of a tag, one more than one may have.
const TAG: [u8; 33] = [b't'; 33];

/// Channels, the last three of them none that the router takes.
const CHANNELS: [u32; 7] = [0, 1, 2, 255, 256, 257, 65535];

/// Sources and targets that are none, or have no address that the router takes.
const NULL: &[u8] = &[0x40];

const NO_SOURCE: &[u8] = &[0x00, 0x53, 0x28, 0x45];

const NO_TARGET: &[u8] = &[0x00, 0x53, 0x29, 0x45];

const COORDINATOR: &[u8] = &[0x00, 0x53, 0x30, 0x45];

const EMPTY_SOURCE: &[u8] = &[0x00, 0x53, 0x28, 0xC0, 0x03, 0x01, 0xA1, 0x00];

const SYMBOL_SOURCE: &[u8] = &[0x00, 0x53, 0x28, 0xC0, 0x04, 0x01, 0xA3, 0x01, b'q'];

const DYNAMIC_TARGET: &[u8] = &[
    0x00, 0x53, 0x29, 0xC0, 0x06, 0x05, 0x40, 0x40, 0x40, 0x40, 0x41,
];

impl Driver {
    /// What a client does next that it may not do, or need not.
    pub(crate) fn hostile(&mut self, client: Client) -> Result<Deed, AllocError> {
        let choice = self.chance.number(24);
        if choice > 22 {
            return Ok(self.odd_item(client));
        }
        Ok(Driver::sent(client, self.odd_frame(client, choice)?))
    }

    /// The frame of this choice, from 0 to 22.
    fn odd_frame(&mut self, client: Client, choice: u32) -> Result<Vec<u8>, AllocError> {
        match choice {
            0 => self.no_frame(),
            1 => self.no_performative(),
            2..=6 => self.damaged_frame(client),
            7 => self.elsewhere(client),
            8 | 9 => self.odd_attach(client),
            10..=12 => self.odd_transfer(client),
            13 | 14 => self.odd_flow(client),
            15..=18 => self.odd_disposition(client),
            19 => self.odd_opening(),
            20 => self.odd_begin(),
            21 => self.odd_ending(client),
            _ => self.large_transfer(client),
        }
    }

    /// An item that is no frame, where it is not awaited.
    fn odd_item(&mut self, client: Client) -> Deed {
        match self.chance.number(6) {
            0 => Deed::Lost(client.connection),
            1 => Deed::Broken(client.connection),
            2 | 3 => Deed::Opened(client.connection),
            4 => Deed::Lost(self.odd_number()),
            _ => Deed::Broken(self.odd_number()),
        }
    }

    /// A number that is likely to be no right one.
    fn odd_number(&mut self) -> u32 {
        self.chance.one_of(&NUMBERS, 0)
    }

    /// The same, or none, once in so many times.
    fn odd_number_or_none(&mut self, times: u32) -> Option<u32> {
        if self.chance.once_in(times) {
            None
        } else {
            Some(self.odd_number())
        }
    }

    /// A channel, likely of no session.
    fn odd_channel(&mut self) -> u16 {
        (self.chance.one_of(&CHANNELS, 0) & 0xFFFF) as u16
    }

    /// Octets that are no frame.
    fn no_frame(&mut self) -> Result<Vec<u8>, AllocError> {
        let mut octets = Vec::new(self.alloc);
        let count = self.chance.number(40);
        self.put_octets(&mut octets, count)?;
        Ok(octets)
    }

    /// Puts so many octets.
    fn put_octets(&mut self, out: &mut Vec<u8>, count: u32) -> Result<(), AllocError> {
        for _ in 0..count {
            out.push(self.chance.octet())?;
        }
        Ok(())
    }

    /// A frame whose body is no performative, mostly.
    fn no_performative(&mut self) -> Result<Vec<u8>, AllocError> {
        let mut body = Vec::new(self.alloc);
        body.extend_from_slice(&[0x00, 0x53, self.chance.octet(), 0xC0])?;
        let count = self.chance.number(30);
        self.put_octets(&mut body, count)?;
        self.framed(0, body)
    }

    /// A lawful frame of the client, or an open.
    fn some_lawful(&mut self, client: Client) -> Result<Vec<u8>, AllocError> {
        match self.some_frame(client)? {
            Some(frame) => Ok(frame),
            None => self.framed(0, said::open(self.alloc, None)?),
        }
    }

    /// A lawful frame with an octet changed, or cut short, or with one octet too many.
    fn damaged_frame(&mut self, client: Client) -> Result<Vec<u8>, AllocError> {
        let mut frame = self.some_lawful(client)?;
        match self.chance.number(8) {
            0 => frame.truncate(self.chance.place(frame.len())),
            1 => frame.push(self.chance.octet())?,
            2 => {
                let place = self.chance.place(8);
                self.change(&mut frame, place);
            }
            _ => {
                let place = self.chance.place(frame.len());
                self.change(&mut frame, place.max(8));
            }
        }
        Ok(frame)
    }

    /// Changes the octet of a place.
    fn change(&mut self, frame: &mut Vec<u8>, place: usize) {
        let fresh = if self.chance.once_in(2) {
            self.chance.octet()
        } else {
            (self.chance.number(4) & 3) as u8
        };
        if let Some(octet) = frame.get_mut(place) {
            *octet = fresh;
        }
    }

    /// A lawful frame on another channel.
    fn elsewhere(&mut self, client: Client) -> Result<Vec<u8>, AllocError> {
        let mut frame = self.some_lawful(client)?;
        let channel = self.odd_channel();
        let [high, low] = channel.to_be_bytes();
        if let Some(octet) = frame.get_mut(6) {
            *octet = high;
        }
        if let Some(octet) = frame.get_mut(7) {
            *octet = low;
        }
        Ok(frame)
    }

    /// The place of some live session of the client, or channel 0.
    fn some_place(&mut self, client: Client) -> ChannelKey {
        let connection = client.connection;
        match self
            .known
            .session_of(&mut self.chance, connection, Life::Live)
        {
            Some(session) => session.place,
            None => ChannelKey {
                connection,
                channel: 0,
            },
        }
    }

    /// Some handle, of a link or not.
    fn some_handle(&mut self) -> u32 {
        if self.chance.once_in(3) {
            self.odd_number()
        } else {
            self.chance.number(4)
        }
    }

    /// An attach that is refused, or ends more than itself.
    fn odd_attach(&mut self, client: Client) -> Result<Vec<u8>, AllocError> {
        let place = self.some_place(client);
        let length = self.chance.one_of(&[1, 1, 1, 160, 161, 255, 256], 0);
        let name = repeated(self.alloc, b'n', length)?;
        self.odd_attach_of(place, name.as_slice())
    }

    /// The same of a link of this name, which may be its address too.
    fn odd_attach_of(&mut self, place: ChannelKey, name: &[u8]) -> Result<Vec<u8>, AllocError> {
        let source = self.odd_source();
        let target = self.odd_target();
        let long = said::terminus(self.alloc, 0x28, name, false)?;
        let attaching = Attaching {
            name,
            handle: self.some_handle(),
            is_receiver: self.chance.once_in(2),
            sender_mode: None,
            receiver_mode: Some((self.chance.number(3) & 3) as u8),
            source: if self.chance.once_in(2) {
                long.as_slice()
            } else {
                source
            },
            target,
            initial_count: if self.chance.once_in(3) {
                None
            } else {
                Some(0)
            },
        };
        self.framed(place.channel, said::attach(self.alloc, attaching)?)
    }

    /// The octets of a source that is empty, or none, or those of a target.
    fn odd_source(&mut self) -> &'static [u8] {
        match self.chance.number(6) {
            0 => EMPTY_SOURCE,
            1 => SYMBOL_SOURCE,
            2 => NO_SOURCE,
            3 => NO_TARGET,
            _ => NULL,
        }
    }

    /// The octets of a target that no message is sent to, or none, or those of a source.
    fn odd_target(&mut self) -> &'static [u8] {
        match self.chance.number(6) {
            0 => COORDINATOR,
            1 => DYNAMIC_TARGET,
            2 => NO_TARGET,
            3 => NO_SOURCE,
            _ => NULL,
        }
    }

    /// A transfer on some handle, with some id.
    fn odd_transfer(&mut self, client: Client) -> Result<Vec<u8>, AllocError> {
        let place = self.some_place(client);
        let length = self.chance.one_of(&[0, 4, 32, 33], 0);
        let next_id = match self.known.session_at(place) {
            Some(session) => session.next_id,
            None => 0,
        };
        let sending = Sending {
            handle: self.some_handle(),
            id: self.odd_id(next_id),
            tag: TAG.get(..length).unwrap_or(&[]),
            is_settled: self.chance.once_in(3),
            has_more: self.chance.once_in(3),
            is_resumed: self.chance.once_in(12),
            is_aborted: self.chance.once_in(6),
        };
        let payload = self.length();
        self.framed(place.channel, said::transfer(self.alloc, sending, payload)?)
    }

    /// An id of a delivery, where the next one has this.
    fn odd_id(&mut self, next_id: u32) -> Option<u32> {
        match self.chance.number(6) {
            0 => None,
            1 => Some(self.odd_number()),
            2 | 3 => Some(next_id.wrapping_sub(self.chance.number(4))),
            _ => Some(next_id),
        }
    }

    /// A transfer of nearly as many octets as a frame has, or of more.
    fn large_transfer(&mut self, client: Client) -> Result<Vec<u8>, AllocError> {
        let connection = client.connection;
        let found = self
            .known
            .link_of(&mut self.chance, connection, Life::Live, true);
        let Some(link) = found else {
            return self.no_frame();
        };
        let sending = Sending {
            handle: link.handle,
            id: self
                .known
                .session_at(link.place)
                .map(|session| session.next_id),
            tag: &[],
            is_settled: false,
            has_more: self.chance.once_in(2),
            is_resumed: false,
            is_aborted: false,
        };
        let payload = self
            .chance
            .one_of(&[8000, 16_200, 16_320, 16_330, 17_000], 0);
        self.framed(
            link.place.channel,
            said::transfer(self.alloc, sending, payload)?,
        )
    }

    /// A flow with numbers that nobody told.
    fn odd_flow(&mut self, client: Client) -> Result<Vec<u8>, AllocError> {
        let place = self.some_place(client);
        let crediting = Crediting {
            handle: self.some_handle(),
            count: self.odd_number_or_none(3),
            credit: Some(self.odd_number()),
            drains: self.chance.once_in(2),
        };
        let awaited = self.odd_number_or_none(4);
        let window = self.odd_number();
        let has_link = !self.chance.once_in(4);
        let link = if has_link { Some(crediting) } else { None };
        let wants_echo = self.chance.once_in(2);
        let body = said::flow(self.alloc, awaited, window, 0, link, wants_echo)?;
        self.framed(place.channel, body)
    }

    /// A disposition of ids that are not awaited, maybe of the other role.
    fn odd_disposition(&mut self, client: Client) -> Result<Vec<u8>, AllocError> {
        let place = self.some_place(client);
        let is_receiver = !self.chance.once_in(4);
        let first = if self.chance.once_in(2) {
            self.chance.number(8)
        } else {
            self.odd_number()
        };
        let last = if self.chance.once_in(2) {
            Some(self.odd_number())
        } else {
            None
        };
        let is_settled = self.chance.once_in(2);
        let state = self.any_state()?;
        let body = said::disposition(
            self.alloc,
            is_receiver,
            Some(first),
            last,
            is_settled,
            state.as_slice(),
        )?;
        self.framed(place.channel, body)
    }

    /// The octets of a state, now and then of one that is none.
    fn any_state(&mut self) -> Result<Vec<u8>, AllocError> {
        if self.chance.once_in(8) {
            self.odd_state()
        } else {
            self.state()
        }
    }

    /// The octets of a state that is none: described by something else, or not described.
    fn odd_state(&mut self) -> Result<Vec<u8>, AllocError> {
        let state: &[u8] = match self.chance.number(3) {
            0 => &[0x00, 0x53, 0x28, 0x45],
            1 => &[0x00, 0x53, 0x24, 0x43],
            _ => &[0x45],
        };
        state.to_vec(self.alloc)
    }

    /// An open with some limit.
    fn odd_opening(&mut self) -> Result<Vec<u8>, AllocError> {
        let limit = self.chance.one_of(&[0, 511, 512, 16384], 0);
        self.framed(0, said::open(self.alloc, Some(limit))?)
    }

    /// A begin on some channel, maybe with a remote one.
    fn odd_begin(&mut self) -> Result<Vec<u8>, AllocError> {
        let channel = self.odd_channel();
        let remote = if self.chance.once_in(4) {
            Some(0)
        } else {
            None
        };
        let (first, window) = (self.odd_number(), self.odd_number());
        self.framed(
            channel,
            said::begin(self.alloc, Some(first), Some(window), remote)?,
        )
    }

    /// A detach, an end or a close that nobody asked for.
    fn odd_ending(&mut self, client: Client) -> Result<Vec<u8>, AllocError> {
        let place = self.some_place(client);
        let body = match self.chance.number(8) {
            0 => said::ending(self.alloc, 0x18)?,
            1 => said::ending(self.alloc, 0x17)?,
            _ => said::detach(self.alloc, Some(self.some_handle()), self.chance.once_in(2))?,
        };
        self.framed(place.channel, body)
    }
}
