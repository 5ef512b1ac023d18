//! The driver: what happens next, lawful or hostile.

use crate::deed::Deed;
use crate::known::{ADDRESSES, Client, Known};
use kit_clients::{Chance, framed};
use std::alloc::{AllocError, Global};

/// Makes items by chance.
#[derive(Drop)]
pub struct Driver {
    pub(crate) alloc: Global,
    pub(crate) chance: Chance,
    pub known: Known,
    /// Once in so many times a client is hostile.
    hostility: u32,
    /// The first of the addresses that are in use, and how many are.
    first_address: usize,
    addresses: usize,
}

impl Driver {
    /// A driver of two to five clients, whose manners are a matter of chance.
    pub fn new(alloc: Global, chance: Chance) -> Result<Driver, AllocError> {
        let mut chance = chance;
        let count = chance.number(4).wrapping_add(2);
        let hostility = chance.one_of(&[1_000_000, 200, 60, 30, 12, 4], 0);
        let first_address = chance.place(ADDRESSES.len());
        let addresses = chance.one_of(&[1, 1, 2, 3], 0);
        Ok(Driver {
            alloc,
            chance,
            known: Known::new(alloc, count)?,
            hostility,
            first_address,
            addresses,
        })
    }

    /// What happens next.
    pub fn next_deed(&mut self) -> Result<Deed, AllocError> {
        let client = self.known.client(&mut self.chance);
        if self.chance.once_in(self.hostility) {
            self.hostile(client)
        } else {
            self.lawful(client)
        }
    }

    /// Some address.
    pub(crate) fn address(&mut self) -> &'static str {
        let further = self.chance.place(self.addresses);
        let place = self.first_address.wrapping_add(further);
        let place = place.checked_rem(ADDRESSES.len()).unwrap_or(0);
        ADDRESSES.get(place).copied().unwrap_or("plain")
    }

    /// How many octets a message has in a part.
    pub(crate) fn length(&mut self) -> usize {
        let most = self.chance.one_of(&[1, 20, 100, 100, 700, 3000], 0);
        self.chance.number(most) as usize
    }

    /// A frame of this body on a channel.
    ///
    /// It takes the body: one that is owned by who makes it would have its drop proved on each way out there.
    pub(crate) fn framed(&self, channel: u16, body: Vec<u8>) -> Result<Vec<u8>, AllocError> {
        framed(self.alloc, channel, body.as_slice())
    }

    /// A frame that a client sends.
    pub(crate) fn sent(client: Client, frame: Vec<u8>) -> Deed {
        Deed::In(client.connection, frame)
    }
}
