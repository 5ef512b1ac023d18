//! What the clients know of their connections, sessions, links and deliveries, as far as they need it to go on.

use kit_clients::Chance;
use std::alloc::{AllocError, Global};

/// Addresses of each distribution, under the rules of most runs.
pub const ADDRESSES: [&str; 6] = ["near", "news", "even", "near/x", "news.b", "plain"];

/// The place of an address that is none of them.
pub const NO_ADDRESS: usize = 6;

/// How far a connection has come.
#[derive(Clone, Copy, PartialEq, Eq)]
pub enum ConnectionStage {
    /// Nothing happened yet.
    Absent,
    /// Its header was accepted.
    Headed,
    /// The client's open was sent.
    Open,
    /// It was closed, in either direction, or its octets stopped being frames.
    Closed,
    /// It is gone.
    Lost,
}

/// How far a session or a link has come.
#[derive(Clone, Copy, PartialEq, Eq)]
pub enum Life {
    /// The client asked for it.
    Asked,
    /// The router answered.
    Live,
    /// The client ended it.
    Leaving,
    /// The router ended it, and waits for the client's own end.
    Over,
}

impl Life {
    /// Whether it waits for no answer of the router.
    fn is_answered(self) -> bool {
        self == Life::Live || self == Life::Over
    }
}

/// A client.
#[derive(Clone, Copy)]
pub struct Client {
    pub connection: u32,
    pub stage: ConnectionStage,
}

/// A channel of a connection.
#[derive(Clone, Copy, PartialEq, Eq)]
pub struct ChannelKey {
    pub connection: u32,
    pub channel: u16,
}

/// A session.
#[derive(Clone, Copy)]
pub struct Session {
    pub place: ChannelKey,
    pub life: Life,
    /// The number of the client's next transfer.
    pub next: u32,
    /// The id of its next delivery.
    pub next_id: u32,
    /// How many transfers came from the router.
    pub seen: u32,
}

/// A link.
#[derive(Clone, Copy)]
pub struct Link {
    pub place: ChannelKey,
    pub handle: u32,
    pub life: Life,
    pub is_producer: bool,
    /// Which of the driver's addresses it has; `NO_ADDRESS` for any other.
    pub address: usize,
    /// The count of deliveries.
    pub count: u32,
    /// A producer's credit that is left.
    pub credit: u32,
    /// The id of a producer's delivery of which parts are still to come.
    pub begun: Option<u32>,
    /// A delivery to a consumer of which parts are still to come.
    pub is_in_progress: bool,
}

impl Link {
    /// Whether it has this handle of this place.
    pub(crate) fn is_on(&self, place: ChannelKey, handle: u32) -> bool {
        self.place == place && self.handle == handle
    }
}

/// A delivery of a producer: the record where it begins, and the address.
#[derive(Clone, Copy)]
pub struct Sent {
    pub number: u64,
    pub address: usize,
}

/// A delivery that a consumer has not decided.
#[derive(Clone, Copy)]
pub struct Held {
    pub place: ChannelKey,
    pub id: u32,
}

/// All of it.
#[derive(Drop)]
pub struct Known {
    pub clients: Vec<Client>,
    pub sessions: Vec<Session>,
    pub links: Vec<Link>,
    pub held: Vec<Held>,
    pub sent: Vec<Sent>,
    /// The number of the next connection.
    pub next_connection: u32,
}

impl Known {
    /// So many clients, of whom nothing is known.
    pub fn new(alloc: Global, count: u32) -> Result<Known, AllocError> {
        let mut clients = Vec::new(alloc);
        for connection in 0..count {
            clients.push(Client {
                connection,
                stage: ConnectionStage::Absent,
            })?;
        }
        Ok(Known {
            clients,
            sessions: Vec::new(alloc),
            links: Vec::new(alloc),
            held: Vec::new(alloc),
            sent: Vec::new(alloc),
            next_connection: count,
        })
    }

    /// Some client.
    pub fn client(&self, chance: &mut Chance) -> Client {
        let place = chance.place(self.clients.len());
        self.clients.get(place).copied().unwrap_or(Client {
            connection: 0,
            stage: ConnectionStage::Lost,
        })
    }

    /// A client that is gone comes back on a connection of another number.
    pub fn come_back(&mut self, connection: u32) -> u32 {
        let fresh = self.next_connection;
        for client in self.clients.iter_mut() {
            if client.connection == connection {
                client.connection = fresh;
                client.stage = ConnectionStage::Absent;
            }
        }
        self.next_connection = fresh.wrapping_add(1);
        fresh
    }

    /// How far a connection has come.
    pub fn stage_of(&self, connection: u32) -> ConnectionStage {
        for client in self.clients.iter() {
            if client.connection == connection {
                return client.stage;
            }
        }
        ConnectionStage::Absent
    }

    /// How far the session of a place has come.
    pub fn life_at(&self, place: ChannelKey) -> Option<Life> {
        for session in self.sessions.iter() {
            if session.place == place {
                return Some(session.life);
            }
        }
        None
    }

    /// Whether a handle is in use.
    pub fn has_link(&self, place: ChannelKey, handle: u32) -> bool {
        self.links.iter().any(|link| link.is_on(place, handle))
    }

    /// Whether nothing that a client asked for, or ended, is without the router's answer.
    pub fn is_answered(&self) -> bool {
        self.sessions
            .iter()
            .all(|session| session.life.is_answered())
            && self.links.iter().all(|link| link.life.is_answered())
    }

    /// Some session of a connection that has come so far.
    pub fn session_of(&self, chance: &mut Chance, connection: u32, life: Life) -> Option<Session> {
        let mut found = None;
        let mut count: u32 = 0;
        for session in self.sessions.iter() {
            if session.place.connection == connection && session.life == life {
                count = count.wrapping_add(1);
                if chance.once_in(count) {
                    found = Some(*session);
                }
            }
        }
        found
    }

    /// The session of a place.
    pub fn session_at(&self, place: ChannelKey) -> Option<Session> {
        for session in self.sessions.iter() {
            if session.place == place {
                return Some(*session);
            }
        }
        None
    }

    /// Some link of a connection that has come so far, of a producer or of a consumer.
    pub fn link_of(
        &self,
        chance: &mut Chance,
        connection: u32,
        life: Life,
        is_producer: bool,
    ) -> Option<Link> {
        let mut found = None;
        let mut count: u32 = 0;
        for link in self.links.iter() {
            let is_one = link.place.connection == connection && link.life == life;
            if is_one && link.is_producer == is_producer {
                count = count.wrapping_add(1);
                if chance.once_in(count) {
                    found = Some(*link);
                }
            }
        }
        found
    }

    /// Some delivery that a connection's client has not decided.
    pub fn held_of(&self, chance: &mut Chance, connection: u32) -> Option<Held> {
        let mut found = None;
        let mut count: u32 = 0;
        for held in self.held.iter() {
            if held.place.connection == connection {
                count = count.wrapping_add(1);
                if chance.once_in(count) {
                    found = Some(*held);
                }
            }
        }
        found
    }
}
