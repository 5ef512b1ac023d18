//! A crowd: many consumers of one address, and producers that send to it, each with a connection, a session and a link of its
//! own.
//!
//! The consumers attach in any order, and give credit that differs from one to the other and runs out; some leave. About a third
//! of the deliveries are decided while others come: in any order, by any outcome or none, settled or not, one or several at once.

use crate::deed::Deed;
use crate::known::{ChannelKey, Held};
use crate::measured::{BEGIN, DETACH, OPEN, attaching, put_transfer};
use crate::said;
use crate::said::Crediting;
use crate::seen::spoken;
use amqp_perf::Performative;
use capture_form::{Record, What};
use kit_clients::{Chance, framed};
use std::alloc::{AllocError, Global};
use std::fmt;
use std::fmt::{Display, Formatter};

/// The address of all.
pub const CROWDED: &str = "crowd";

/// How many deliveries a producer sends: so few that it needs no more credit than the router gives it at first.
const SENT: u32 = 100;

/// How many transfers a consumer takes.
const WINDOW: u32 = 0x7FFF_FFFF;

/// Of how many consumers at most one leaves.
const STAYING: u32 = 20;

/// A consumer that is there.
#[derive(Clone, Copy)]
struct Member {
    connection: u32,
    /// How many deliveries came to it.
    got: u32,
}

/// What the consumers did, in numbers.
#[derive(Clone, Copy)]
pub struct CrowdCounts {
    /// Deliveries that were decided, how many dispositions said so, and how many deliveries these did not settle.
    decided: usize,
    dispositions: u32,
    unsettled: usize,
    /// Flows that gave credit.
    credits: u32,
    /// Consumers that detached, and whose connection was lost, and what they had not decided then.
    detached: u32,
    lost: u32,
    left_over: usize,
}

/// What the clients do next, and what they know for that.
#[derive(Drop)]
pub struct Crowd {
    chance: Chance,
    members: Vec<Member>,
    /// What the members got and did not decide.
    held: Vec<Held>,
    /// How many consumers come: they have the connections below this, and the producers those from here on.
    size: u32,
    counts: CrowdCounts,
}

impl Crowd {
    /// A crowd of so many consumers, by the choices of a seed. None of them is there yet.
    pub fn new(alloc: Global, seed: u64, size: u32) -> Crowd {
        Crowd {
            chance: Chance::new(seed),
            members: Vec::new(alloc),
            held: Vec::new(alloc),
            size,
            counts: CrowdCounts {
                decided: 0,
                dispositions: 0,
                unsettled: 0,
                credits: 0,
                detached: 0,
                lost: 0,
                left_over: 0,
            },
        }
    }

    /// What the consumers did so far.
    pub fn counts(&self) -> CrowdCounts {
        self.counts
    }

    /// The consumers come in any order, and give credit for none to five deliveries.
    ///
    /// # Errors
    ///
    /// Where memory is refused.
    pub fn arrivals(&mut self, alloc: Global) -> Result<Vec<Deed>, AllocError> {
        let mut deeds = Vec::new(alloc);
        let mut absent: Vec<u32> = (0..self.size).collect(alloc)?;
        self.put_arrivals(&mut deeds, &mut absent)?;
        Ok(deeds)
    }

    /// The consumers of these connections come.
    ///
    /// It borrows what they do, as all below: owned here, its drop would be proved on each way out.
    fn put_arrivals(
        &mut self,
        deeds: &mut Vec<Deed>,
        absent: &mut Vec<u32>,
    ) -> Result<(), AllocError> {
        for _ in 0..self.size {
            let place = self.chance.place(absent.len());
            if place < absent.len() {
                self.put_arrival(deeds, absent.swap_remove(place))?;
            }
        }
        Ok(())
    }

    /// The consumer of a connection comes.
    fn put_arrival(&mut self, deeds: &mut Vec<Deed>, connection: u32) -> Result<(), AllocError> {
        let member = Member { connection, got: 0 };
        come(deeds, connection, true)?;
        let credit = self.chance.number(6);
        self.give(deeds, member, credit)?;
        self.members.push(member)?;
        Ok(())
    }

    /// A producer sends the delivery of this number, the first one being 0; before it some consumer may decide, give credit
    /// anew, or leave. Each producer comes with its first delivery.
    ///
    /// # Errors
    ///
    /// Where memory is refused.
    pub fn round(&mut self, alloc: Global, number: u32) -> Result<Vec<Deed>, AllocError> {
        let mut deeds = Vec::new(alloc);
        self.put_round(&mut deeds, number)?;
        Ok(deeds)
    }

    /// What is done in a round.
    fn put_round(&mut self, deeds: &mut Vec<Deed>, number: u32) -> Result<(), AllocError> {
        let id = number % SENT;
        let producer = self.size.wrapping_add(number / SENT);
        if id == 0 {
            come(deeds, producer, false)?;
        }
        if id == SENT - 1 {
            self.leave(deeds)?;
        } else {
            self.decide(deeds, number)?;
            self.renew(deeds)?;
        }
        let mut frame = Vec::new(*deeds.allocator());
        put_transfer(&mut frame, 0, id)?;
        deeds.push(Deed::In(producer, frame))?;
        Ok(())
    }

    /// Each consumer that is there gives credit, so that of so many deliveries none waits any more.
    ///
    /// # Errors
    ///
    /// Where memory is refused.
    pub fn last_credits(
        &mut self,
        alloc: Global,
        deliveries: u32,
    ) -> Result<Vec<Deed>, AllocError> {
        let mut deeds = Vec::new(alloc);
        let count = u32::try_from(self.members.len()).unwrap_or(u32::MAX);
        let each = deliveries.checked_div(count).unwrap_or(0);
        self.give_all(&mut deeds, each.saturating_add(2))?;
        Ok(deeds)
    }

    /// Each consumer that is there gives this credit.
    fn give_all(&mut self, deeds: &mut Vec<Deed>, credit: u32) -> Result<(), AllocError> {
        for place in 0..self.members.len() {
            if let Some(member) = self.members.get(place).copied() {
                self.give(deeds, member, credit)?;
            }
        }
        Ok(())
    }

    /// Learns from a record whether a delivery came to a consumer that is there.
    ///
    /// # Errors
    ///
    /// Where memory is refused.
    pub fn see(&mut self, entry: &Record) -> Result<(), AllocError> {
        let Some(held) = come_to(entry) else {
            return Ok(());
        };
        let mut is_there = false;
        for member in self.members.iter_mut() {
            if member.connection == entry.connection {
                member.got = member.got.wrapping_add(1);
                is_there = true;
            }
        }
        if is_there {
            self.held.push(held)?;
        }
        Ok(())
    }

    /// Some consumer decides a delivery and maybe the next ones, where fewer than a third are decided of those that were sent.
    fn decide(&mut self, deeds: &mut Vec<Deed>, sent: u32) -> Result<(), AllocError> {
        let place = self.chance.place(self.held.len());
        let Some(Held { place, id }) = self.held.get(place).copied() else {
            return Ok(());
        };
        if self.counts.decided.saturating_mul(3) >= sent as usize {
            return Ok(());
        }
        let state = self.some_state();
        let is_settled = state.is_empty() || !self.chance.once_in(3);
        let most = self.chance.number(4);
        let last = (most > 0).then_some(id.wrapping_add(most));
        let alloc = *deeds.allocator();
        let body = said::disposition(alloc, true, Some(id), last, is_settled, state)?;
        send(deeds, place.connection, body)?;
        let before = self.held.len();
        self.held.retain(|held| held.place != place || held.id.wrapping_sub(id) > most);
        let decided = before.saturating_sub(self.held.len());
        self.counts.count_decided(decided, is_settled);
        Ok(())
    }

    /// The octets of some outcome, or nothing.
    fn some_state(&mut self) -> &'static [u8] {
        match self.chance.number(5) {
            0 => &[0x00, 0x53, 0x24, 0x45],
            1 => &[0x00, 0x53, 0x25, 0x45],
            2 => &[0x00, 0x53, 0x26, 0x45],
            3 => &[0x00, 0x53, 0x27, 0xC0, 0x03, 0x02, 0x41, 0x42],
            _ => &[],
        }
    }

    /// Once in eight times some consumer gives credit anew, for one to four deliveries.
    fn renew(&mut self, deeds: &mut Vec<Deed>) -> Result<(), AllocError> {
        if !self.chance.once_in(8) {
            return Ok(());
        }
        let place = self.chance.place(self.members.len());
        let Some(member) = self.members.get(place).copied() else {
            return Ok(());
        };
        let credit = self.chance.number(4).wrapping_add(1);
        self.give(deeds, member, credit)
    }

    /// A consumer gives credit, from the count that it has come to, or from the one before that.
    fn give(
        &mut self,
        deeds: &mut Vec<Deed>,
        member: Member,
        credit: u32,
    ) -> Result<(), AllocError> {
        let count = member.got.saturating_sub(self.chance.number(2));
        let link = Crediting {
            handle: 0,
            count: Some(count),
            credit: Some(credit),
            drains: false,
        };
        let alloc = *deeds.allocator();
        let body = said::flow(alloc, Some(0), WINDOW, 0, Some(link), false)?;
        send(deeds, member.connection, body)?;
        self.counts.credits = self.counts.credits.wrapping_add(1);
        Ok(())
    }

    /// Some consumer detaches, or its connection is lost, while not too many have left.
    fn leave(&mut self, deeds: &mut Vec<Deed>) -> Result<(), AllocError> {
        let left = self.counts.detached.saturating_add(self.counts.lost);
        let place = self.chance.place(self.members.len());
        if left >= self.size / STAYING || place >= self.members.len() {
            return Ok(());
        }
        let connection = self.members.swap_remove(place).connection;
        if left % 2 == 0 {
            send_frame(deeds, connection, DETACH)?;
            self.counts.detached = self.counts.detached.wrapping_add(1);
        } else {
            deeds.push(Deed::Lost(connection))?;
            self.counts.lost = self.counts.lost.wrapping_add(1);
        }
        let before = self.held.len();
        self.held.retain(|held| held.place.connection != connection);
        let fewer = before.saturating_sub(self.held.len());
        self.counts.left_over = self.counts.left_over.saturating_add(fewer);
        Ok(())
    }
}

impl CrowdCounts {
    /// Counts a disposition that decides so many deliveries.
    fn count_decided(&mut self, decided: usize, is_settled: bool) {
        self.dispositions = self.dispositions.wrapping_add(1);
        self.decided = self.decided.saturating_add(decided);
        if !is_settled {
            self.unsettled = self.unsettled.saturating_add(decided);
        }
    }
}

impl Display for CrowdCounts {
    fn fmt<W: fmt::Write>(&self, f: &mut Formatter<W>) -> fmt::Result {
        write!(
            f,
            "dispositions={} decided={} not settled={} credits={} detached={} lost={} left over={}",
            self.dispositions,
            self.decided,
            self.unsettled,
            self.credits,
            self.detached,
            self.lost,
            self.left_over
        )
    }
}

/// A client comes, with a session on channel 0, and attaches as a consumer or as a producer.
fn come(deeds: &mut Vec<Deed>, connection: u32, is_consumer: bool) -> Result<(), AllocError> {
    deeds.push(Deed::Opened(connection))?;
    send_frame(deeds, connection, OPEN)?;
    send_frame(deeds, connection, BEGIN)?;
    let frame = attaching(*deeds.allocator(), 0, is_consumer, CROWDED)?;
    deeds.push(Deed::In(connection, frame))?;
    Ok(())
}

/// A client sends a frame of this body on channel 0.
fn send(deeds: &mut Vec<Deed>, connection: u32, body: Vec<u8>) -> Result<(), AllocError> {
    let frame = framed(*deeds.allocator(), 0, body.as_slice())?;
    deeds.push(Deed::In(connection, frame))?;
    Ok(())
}

/// A client sends this frame.
fn send_frame(deeds: &mut Vec<Deed>, connection: u32, frame: &[u8]) -> Result<(), AllocError> {
    let frame = frame.to_vec(*deeds.allocator())?;
    deeds.push(Deed::In(connection, frame))?;
    Ok(())
}

/// The delivery that came to a client with a record.
fn come_to(entry: &Record) -> Option<Held> {
    let What::Out(frame) = &entry.what else {
        return None;
    };
    match spoken(entry.connection, frame.octets())? {
        (place, Performative::Transfer(transfer)) => Some(Held {
            place,
            id: transfer.delivery_id?,
        }),
        _ => None,
    }
}
