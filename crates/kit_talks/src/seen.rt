//! What the clients learn from the records of a step: of what they said themselves, and of what the router wrote.

use crate::known::{
    ADDRESSES, ChannelKey, ConnectionStage, Held, Known, Life, Link, NO_ADDRESS, Sent, Session,
};
use amqp_frames::FrameView;
use amqp_perf::{
    Address, Attach, Disposition, Flow, Performative, Role, Target, Terminus, Transfer,
};
use capture_form::{Record, What};
use std::alloc::AllocError;

impl Known {
    /// Learns from the record of a number.
    pub fn see(&mut self, number: u64, entry: &Record) -> Result<(), AllocError> {
        let connection = entry.connection;
        match &entry.what {
            What::Opened => self.come_to(connection, ConnectionStage::Headed),
            What::Broken => self.leave(connection, ConnectionStage::Closed),
            What::Lost => self.leave(connection, ConnectionStage::Lost),
            What::In(frame) => {
                if let Some((place, said)) = spoken(connection, frame.octets()) {
                    self.say(number, place, &said)?;
                }
            }
            What::Out(frame) => {
                if let Some((place, said)) = spoken(connection, frame.octets()) {
                    self.hear(place, &said)?;
                }
            }
        }
        Ok(())
    }

    /// A connection has come so far.
    fn come_to(&mut self, connection: u32, stage: ConnectionStage) {
        for client in self.clients.iter_mut() {
            if client.connection == connection {
                client.stage = stage;
            }
        }
    }

    /// A connection has come so far that nothing of it is left.
    fn leave(&mut self, connection: u32, stage: ConnectionStage) {
        self.come_to(connection, stage);
        self.sessions
            .retain(|session| session.place.connection != connection);
        self.links
            .retain(|link| link.place.connection != connection);
        self.held.retain(|held| held.place.connection != connection);
    }

    /// The client of a connection said this.
    fn say(
        &mut self,
        number: u64,
        place: ChannelKey,
        said: &Performative<'_>,
    ) -> Result<(), AllocError> {
        match (self.stage_of(place.connection), said) {
            (ConnectionStage::Headed, Performative::Open(_)) => self.come_to(
                place.connection,
                ConnectionStage::Open,
            ),
            (ConnectionStage::Open, Performative::Begin(begin)) if self.life_at(place).is_none() =>
                {
                    self.sessions.push(Session {
                        place,
                        life: Life::Asked,
                        next: begin.next_outgoing_id,
                        next_id: begin.next_outgoing_id,
                        seen: 0,
                    })?
                }
            (ConnectionStage::Open, Performative::Attach(attach))
                if self.life_at(place) == Some(Life::Live) => {
                self.ask(place, attach)?;
            }
            (ConnectionStage::Open, Performative::Transfer(transfer)) => self.send(
                number, place, transfer,
            )?,
            (ConnectionStage::Open, Performative::Disposition(disposition)) => {
                self.decide(place, disposition);
            }
            (ConnectionStage::Open, Performative::Detach(detach)) => {
                self.turn_link(place, detach.handle, Life::Over, Life::Leaving);
            }
            (ConnectionStage::Open, Performative::End(_)) => {
                self.turn_session(place, Life::Over, Life::Leaving);
            }
            (_, Performative::Close(_)) => self.leave(place.connection, ConnectionStage::Closed),
            _ => {}
        }
        Ok(())
    }

    /// The client asked for a link.
    fn ask(&mut self, place: ChannelKey, attach: &Attach<'_>) -> Result<(), AllocError> {
        let is_producer = attach.role == Role::Sender;
        let count = if is_producer {
            attach.initial_delivery_count.unwrap_or(0)
        } else {
            0
        };
        self.links.push(Link {
            place,
            handle: attach.handle,
            life: Life::Asked,
            is_producer,
            address: address_of(attach),
            count,
            credit: 0,
            begun: None,
            is_in_progress: false,
        })?;
        Ok(())
    }

    /// The client sent a part of a delivery.
    fn send(
        &mut self,
        number: u64,
        place: ChannelKey,
        transfer: &Transfer<'_>,
    ) -> Result<(), AllocError> {
        let mut begun = None;
        for link in self.links.iter_mut() {
            if link.is_on(place, transfer.handle) && link.is_producer {
                if link.begun.is_none() {
                    begun = Some(Sent {
                        number,
                        address: link.address,
                    });
                    link.count = link.count.wrapping_add(1);
                    link.credit = link.credit.saturating_sub(1);
                    link.begun = transfer.delivery_id;
                }
                if !transfer.has_more() || transfer.is_aborted() {
                    link.begun = None;
                }
            }
        }
        self.count_sent(place, begun.is_some());
        if let Some(sent) = begun {
            self.sent.push(sent)?;
        }
        Ok(())
    }

    /// It was a transfer of a session, and maybe the first of a delivery.
    fn count_sent(&mut self, place: ChannelKey, has_begun: bool) {
        for session in self.sessions.iter_mut() {
            if session.place == place {
                session.next = session.next.wrapping_add(1);
                if has_begun {
                    session.next_id = session.next_id.wrapping_add(1);
                }
            }
        }
    }

    /// The client decided, or at least spoke of, some deliveries.
    fn decide(&mut self, place: ChannelKey, disposition: &Disposition<'_>) {
        if disposition.role == Role::Receiver {
            let (first, last) = (disposition.first, disposition.last_id());
            let most = last.wrapping_sub(first);
            self.held.retain(|held| held.place != place || held.id.wrapping_sub(first) > most);
        }
    }

    /// A link was detached. Where the other end had detached it before, it has come so far, and is gone; else it comes so far as
    /// is told last.
    fn turn_link(&mut self, place: ChannelKey, handle: u32, gone: Life, fresh: Life) {
        self.links
            .retain(|link| !link.is_on(place, handle) || link.life != gone);
        for link in self.links.iter_mut() {
            if link.is_on(place, handle) {
                link.life = fresh;
            }
        }
    }

    /// A session was ended, in the same way.
    fn turn_session(&mut self, place: ChannelKey, gone: Life, fresh: Life) {
        self.sessions
            .retain(|session| session.place != place || session.life != gone);
        for session in self.sessions.iter_mut() {
            if session.place == place {
                session.life = fresh;
            }
        }
    }

    /// The router wrote this.
    fn hear(&mut self, place: ChannelKey, said: &Performative<'_>) -> Result<(), AllocError> {
        match said {
            Performative::Open(_) => {}
            Performative::Close(_) => self.leave(place.connection, ConnectionStage::Closed),
            Performative::Begin(_) => self.begun(place),
            Performative::End(_) => self.ended(place),
            Performative::Attach(attach) => self.attached(place, attach.handle),
            Performative::Detach(detach) => {
                self.turn_link(place, detach.handle, Life::Leaving, Life::Over);
            }
            Performative::Flow(flow) => self.credited(place, flow),
            Performative::Transfer(transfer) => self.received(place, transfer)?,
            Performative::Disposition(disposition) => {
                if disposition.role == Role::Sender {
                    let first = disposition.first;
                    self.held
                        .retain(|held| held.place != place || held.id != first);
                }
            }
        }
        Ok(())
    }

    /// A session begins.
    fn begun(&mut self, place: ChannelKey) {
        for session in self.sessions.iter_mut() {
            if session.place == place {
                session.life = Life::Live;
            }
        }
    }

    /// A session ends.
    fn ended(&mut self, place: ChannelKey) {
        self.turn_session(place, Life::Leaving, Life::Over);
        self.links.retain(|link| link.place != place);
        self.held.retain(|held| held.place != place);
    }

    /// A link begins.
    fn attached(&mut self, place: ChannelKey, handle: u32) {
        for link in self.links.iter_mut() {
            if link.is_on(place, handle) {
                link.life = Life::Live;
            }
        }
    }

    /// The router gives credit, or tells its numbers.
    fn credited(&mut self, place: ChannelKey, flow: &Flow) {
        for link in self.links.iter_mut() {
            if link.place == place && flow.handle == Some(link.handle) && link.is_producer {
                link.credit = flow.link_credit.unwrap_or(link.credit);
            }
        }
    }

    /// A part of a delivery comes.
    fn received(&mut self, place: ChannelKey, transfer: &Transfer<'_>) -> Result<(), AllocError> {
        for session in self.sessions.iter_mut() {
            if session.place == place {
                session.seen = session.seen.wrapping_add(1);
            }
        }
        self.go_on(place, transfer);
        match transfer.delivery_id {
            Some(id) if transfer.settled != Some(true) => {
                self.held.push(Held { place, id })?;
            }
            _ => {}
        }
        Ok(())
    }

    /// A part goes to a consumer's link: more are to come or not, and maybe a delivery begins with it.
    fn go_on(&mut self, place: ChannelKey, transfer: &Transfer<'_>) {
        for link in self.links.iter_mut() {
            if link.is_on(place, transfer.handle) {
                link.is_in_progress = transfer.has_more();
                if transfer.delivery_id.is_some() {
                    link.count = link.count.wrapping_add(1);
                }
            }
        }
    }
}

/// Which of the driver's addresses a client attaches to.
fn address_of(attach: &Attach<'_>) -> usize {
    let terminus = match (attach.role, attach.source, attach.target) {
        (Role::Receiver, source, _) => source,
        (Role::Sender, _, Some(Target::Terminus(target))) => Some(target),
        (Role::Sender, _, _) => None,
    };
    let Some(
        Terminus {
            address: Some(Address::Text(text)),
            ..
        },
    ) = terminus
    else {
        return NO_ADDRESS;
    };
    ADDRESSES
        .iter()
        .position(|address| *address == text)
        .unwrap_or(NO_ADDRESS)
}

/// What a frame says, and on which channel.
pub(crate) fn spoken(connection: u32, octets: &[u8]) -> Option<(ChannelKey, Performative<'_>)> {
    let frame = FrameView::whole(octets, u32::MAX)?;
    let channel = frame.channel();
    let (said, _) = Performative::read(frame.body()).ok()?;
    Some((
        ChannelKey {
            connection,
            channel,
        },
        said,
    ))
}
