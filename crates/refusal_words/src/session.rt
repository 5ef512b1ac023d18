//! Where the window of a session comes from (part 2 of the standard, section 2.5.6), and its links.

use crate::link::{Change, LinkOrigin, credit_granted, drain_answered};
use amqp_perf::{Attach, Flow, Performative};
use std::alloc::{AllocError, Global};
use std::collections::HashMap;
use trace_events::opens_link;

/// The begin of a client, which grants the first window of a session.
#[derive(Clone, Copy, Debug)]
pub struct Opened {
    /// The number of its record.
    pub number: u64,
    /// How many transfers it takes.
    pub incoming_window: u32,
}

/// A flow of a client, which grants its session's window.
#[derive(Clone, Copy, Debug)]
pub struct Windowed {
    /// The number of its record.
    pub number: u64,
    pub next_incoming_id: Option<u32>,
    pub incoming_window: u32,
}

/// Where the window of a session comes from.
#[derive(Debug, Drop)]
pub struct SessionOrigin {
    /// The number of the record of the router's begin.
    pub number: u64,
    /// The client's begin that it answers.
    pub opened: Option<Opened>,
    /// The last flow of the client, since the router's begin.
    pub window: Option<Windowed>,
    /// How many transfers the router has sent since that flow, or else since the begin.
    pub sent: u64,
    links: HashMap<u32, LinkOrigin>,
}

impl SessionOrigin {
    ghost use Rattle.std.specs.Prelude.{◌≡◌, ℕ, Some, None, OnOk, option_map, ◌==◌, if◌then◌else◌};
    ghost use Rattle.std.specs.Option.{option_copied};
    ghost use Rattle.amqp_perf.specs.Meaning.{AFlow};
    ghost use Rattle.amqp_perf.specs.View.{attach_fields, view};
    ghost use Rattle.refusal_words.specs.Session.{OurTransfer, fresh_session, heard_change, written_change};
    ghost use Rattle.refusal_words.specs.Link.{attach_event, heard_of_handle, written_of_handle};
    ghost use Rattle.refusal_words.specs.Tables.{SessionMoves, changed, link_next, link_on, link_told, session_told, told_next};

    /// Of a session that begins in the record of this number.
    pub(crate) fn new(alloc: Global, number: u64, opened: Option<Opened>) -> SessionOrigin
        ensures told { session_told result ≡ fresh_session number opened }
        ensures links { (handle : ℕ) → link_on result handle ≡ None }
    {
        SessionOrigin {
            number,
            opened,
            window: None,
            sent: 0,
            links: HashMap::new(alloc),
        }
    }

    /// The link of a handle.
    pub(crate) fn link(&self, handle: u32) -> Option<&LinkOrigin>
        ensures { option_map link_told (option_copied result) ≡ link_on self.now handle }
    {
        self.links.get(&handle)
    }

    /// A performative of the client on the session, in the record of this number.
    pub(crate) fn hear(&mut self, number: u64, performative: &Performative)
        ensures { SessionMoves (heard_change number (view performative.now)) (λ handle. heard_of_handle handle number (view performative.now)) self.old self.new }
    {
        match performative {
            Performative::Flow(flow) => self.grant(number, flow),
            Performative::Detach(detach) => self.detach(detach.handle),
            _ => {}
        }
    }

    /// A performative of the router on the session, in the record of this number.
    ///
    /// # Errors
    ///
    /// Memory was refused, for the name of a link; then the link is not known.
    pub(crate) fn write(
        &mut self,
        alloc: Global,
        number: u64,
        performative: &Performative,
    ) -> Result<(), AllocError>
        ensures { OnOk result (SessionMoves (written_change (view performative.now)) (λ handle. written_of_handle handle number (view performative.now)) self.old self.new) }
    {
        match performative {
            Performative::Attach(attach) => self.attach(alloc, number, attach)?,
            Performative::Transfer(transfer) => self.send(transfer.handle, transfer.has_more()),
            Performative::Flow(flow) => self.tell(number, flow),
            Performative::Detach(detach) => self.detach(detach.handle),
            _ => {}
        }
        Ok(())
    }

    /// A flow of the client.
    fn grant(&mut self, number: u64, flow: &Flow)
        ensures { SessionMoves (heard_change number (AFlow flow.now)) (λ handle. heard_of_handle handle number (AFlow flow.now)) self.old self.new }
    {
        self.window = Some(Windowed {
            number,
            next_incoming_id: flow.next_incoming_id,
            incoming_window: flow.incoming_window,
        });
        self.sent = 0;
        if let Some((handle, credit)) = credit_granted(number, flow) {
            self.change(handle, Change::Credit(credit));
        }
    }

    /// An attach of the router's in the record of this number, which may open a link.
    fn attach(&mut self, alloc: Global, number: u64, attach: &Attach) -> Result<(), AllocError>
        ensures told { session_told self.new ≡ session_told self.old }
        ensures links { OnOk result ((handle : ℕ) → link_on self.new handle ≡ link_next (attach_event handle number (attach_fields attach.now)) (link_on self.old handle)) }
    {
        if opens_link(attach) {
            let link = LinkOrigin::new(alloc, number, attach.name)?;
            self.links.insert(attach.handle, link)?;
        }
        Ok(())
    }

    /// A transfer of the router's on this handle.
    fn send(&mut self, handle: u32, has_more: bool)
        ensures told { session_told self.new ≡ told_next (Some OurTransfer) (session_told self.old) }
        ensures links { (h : ℕ) → link_on self.new h ≡ (if handle == h then option_map (changed (Change.Transfer has_more)) (link_on self.old h) else link_on self.old h) }
    {
        self.sent = self.sent.saturating_add(1);
        self.change(handle, Change::Transfer { has_more });
    }

    /// A flow of the router's, which may answer a drain.
    fn tell(&mut self, number: u64, flow: &Flow)
        ensures told { session_told self.new ≡ session_told self.old }
        ensures links { (handle : ℕ) → link_on self.new handle ≡ link_next (written_of_handle handle number (AFlow flow.now)) (link_on self.old handle) }
    {
        if let Some(handle) = drain_answered(flow) {
            self.change(handle, Change::Drain(number));
        }
    }

    /// What moves the credit of the link on a handle, if one lives there.
    fn change(&mut self, handle: u32, change: Change)
        ensures told { session_told self.new ≡ session_told self.old }
        ensures links { (h : ℕ) → link_on self.new h ≡ (if handle == h then option_map (changed change) (link_on self.old h) else link_on self.old h) }
    {
        if let Some(link) = self.links.get_mut(&handle) {
            link.change(change);
        }
    }

    /// A detach in either direction.
    fn detach(&mut self, handle: u32)
        ensures told { session_told self.new ≡ session_told self.old }
        ensures links { (h : ℕ) → link_on self.new h ≡ (if handle == h then None else link_on self.old h) }
    {
        self.links.remove(&handle);
    }
}
