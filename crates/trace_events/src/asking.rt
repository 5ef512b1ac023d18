//! What a client's attach asks for, and which answers fit (part 2 of the standard, section 2.6.3; made up addresses: part 3, section
//! 3.5.3).

ghost use Rattle.std.specs.Prelude.{◌≡◌, decimal, codes, ◌++◌, bytes_eq, option_map};
ghost use Rattle.amqp_perf.specs.View.{attach_fields};
ghost use Rattle.amqp_perf.specs.NestedViews.{target_view};
ghost use Rattle.trace_events.specs.LinkClause as law;
ghost use Rattle.trace_events.specs.Words.{is_some_and};

use crate::event::Event;
use crate::fault::Fault;
use crate::link::{address_at, opens_link};
use amqp_perf::{Attach, ReceiverSettleMode, Role, SenderSettleMode, Target};

/// What the address of a dynamic source begins with; the number of the attach's record follows.
const DYNAMIC: &[u8] = b"dyn/";

fn is_same_role(one: Role, other: Role) -> bool
    ensures { result ≡ law.is_same_role one other }
{
    one == other
}

fn is_same_sender_mode(one: SenderSettleMode, other: SenderSettleMode) -> bool
    ensures { result ≡ law.is_same_sender_mode one other }
{
    one == other
}

fn is_same_receiver_mode(one: ReceiverSettleMode, other: ReceiverSettleMode) -> bool
    ensures { result ≡ law.is_same_receiver_mode one other }
{
    one == other
}

/// A consumer asks for an address that is made up for it (part 3, section 3.5.3).
fn has_dynamic_source(attach: &Attach) -> bool
    ensures { result ≡ law.has_dynamic_source (attach_fields attach.now) }
{
    match attach.source {
        Some(source) => attach.role == Role::Receiver && source.is_dynamic(),
        None => false,
    }
}

/// The octets are the number in decimal digits.
#[tactic(auto)]
fn is_decimal(octets: &[u8], number: u64) -> bool
    ensures { result ≡ bytes_eq octets.now (decimal number) }
{
    let Some((last, front)) = octets.split_last() else {
        return false;
    };
    if *last != b'0' + (number % 10) as u8 {
        return false;
    }
    if number < 10 {
        front.is_empty()
    } else {
        is_decimal(front, number / 10)
    }
}

/// The address is the one that is made up for an attach in this record.
fn is_dynamic_address(address: &[u8], number: u64) -> bool
    ensures { result ≡ bytes_eq address.now (codes "dyn/" ++ decimal number) }
{
    match address.strip_prefix(DYNAMIC) {
        Some(digits) => is_decimal(digits, number),
        None => false,
    }
}

/// A target without address, as an anonymous sender has it; a coordinator is none.
pub fn is_without_address(target: &Option<Target>) -> bool
    ensures { result ≡ is_some_and (option_map target_view target.now) law.is_without_address }
{
    match target {
        Some(Target::Terminus(terminus)) => terminus.address.is_none(),
        _ => false,
    }
}

/// The address for which a client's attach asks.
#[derive(Clone, Copy)]
pub enum AskedAddress<'a> {
    /// The one that its target or source names; empty where that is no text.
    Given(&'a [u8]),
    /// One that is made up, for the attach in this record.
    Made(u64),
}

/// What a client's attach asks for: the client's role on a link of this name, settle modes and address; or its fault.
#[derive(Clone, Copy)]
pub struct Asking<'a> {
    pub name: &'a str,
    pub role: Role,
    pub sender_mode: SenderSettleMode,
    pub receiver_mode: ReceiverSettleMode,
    pub address: AskedAddress<'a>,
    pub fault: Option<Fault>,
}

impl<'a> AskedAddress<'a> {
    ghost use Rattle.std.specs.Prelude.{◌≡◌, bytes_eq};
    ghost use Rattle.amqp_perf.specs.View.{attach_fields};
    ghost use Rattle.trace_events.specs.LinkClause.{asked_address};
    ghost use Rattle.trace_events.specs.View.{address_view};

    /// That of the attach in this record: a made up one for a dynamic source, else its target's or its source's.
    fn of(number: u64, theirs: &Attach<'a>) -> AskedAddress<'a>
        ensures { address_view result ≡ asked_address number (attach_fields theirs.now) }
    {
        if has_dynamic_source(theirs) {
            AskedAddress::Made(number)
        } else {
            AskedAddress::Given(address_at(theirs.role.other(), theirs))
        }
    }

    /// The address is this one.
    fn is(&self, address: &[u8]) -> bool
        ensures { result ≡ bytes_eq address.now (address_view self.now) }
    {
        match *self {
            AskedAddress::Given(asked) => address == asked,
            AskedAddress::Made(number) => is_dynamic_address(address, number),
        }
    }
}

impl<'a> Asking<'a> {
    ghost use Rattle.std.specs.Prelude.{◌≡◌};
    ghost use Rattle.amqp_perf.specs.View.{attach_fields};
    ghost use Rattle.trace_events.specs.LinkClause as law;
    ghost use Rattle.trace_events.specs.View.{asking_view, event_view};

    /// What the attach of this event asks for.
    pub fn of(event: &Event, theirs: &Attach<'a>) -> Asking<'a>
        ensures { asking_view result ≡ law.asked_by (event_view event.now) (attach_fields theirs.now) }
    {
        Asking {
            name: theirs.name,
            role: theirs.role,
            sender_mode: theirs.sender_mode(),
            receiver_mode: theirs.receiver_mode(),
            address: AskedAddress::of(event.number, theirs),
            fault: event.fault,
        }
    }

    /// When the router's receiver settles: at once from a producer; from a consumer as it asks.
    pub fn answering_receiver_mode(&self) -> ReceiverSettleMode
        ensures { result ≡ law.answering_receiver_mode self.now.receiver_mode self.now.role }
    {
        match self.role {
            Role::Sender => ReceiverSettleMode::First,
            Role::Receiver => self.receiver_mode,
        }
    }

    /// The answer has the address that is asked for; none, where an anonymous sender asks for none.
    fn has_address(&self, ours: &Attach) -> bool
        ensures { result ≡ law.has_address (asking_view self.now).address (attach_fields ours.now) }
    {
        if self.address.is(&[]) {
            is_without_address(&ours.target)
        } else {
            self.address.is(address_at(ours.role, ours))
        }
    }

    /// The answer opens the link that is asked for.
    fn is_accepted(&self, ours: &Attach) -> bool
        ensures { result ≡ law.accepts (asking_view self.now) (attach_fields ours.now) }
    {
        opens_link(ours)
            && self.has_address(ours)
            && is_same_sender_mode(ours.sender_mode(), self.sender_mode)
            && is_same_receiver_mode(ours.receiver_mode(), self.answering_receiver_mode())
    }

    /// By the fault of the client's attach.
    fn is_accepted_or_refused(&self, ours: &Attach) -> bool
        ensures { result ≡ law.accepts_or_refuses (asking_view self.now) (attach_fields ours.now) self.now.fault }
    {
        match self.fault {
            None => self.is_accepted(ours),
            Some(Fault::Refuse(_)) => ours.source.is_none() && ours.target.is_none(),
            Some(_) => false,
        }
    }

    /// The router's attach is an answer to it: it opens the link, or refuses it by the fault.
    pub fn is_answered(&self, ours: &Attach) -> bool
        ensures { result ≡ law.answers_one (attach_fields ours.now) (asking_view self.now) }
    {
        ours.name == self.name
            && is_same_role(ours.role, self.role.other())
            && self.is_accepted_or_refused(ours)
    }
}
