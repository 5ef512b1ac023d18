//! Octets, names and flags as they are printed.

use amqp_perf::{ReceiverSettleMode, Role, SenderSettleMode};
use capture_view::outcome_name;
use pairing_cert::{Note, Why};
use refusal_facts::{AskedAddress, Told};
use std::{fmt, str};

/// The most octets of a state that are printed.
const MOST_OCTETS: usize = 32;

/// A text in quotes; octets that are none, in hexadecimal.
#[derive(Clone, Copy)]
pub(crate) struct Quoted<'a>(pub &'a [u8]);

impl fmt::Display for Quoted<'_> {
    fn fmt<W: fmt::Write>(&self, f: &mut fmt::Formatter<W>) -> fmt::Result {
        match str::from_utf8(self.0) {
            Ok(text) => write!(f, "{text:?}"),
            Err(_) => write!(f, "the octets {}", Hex(self.0)),
        }
    }
}

/// An address, if there is one.
#[derive(Clone, Copy)]
pub(crate) struct OrNoAddress<'a>(pub &'a [u8]);

impl fmt::Display for OrNoAddress<'_> {
    fn fmt<W: fmt::Write>(&self, f: &mut fmt::Formatter<W>) -> fmt::Result {
        if self.0.is_empty() {
            write!(f, "none")
        } else {
            write!(f, "{}", Quoted(self.0))
        }
    }
}

/// The address of a link, if it has one.
#[derive(Clone, Copy)]
pub(crate) struct Addressed<'a>(pub &'a [u8]);

impl fmt::Display for Addressed<'_> {
    fn fmt<W: fmt::Write>(&self, f: &mut fmt::Formatter<W>) -> fmt::Result {
        if self.0.is_empty() {
            write!(f, "without address")
        } else {
            write!(f, "address {}", Quoted(self.0))
        }
    }
}

/// Octets in hexadecimal, the first ones alone where there are many.
#[derive(Clone, Copy)]
pub(crate) struct Hex<'a>(pub &'a [u8]);

impl fmt::Display for Hex<'_> {
    fn fmt<W: fmt::Write>(&self, f: &mut fmt::Formatter<W>) -> fmt::Result {
        for octet in self.0.iter().take(MOST_OCTETS) {
            write!(f, "{octet:02x}")?;
        }
        match self.0.len().checked_sub(MOST_OCTETS) {
            Some(0) | None => Ok(()),
            Some(more) => write!(f, ".. and {more} more"),
        }
    }
}

/// A number that may be absent.
#[derive(Clone, Copy)]
pub(crate) struct OrNone(pub Option<u32>);

impl fmt::Display for OrNone {
    fn fmt<W: fmt::Write>(&self, f: &mut fmt::Formatter<W>) -> fmt::Result {
        match self.0 {
            Some(number) => write!(f, "{number}"),
            None => write!(f, "none"),
        }
    }
}

/// What a note says.
#[derive(Clone, Copy)]
pub(crate) struct Noted(pub Note);

impl fmt::Display for Noted {
    fn fmt<W: fmt::Write>(&self, f: &mut fmt::Formatter<W>) -> fmt::Result {
        match self.0 {
            Note::None => write!(f, "none"),
            Note::Pair(number) => write!(f, "the delivery of record {number}"),
            Note::Told(why) => write!(f, "row {}", row_name(why)),
        }
    }
}

/// The letter of a row, with what it is for.
pub(crate) fn row_name(why: Why) -> &'static str {
    match why {
        Why::C => "C (the consumer's decision, with its state)",
        Why::Z => "Z (the consumer's decision, shortened)",
        Why::S => "S (sent on a pre-settled link)",
        Why::L => "L (the consumer's link is over)",
        Why::N => "N (no consumer)",
        Why::M => "M (multicast)",
    }
}

pub(crate) fn role_name(role: Role) -> &'static str {
    match role {
        Role::Sender => "sender",
        Role::Receiver => "receiver",
    }
}

pub(crate) fn sender_mode_name(mode: SenderSettleMode) -> &'static str {
    match mode {
        SenderSettleMode::Unsettled => "unsettled",
        SenderSettleMode::Settled => "settled",
        SenderSettleMode::Mixed => "mixed",
    }
}

pub(crate) fn receiver_mode_name(mode: ReceiverSettleMode) -> &'static str {
    match mode {
        ReceiverSettleMode::First => "first",
        ReceiverSettleMode::Second => "second",
    }
}

/// A state that is to be told.
#[derive(Clone, Copy)]
pub(crate) struct StateToTell<'a>(pub Told<'a>);

impl fmt::Display for StateToTell<'_> {
    fn fmt<W: fmt::Write>(&self, f: &mut fmt::Formatter<W>) -> fmt::Result {
        match self.0 {
            Told::Nothing => write!(f, "none"),
            Told::Bare(outcome) => write!(f, "{} without fields", outcome_name(outcome)),
            Told::DeliveryFailed => write!(f, "modified with delivery-failed"),
            Told::Octets(octets) => write!(f, "the octets {}", Hex(octets)),
        }
    }
}

/// An address that a client asks for.
#[derive(Clone, Copy)]
pub(crate) struct Asked<'a>(pub AskedAddress<'a>);

impl fmt::Display for Asked<'_> {
    fn fmt<W: fmt::Write>(&self, f: &mut fmt::Formatter<W>) -> fmt::Result {
        match self.0 {
            AskedAddress::Given(octets) => write!(f, "{}", Quoted(octets)),
            AskedAddress::Made(number) => write!(f, "\"dyn/{number}\""),
        }
    }
}

/// A text that is printed where this is so.
pub(crate) fn where_so(is_so: bool, text: &'static str) -> &'static str {
    if is_so { text } else { "" }
}

/// How a delivery goes to consumers.
pub(crate) fn kind_name(is_multicast: bool) -> &'static str {
    if is_multicast { "multicast" } else { "anycast" }
}

/// Octets and transfers: one or more.
pub(crate) fn plural(count: u64) -> &'static str {
    where_so(count != 1, "s")
}

/// Deliveries: one or more.
pub(crate) fn deliveries(count: u64) -> &'static str {
    if count == 1 { "delivery" } else { "deliveries" }
}

/// A flag of a performative.
pub(crate) fn flag_name(is_set: bool) -> &'static str {
    if is_set { "true" } else { "false" }
}
