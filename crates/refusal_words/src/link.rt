//! Where the credit of a link comes from (part 2 of the standard, section 2.6.7).

ghost use Rattle.std.specs.Prelude.{◌≡◌};
ghost use Rattle.refusal_words.specs.Link.{credit_granted, drain_answered};

use amqp_perf::Flow;
use std::alloc::{AllocError, Global};

/// A flow of a client, which grants credit to a link.
#[derive(Clone, Copy, Debug)]
pub struct Credited {
    /// The number of its record.
    pub number: u64,
    pub delivery_count: Option<u32>,
    pub link_credit: u32,
    pub drain: bool,
}

/// What moves the credit of a link that lives.
#[derive(Clone, Copy, Debug)]
pub(crate) enum Change {
    /// The client grants credit.
    Credit(Credited),
    /// The router sends a transfer; another part of its delivery may follow.
    Transfer { has_more: bool },
    /// The router answers a drain, in the record of this number.
    Drain(u64),
}

/// Where the credit of a link comes from.
#[derive(Debug, Drop)]
pub struct LinkOrigin {
    /// The number of the record of the router's attach.
    pub number: u64,
    /// The name of the link.
    pub name: String,
    /// The last flow of the client with a link-credit, since that attach.
    pub credit: Option<Credited>,
    /// How many deliveries the router has begun on it since that flow, or else since the attach.
    pub begun: u64,
    /// The router's flow that has used all credit up since, by its record.
    pub drained: Option<u64>,
    // A part of a delivery to the client is still to be written.
    is_in_progress: bool,
}

impl LinkOrigin {
    ghost use Rattle.std.specs.Prelude.{◌≡◌, IfOk};
    ghost use Rattle.refusal_words.specs.Link.{fresh_link};
    ghost use Rattle.refusal_words.specs.Tables.{changed, link_told};

    /// Of a link of this name that the router attaches in the record of this number.
    pub(crate) fn new(alloc: Global, number: u64, name: &str) -> Result<LinkOrigin, AllocError>
        ensures { IfOk result (λ link. link_told link ≡ fresh_link number name.now) }
    {
        Ok(LinkOrigin {
            number,
            name: String::from_str(alloc, name)?,
            credit: None,
            begun: 0,
            drained: None,
            is_in_progress: false,
        })
    }

    /// What moves its credit.
    pub(crate) fn change(&mut self, change: Change)
        ensures { link_told self.new ≡ changed change (link_told self.old) }
    {
        match change {
            Change::Credit(credit) => {
                self.credit = Some(credit);
                self.begun = 0;
                self.drained = None;
            }
            Change::Transfer { has_more } => {
                if !self.is_in_progress {
                    self.begun = self.begun.saturating_add(1);
                }
                self.is_in_progress = has_more;
            }
            Change::Drain(number) => self.drained = Some(number),
        }
    }
}

/// The handle and the credit that a flow grants, in the record of this number.
pub(crate) fn credit_granted(number: u64, flow: &Flow) -> Option<(u32, Credited)>
    ensures { result ≡ credit_granted number flow.now }
{
    let handle = flow.handle?;
    let link_credit = flow.link_credit?;
    Some((
        handle,
        Credited {
            number,
            delivery_count: flow.delivery_count,
            link_credit,
            drain: flow.drains(),
        },
    ))
}

/// The handle whose drain a flow answers: no credit is left.
pub(crate) fn drain_answered(flow: &Flow) -> Option<u32>
    ensures { result ≡ drain_answered flow.now }
{
    if flow.drains() && flow.link_credit == Some(0) {
        flow.handle
    } else {
        None
    }
}
