//! A client's attach that is still to be answered.

ghost use Rattle.std.specs.Prelude.{◌≡◌, IfOk};
ghost use Rattle.amqp_perf.specs.View.{attach_fields};
ghost use Rattle.state_tables.specs.HeldAddress.{asked_octets};
ghost use Rattle.state_tables.specs.Links.{asks};
ghost use Rattle.trace_events.specs.View.{address_view, asking_view, event_view};

use amqp_perf::{Attach, ReceiverSettleMode, Role, SenderSettleMode};
use std::alloc::{AllocError, Global};
use std::marker::Model;
use trace_events::{AskedAddress, Asking, Event, Fault};

/// The address for which an attach asks.
#[doc(hidden)]
#[derive(Drop)]
pub enum HeldAddress {
    Given(Vec<u8>),
    /// One that is made up, for the attach in this record.
    Made(u64),
}

impl HeldAddress {
    fn new(alloc: Global, asked: &AskedAddress) -> Result<HeldAddress, AllocError>
        ensures { IfOk result (λ x. asked_octets x ≡ address_view asked.now) }
    {
        match *asked {
            AskedAddress::Given(octets) => Ok(HeldAddress::Given(Vec::from_slice(alloc, octets)?)),
            AskedAddress::Made(number) => Ok(HeldAddress::Made(number)),
        }
    }

    /// The address, lent.
    fn asked(&self) -> AskedAddress<'_>
        ensures { address_view result ≡ asked_octets self.now }
    {
        match self {
            HeldAddress::Given(octets) => AskedAddress::Given(octets),
            HeldAddress::Made(number) => AskedAddress::Made(*number),
        }
    }
}

/// What an attach asks for, kept until it is answered.
#[doc(hidden)]
#[derive(Drop)]
pub struct HeldAttach {
    name: String,
    role: Role,
    sender_mode: SenderSettleMode,
    receiver_mode: ReceiverSettleMode,
    address: HeldAddress,
    fault: Option<Fault>,
    first_count: u32,
}

impl Model for HeldAttach {
    ghost use Rattle.std.specs.String.{string_bytes};
    ghost use Rattle.state_tables.specs.HeldAddress.{asked_octets};
    ghost use Rattle.state_tables.specs.Links.{Asked};

    ghost Value = { Asked };

    ghost view = { λ x. record {
      asking = record {
        name = string_bytes x.name;
        role = x.role;
        sender_mode = x.sender_mode;
        receiver_mode = x.receiver_mode;
        address = asked_octets x.address;
        fault = x.fault;
      };
      first_count = x.first_count;
    } };
}

impl HeldAttach {
    /// What the attach of this event asks for.
    ///
    /// # Errors
    ///
    /// Memory was refused for its name or its address.
    pub(crate) fn new(
        alloc: Global,
        event: &Event,
        attach: &Attach,
    ) -> Result<HeldAttach, AllocError>
        ensures { IfOk result (λ x. x ≡ asks (event_view event.now) (attach_fields attach.now)) }
    {
        let asking = Asking::of(event, attach);
        Ok(HeldAttach {
            name: String::from_str(alloc, asking.name)?,
            role: asking.role,
            sender_mode: asking.sender_mode,
            receiver_mode: asking.receiver_mode,
            address: HeldAddress::new(alloc, &asking.address)?,
            fault: asking.fault,
            first_count: attach.initial_delivery_count.unwrap_or(0),
        })
    }

    /// What it asks for, lent.
    pub(crate) fn asking(&self) -> Asking<'_>
        ensures { asking_view result ≡ self.now.asking }
    {
        Asking {
            name: self.name.as_str(),
            role: self.role,
            sender_mode: self.sender_mode,
            receiver_mode: self.receiver_mode,
            address: self.address.asked(),
            fault: self.fault,
        }
    }

    /// Its initial-delivery-count, 0 where it has none.
    pub(crate) fn first_count(&self) -> u32
        ensures { result ≡ self.now.first_count }
    {
        self.first_count
    }
}
