//! The performatives that the router writes, by what each of them says (`specs/Router.antt`). All of them can be
//! written, where the texts that they repeat are not longer than a router takes them.

ghost use Rattle.std.specs.Prelude.{◌≡◌, ◌≤◌, ◌<◌, ◌+◌, ◌^◌, ℕ, List, length, option_map, Some};
ghost use Rattle.flow_counts.specs.declared.profile.TheConstants.{MAX_LINK_NAME, MAX_ADDRESS, MAX_DELIVERY_TAG};
ghost use Rattle.amqp_perf.specs.Meaning.{AnOpen, AnAttach, ATransfer, ADisposition, ADetach, AnEnd, AClose};
ghost use Rattle.amqp_perf.specs.Conditions.{condition_name};
ghost use Rattle.std.specs.Option.{option_copied};
ghost use Rattle.amqp_perf.specs.NestedViews.{state_view, terminus_view};
ghost use Rattle.amqp_perf.specs.View.{open_fields, attach_fields, transfer_fields, disposition_fields, detach_fields, view};
ghost use Rattle.amqp_perf.specs.Writing.{IsWritable, IsWritableState, IfThere};
ghost use Rattle.amqp_perf.specs.Router.{router_open, begin_answer, other_role, attach_to_producer, attach_to_consumer, attach_refused, source_at, detach_with, session_flow, link_flow, first_transfer, later_transfer, outcome_told, settling, bare_state, delivery_failed, FitsFrame};

use crate::attach::{Attach, ReceiverSettleMode, Role, SenderSettleMode};
use crate::begin::Begin;
use crate::condition::ErrorCondition;
use crate::descriptor::Outcome;
use crate::detach::Detach;
use crate::disposition::Disposition;
use crate::flow::Flow;
use crate::opening::Open;
use crate::performative::Performative;
use crate::state::State;
use crate::terminus::{Address, Target, Terminus};
use crate::transfer::Transfer;
use flow_counts::{
    CHANNEL_MAX, HANDLE_MAX, INCOMING_WINDOW, MAX_FRAME_SIZE, MAX_MESSAGE_SIZE, OUTGOING_WINDOW,
};

impl Open<'static> {
    /// The router's open.
    pub fn of_router() -> Open<'static>
        ensures says { open_fields result ≡ router_open }
        ensures writable { IsWritable (AnOpen router_open) }
    {
        Open {
            container_id: "amqp-router",
            max_frame_size: Some(MAX_FRAME_SIZE),
            channel_max: Some(CHANNEL_MAX),
            idle_time_out: None,
        }
    }
}

impl Begin {
    /// The answer to a begin on this channel.
    pub fn answering(channel: u16) -> Begin
        ensures { result ≡ begin_answer channel }
    {
        Begin {
            remote_channel: Some(channel),
            next_outgoing_id: 0,
            incoming_window: INCOMING_WINDOW,
            outgoing_window: OUTGOING_WINDOW,
            handle_max: Some(HANDLE_MAX),
        }
    }
}

impl Role {
    /// The other end of the link.
    pub fn other(self) -> Role
        ensures { result ≡ other_role self }
    {
        match self {
            Role::Sender => Role::Receiver,
            Role::Receiver => Role::Sender,
        }
    }
}

impl<'a> Terminus<'a> {
    /// A terminus with this address, made up where it is dynamic.
    fn at(address: &'a str, is_dynamic: bool) -> Terminus<'a>
        ensures { terminus_view result ≡ source_at address.now is_dynamic }
    {
        Terminus {
            address: Some(Address::Text(address)),
            dynamic: is_dynamic.then_some(true),
        }
    }
}

impl<'a> Attach<'a> {
    /// The answer to a producer's attach, for this address.
    pub fn to_producer(self, address: &'a str) -> Attach<'a>
        ensures says { attach_fields result ≡ attach_to_producer (attach_fields self.entry) address.now }
        ensures writable { length self.entry.name.now ≤ MAX_LINK_NAME → length address.now ≤ MAX_ADDRESS → IsWritable (AnAttach (attach_to_producer (attach_fields self.entry) address.now)) }
    {
        Attach {
            name: self.name,
            handle: self.handle,
            role: Role::Receiver,
            snd_settle_mode: Some(self.sender_mode()),
            rcv_settle_mode: Some(ReceiverSettleMode::First),
            source: Some(Terminus {
                address: None,
                dynamic: None,
            }),
            target: Some(Target::Terminus(Terminus::at(address, false))),
            initial_delivery_count: None,
            max_message_size: Some(MAX_MESSAGE_SIZE),
        }
    }

    /// The answer to a consumer's attach, for this address, where the router settles so.
    pub fn to_consumer(
        self,
        address: &'a str,
        is_dynamic: bool,
        mode: SenderSettleMode,
    ) -> Attach<'a>
        ensures says { attach_fields result ≡ attach_to_consumer (attach_fields self.entry) address.now is_dynamic mode }
        ensures writable { length self.entry.name.now ≤ MAX_LINK_NAME → length address.now ≤ MAX_ADDRESS
            → IsWritable (AnAttach (attach_to_consumer (attach_fields self.entry) address.now is_dynamic mode)) }
    {
        Attach {
            name: self.name,
            handle: self.handle,
            role: Role::Sender,
            snd_settle_mode: Some(mode),
            rcv_settle_mode: Some(self.receiver_mode()),
            source: Some(Terminus::at(address, is_dynamic)),
            target: Some(Target::Terminus(Terminus {
                address: None,
                dynamic: None,
            })),
            initial_delivery_count: Some(0),
            max_message_size: None,
        }
    }

    /// The answer to an attach that is refused.
    pub fn refused(self) -> Attach<'a>
        ensures says { attach_fields result ≡ attach_refused (attach_fields self.entry) }
        ensures writable { length self.entry.name.now ≤ MAX_LINK_NAME → IsWritable (AnAttach (attach_refused (attach_fields self.entry))) }
    {
        let role = self.role.other();
        Attach {
            name: self.name,
            handle: self.handle,
            role,
            snd_settle_mode: None,
            rcv_settle_mode: None,
            source: None,
            target: None,
            initial_delivery_count: match role {
                Role::Sender => Some(0),
                Role::Receiver => None,
            },
            max_message_size: None,
        }
    }
}

impl Detach<'static> {
    /// A detach of this handle.
    pub fn with(handle: u32, closed: bool, error: Option<ErrorCondition>) -> Detach<'static>
        ensures says { detach_fields result ≡ detach_with handle closed error }
        ensures writable { IsWritable (ADetach (detach_with handle closed error)) }
    {
        Detach {
            handle,
            closed: Some(closed),
            error: ErrorCondition::name_of(error),
        }
    }
}

impl ErrorCondition {
    /// The name of a condition, if there is one.
    fn name_of(error: Option<ErrorCondition>) -> Option<&'static str>
        ensures { option_copied result ≡ option_map condition_name error }
    {
        match error {
            Some(condition) => Some(condition.name()),
            None => None,
        }
    }
}

impl Flow {
    /// A flow that speaks of its session alone: the id of the client's next transfer, and of the router's own.
    pub fn of_session(next_incoming_id: u32, next_outgoing_id: u32) -> Flow
        ensures { result ≡ session_flow next_incoming_id next_outgoing_id }
    {
        Flow {
            next_incoming_id: Some(next_incoming_id),
            incoming_window: INCOMING_WINDOW,
            next_outgoing_id,
            outgoing_window: OUTGOING_WINDOW,
            handle: None,
            delivery_count: None,
            link_credit: None,
            drain: None,
            echo: None,
        }
    }

    /// The flow, said of a link too: its delivery-count, its credit, and whether it is draining. A drain answer is
    /// one with credit 0 of a link that is draining.
    pub fn of_link(self, handle: u32, delivery_count: u32, link_credit: u32, drains: bool) -> Flow
        ensures { result ≡ link_flow self handle delivery_count link_credit drains }
    {
        Flow {
            handle: Some(handle),
            delivery_count: Some(delivery_count),
            link_credit: Some(link_credit),
            drain: drains.then_some(true),
            echo: None,
            ..self
        }
    }
}

impl<'a> Transfer<'a> {
    /// The first transfer of a delivery.
    pub fn first(
        handle: u32,
        delivery_id: u32,
        delivery_tag: &'a [u8],
        message_format: u32,
        settled: bool,
        more: bool,
    ) -> Transfer<'a>
        ensures says { transfer_fields result ≡ first_transfer handle delivery_id delivery_tag.now message_format settled more }
        ensures writable { length delivery_tag.now ≤ MAX_DELIVERY_TAG → IsWritable (ATransfer (first_transfer handle delivery_id delivery_tag.now message_format settled more)) }
    {
        Transfer {
            handle,
            delivery_id: Some(delivery_id),
            delivery_tag: Some(delivery_tag),
            message_format: Some(message_format),
            settled: Some(settled),
            more: Some(more),
            resume: None,
            aborted: None,
        }
    }
}

impl Transfer<'static> {
    /// A later transfer of a delivery.
    pub fn later(handle: u32, more: bool) -> Transfer<'static>
        ensures says { transfer_fields result ≡ later_transfer handle more }
        ensures writable { IsWritable (ATransfer (later_transfer handle more)) }
    {
        Transfer {
            handle,
            delivery_id: None,
            delivery_tag: None,
            message_format: None,
            settled: None,
            more: Some(more),
            resume: None,
            aborted: None,
        }
    }
}

impl<'a> Disposition<'a> {
    /// The outcome of a delivery, told to its producer.
    pub fn outcome(delivery_id: u32, state: Option<State<'a>>) -> Disposition<'a>
        ensures says { disposition_fields result ≡ outcome_told delivery_id (option_map state_view state.entry) }
        ensures writable { IfThere IsWritableState (option_map state_view state.entry) → IfThere FitsFrame (option_map state_view state.entry)
            → IsWritable (ADisposition (outcome_told delivery_id (option_map state_view state.entry))) }
    {
        Disposition {
            role: Role::Receiver,
            first: delivery_id,
            last: None,
            settled: Some(true),
            state,
        }
    }
}

impl Disposition<'static> {
    /// That a delivery is settled, told to its consumer.
    pub fn settling(delivery_id: u32) -> Disposition<'static>
        ensures says { disposition_fields result ≡ settling delivery_id }
        ensures writable { IsWritable (ADisposition (settling delivery_id)) }
    {
        Disposition {
            role: Role::Sender,
            first: delivery_id,
            last: None,
            settled: Some(true),
            state: None,
        }
    }
}

impl State<'static> {
    /// An outcome without fields.
    pub fn of_outcome(outcome: Outcome) -> State<'static>
        ensures says { state_view result ≡ bare_state outcome }
        ensures writable { IsWritableState (bare_state outcome) }
    {
        let raw: &'static [u8] = match outcome {
            Outcome::Accepted => &[0x00, 0x53, 0x24, 0x45],
            Outcome::Rejected => &[0x00, 0x53, 0x25, 0x45],
            Outcome::Released => &[0x00, 0x53, 0x26, 0x45],
            Outcome::Modified => &[0x00, 0x53, 0x27, 0x45],
        };
        State {
            raw,
            outcome: Some(outcome),
        }
    }

    /// The outcome modified, with delivery-failed true.
    pub fn delivery_failed() -> State<'static>
        ensures says { state_view result ≡ delivery_failed }
        ensures writable { IsWritableState delivery_failed }
    {
        State {
            raw: &[0x00, 0x53, 0x27, 0xC0, 0x02, 0x01, 0x41],
            outcome: Some(Outcome::Modified),
        }
    }
}

impl Performative<'static> {
    /// The end of a session, with an error or without.
    pub fn end(error: Option<ErrorCondition>) -> Performative<'static>
        ensures says { view result ≡ AnEnd (option_map condition_name error) }
        ensures writable { IsWritable (AnEnd (option_map condition_name error)) }
    {
        Performative::End(ErrorCondition::name_of(error))
    }

    /// The end of a connection, with an error or without.
    pub fn close(error: Option<ErrorCondition>) -> Performative<'static>
        ensures says { view result ≡ AClose (option_map condition_name error) }
        ensures writable { IsWritable (AClose (option_map condition_name error)) }
    {
        Performative::Close(ErrorCondition::name_of(error))
    }
}
