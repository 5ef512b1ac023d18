//! What an attach says: the end of a link, by its role, of the peer that writes it (part 2, section 2.7.3).

use crate::checked::CheckedFields;
use crate::terminus::{Target, Terminus};

/// Which end of a link speaks: part 2, section 2.8.1.
#[derive(Clone, Copy, Debug, PartialEq, Eq)]
pub enum Role {
    Sender,
    Receiver,
}

/// How the sender settles deliveries: part 2, section 2.8.2.
#[derive(Clone, Copy, Debug, PartialEq, Eq)]
pub enum SenderSettleMode {
    Unsettled = 0,
    Settled = 1,
    /// Some settled, some not.
    Mixed = 2,
}

/// When the receiver settles deliveries: part 2, section 2.8.3.
#[derive(Clone, Copy, Debug, PartialEq, Eq)]
pub enum ReceiverSettleMode {
    First = 0,
    Second = 1,
}

/// The first performative of a link.
#[derive(Clone, Copy, Debug, PartialEq, Eq)]
pub struct Attach<'a> {
    /// The link's name.
    pub name: &'a str,
    /// The link's number on its session, as the sender of the attach counts.
    pub handle: u32,
    pub role: Role,
    pub snd_settle_mode: Option<SenderSettleMode>,
    pub rcv_settle_mode: Option<ReceiverSettleMode>,
    pub source: Option<Terminus<'a>>,
    pub target: Option<Target<'a>>,
    /// The delivery-count from which the link starts. Where the role is sender the standard asks for it.
    pub initial_delivery_count: Option<u32>,
    /// The largest message that the sender of the attach takes, in octets, where it is an ulong.
    pub max_message_size: Option<u64>,
}

impl Role {
    ghost use Rattle.std.specs.Prelude.{◌≡◌};
    ghost use Rattle.amqp_perf.specs.Nested.{role_of};

    /// The role that a boolean stands for.
    pub(crate) fn of(is_receiver: bool) -> Role
        ensures { result ≡ role_of is_receiver }
    {
        if is_receiver {
            Role::Receiver
        } else {
            Role::Sender
        }
    }
}

impl SenderSettleMode {
    ghost use Rattle.std.specs.Prelude.{◌≡◌};
    ghost use Rattle.amqp_perf.specs.Nested.{sender_mode_of};

    /// The mode of a number, if it is one.
    pub(crate) fn of(number: u8) -> Option<SenderSettleMode>
        ensures { result ≡ sender_mode_of number }
    {
        match number {
            0 => Some(SenderSettleMode::Unsettled),
            1 => Some(SenderSettleMode::Settled),
            2 => Some(SenderSettleMode::Mixed),
            _ => None,
        }
    }
}

impl ReceiverSettleMode {
    ghost use Rattle.std.specs.Prelude.{◌≡◌};
    ghost use Rattle.amqp_perf.specs.Nested.{receiver_mode_of};

    /// The mode of a number, if it is one.
    pub(crate) fn of(number: u8) -> Option<ReceiverSettleMode>
        ensures { result ≡ receiver_mode_of number }
    {
        match number {
            0 => Some(ReceiverSettleMode::First),
            1 => Some(ReceiverSettleMode::Second),
            _ => None,
        }
    }
}

impl<'a> Attach<'a> {
    ghost use Rattle.std.specs.Prelude.{◌≡◌};
    ghost use Rattle.amqp_perf.specs.Meaning.{attach_of, sender_mode, receiver_mode};
    ghost use Rattle.amqp_perf.specs.View.{attach_fields};
    ghost use Rattle.amqp_perf.specs.Fields.{all_fit};
    ghost use Rattle.amqp_perf.specs.FieldsLeft.{fields_left};
    ghost use Rattle.amqp_perf.specs.Tables.{table_of};
    ghost use Rattle.amqp_perf.specs.declared.descriptor.PerformativeKind.TheVariants as PerformativeKind;

    /// From the fields of an attach, as far as they fit its table.
    #[tactic(auto, unfolding(crate::specs::Fields::all_fit))]
    pub(crate) fn of_fields(fields: &mut CheckedFields<'a>) -> Attach<'a>
        ensures says { attach_fields result ≡ attach_of (fields_left fields.old.items) }
        ensures fit { fields.new.fit ≡ all_fit fields.old.fit (table_of PerformativeKind.Attach) (fields_left fields.old.items) }
    {
        let name = fields.mandatory_text();
        let handle = fields.number();
        let role = fields.role();
        let snd_settle_mode = fields.sender_mode();
        let rcv_settle_mode = fields.receiver_mode();
        let source = fields.source();
        let target = fields.target();
        fields.pass_over();
        fields.pass_over();
        let initial_delivery_count = fields.uint();
        let max_message_size = fields.any_ulong();
        fields.pass_over();
        fields.pass_over();
        fields.pass_over();
        Attach {
            name,
            handle,
            role,
            snd_settle_mode,
            rcv_settle_mode,
            source,
            target,
            initial_delivery_count,
            max_message_size,
        }
    }

    /// How the sender settles: mixed where the attach doesn't say.
    pub fn sender_mode(&self) -> SenderSettleMode
        ensures { result ≡ sender_mode (attach_fields self.now) }
    {
        self.snd_settle_mode.unwrap_or(SenderSettleMode::Mixed)
    }

    /// When the receiver settles: first where the attach doesn't say.
    pub fn receiver_mode(&self) -> ReceiverSettleMode
        ensures { result ≡ receiver_mode (attach_fields self.now) }
    {
        self.rcv_settle_mode.unwrap_or(ReceiverSettleMode::First)
    }
}
