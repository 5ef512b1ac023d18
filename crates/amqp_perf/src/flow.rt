//! What a flow says: the sender's ids and windows for its session, and for one link its credit (part 2, section
//! 2.7.4).

use crate::checked::CheckedFields;

/// The numbers of a session, and of one of its links.
#[derive(Clone, Copy, Debug, PartialEq, Eq)]
pub struct Flow {
    /// The id of the next transfer that the sender expects; absent before it has seen the begin.
    pub next_incoming_id: Option<u32>,
    /// How many transfers the sender can take from that id on.
    pub incoming_window: u32,
    /// The id of the next transfer that the sender will send.
    pub next_outgoing_id: u32,
    /// How many transfers the sender can send.
    pub outgoing_window: u32,
    /// The link, where the flow is of one.
    pub handle: Option<u32>,
    /// The count of deliveries that the link's sender has come to, as the flow's sender knows it.
    pub delivery_count: Option<u32>,
    /// How many more deliveries may begin from that count on.
    pub link_credit: Option<u32>,
    /// Credit that cannot be used is to be given up.
    pub drain: Option<bool>,
    /// An answer is wanted.
    pub echo: Option<bool>,
}

impl Flow {
    ghost use Rattle.std.specs.Prelude.{◌≡◌};
    ghost use Rattle.amqp_perf.specs.Meaning.{flow_of, flag};
    ghost use Rattle.amqp_perf.specs.Fields.{all_fit};
    ghost use Rattle.amqp_perf.specs.FieldsLeft.{fields_left};
    ghost use Rattle.amqp_perf.specs.Tables.{table_of};
    ghost use Rattle.amqp_perf.specs.declared.descriptor.PerformativeKind.TheVariants as PerformativeKind;

    /// From the fields of a flow, as far as they fit its table.
    #[tactic(auto, unfolding(crate::specs::Fields::all_fit))]
    pub(crate) fn of_fields(fields: &mut CheckedFields) -> Flow
        ensures says { result ≡ flow_of (fields_left fields.old.items) }
        ensures fit { fields.new.fit ≡ all_fit fields.old.fit (table_of PerformativeKind.Flow) (fields_left fields.old.items) }
    {
        let next_incoming_id = fields.uint();
        let incoming_window = fields.number();
        let next_outgoing_id = fields.number();
        let outgoing_window = fields.number();
        let handle = fields.uint();
        let delivery_count = fields.uint();
        let link_credit = fields.uint();
        fields.pass_over();
        let drain = fields.boolean();
        let echo = fields.boolean();
        fields.pass_over();
        Flow {
            next_incoming_id,
            incoming_window,
            next_outgoing_id,
            outgoing_window,
            handle,
            delivery_count,
            link_credit,
            drain,
            echo,
        }
    }

    /// Whether credit that cannot be used is to be given up: not where the flow doesn't say.
    pub fn drains(&self) -> bool
        ensures { result ≡ flag self.now.drain }
    {
        self.drain.unwrap_or(false)
    }

    /// Whether an answer is wanted: not where the flow doesn't say.
    pub fn wants_echo(&self) -> bool
        ensures { result ≡ flag self.now.echo }
    {
        self.echo.unwrap_or(false)
    }
}
