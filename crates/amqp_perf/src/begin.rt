//! What a begin says: the sender's ids and windows for a session (part 2, section 2.7.2).

ghost use Rattle.std.specs.Prelude.{◌≡◌};
ghost use Rattle.amqp_perf.specs.Meaning.{begin_of};
ghost use Rattle.amqp_perf.specs.Fields.{all_fit};
ghost use Rattle.amqp_perf.specs.FieldsLeft.{fields_left};
ghost use Rattle.amqp_perf.specs.Tables.{table_of};
ghost use Rattle.amqp_perf.specs.declared.descriptor.PerformativeKind.TheVariants as PerformativeKind;

use crate::checked::CheckedFields;

/// The first performative of a session.
#[derive(Clone, Copy, Debug, PartialEq, Eq)]
pub struct Begin {
    /// Of an answer, the channel of the begin that it answers.
    pub remote_channel: Option<u16>,
    /// The id of the first transfer that the sender will send.
    pub next_outgoing_id: u32,
    /// How many transfers the sender can take.
    pub incoming_window: u32,
    /// How many transfers the sender can send.
    pub outgoing_window: u32,
    /// The highest handle that the sender takes, where it is a uint.
    pub handle_max: Option<u32>,
}

impl Begin {
    /// From the fields of a begin, as far as they fit its table.
    #[tactic(auto, unfolding(crate::specs::Fields::all_fit))]
    pub(crate) fn of_fields(fields: &mut CheckedFields) -> Begin
        ensures says { result ≡ begin_of (fields_left fields.old.items) }
        ensures fit { fields.new.fit ≡ all_fit fields.old.fit (table_of PerformativeKind.Begin) (fields_left fields.old.items) }
    {
        let remote_channel = fields.ushort();
        let next_outgoing_id = fields.number();
        let incoming_window = fields.number();
        let outgoing_window = fields.number();
        let handle_max = fields.any_uint();
        fields.pass_over();
        fields.pass_over();
        fields.pass_over();
        Begin {
            remote_channel,
            next_outgoing_id,
            incoming_window,
            outgoing_window,
            handle_max,
        }
    }
}
