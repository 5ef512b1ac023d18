//! What an open says: the sender's limits for a connection (part 2, section 2.7.1).

use crate::checked::CheckedFields;

/// The first performative of a connection.
#[derive(Clone, Copy, Debug, PartialEq, Eq)]
pub struct Open<'a> {
    /// The name of the sender's container.
    pub container_id: &'a str,
    /// The largest frame that the sender takes, in octets.
    pub max_frame_size: Option<u32>,
    /// The highest channel that the sender takes, where it is an ushort.
    pub channel_max: Option<u16>,
    /// After how many milliseconds without a frame the sender gives the connection up.
    pub idle_time_out: Option<u32>,
}

impl<'a> Open<'a> {
    ghost use Rattle.std.specs.Prelude.{◌≡◌};
    ghost use Rattle.amqp_perf.specs.Meaning.{open_of, frame_limit};
    ghost use Rattle.amqp_perf.specs.View.{open_fields};
    ghost use Rattle.amqp_perf.specs.Fields.{all_fit};
    ghost use Rattle.amqp_perf.specs.FieldsLeft.{fields_left};
    ghost use Rattle.amqp_perf.specs.Tables.{table_of};
    ghost use Rattle.amqp_perf.specs.declared.descriptor.PerformativeKind.TheVariants as PerformativeKind;

    /// From the fields of an open, as far as they fit its table.
    #[tactic(auto, unfolding(crate::specs::Fields::all_fit))]
    pub(crate) fn of_fields(fields: &mut CheckedFields<'a>) -> Open<'a>
        ensures says { open_fields result ≡ open_of (fields_left fields.old.items) }
        ensures fit { fields.new.fit ≡ all_fit fields.old.fit (table_of PerformativeKind.Open) (fields_left fields.old.items) }
    {
        let container_id = fields.mandatory_text();
        fields.pass_over();
        let max_frame_size = fields.uint();
        let channel_max = fields.any_ushort();
        let idle_time_out = fields.uint();
        fields.pass_over();
        fields.pass_over();
        fields.pass_over();
        fields.pass_over();
        fields.pass_over();
        Open {
            container_id,
            max_frame_size,
            channel_max,
            idle_time_out,
        }
    }

    /// The largest frame that the sender takes, in octets: 4294967295 where it doesn't say.
    pub fn frame_limit(&self) -> u32
        ensures { result ≡ frame_limit (open_fields self.now) }
    {
        self.max_frame_size.unwrap_or(u32::MAX)
    }
}
