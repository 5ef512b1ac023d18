//! What a transfer says of the part of a delivery that stands behind it (part 2, section 2.7.5).

use crate::checked::CheckedFields;

/// A part of a delivery.
#[derive(Clone, Copy, Debug, PartialEq, Eq)]
pub struct Transfer<'a> {
    /// The link.
    pub handle: u32,
    /// The delivery's id on its session; of a later part it may be absent.
    pub delivery_id: Option<u32>,
    /// The delivery's name on its link; of a later part it may be absent.
    pub delivery_tag: Option<&'a [u8]>,
    /// How the message is encoded.
    pub message_format: Option<u32>,
    /// The delivery is settled by its sender.
    pub settled: Option<bool>,
    /// Another part follows.
    pub more: Option<bool>,
    /// The delivery was begun on an earlier link of this name.
    pub resume: Option<bool>,
    /// The delivery is given up, and this is its last part.
    pub aborted: Option<bool>,
}

impl<'a> Transfer<'a> {
    ghost use Rattle.std.specs.Prelude.{◌≡◌};
    ghost use Rattle.amqp_perf.specs.Meaning.{transfer_of, flag};
    ghost use Rattle.amqp_perf.specs.View.{transfer_fields};
    ghost use Rattle.amqp_perf.specs.Fields.{all_fit};
    ghost use Rattle.amqp_perf.specs.FieldsLeft.{fields_left};
    ghost use Rattle.amqp_perf.specs.Tables.{table_of};
    ghost use Rattle.amqp_perf.specs.declared.descriptor.PerformativeKind.TheVariants as PerformativeKind;

    /// From the fields of a transfer, as far as they fit its table.
    #[tactic(auto, unfolding(crate::specs::Fields::all_fit))]
    pub(crate) fn of_fields(fields: &mut CheckedFields<'a>) -> Transfer<'a>
        ensures says { transfer_fields result ≡ transfer_of (fields_left fields.old.items) }
        ensures fit { fields.new.fit ≡ all_fit fields.old.fit (table_of PerformativeKind.Transfer) (fields_left fields.old.items) }
    {
        let handle = fields.number();
        let delivery_id = fields.uint();
        let delivery_tag = fields.binary();
        let message_format = fields.uint();
        let settled = fields.boolean();
        let more = fields.boolean();
        fields.pass_over();
        fields.pass_over();
        let resume = fields.boolean();
        let aborted = fields.boolean();
        fields.pass_over();
        Transfer {
            handle,
            delivery_id,
            delivery_tag,
            message_format,
            settled,
            more,
            resume,
            aborted,
        }
    }

    /// Whether another part follows: not where the transfer doesn't say.
    pub fn has_more(&self) -> bool
        ensures { result ≡ flag self.now.more }
    {
        self.more.unwrap_or(false)
    }

    /// Whether the delivery was begun on an earlier link: not where the transfer doesn't say.
    pub fn is_resumed(&self) -> bool
        ensures { result ≡ flag self.now.resume }
    {
        self.resume.unwrap_or(false)
    }

    /// Whether the delivery is given up: not where the transfer doesn't say.
    pub fn is_aborted(&self) -> bool
        ensures { result ≡ flag self.now.aborted }
    {
        self.aborted.unwrap_or(false)
    }
}
