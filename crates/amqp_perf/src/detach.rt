//! What a detach says: the end of a link (part 2, section 2.7.7).

use crate::checked::CheckedFields;

/// The last performative of a link.
#[derive(Clone, Copy, Debug, PartialEq, Eq)]
pub struct Detach<'a> {
    /// The link.
    pub handle: u32,
    /// The link is not to be taken up again.
    pub closed: Option<bool>,
    /// The condition of the error, where there is one.
    pub error: Option<&'a str>,
}

impl<'a> Detach<'a> {
    ghost use Rattle.std.specs.Prelude.{◌≡◌};
    ghost use Rattle.amqp_perf.specs.Meaning.{detach_of, flag};
    ghost use Rattle.amqp_perf.specs.View.{detach_fields};
    ghost use Rattle.amqp_perf.specs.Fields.{all_fit};
    ghost use Rattle.amqp_perf.specs.FieldsLeft.{fields_left};
    ghost use Rattle.amqp_perf.specs.Tables.{table_of};
    ghost use Rattle.amqp_perf.specs.declared.descriptor.PerformativeKind.TheVariants as PerformativeKind;

    /// From the fields of a detach, as far as they fit its table.
    #[tactic(auto, unfolding(crate::specs::Fields::all_fit))]
    pub(crate) fn of_fields(fields: &mut CheckedFields<'a>) -> Detach<'a>
        ensures says { detach_fields result ≡ detach_of (fields_left fields.old.items) }
        ensures fit { fields.new.fit ≡ all_fit fields.old.fit (table_of PerformativeKind.Detach) (fields_left fields.old.items) }
    {
        Detach {
            handle: fields.number(),
            closed: fields.boolean(),
            error: fields.condition(),
        }
    }

    /// Whether the link is not to be taken up again: not where the detach doesn't say.
    pub fn is_closed(&self) -> bool
        ensures { result ≡ flag self.now.closed }
    {
        self.closed.unwrap_or(false)
    }
}
