//! What a disposition says of some deliveries (part 2, section 2.7.6).

use crate::attach::Role;
use crate::checked::CheckedFields;
use crate::state::State;

/// A range of deliveries, and what became of them.
#[derive(Clone, Copy, Debug, PartialEq, Eq)]
pub struct Disposition<'a> {
    /// Which end of the links speaks.
    pub role: Role,
    /// The id of the first of the deliveries.
    pub first: u32,
    /// The id of the last of them.
    pub last: Option<u32>,
    /// The deliveries are settled.
    pub settled: Option<bool>,
    /// How the deliveries stand.
    pub state: Option<State<'a>>,
}

impl<'a> Disposition<'a> {
    ghost use Rattle.std.specs.Prelude.{◌≡◌};
    ghost use Rattle.amqp_perf.specs.Meaning.{disposition_of, flag, last_id};
    ghost use Rattle.amqp_perf.specs.View.{disposition_fields};
    ghost use Rattle.amqp_perf.specs.Fields.{all_fit};
    ghost use Rattle.amqp_perf.specs.FieldsLeft.{fields_left};
    ghost use Rattle.amqp_perf.specs.Tables.{table_of};
    ghost use Rattle.amqp_perf.specs.declared.descriptor.PerformativeKind.TheVariants as PerformativeKind;

    /// From the fields of a disposition, as far as they fit its table.
    #[tactic(auto, unfolding(crate::specs::Fields::all_fit))]
    pub(crate) fn of_fields(fields: &mut CheckedFields<'a>) -> Disposition<'a>
        ensures says { disposition_fields result ≡ disposition_of (fields_left fields.old.items) }
        ensures fit { fields.new.fit ≡ all_fit fields.old.fit (table_of PerformativeKind.Disposition) (fields_left fields.old.items) }
    {
        let role = fields.role();
        let first = fields.number();
        let last = fields.uint();
        let settled = fields.boolean();
        let state = fields.state();
        fields.pass_over();
        Disposition {
            role,
            first,
            last,
            settled,
            state,
        }
    }

    /// The id of the last of the deliveries: the first where the disposition doesn't say.
    pub fn last_id(&self) -> u32
        ensures { result ≡ last_id (disposition_fields self.now) }
    {
        self.last.unwrap_or(self.first)
    }

    /// Whether the deliveries are settled: not where the disposition doesn't say.
    pub fn is_settled(&self) -> bool
        ensures { result ≡ flag self.now.settled }
    {
        self.settled.unwrap_or(false)
    }
}
