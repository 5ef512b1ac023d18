//! Reading a performative.

use crate::attach::Attach;
use crate::begin::Begin;
use crate::checked::CheckedFields;
use crate::descriptor::{Descriptor, PerformativeKind};
use crate::detach::Detach;
use crate::disposition::Disposition;
use crate::fault::PerfFault;
use crate::fields::Fields;
use crate::flow::Flow;
use crate::opening::Open;
use crate::table::table;
use crate::transfer::Transfer;
use crate::usual::read_usual;
use amqp_types::{Items, Value, read_described_list};

/// What a frame's body says.
#[derive(Clone, Copy, Debug, PartialEq, Eq)]
pub enum Performative<'a> {
    Open(Open<'a>),
    Begin(Begin),
    Attach(Attach<'a>),
    Flow(Flow),
    Transfer(Transfer<'a>),
    Disposition(Disposition<'a>),
    Detach(Detach<'a>),
    /// The end of a session, with the condition of its error.
    End(Option<&'a str>),
    /// The end of a connection, with the condition of its error.
    Close(Option<&'a str>),
}

impl<'a> Performative<'a> {
    ghost use Rattle.std.specs.Prelude.{◌≡◌, ◌++◌, List, ℕ, IfOk, Ok, option_map};
    ghost use Rattle.amqp_types.specs.View as values;
    ghost use Rattle.std.specs.Option.{option_copied};
    ghost use Rattle.amqp_perf.specs.Meaning.{Meaning, meaning_of, state_told, state_octets};
    ghost use Rattle.flow_counts.specs.Words.{Gives};
    ghost use Rattle.amqp_perf.specs.Descriptors.{named_list};
    ghost use Rattle.amqp_perf.specs.Reading.{performative_at, said_of, before};
    ghost use Rattle.amqp_perf.specs.Grammar.{IsFront};
    ghost use Rattle.amqp_perf.specs.Writing.{IfThere, IsWritableState};
    ghost use Rattle.amqp_perf.specs.View.{view};
    ghost use Rattle.amqp_perf.specs.Fields.{all_fit};
    ghost use Rattle.amqp_perf.specs.FieldsLeft.{fields_left};
    ghost use Rattle.amqp_perf.specs.Tables.{table_of};

    /// The performative at the front of these octets, and the octets behind it: of a transfer its payload.
    ///
    /// # Errors
    ///
    /// Where no front of the octets is a performative: the first fault, as `PerfFault` orders them.
    pub fn read(octets: &'a [u8]) -> Result<(Performative<'a>, &'a [u8]), PerfFault>
        // What is read is a performative at the front of the input.
        ensures found { IfOk result (λ x. IsFront octets.now (view x.0) x.1.now) }
        // A performative at the front of the input is read, whatever stands behind it.
        ensures only { (meaning : Meaning) (rest : List ℕ) → IsFront octets.now meaning rest
            → Gives {Y = Meaning × List ℕ} (λ x. (view x.0, x.1.now)) result (Ok (meaning, rest)) }
        // The state that a disposition tells can be written in another.
        ensures state { IfOk result (λ x. IfThere IsWritableState (state_told (view x.0))) }
        // Which fault it is.
        ensures exact { Gives (λ x. (view x.0, x.1.now)) result (performative_at octets.now) }
    {
        Performative::read_front(octets)
    }

    /// What `read` answers: the performative at the front of these octets, and the octets behind it. A transfer, a disposition
    /// or a flow in its usual form is read in one go, all else as a described list whose fields are checked by their table.
    ///
    /// # Errors
    ///
    /// Those of `read`.
    #[tactic(auto, unfolding(crate::specs::Reading::performative_at))]
    fn read_front(octets: &'a [u8]) -> Result<(Performative<'a>, &'a [u8]), PerfFault>
        ensures { Gives (λ x. (view x.0, x.1.now)) result (performative_at octets.now) }
    {
        if let Some((performative, rest)) = read_usual(octets) {
            return Ok((performative, rest));
        }
        match read_described_list(octets) {
            Ok((value, rest)) => Performative::of_value(value, rest),
            Err(fault) => Err(PerfFault::Value(fault)),
        }
    }

    /// What a value says as a performative that has this descriptor and these items if it is a described list, and the
    /// octets behind the value.
    #[tactic(auto, using(crate::proofs::Fits::none_at_fault))]
    fn of_value(
        value: Option<(Value<'a>, Items<'a>)>,
        rest: &'a [u8],
    ) -> Result<(Performative<'a>, &'a [u8]), PerfFault>
        ensures { Gives (λ x. (view x.0, x.1.now)) result (before rest.entry.now (said_of (named_list (option_map (λ x. (values.view x.0, fields_left x.1)) value.entry)))) }
    {
        let Some((descriptor, items)) = value else {
            return Err(PerfFault::NotPerformative);
        };
        let Some(Descriptor::Performative(kind)) = Descriptor::of(descriptor) else {
            return Err(PerfFault::NotPerformative);
        };
        let table = table(kind);
        if items.len() > table.len() {
            return Err(PerfFault::TooManyFields);
        }
        let mut fields = CheckedFields::new(items);
        let performative = Performative::of_fields(kind, &mut fields);
        if fields.fit() {
            return Ok((performative, rest));
        }
        Fields::new(items).check(table)?;
        Ok((performative, rest))
    }

    /// From the fields of a performative of this kind, as far as they fit its table.
    #[tactic(auto, unfolding(crate::specs::Fields::all_fit))]
    #[inline(always)]
    fn of_fields(kind: PerformativeKind, fields: &mut CheckedFields<'a>) -> Performative<'a>
        ensures says { view result ≡ meaning_of kind (fields_left fields.old.items) }
        ensures fit { fields.new.fit ≡ all_fit fields.old.fit (table_of kind) (fields_left fields.old.items) }
    {
        match kind {
            PerformativeKind::Open => Performative::Open(Open::of_fields(fields)),
            PerformativeKind::Begin => Performative::Begin(Begin::of_fields(fields)),
            PerformativeKind::Attach => Performative::Attach(Attach::of_fields(fields)),
            PerformativeKind::Flow => Performative::Flow(Flow::of_fields(fields)),
            PerformativeKind::Transfer => Performative::Transfer(Transfer::of_fields(fields)),
            PerformativeKind::Disposition => {
                Performative::Disposition(Disposition::of_fields(fields))
            }
            PerformativeKind::Detach => Performative::Detach(Detach::of_fields(fields)),
            PerformativeKind::End => Performative::End(fields.condition()),
            PerformativeKind::Close => Performative::Close(fields.condition()),
        }
    }

    /// The octets of the state that a disposition tells. `None` where it tells none, and of any other performative.
    pub fn state_raw(&self) -> Option<&'a [u8]>
        ensures { option_copied result ≡ state_octets (view self.now) }
    {
        match self {
            Performative::Disposition(disposition) => Some(disposition.state?.raw()),
            _ => None,
        }
    }
}
