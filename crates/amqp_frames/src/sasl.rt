//! The frames of a SASL exchange, which stands in front of a connection, and how their bodies are read.

use amqp_perf::{Field, FieldType, Fields, PerfFault, check_fields};
use amqp_types::{Items, Value};

/// The code of an outcome where the client may go on (part 5, 5.3.3.6).
pub const SASL_OK: u8 = 0;

/// The code of an outcome where the client's mechanism or credentials are refused (part 5, 5.3.3.6).
pub const SASL_AUTH: u8 = 1;

/// The mechanism that asks for no credentials.
const ANONYMOUS: &str = "ANONYMOUS";

/// What a frame of a SASL exchange says.
#[derive(Clone, Copy, Debug, PartialEq, Eq)]
pub enum SaslFrame<'a> {
    /// Which mechanisms the server offers.
    Mechanisms {
        /// ANONYMOUS is among them.
        anonymous: bool,
    },
    /// Which of them the client has chosen.
    Init {
        mechanism: &'a str,
        initial_response: Option<&'a [u8]>,
        /// The host that the client wants to reach.
        hostname: Option<&'a str>,
    },
    /// How the exchange ended.
    Outcome {
        /// `SASL_OK`, or why the client may not go on.
        code: u8,
    },
}

/// What the descriptor of a SASL frame's list names.
#[derive(Clone, Copy, Debug, PartialEq, Eq)]
pub(crate) enum SaslKind {
    Mechanisms,
    Init,
    Outcome,
}

/// sasl-server-mechanisms.
static MECHANISMS: [Field; 1] = [Field {
    is_mandatory: true,
    field_type: FieldType::Symbols,
}];

/// mechanism, initial-response, hostname.
static INIT: [Field; 3] = [
    Field {
        is_mandatory: true,
        field_type: FieldType::Symbol,
    },
    Field {
        is_mandatory: false,
        field_type: FieldType::Binary,
    },
    Field {
        is_mandatory: false,
        field_type: FieldType::Str,
    },
];

/// code, additional-data, which is passed over.
static OUTCOME: [Field; 2] = [
    Field {
        is_mandatory: true,
        field_type: FieldType::Ubyte,
    },
    Field {
        is_mandatory: false,
        field_type: FieldType::Any,
    },
];

impl SaslKind {
    ghost use Rattle.std.specs.Prelude.{◌≡◌};
    ghost use Rattle.amqp_types.specs.View.{view};
    ghost use Rattle.amqp_frames.specs.Sasl.{kind_of_code, kind_of_name, kind_named, sasl_table};

    /// What a descriptor names that is a number.
    #[tactic(auto, unfolding(crate::specs::Sasl::kind_of_code))]
    fn of_code(code: u64) -> Option<SaslKind>
        ensures { result ≡ kind_of_code code }
    {
        match code {
            0x40 => Some(SaslKind::Mechanisms),
            0x41 => Some(SaslKind::Init),
            0x44 => Some(SaslKind::Outcome),
            _ => None,
        }
    }

    /// What a descriptor names that is a symbol.
    #[tactic(auto, unfolding(crate::specs::Sasl::kind_of_name))]
    fn of_name(name: &str) -> Option<SaslKind>
        ensures { result ≡ kind_of_name name.now }
    {
        match name {
            "amqp:sasl-mechanisms:list" => Some(SaslKind::Mechanisms),
            "amqp:sasl-init:list" => Some(SaslKind::Init),
            "amqp:sasl-outcome:list" => Some(SaslKind::Outcome),
            _ => None,
        }
    }

    /// What a value names that is a descriptor.
    fn of_descriptor(descriptor: Value<'_>) -> Option<SaslKind>
        ensures { result ≡ kind_named (view descriptor.entry).part }
    {
        match descriptor.as_ulong() {
            Some(code) => SaslKind::of_code(code),
            None => SaslKind::of_name(descriptor.as_symbol()?),
        }
    }

    /// The fields that a list of this kind may have.
    fn table(self) -> &'static [Field]
        ensures { result.now ≡ sasl_table self }
    {
        match self {
            SaslKind::Mechanisms => &MECHANISMS,
            SaslKind::Init => &INIT,
            SaslKind::Outcome => &OUTCOME,
        }
    }
}

ghost use Rattle.std.specs.Prelude.{◌≡◌, IfOk, Ok, option_map};
ghost use Rattle.amqp_types.specs.View as values;
ghost use Rattle.amqp_perf.specs.FieldsLeft.{fields_left};
ghost use Rattle.flow_counts.specs.Words.{Gives};
ghost use Rattle.amqp_frames.specs.Sasl.{Saying, saying_of, names_anonymous};
ghost use Rattle.amqp_frames.specs.SaslReading.{sasl_at, said, sasl_list};
ghost use Rattle.amqp_frames.specs.SaslGrammar.{IsSaslFront};
ghost use Rattle.amqp_frames.specs.SaslView.{sasl_view};

/// What the body of a SASL frame says. Octets behind it are passed over. It takes no memory.
///
/// # Errors
///
/// Where no front of the body is a list of the three kinds: the first fault, as `PerfFault` orders them.
/// `NotPerformative` stands for a value that is no list described as one of them.
pub fn sasl_read(body: &[u8]) -> Result<SaslFrame<'_>, PerfFault>
    // What is read stands at the front of the body.
    ensures found { IfOk result (λ frame. IsSaslFront body.now (sasl_view frame)) }
    // What stands at the front of the body is read.
    ensures only { (saying : Saying) → IsSaslFront body.now saying → Gives sasl_view result (Ok saying) }
    // Which fault it is.
    ensures exact { Gives sasl_view result (sasl_at body.now) }
{
    read_front(body)
}

#[tactic(auto, unfolding(crate::specs::SaslReading::sasl_at))]
fn read_front(body: &[u8]) -> Result<SaslFrame<'_>, PerfFault>
    ensures { Gives sasl_view result (sasl_at body.now) }
{
    match Value::read(body) {
        Ok((value, _)) => SaslFrame::of_value(value),
        Err(fault) => Err(PerfFault::Value(fault)),
    }
}

/// What the descriptor of a described list names, and the list's items.
fn sasl_list(value: Value<'_>) -> Option<(SaslKind, Items<'_>)>
    ensures { option_map (λ x. (x.0, fields_left x.1)) result ≡ sasl_list (values.view value.entry).part }
{
    let kind = SaslKind::of_descriptor(value.descriptor()?)?;
    let items = value.described()?.as_list()?;
    Some((kind, items))
}

/// Whether ANONYMOUS is among the mechanisms.
fn names_anonymous(mechanisms: Items<'_>) -> bool
    ensures { result ≡ names_anonymous (fields_left mechanisms.entry) }
{
    for mechanism in mechanisms {
        if mechanism.as_symbol() == Some(ANONYMOUS) {
            return true;
        }
    }
    false
}

impl<'a> SaslFrame<'a> {
    /// What a value says in a SASL frame.
    fn of_value(value: Value<'a>) -> Result<SaslFrame<'a>, PerfFault>
        ensures { Gives sasl_view result (said (values.view value.entry).part) }
    {
        let Some((kind, items)) = sasl_list(value) else {
            return Err(PerfFault::NotPerformative);
        };
        check_fields(items, kind.table())?;
        Ok(SaslFrame::of_fields(kind, Fields::new(items)))
    }

    /// From fields that fit the table of this kind.
    fn of_fields(kind: SaslKind, mut fields: Fields<'a>) -> SaslFrame<'a>
        ensures { sasl_view result ≡ saying_of kind fields.entry }
    {
        match kind {
            SaslKind::Mechanisms => SaslFrame::Mechanisms {
                anonymous: fields.array().is_some_and(names_anonymous),
            },
            SaslKind::Init => SaslFrame::Init {
                mechanism: fields.symbol().unwrap_or(""),
                initial_response: fields.binary(),
                hostname: fields.text(),
            },
            SaslKind::Outcome => SaslFrame::Outcome {
                code: fields.ubyte().unwrap_or(0),
            },
        }
    }
}
