//! What a state of a delivery tells beside its outcome: the error of a rejected one (part 3, 3.4.3: its first field is an error;
//! part 2, 2.8.14: the first field of an error is its condition), and what a modified one says of its delivery (part 3, 3.4.5).
//! And the name of an outcome.

ghost use Rattle.std.specs.Prelude.{◌≡◌, option_map};
ghost use Rattle.std.specs.Option.{option_copied};
ghost use Rattle.amqp_types.specs.Listed.{listed_in};
ghost use Rattle.amqp_types.specs.View.{items_left, view};
ghost use Rattle.amqp_perf.specs.NestedViews.{state_view};
ghost use Rattle.amqp_perf.specs.View.{seen_or_missing};
ghost use Rattle.capture_view.specs.State.{condition_in, condition_of, condition_told, is_error, modified_of, modified_told, outcome_name, says_true};

use amqp_perf::{Fields, Outcome, State};
use amqp_types::{Items, Value};

/// The condition of the error that a rejected state tells, where it tells one.
pub fn condition_told<'a>(state: &State<'a>) -> Option<&'a str>
    ensures { option_copied result ≡ condition_told (state_view state.now) }
{
    match state.outcome() {
        Some(Outcome::Rejected) => match Value::read(state.raw()) {
            Ok((value, _)) => condition_of(value.as_described_list()),
            Err(_) => None,
        },
        _ => None,
    }
}

/// The condition of the error that is the first field of this list.
fn condition_of<'a>(list: Option<(Value<'a>, Items<'a>)>) -> Option<&'a str>
    ensures { option_copied result ≡ condition_of (option_map (λ x. (view x.0, items_left x.1)) list.entry) }
{
    let (_, items) = list?;
    let error = Fields::new(items).next()?;
    condition_in(error.as_described_list())
}

/// The condition of an error that is this list.
fn condition_in<'a>(list: Option<(Value<'a>, Items<'a>)>) -> Option<&'a str>
    ensures { option_copied result ≡ condition_in (option_map (λ x. (view x.0, items_left x.1)) list.entry) }
{
    let (descriptor, items) = list?;
    if is_error(descriptor) {
        Fields::new(items).symbol()
    } else {
        None
    }
}

/// Whether this descriptor names an error.
fn is_error(descriptor: Value<'_>) -> bool
    ensures { result ≡ is_error (view descriptor.entry).part }
{
    match descriptor.as_ulong() {
        Some(code) => code == 0x1D,
        None => match descriptor.as_symbol() {
            Some(name) => name == "amqp:error:list",
            None => false,
        },
    }
}

/// What a modified state says of its delivery.
#[derive(Clone, Copy, Debug, PartialEq, Eq)]
pub struct ModifiedTold {
    /// It failed.
    pub delivery_failed: bool,
    /// It is not to come to this consumer again.
    pub undeliverable_here: bool,
}

/// What a modified state says of its delivery; none of any other state.
pub fn modified_told(state: &State<'_>) -> Option<ModifiedTold>
    ensures { result ≡ modified_told (state_view state.now) }
{
    match state.outcome() {
        Some(Outcome::Modified) => match Value::read(state.raw()) {
            Ok((value, _)) => modified_of(value.as_described_list()),
            Err(_) => None,
        },
        _ => None,
    }
}

/// The same of its list.
fn modified_of(list: Option<(Value<'_>, Items<'_>)>) -> Option<ModifiedTold>
    ensures { result ≡ modified_of (option_map (λ x. (view x.0, items_left x.1)) list.entry) }
{
    let (_, items) = list?;
    let mut fields = Fields::new(items);
    let delivery_failed = says_true(fields.next());
    let undeliverable_here = says_true(fields.next());
    Some(ModifiedTold {
        delivery_failed,
        undeliverable_here,
    })
}

/// Whether a field is a boolean that is true.
fn says_true(field: Option<Value<'_>>) -> bool
    ensures { result ≡ says_true (seen_or_missing field.entry) }
{
    match field {
        Some(value) => value.as_bool().unwrap_or(false),
        None => false,
    }
}

/// The name of an outcome, as the standard writes it (part 3, 3.4).
pub fn outcome_name(outcome: Outcome) -> &'static str
    ensures { result.now ≡ outcome_name outcome }
{
    match outcome {
        Outcome::Accepted => "accepted",
        Outcome::Rejected => "rejected",
        Outcome::Released => "released",
        Outcome::Modified => "modified",
    }
}
