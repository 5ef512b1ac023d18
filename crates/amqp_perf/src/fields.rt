//! The items of a list as fields: checked against a table, and taken one after the other.

use crate::attach::{ReceiverSettleMode, SenderSettleMode};
use crate::fault::PerfFault;
use crate::state::State;
use crate::table::{Field, FieldType};
use crate::terminus::{Target, Terminus};
use amqp_types::{Items, Value};
use std::marker::Model;

/// The fields of a described list that are left, in order. Behind the last one all others count as null.
#[derive(Drop)]
pub struct Fields<'a> {
    items: Items<'a>,
}

impl<'a> Model for Fields<'a> {
    ghost use Rattle.std.specs.Prelude.{List};
    ghost use Rattle.amqp_types.specs.Part.{Seen};
    ghost use Rattle.amqp_perf.specs.FieldsLeft.{fields_left};

    ghost Value = { List Seen };

    ghost view = { λ fields. fields_left fields.items };
}

impl<'a> Fields<'a> {
    ghost use Rattle.std.specs.Prelude.{◌≡◌, option_map, Some, None, ◌||◌, is_some, if◌then◌else◌};
    ghost use Rattle.std.specs.Option.{option_copied};
    ghost use Rattle.amqp_types.specs.Typed.{says_null, boolean_in, ubyte_in, binary_in, str_in, symbol_in, array_in};
    ghost use Rattle.amqp_perf.specs.FieldPlaces.{first, others};
    ghost use Rattle.amqp_perf.specs.FieldsLeft.{fields_left};
    ghost use Rattle.amqp_perf.specs.Fields.{first_fault};
    ghost use Rattle.amqp_perf.specs.View.{seen_or_missing, fault_in};

    /// The items of a list as its fields.
    pub fn new(items: Items<'a>) -> Fields<'a>
        ensures { result ≡ fields_left items.entry }
    {
        Fields { items }
    }

    /// The next field's value; none where it is missing.
    pub fn next(&mut self) -> Option<Value<'a>>
        ensures value { seen_or_missing result ≡ first self.old }
        ensures left { self.new ≡ others self.old }
    {
        self.items.next()
    }

    /// Takes a field that is passed over.
    pub(crate) fn pass_over(&mut self)
        ensures { self.new ≡ others self.old }
    {
        let _ = self.next();
    }

    /// A boolean that may be absent; none where the field is of another type.
    pub(crate) fn checked_boolean(&mut self) -> Option<Option<bool>>
        ensures value { result ≡ (if says_null (first self.old).part || is_some (boolean_in (first self.old).part)
            then Some (boolean_in (first self.old).part) else None) }
        ensures left { self.new ≡ others self.old }
    {
        match self.next() {
            Some(value) if !value.is_null() => Some(Some(value.as_bool()?)),
            _ => Some(None),
        }
    }

    /// The next field, if it is an ubyte. `None` where it is null, missing or of another type; it is taken then too.
    pub fn ubyte(&mut self) -> Option<u8>
        ensures value { result ≡ ubyte_in (first self.old).part }
        ensures left { self.new ≡ others self.old }
    {
        self.next()?.as_ubyte()
    }

    /// The next field, if it is a binary. `None` where it is null, missing or of another type; it is taken then too.
    pub fn binary(&mut self) -> Option<&'a [u8]>
        ensures value { option_copied result ≡ binary_in (first self.old).part }
        ensures left { self.new ≡ others self.old }
    {
        self.next()?.as_binary()
    }

    /// The next field, if it is a string. `None` where it is null, missing or of another type; it is taken then too.
    pub fn text(&mut self) -> Option<&'a str>
        ensures value { option_copied result ≡ str_in (first self.old).part }
        ensures left { self.new ≡ others self.old }
    {
        self.next()?.as_str()
    }

    /// The next field, if it is a symbol. `None` where it is null, missing or of another type; it is taken then too.
    pub fn symbol(&mut self) -> Option<&'a str>
        ensures value { option_copied result ≡ symbol_in (first self.old).part }
        ensures left { self.new ≡ others self.old }
    {
        self.next()?.as_symbol()
    }

    /// The elements of the next field, if it is an array. `None` where it is null, missing or of another type; it is taken then
    /// too.
    pub fn array(&mut self) -> Option<Items<'a>>
        ensures value { option_map fields_left result ≡ array_in (first self.old).part }
        ensures left { self.new ≡ others self.old }
    {
        self.next()?.as_array()
    }

    /// The fault of the lowest field that does not fit its place in the table.
    pub(crate) fn check(mut self, table: &[Field]) -> Result<(), PerfFault>
        ensures { fault_in result ≡ first_fault 1 table.now self.entry }
    {
        for (i, field) in table.iter().enumerate() {
            let value = self.next();
            field.check(i + 1, value)?;
        }
        Ok(())
    }
}

ghost use Rattle.std.specs.Prelude.{◌≡◌};
ghost use Rattle.amqp_perf.specs.FieldsLeft.{fields_left};
ghost use Rattle.amqp_perf.specs.Fields.{table_fault};
ghost use Rattle.amqp_perf.specs.Tables.{are_symbols};
ghost use Rattle.amqp_perf.specs.View.{fault_in};

/// Whether the items of a list fit the table of its fields.
///
/// # Errors
///
/// `TooManyFields` where the table has fewer, then the fault of the lowest field that is missing or of a wrong type.
pub fn check_fields(items: Items<'_>, table: &[Field]) -> Result<(), PerfFault>
    ensures { fault_in result ≡ table_fault table.now (fields_left items.entry) }
{
    if items.len() > table.len() {
        return Err(PerfFault::TooManyFields);
    }
    Fields::new(items).check(table)
}

/// Whether all that is left are symbols.
fn are_symbols(items: Items<'_>) -> bool
    ensures { result ≡ are_symbols (fields_left items.entry) }
{
    for value in items {
        if value.as_symbol().is_none() {
            return false;
        }
    }
    true
}

impl Field {
    ghost use Rattle.std.specs.Prelude.{◌≡◌};
    ghost use Rattle.amqp_perf.specs.Fields.{field_fault, fits_field};
    ghost use Rattle.amqp_perf.specs.View.{seen_or_missing, fault_in};

    /// Whether a value may stand in the field.
    #[inline(always)]
    pub(crate) fn fits(self, value: Option<Value>) -> bool
        ensures { result ≡ fits_field self (seen_or_missing value.entry) }
    {
        match value {
            Some(value) if !value.is_null() => self.field_type.accepts(value),
            _ => !self.is_mandatory,
        }
    }

    /// Whether a value may stand in the field, the n-th of its performative.
    fn check(&self, n: usize, value: Option<Value>) -> Result<(), PerfFault>
        ensures { fault_in result ≡ field_fault n self.now (seen_or_missing value.entry) }
    {
        match value {
            Some(value) if !value.is_null() => {
                if !self.field_type.accepts(value) {
                    return Err(PerfFault::WrongType(n));
                }
            }
            _ => {
                if self.is_mandatory {
                    return Err(PerfFault::MissingField(n));
                }
            }
        }
        Ok(())
    }
}

impl FieldType {
    ghost use Rattle.std.specs.Prelude.{◌≡◌};
    ghost use Rattle.amqp_types.specs.View.{view};
    ghost use Rattle.amqp_perf.specs.Tables.{accepts};

    /// Whether a value that is not null has this type.
    #[inline(always)]
    fn accepts(self, value: Value) -> bool
        ensures { result ≡ accepts self (view value.entry) }
    {
        match self {
            FieldType::Any => true,
            FieldType::Boolean => value.as_bool().is_some(),
            FieldType::Ubyte => value.as_ubyte().is_some(),
            FieldType::Ushort => value.as_ushort().is_some(),
            FieldType::Uint => value.as_uint().is_some(),
            FieldType::Binary => value.as_binary().is_some(),
            FieldType::Str => value.as_str().is_some(),
            FieldType::Symbol => value.as_symbol().is_some(),
            FieldType::Symbols => value.as_array().is_some_and(are_symbols),
            FieldType::SenderMode => value.as_ubyte().and_then(SenderSettleMode::of).is_some(),
            FieldType::ReceiverMode => value.as_ubyte().and_then(ReceiverSettleMode::of).is_some(),
            FieldType::State => State::of_value(value).is_some(),
            FieldType::Source => Terminus::source(value).is_some(),
            FieldType::Target => Target::of_value(value).is_some(),
        }
    }
}
