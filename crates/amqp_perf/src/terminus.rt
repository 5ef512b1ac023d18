//! The ends of a link: its source and its target (part 3, sections 3.5.3 and 3.5.4; part 4, section 4.5.1).

use crate::descriptor::{Descriptor, described_list};
use crate::fields::Fields;
use amqp_types::{Items, Value};

/// Where messages come from or go to.
#[derive(Clone, Copy, Debug, PartialEq, Eq)]
pub enum Address<'a> {
    Text(&'a str),
    /// The octets of an address that is no string.
    Other(&'a [u8]),
}

/// What a source and a target have in common.
#[derive(Clone, Copy, Debug, PartialEq, Eq)]
pub struct Terminus<'a> {
    pub address: Option<Address<'a>>,
    /// The address is to be made up by the one who is asked.
    pub dynamic: Option<bool>,
}

/// Where messages go to.
#[derive(Clone, Copy, Debug, PartialEq, Eq)]
pub enum Target<'a> {
    Terminus(Terminus<'a>),
    /// The coordinator of transactions.
    Coordinator,
}

/// How many fields a source has.
const SOURCE_FIELDS: usize = 11;

/// How many fields a target has.
const TARGET_FIELDS: usize = 7;

/// How many fields a coordinator has.
const COORDINATOR_FIELDS: usize = 1;

impl<'a> Address<'a> {
    ghost use Rattle.std.specs.Prelude.{◌≡◌, option_map};
    ghost use Rattle.amqp_types.specs.View.{view};
    ghost use Rattle.amqp_perf.specs.Nested.{address_in};
    ghost use Rattle.amqp_perf.specs.NestedViews.{address_view};
    ghost use Rattle.amqp_perf.specs.View.{seen_or_missing};

    /// The address that a field holds. Null is none.
    fn of_field(value: Option<Value<'a>>) -> Option<Address<'a>>
        ensures { option_map address_view result ≡ address_in (seen_or_missing value.entry) }
    {
        let value = value?;
        if value.is_null() {
            return None;
        }
        match value.as_str() {
            Some(text) => Some(Address::Text(text)),
            None => Some(Address::Other(value.raw())),
        }
    }
}

impl<'a> Terminus<'a> {
    ghost use Rattle.std.specs.Prelude.{◌≡◌, ◌≤◌, option_map, length};
    ghost use Rattle.amqp_types.specs.View.{view};
    ghost use Rattle.amqp_perf.specs.FieldsLeft.{fields_left};
    ghost use Rattle.amqp_perf.specs.Meaning.{flag};
    ghost use Rattle.amqp_perf.specs.Nested.{terminus_of, source_in};
    ghost use Rattle.amqp_perf.specs.NestedViews.{terminus_view};

    /// From the items of a list, where they are so many fields at most and the fifth is a flag.
    fn of_items(limit: usize, items: Items<'a>) -> Option<Terminus<'a>>
        ensures { option_map terminus_view result ≡ terminus_of limit (fields_left items.entry) }
    {
        if items.len() > limit {
            return None;
        }
        let mut fields = Fields::new(items);
        let address = Address::of_field(fields.next());
        fields.pass_over();
        fields.pass_over();
        fields.pass_over();
        let dynamic = fields.checked_boolean()?;
        Some(Terminus { address, dynamic })
    }

    /// The source that a value is.
    pub(crate) fn source(value: Value<'a>) -> Option<Terminus<'a>>
        ensures { option_map terminus_view result ≡ source_in (view value.entry) }
    {
        match described_list(value) {
            Some((Descriptor::Source, items)) => Terminus::of_items(SOURCE_FIELDS, items),
            _ => None,
        }
    }

    /// Whether the address is to be made up: not where the terminus doesn't say.
    pub fn is_dynamic(&self) -> bool
        ensures { result ≡ flag self.now.dynamic }
    {
        self.dynamic.unwrap_or(false)
    }
}

impl<'a> Target<'a> {
    ghost use Rattle.std.specs.Prelude.{◌≡◌, option_map};
    ghost use Rattle.amqp_types.specs.View.{view};
    ghost use Rattle.amqp_perf.specs.Nested.{target_in};
    ghost use Rattle.amqp_perf.specs.NestedViews.{target_view};

    /// The target that a value is.
    pub(crate) fn of_value(value: Value<'a>) -> Option<Target<'a>>
        ensures { option_map target_view result ≡ target_in (view value.entry) }
    {
        match described_list(value) {
            Some((Descriptor::Target, items)) => {
                Some(Target::Terminus(Terminus::of_items(TARGET_FIELDS, items)?))
            }
            Some((Descriptor::Coordinator, items)) if items.len() <= COORDINATOR_FIELDS => {
                Some(Target::Coordinator)
            }
            _ => None,
        }
    }
}
