//! The address that a message is for: the field `to` of its properties (part 3 of the standard, section 3.2).

ghost use Rattle.std.specs.Prelude.{◌≡◌, List, ℕ, IfSome, Some, option_map};
ghost use Rattle.std.specs.Option.{option_copied};
ghost use Rattle.amqp_types.specs.View.{view};
ghost use Rattle.amqp_types.specs.Reading.{seen_at};
ghost use Rattle.flow_counts.specs.declared.profile.TheConstants.{MAX_DEPTH};
ghost use Rattle.amqp_perf.specs.FieldsLeft.{fields_left};
ghost use Rattle.amqp_perf.specs.Message.{section_of_code, section_of_name, section_named, section_in, section_read, address_in_properties, to_of, IsFor};

use crate::fields::Fields;
use amqp_types::{Items, Value};
use flow_counts::MAX_ADDRESS;

/// The sections of a message that are not its body (part 3, sections 3.2.1 to 3.2.4).
#[derive(Clone, Copy, Debug, PartialEq, Eq)]
pub(crate) enum Section {
    Header,
    DeliveryAnnotations,
    MessageAnnotations,
    Properties,
}

impl Section {
    /// The section that a descriptor names which is a number.
    #[tactic(auto, unfolding(crate::specs::Message::section_of_code))]
    fn of_code(code: u64) -> Option<Section>
        ensures { result ≡ section_of_code code }
    {
        match code {
            0x70 => Some(Section::Header),
            0x71 => Some(Section::DeliveryAnnotations),
            0x72 => Some(Section::MessageAnnotations),
            0x73 => Some(Section::Properties),
            _ => None,
        }
    }

    /// The section that a descriptor names which is a symbol.
    #[tactic(auto, unfolding(crate::specs::Message::section_of_name))]
    fn of_name(name: &str) -> Option<Section>
        ensures { result ≡ section_of_name name.now }
    {
        match name {
            "amqp:header:list" => Some(Section::Header),
            "amqp:delivery-annotations:map" => Some(Section::DeliveryAnnotations),
            "amqp:message-annotations:map" => Some(Section::MessageAnnotations),
            "amqp:properties:list" => Some(Section::Properties),
            _ => None,
        }
    }

    /// The section that a value names which is a descriptor.
    fn of(value: Value) -> Option<Section>
        ensures { result ≡ section_named (view value.entry).part }
    {
        match value.as_ulong() {
            Some(code) => Section::of_code(code),
            None => Section::of_name(value.as_symbol()?),
        }
    }
}

/// The items of the properties, where a value is these; none where it is a section that is passed over.
fn section_in(value: Value<'_>) -> Option<Option<Items<'_>>>
    ensures { option_map (option_map fields_left) result ≡ section_in (view value.entry).part }
{
    let section = Section::of(value.descriptor()?)?;
    let described = value.described()?;
    match section {
        Section::Header | Section::DeliveryAnnotations | Section::MessageAnnotations => Some(None),
        Section::Properties => Some(Some(described.as_list()?)),
    }
}

/// What the section at the front says, and the octets behind it.
fn read_section(octets: &[u8]) -> Option<(Option<Items<'_>>, &[u8])>
    ensures { option_map (λ x. (option_map fields_left x.0, x.1.now)) result ≡ section_read (seen_at MAX_DEPTH 0 octets.now) }
{
    match Value::read(octets) {
        Ok((value, rest)) => Some((section_in(value)?, rest)),
        Err(_) => None,
    }
}

/// The third of the properties, where it is an address.
fn address_in(properties: Items<'_>) -> Option<&str>
    ensures { option_copied result ≡ address_in_properties (fields_left properties.entry) }
{
    let mut fields = Fields::new(properties);
    fields.pass_over();
    fields.pass_over();
    let to = fields.text()?;
    if to.is_empty() || to.len() > MAX_ADDRESS {
        return None;
    }
    Some(to)
}

/// The address in the properties, behind as many sections that are passed over as there are octets.
fn find_address(payload: &[u8]) -> Option<&str>
    ensures { option_copied result ≡ to_of payload.now }
{
    let mut octets = payload;
    for _ in 0..payload.len() {
        match read_section(octets)? {
            (Some(properties), _) => return address_in(properties),
            (None, rest) => octets = rest,
        }
    }
    None
}

/// The address that a message is for: the field `to` of its properties, on which it stays. A header and annotations
/// in front of the properties are passed over by their descriptors, whatever they describe, in any order and number;
/// what is behind the properties is not read.
///
/// `None` where there is no such field, it is no string of 1 to `MAX_ADDRESS` octets, or what is in front of it is
/// anything else.
pub fn message_to(payload: &[u8]) -> Option<&str>
    // What is lent is the address in properties that only sections stand in front of which are passed over.
    ensures found { IfSome result (λ to. IsFor payload.now to.now) }
    // Such an address is lent, however many sections stand in front of it and whatever is behind it.
    ensures only { (to : List ℕ) → IsFor payload.now to → option_copied result ≡ Some to }
    // The answer, also where there is none.
    ensures exact { option_copied result ≡ to_of payload.now }
{
    find_address(payload)
}
