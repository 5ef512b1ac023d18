//! The descriptors of performatives and of what is nested in them (part 2, sections 2.7 and 2.8; part 3; part 4).

ghost use Rattle.std.specs.Prelude.{◌≡◌, option_map};
ghost use Rattle.amqp_types.specs.View.{view};
ghost use Rattle.amqp_perf.specs.Descriptors.{descriptor_of_code, descriptor_of_name, descriptor_named, described_list};
ghost use Rattle.amqp_perf.specs.FieldsLeft.{fields_left};
ghost use Rattle.amqp_perf.specs.Nested.{outcome_named};

use amqp_types::{Items, Value};

/// What a performative is.
#[derive(Clone, Copy, Debug, PartialEq, Eq)]
pub enum PerformativeKind {
    Open,
    Begin,
    Attach,
    Flow,
    Transfer,
    Disposition,
    Detach,
    End,
    Close,
}

/// How a delivery ended: part 3, section 3.4.
#[derive(Clone, Copy, Debug, PartialEq, Eq)]
pub enum Outcome {
    Accepted,
    Rejected,
    Released,
    Modified,
}

/// What a descriptor names.
#[derive(Clone, Copy, Debug, PartialEq, Eq)]
pub(crate) enum Descriptor {
    Performative(PerformativeKind),
    Error,
    Outcome(Outcome),
    Source,
    Target,
    Coordinator,
}

impl Outcome {
    /// The outcome that a descriptor names which is a number.
    #[inline(always)]
    pub(crate) fn of_code(code: u64) -> Option<Outcome>
        ensures { result ≡ outcome_named (descriptor_of_code code) }
    {
        match Descriptor::of_code(code) {
            Some(Descriptor::Outcome(outcome)) => Some(outcome),
            _ => None,
        }
    }
}

impl Descriptor {
    /// What a descriptor that is a number names.
    #[tactic(auto, unfolding(crate::specs::Descriptors::descriptor_of_code))]
    fn of_code(code: u64) -> Option<Descriptor>
        ensures { result ≡ descriptor_of_code code }
    {
        let descriptor = match code {
            0x10 => Descriptor::Performative(PerformativeKind::Open),
            0x11 => Descriptor::Performative(PerformativeKind::Begin),
            0x12 => Descriptor::Performative(PerformativeKind::Attach),
            0x13 => Descriptor::Performative(PerformativeKind::Flow),
            0x14 => Descriptor::Performative(PerformativeKind::Transfer),
            0x15 => Descriptor::Performative(PerformativeKind::Disposition),
            0x16 => Descriptor::Performative(PerformativeKind::Detach),
            0x17 => Descriptor::Performative(PerformativeKind::End),
            0x18 => Descriptor::Performative(PerformativeKind::Close),
            0x1D => Descriptor::Error,
            0x24 => Descriptor::Outcome(Outcome::Accepted),
            0x25 => Descriptor::Outcome(Outcome::Rejected),
            0x26 => Descriptor::Outcome(Outcome::Released),
            0x27 => Descriptor::Outcome(Outcome::Modified),
            0x28 => Descriptor::Source,
            0x29 => Descriptor::Target,
            0x30 => Descriptor::Coordinator,
            _ => return None,
        };
        Some(descriptor)
    }

    /// What a descriptor that is a symbol names.
    #[tactic(auto, unfolding(crate::specs::Descriptors::descriptor_of_name))]
    fn of_name(name: &str) -> Option<Descriptor>
        ensures { result ≡ descriptor_of_name name.now }
    {
        let descriptor = match name {
            "amqp:open:list" => Descriptor::Performative(PerformativeKind::Open),
            "amqp:begin:list" => Descriptor::Performative(PerformativeKind::Begin),
            "amqp:attach:list" => Descriptor::Performative(PerformativeKind::Attach),
            "amqp:flow:list" => Descriptor::Performative(PerformativeKind::Flow),
            "amqp:transfer:list" => Descriptor::Performative(PerformativeKind::Transfer),
            "amqp:disposition:list" => Descriptor::Performative(PerformativeKind::Disposition),
            "amqp:detach:list" => Descriptor::Performative(PerformativeKind::Detach),
            "amqp:end:list" => Descriptor::Performative(PerformativeKind::End),
            "amqp:close:list" => Descriptor::Performative(PerformativeKind::Close),
            "amqp:error:list" => Descriptor::Error,
            "amqp:accepted:list" => Descriptor::Outcome(Outcome::Accepted),
            "amqp:rejected:list" => Descriptor::Outcome(Outcome::Rejected),
            "amqp:released:list" => Descriptor::Outcome(Outcome::Released),
            "amqp:modified:list" => Descriptor::Outcome(Outcome::Modified),
            "amqp:source:list" => Descriptor::Source,
            "amqp:target:list" => Descriptor::Target,
            "amqp:coordinator:list" => Descriptor::Coordinator,
            _ => return None,
        };
        Some(descriptor)
    }

    /// What a value names that is a descriptor.
    pub(crate) fn of(value: Value) -> Option<Descriptor>
        ensures { result ≡ descriptor_named (view value.entry).part }
    {
        match value.as_ulong() {
            Some(code) => Descriptor::of_code(code),
            None => Descriptor::of_name(value.as_symbol()?),
        }
    }
}

/// What the descriptor of a described list names, and the list's items.
pub(crate) fn described_list(value: Value<'_>) -> Option<(Descriptor, Items<'_>)>
    ensures { option_map (λ x. (x.0, fields_left x.1)) result ≡ described_list (view value.entry).part }
{
    let descriptor = Descriptor::of(value.descriptor()?)?;
    let items = value.described()?.as_list()?;
    Some((descriptor, items))
}
