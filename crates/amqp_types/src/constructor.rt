//! The constructor of an array's elements, which is read with the array.

ghost use Rattle.std.specs.Prelude.{◌≡◌, ◌<◌, ◌-◌, Some, IsTrue};
ghost use Rattle.std.specs.Option.{ForSome};
ghost use Rattle.std.specs.Prelude.{is_some};
ghost use Rattle.amqp_types.specs.Items.{is_value, form_of, constructor_in};
ghost use Rattle.flow_counts.specs.declared.profile.TheConstants.{MAX_DEPTH};

use crate::code::Code;

/// A descriptor in front of a constructor: part 1, 1.2.
#[derive(Clone, Copy)]
pub(crate) struct Tag<'a> {
    /// The octets of the descriptor.
    pub(crate) descriptor: &'a [u8],
    /// The octets of the constructor behind it.
    pub(crate) constructor: &'a [u8],
    ghost descriptor_read: { IsTrue (is_value descriptor.now) },
}

/// The constructor of an array's elements: any number of descriptors, and a format code.
#[derive(Clone, Copy)]
pub(crate) struct Constructor<'a> {
    /// Its octets.
    pub(crate) octets: &'a [u8],
    /// How many descriptors stand in front of the code.
    pub(crate) tags: usize,
    /// The format code behind the descriptors.
    pub(crate) code: Code,
    /// The first of the descriptors.
    pub(crate) tag: Option<Tag<'a>>,
    ghost shallow: { tags < MAX_DEPTH },
    ghost inner: { ForSome tag (λ t. form_of t.constructor.now ≡ Some (tags - 1, code)) },
}

/// The octets of a constructor, which were read before.
#[derive(Clone, Copy, Debug)]
pub(crate) struct Form<'a> {
    /// The octets.
    pub(crate) octets: &'a [u8],
    ghost read: { IsTrue (is_some (constructor_in octets.now)) },
}
