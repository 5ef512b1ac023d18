//! A described value, whose parts were read with it.

ghost use Rattle.std.specs.Prelude.{IsTrue};
ghost use Rattle.amqp_types.specs.Items.{is_value, is_element};

/// A descriptor and the value that it describes: part 1, 1.1.2.
#[derive(Clone, Copy, Debug)]
pub(crate) struct Described<'a> {
    /// The octets of the descriptor.
    pub(crate) descriptor: &'a [u8],
    /// The octets of the value that it describes.
    pub(crate) value: &'a [u8],
    ghost descriptor_read: { IsTrue (is_value descriptor.now) },
    ghost value_read: { IsTrue (is_value value.now) },
}

/// An element that the constructor of its array describes: part 1, 1.2.4.
#[derive(Clone, Copy, Debug)]
pub(crate) struct Tagged<'a> {
    /// The octets of the descriptor.
    pub(crate) descriptor: &'a [u8],
    /// The octets of the constructor behind the descriptor.
    pub(crate) constructor: &'a [u8],
    /// The element's own octets.
    pub(crate) data: &'a [u8],
    ghost descriptor_read: { IsTrue (is_value descriptor.now) },
    ghost data_read: { IsTrue (is_element constructor.now data.now) },
}
