//! Why a router does not take an input.

ghost use Rattle.std.specs.Prelude.{◌≡◌};
ghost use Rattle.route_items.specs.Items.{fault_number};

/// Why an input was not taken. The numbers do not tell which is looked for first: that is `Failed`, then `Full`,
/// `UnknownConn` and `Memory`.
#[derive(Clone, Copy, Debug, PartialEq, Eq)]
pub enum StepFault {
    /// A growth was refused. The capture is as before, and the router takes no more.
    Memory = 1,
    /// The capture has as many records as it may have. Nothing changed.
    Full,
    /// A connection that was opened before is opened; anything else happens on one that was not opened, or is lost; or
    /// anything but its loss on one whose octets stopped being frames. Nothing changed.
    UnknownConn,
    /// An earlier growth was refused. Nothing changed.
    Failed,
}

impl StepFault {
    /// The number of the fault, from 1 to 4.
    pub fn number(self) -> u8
        ensures { result ≡ fault_number self }
    {
        self as u8
    }
}
