//! The octets with which each end of a connection names the protocol that it speaks.

ghost use Rattle.std.specs.Prelude.{◌≡◌, IfSome, Some};
ghost use Rattle.amqp_frames.specs.Header.{header_octets};

/// A protocol header: the protocol's name, its number and its version (part 2, 2.2; part 5, 5.3.1).
#[derive(Clone, Copy, Debug, PartialEq, Eq)]
pub enum ProtocolHeader {
    /// AMQP 1.0: frames of a connection and its sessions follow.
    Amqp,
    /// SASL for AMQP 1.0: frames of a SASL exchange follow, and then another header.
    Sasl,
}

impl ProtocolHeader {
    ghost use Rattle.amqp_frames.specs.declared.header.ProtocolHeader.{ProtocolHeader};

    /// The header's octets.
    pub fn octets(self) -> [u8; 8]
        ensures { result ≡ header_octets self }
    {
        match self {
            ProtocolHeader::Amqp => *b"AMQP\x00\x01\x00\x00",
            ProtocolHeader::Sasl => *b"AMQP\x03\x01\x00\x00",
        }
    }

    /// The header that all these octets are, if they are one.
    pub fn of(octets: &[u8]) -> Option<ProtocolHeader>
        ensures found { IfSome result (λ header. octets.now ≡ header_octets header) }
        ensures only { (header : ProtocolHeader) → octets.now ≡ header_octets header → result ≡ Some header }
    {
        match octets {
            b"AMQP\x00\x01\x00\x00" => Some(ProtocolHeader::Amqp),
            b"AMQP\x03\x01\x00\x00" => Some(ProtocolHeader::Sasl),
            _ => None,
        }
    }
}
