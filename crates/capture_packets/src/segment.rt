//! A TCP segment of a connection, and between which ends it goes.

ghost use Rattle.std.specs.Prelude.{◌≡◌, ◌<◌, ◌^◌};
ghost use Rattle.capture_packets.specs.Ends.{client_end, source_of, target_of};

/// The address of the clients of the first connections: 10.0.0.1.
const FIRST_CLIENT: u32 = 0x0A00_0001;

/// The port of the first connection of an address.
const FIRST_PORT: u32 = 40000;

/// How many connections share an address, each with a port of its own.
const PORTS: u32 = 10000;

/// The router: 192.0.2.1, at the port of AMQP.
const ROUTER: Endpoint = Endpoint {
    address: [192, 0, 2, 1],
    port: 5672,
};

/// An IPv4 address and a TCP port.
#[derive(Clone, Copy)]
pub struct Endpoint {
    pub address: [u8; 4],
    pub port: u16,
}

/// What stands in the head of a TCP segment.
#[derive(Clone, Copy)]
pub struct Segment {
    pub connection: u32,
    /// From the client to the router, or the other way.
    pub is_from_client: bool,
    /// RFC 9293, 3.1: FIN 1, SYN 2, RST 4, PSH 8, ACK 16.
    pub flags: u8,
    pub sequence: u32,
    pub acknowledged: u32,
}

/// The client's end of a connection. Connection 70123 is 10.0.0.8, port 40123.
#[tactic(auto, unfolding(crate::specs::Ends::client_end))]
fn end_of_client(connection: u32) -> Endpoint
    ensures { result ≡ client_end connection }
{
    Endpoint {
        address: (FIRST_CLIENT + connection / PORTS).to_be_bytes(),
        port: (FIRST_PORT + connection % PORTS) as u16,
    }
}

impl Segment {
    /// The end that sends it.
    pub fn source(self) -> Endpoint
        ensures { result ≡ source_of self }
    {
        if self.is_from_client {
            end_of_client(self.connection)
        } else {
            ROUTER
        }
    }

    /// The end that it is sent to.
    pub fn target(self) -> Endpoint
        ensures { result ≡ target_of self }
    {
        if self.is_from_client {
            ROUTER
        } else {
            end_of_client(self.connection)
        }
    }
}
