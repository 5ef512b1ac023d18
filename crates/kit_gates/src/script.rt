//! What clients say and take, in an exchange of two: a message goes from a producer to a consumer, and its outcome back.

use std::alloc::{AllocError, Global};

/// Octets that a client says as soon as it has taken so many, and the other client has.
#[derive(Clone, Copy)]
pub struct TimedOctets {
    pub octets: &'static [u8],
    pub taken: usize,
    pub others: usize,
}

/// All that a client says, and how many octets it takes of the router before it ends.
#[derive(Clone, Copy)]
pub struct ClientScript {
    pub says: &'static [TimedOctets],
    pub wanted: usize,
}

/// All that a script says, joined.
pub fn stream_of(alloc: Global, script: ClientScript) -> Result<Vec<u8>, AllocError> {
    let mut stream = Vec::new(alloc);
    for said in script.says {
        stream.extend_from_slice(said.octets)?;
    }
    Ok(stream)
}

/// A producer of `q`. It sends its message behind the router's flow, and closes behind the outcome.
pub const PRODUCER: ClientScript = ClientScript {
    says: &[
        TimedOctets {
            octets: AMQP_HEADER,
            taken: 0,
            others: 0,
        },
        TimedOctets {
            octets: PRODUCER_OPEN,
            taken: 8,
            others: 0,
        },
        TimedOctets {
            octets: BEGIN,
            taken: 44,
            others: 0,
        },
        TimedOctets {
            octets: PRODUCER_ATTACH,
            taken: 77,
            others: 0,
        },
        TimedOctets {
            octets: TRANSFER,
            taken: 155,
            others: 0,
        },
        TimedOctets {
            octets: CLOSE,
            taken: 177,
            others: 0,
        },
    ],
    wanted: 189,
};

/// A consumer of `q` with credit for one message. It accepts that, and closes.
pub const CONSUMER: ClientScript = ClientScript {
    says: &[
        TimedOctets {
            octets: AMQP_HEADER,
            taken: 0,
            others: 0,
        },
        TimedOctets {
            octets: CONSUMER_OPEN,
            taken: 8,
            others: 0,
        },
        TimedOctets {
            octets: BEGIN,
            taken: 44,
            others: 0,
        },
        TimedOctets {
            octets: CONSUMER_ATTACH,
            taken: 77,
            others: 0,
        },
        TimedOctets {
            octets: ONE_CREDIT,
            taken: 116,
            others: 0,
        },
        TimedOctets {
            octets: ACCEPTED,
            taken: 148,
            others: 0,
        },
        TimedOctets {
            octets: CLOSE,
            taken: 148,
            others: 0,
        },
    ],
    wanted: 160,
};

/// A producer without address. Behind the router's flow, and once the consumer's link stands, it sends a message for `q` and one
/// that names no address, and it closes behind both outcomes.
pub const RELAY: ClientScript = ClientScript {
    says: &[
        TimedOctets {
            octets: AMQP_HEADER,
            taken: 0,
            others: 0,
        },
        TimedOctets {
            octets: PRODUCER_OPEN,
            taken: 8,
            others: 0,
        },
        TimedOctets {
            octets: BEGIN,
            taken: 44,
            others: 0,
        },
        TimedOctets {
            octets: RELAY_ATTACH,
            taken: 77,
            others: 0,
        },
        TimedOctets {
            octets: TO_Q,
            taken: 150,
            others: 116,
        },
        TimedOctets {
            octets: TO_NOBODY,
            taken: 150,
            others: 116,
        },
        TimedOctets {
            octets: CLOSE,
            taken: 195,
            others: 0,
        },
    ],
    wanted: 207,
};

/// The same, its message for `q` in two transfers, parted in front of its first octet.
pub const RELAY_IN_TWO: ClientScript = ClientScript {
    says: &[
        TimedOctets {
            octets: AMQP_HEADER,
            taken: 0,
            others: 0,
        },
        TimedOctets {
            octets: PRODUCER_OPEN,
            taken: 8,
            others: 0,
        },
        TimedOctets {
            octets: BEGIN,
            taken: 44,
            others: 0,
        },
        TimedOctets {
            octets: RELAY_ATTACH,
            taken: 77,
            others: 0,
        },
        TimedOctets {
            octets: TO_Q_IN_TWO,
            taken: 150,
            others: 116,
        },
        TimedOctets {
            octets: TO_NOBODY,
            taken: 150,
            others: 116,
        },
        TimedOctets {
            octets: CLOSE,
            taken: 195,
            others: 0,
        },
    ],
    wanted: 207,
};

/// A consumer of `q` that accepts the message of such a producer, and closes.
pub const RELAYED: ClientScript = ClientScript {
    says: &[
        TimedOctets {
            octets: AMQP_HEADER,
            taken: 0,
            others: 0,
        },
        TimedOctets {
            octets: CONSUMER_OPEN,
            taken: 8,
            others: 0,
        },
        TimedOctets {
            octets: BEGIN,
            taken: 44,
            others: 0,
        },
        TimedOctets {
            octets: CONSUMER_ATTACH,
            taken: 77,
            others: 0,
        },
        TimedOctets {
            octets: ONE_CREDIT,
            taken: 116,
            others: 0,
        },
        TimedOctets {
            octets: ACCEPTED,
            taken: 159,
            others: 0,
        },
        TimedOctets {
            octets: CLOSE,
            taken: 159,
            others: 0,
        },
    ],
    wanted: 171,
};

/// It says its begin only when the other client took the router's open, and ends behind the answer.
pub const BEGINS_LATE: ClientScript = ClientScript {
    says: &[
        TimedOctets {
            octets: AMQP_HEADER,
            taken: 0,
            others: 0,
        },
        TimedOctets {
            octets: PRODUCER_OPEN,
            taken: 8,
            others: 0,
        },
        TimedOctets {
            octets: BEGIN,
            taken: 44,
            others: 44,
        },
    ],
    wanted: 77,
};

/// It says nothing until the other client took the router's open, and ends behind the answer to its own.
pub const OPENS_LATE: ClientScript = ClientScript {
    says: &[
        TimedOctets {
            octets: AMQP_HEADER,
            taken: 0,
            others: 44,
        },
        TimedOctets {
            octets: CONSUMER_OPEN,
            taken: 8,
            others: 44,
        },
    ],
    wanted: 44,
};

/// It asks for signs of life each second, says its close only when it has heard three of them, and ends behind the answer.
pub const QUIET: ClientScript = ClientScript {
    says: &[
        TimedOctets {
            octets: AMQP_HEADER,
            taken: 0,
            others: 0,
        },
        TimedOctets {
            octets: QUIET_OPEN,
            taken: 8,
            others: 0,
        },
        TimedOctets {
            octets: CLOSE,
            taken: 68,
            others: 0,
        },
    ],
    wanted: 80,
};

/// Each says all that it has at once: octets of another protocol; a SASL exchange that chooses PLAIN; a frame that is none; a frame
/// that is no performative; and nothing at all.
pub const STRANGERS: [ClientScript; 5] = [
    ClientScript {
        says: &[TimedOctets {
            octets: b"GET / HTTP/1.1\r\n\r\n",
            taken: 0,
            others: 0,
        }],
        wanted: usize::MAX,
    },
    ClientScript {
        says: &[TimedOctets {
            octets: b"AMQP\x03\x01\x00\x00\x00\x00\x00\x15\x02\x01\x00\x00\x00\x53\x41\xc0\x08\x01\xa3\x05PLAIN",
            taken: 0,
            others: 0,
        }],
        wanted: usize::MAX,
    },
    ClientScript {
        says: &[TimedOctets {
            octets: b"AMQP\x00\x01\x00\x00\x00\x00\x00\x07\x01\x02",
            taken: 0,
            others: 0,
        }],
        wanted: usize::MAX,
    },
    ClientScript {
        says: &[TimedOctets {
            octets: b"AMQP\x00\x01\x00\x00\x00\x00\x00\x0c\x02\x00\x00\x00\xff\xff\xff\xff",
            taken: 0,
            others: 0,
        }],
        wanted: usize::MAX,
    },
    ClientScript {
        says: &[],
        wanted: usize::MAX,
    },
];

// ---- what clients say

pub const AMQP_HEADER: &[u8] = b"AMQP\x00\x01\x00\x00";

pub const PRODUCER_OPEN: &[u8] =
    b"\x00\x00\x00\x11\x02\x00\x00\x00\x00\x53\x10\xc0\x04\x01\xa1\x01p";

const CONSUMER_OPEN: &[u8] = b"\x00\x00\x00\x11\x02\x00\x00\x00\x00\x53\x10\xc0\x04\x01\xa1\x01c";

const QUIET_OPEN: &[u8] =
    b"\x00\x00\x00\x19\x02\x00\x00\x00\x00\x53\x10\xc0\x0c\x05\xa1\x01s\x40\x40\x40\x70\x00\x00\x03\xe8";

pub const BEGIN: &[u8] =
    b"\x00\x00\x00\x14\x02\x00\x00\x00\x00\x53\x11\xc0\x07\x04\x40\x43\x52\x64\x52\x64";

const PRODUCER_ATTACH: &[u8] =
    b"\x00\x00\x00\x22\x02\x00\x00\x00\x00\x53\x12\xc0\x15\x0a\xa1\x01s\x43\x42\x40\x40\x40\x00\x53\x29\xc0\x04\x01\xa1\x01q\x40\x40\x43";

const CONSUMER_ATTACH: &[u8] =
    b"\x00\x00\x00\x1e\x02\x00\x00\x00\x00\x53\x12\xc0\x11\x06\xa1\x01r\x43\x41\x40\x40\x00\x53\x28\xc0\x04\x01\xa1\x01q";

const ONE_CREDIT: &[u8] =
    b"\x00\x00\x00\x18\x02\x00\x00\x00\x00\x53\x13\xc0\x0b\x07\x43\x52\x64\x43\x52\x64\x43\x43\x52\x01";

const TRANSFER: &[u8] =
    b"\x00\x00\x00\x1c\x02\x00\x00\x00\x00\x53\x14\xc0\x08\x05\x43\x43\xa0\x011\x43\x42\x00\x53\x77\xa1\x02hi";

pub const RELAY_ATTACH: &[u8] =
    b"\x00\x00\x00\x1d\x02\x00\x00\x00\x00\x53\x12\xc0\x10\x0a\xa1\x01s\x43\x42\x40\x40\x40\x00\x53\x29\x45\x40\x40\x43";

/// A transfer of `MESSAGE`, whose properties say that it is for `q`.
const TO_Q: &[u8] =
    b"\x00\x00\x00\x27\x02\x00\x00\x00\x00\x53\x14\xc0\x08\x05\x43\x43\xa0\x011\x43\x42\x00\x53\x73\xc0\x06\x03\x40\x40\xa1\x01q\x00\x53\x77\xa1\x02hi";

/// A transfer with none of its octets and more to come, and one with all of them.
const TO_Q_IN_TWO: &[u8] =
    b"\x00\x00\x00\x16\x02\x00\x00\x00\x00\x53\x14\xc0\x09\x06\x43\x43\xa0\x011\x43\x42\x41\x00\x00\x00\x21\x02\x00\x00\x00\x00\x53\x14\xc0\x02\x01\x43\x00\x53\x73\xc0\x06\x03\x40\x40\xa1\x01q\x00\x53\x77\xa1\x02hi";

/// The performatives of these two.
pub const FIRST_PART: &[u8] = b"\x00\x53\x14\xc0\x09\x06\x43\x43\xa0\x011\x43\x42\x41";

pub const LATER_PART: &[u8] = b"\x00\x53\x14\xc0\x02\x01\x43";

pub const MESSAGE: &[u8] = b"\x00\x53\x73\xc0\x06\x03\x40\x40\xa1\x01q\x00\x53\x77\xa1\x02hi";

pub const TO_NOBODY: &[u8] =
    b"\x00\x00\x00\x1d\x02\x00\x00\x00\x00\x53\x14\xc0\x09\x05\x43\x52\x01\xa0\x011\x43\x42\x00\x53\x77\xa1\x02hi";

const ACCEPTED: &[u8] =
    b"\x00\x00\x00\x16\x02\x00\x00\x00\x00\x53\x15\xc0\x09\x05\x41\x43\x40\x41\x00\x53\x24\x45";

pub const CLOSE: &[u8] = b"\x00\x00\x00\x0c\x02\x00\x00\x00\x00\x53\x18\x45";
