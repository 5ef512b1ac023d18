//! The numbers of this profile, each once, with its unit: code and contracts of every crate cite them. Those that the
//! standard names have its names (part 2, sections 2.7.1 to 2.7.3 and 2.8.19); what they are is this router's own choice.

/// MIN-MAX-FRAME-SIZE, in octets: each peer takes frames of so many, also before its open is read. The standard's.
pub const MIN_MAX_FRAME_SIZE: u32 = 512;

/// The router's max-frame-size, in octets: the largest frame that it takes, and the largest that it writes.
pub const MAX_FRAME_SIZE: u32 = 16384;

/// The router's channel-max: the highest number of a channel, so that a connection has 256 sessions at most.
pub const CHANNEL_MAX: u16 = 255;

/// The router's handle-max: the highest handle, so that a session has 1024 links at most.
pub const HANDLE_MAX: u32 = 1023;

/// The incoming-window of each begin and each flow that the router writes, in transfers.
pub const INCOMING_WINDOW: u32 = 2048;

/// A given window is to be renewed by a flow when so many transfers, or fewer, are left of it: half of it, so that the
/// client need not wait for the flow. Own rule.
pub const RENEWAL_MARK: u32 = 1024;

/// The outgoing-window of each begin and each flow that the router writes, in transfers. It limits nothing: the most
/// that a serial number can stand ahead of another.
pub const OUTGOING_WINDOW: u32 = 2147483647;

/// The router's max-message-size, in octets of a delivery's payload.
pub const MAX_MESSAGE_SIZE: u64 = 16777216;

/// The capacity of a producer's link, in deliveries: credit left and undecided deliveries together come to so many when
/// credit is given. Own rule, after the message routing of the Qpid Dispatch Router.
pub const CAPACITY: u32 = 250;

/// Credit is given again when credit left and undecided deliveries together come to so many deliveries, or fewer: half
/// of the capacity, so that a flow gives many at once. Own rule.
pub const LOW_MARK: u32 = 125;

/// The most octets of a link's name. Own rule.
pub const MAX_LINK_NAME: usize = 255;

/// The most octets of an address. Own rule.
pub const MAX_ADDRESS: usize = 160;

/// The most octets of a rule's prefix: a longer one would fit no address. Own rule.
pub const MAX_PREFIX: usize = 160;

/// The most rules of a router. Own rule.
pub const MAX_RULES: usize = 64;

/// The most octets of a delivery-tag. The standard's (part 2, section 2.8.7).
pub const MAX_DELIVERY_TAG: usize = 32;

/// The most levels of a value within values, so that reading one needs little room. Own rule.
pub const MAX_DEPTH: usize = 32;
