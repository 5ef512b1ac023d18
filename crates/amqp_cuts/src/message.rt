//! The address that a message is for: the field `to` of its properties (part 3 of the standard, section 3.2).

ghost use Rattle.std.specs.Prelude.{◌≡◌, ◌+◌, ◌≤◌, IfSome, length, option_map};
ghost use Rattle.flow_counts.specs.declared.profile.TheConstants.{MAX_ADDRESS};
ghost use Rattle.amqp_perf.specs.Message.{to_of};
ghost use Rattle.amqp_cuts.specs.Address.{address_octets};
ghost use Rattle.amqp_cuts.specs.Sections.{to_within};

use crate::address::Address;
use crate::cuts::Cuts;
use crate::section::{Named, address_in, section};

/// Where the address begins and ends, behind as many sections that are passed over as there are octets.
fn find_address<C: Cuts>(payload: &C) -> Option<(usize, usize)>
    ensures exact { result ≡ to_within (C.octets payload.now) (length (C.octets payload.now)) 0 }
    ensures within { IfSome result (λ x. (x.0 ≤ x.1) × (x.1 ≤ length (C.octets payload.now)) × (x.1 ≤ x.0 + MAX_ADDRESS)) }
{
    let to = payload.len();
    let mut at = 0;
    for _ in 0..to {
        let (name, value, end) = section(payload, at, to)?;
        match name {
            Named::Properties => return address_in(payload, value, end),
            Named::PassedOver => at = end,
        }
    }
    None
}

/// The address that a message is for: the field `to` of its properties, on which it stays. A header and annotations
/// in front of the properties are passed over by their descriptors, whatever they describe, in any order and number;
/// what is behind the properties is not read. It is what `amqp_perf::message_to` gives of the same octets in one part,
/// wherever they are cut.
///
/// `None` where there is no such field, it is no string of 1 to `MAX_ADDRESS` octets, or what is in front of it is
/// anything else.
pub fn message_to<C: Cuts>(payload: &C) -> Option<Address>
    // The address in the properties of all octets, also where there is none.
    ensures exact { option_map address_octets result ≡ to_of (C.octets payload.now) }
{
    let (first, end) = find_address(payload)?;
    Some(Address::copied(payload, first, end))
}
