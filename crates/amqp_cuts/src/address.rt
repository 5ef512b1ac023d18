//! An address that owns its octets.

ghost use Rattle.flow_counts.specs.declared.profile.TheConstants.{MAX_ADDRESS};
ghost use Rattle.std.specs.Prelude.{◌≤◌};

use crate::cuts::Cuts;
use crate::octets::octet_of;
use flow_counts::MAX_ADDRESS;

/// An address, which owns its octets: at most `MAX_ADDRESS` of them.
#[derive(Clone, Copy, Debug)]
pub struct Address {
    octets: [u8; MAX_ADDRESS],
    len: usize,
    ghost fits: { len ≤ MAX_ADDRESS },
}

impl Address {
    ghost use Rattle.std.specs.Prelude.{◌≡◌, ◌+◌, length};
    ghost use Rattle.amqp_cuts.specs.Offsets.{window};
    ghost use Rattle.amqp_cuts.specs.Address.{address_octets};

    /// Its octets.
    pub fn octets(&self) -> &[u8]
        ensures { result.now ≡ address_octets self.now }
    {
        &self.octets[..self.len]
    }

    /// The address that begins and ends at these offsets.
    pub(crate) fn copied<C: Cuts>(payload: &C, at: usize, to: usize) -> Address
        requires order { at ≤ to }
        requires room { to ≤ length (C.octets payload.now) }
        requires few { to ≤ at + MAX_ADDRESS }
        ensures { address_octets result ≡ window (C.octets payload.now) at to }
    {
        let len = to - at;
        let mut octets = [0; MAX_ADDRESS];
        for i in 0..len {
            octets[i] = octet_of(payload, at + i);
        }
        Address { octets, len }
    }
}
