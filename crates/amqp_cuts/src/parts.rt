//! Octets in slices.

ghost use Rattle.std.specs.Prelude.{◌≡◌, ◌≤◌, ◌^◌, ◌<◌, None, IfSome, length};
ghost use Rattle.amqp_cuts.specs.Joined.{joined};

use crate::cuts::Cuts;

/// Slices, one after the other, with fewer than 2^64 octets.
#[derive(Clone, Copy, Debug)]
pub struct Parts<'a> {
    parts: &'a [&'a [u8]],
    len: usize,
    ghost counted: { len ≡ length (joined parts.now) },
}

impl<'a> Parts<'a> {
    ghost use Rattle.amqp_cuts.specs.Slices.{parts_octets};

    /// The octets of these slices, in order.
    ///
    /// `None` where they are 2^64 or more, which needs slices that share octets.
    pub fn new(parts: &'a [&'a [u8]]) -> Option<Parts<'a>>
        ensures some { IfSome result (λ made. parts_octets made ≡ joined parts.entry.now) }
        ensures none { result ≡ None → 2 ^ 64 ≤ length (joined parts.entry.now) }
    {
        let mut len = 0usize;
        for part in parts {
            len = len.checked_add(part.len())?;
        }
        Some(Parts { parts, len })
    }
}

impl Cuts for Parts<'_> {
    ghost use Rattle.amqp_cuts.specs.Joined.{joined};

    ghost octets = { λ all. joined all.parts.now };

    fn len(&self) -> usize {
        self.len
    }

    fn part_at(&self, at: usize) -> &[u8] {
        let mut left = at;
        for part in self.parts {
            if left < part.len() {
                return &part[left..];
            }
            left -= part.len();
        }
        &[]
    }
}
