//! The id of a delivery on its session.

use number_map::NumberKey;

/// The id of a delivery, on its session: deliveries are found by it in the groups of whoever keeps them.
#[derive(Clone, Copy, PartialEq, Eq, Hash)]
pub struct IdOn {
    /// The number of the session.
    pub session: u64,
    pub id: u32,
}

impl NumberKey for IdOn {
    fn number(self) -> usize {
        self.session as usize ^ self.id as usize
    }
}
