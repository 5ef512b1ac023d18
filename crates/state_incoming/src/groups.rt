//! Which of the deliveries that are kept still arrive, are undecided, or wait: by their link, their session, their id there, and
//! their address.

ghost use Rattle.std.specs.Prelude.{◌≡◌, ℕ, List, None, OnOk, true, bytes_eq, nat_eq, ◌==◌, ◌&&◌, if◌then◌else◌};
ghost use Rattle.number_groups.specs.Groups.{is_member};
ghost use Rattle.number_groups.specs.OctetGroups as octets;
ghost use Rattle.state_incoming.specs.Grouped.{AreGrouped, IsMarked, IsPut, marks_of, unmarked};
ghost use Rattle.state_incoming.specs.HeldViews.{held_view};
ghost use Rattle.number_groups.specs.Ids.{same_id};
ghost use Rattle.trace_events.specs.View.{incoming_view};

use crate::held::HeldDelivery;
use number_groups::{Groups, IdOn, OctetGroups};
use std::alloc::{AllocError, Global};
use trace_events::Incoming;

/// What a delivery is found by.
#[derive(Clone, Copy)]
pub(crate) struct GroupMarks {
    is_arriving: bool,
    is_undecided: bool,
    is_waiting: bool,
}

impl GroupMarks {
    /// Of one that is not kept.
    pub(crate) fn none() -> GroupMarks
        ensures { result ≡ unmarked }
    {
        GroupMarks {
            is_arriving: false,
            is_undecided: false,
            is_waiting: false,
        }
    }

    /// Of one that is kept, or of one of which nothing is left.
    pub(crate) fn of(held: &HeldDelivery, is_kept: bool) -> GroupMarks
        ensures { result ≡ (if is_kept then marks_of (held_view held.now) else unmarked) }
    {
        GroupMarks {
            is_arriving: is_kept && !held.is_complete(),
            is_undecided: is_kept && held.is_undecided(),
            is_waiting: is_kept && held.is_waiting(),
        }
    }
}

/// The numbers of the deliveries that are kept, in groups.
#[doc(hidden)]
#[derive(Drop)]
pub struct HeldGroups {
    /// Those that arrive, by the number of their link.
    pub(crate) arriving: Groups<u64>,
    /// Those that are undecided, by the number of their link.
    pub(crate) undecided: Groups<u64>,
    /// By that of their session.
    pub(crate) of_session: Groups<u64>,
    /// By their id.
    pub(crate) in_use: Groups<IdOn>,
    /// Those that wait, by their address.
    pub(crate) waiting: OctetGroups,
}

/// The number, which was in the group of the key or not, is in it or not.
fn put(
    groups: &mut Groups<u64>,
    key: u64,
    number: u64,
    was_in: bool,
    is_in: bool,
) -> Result<(), AllocError>
    ensures { OnOk result (((at : ℕ) → (key == at) ≡ true → is_member nat_eq groups.old at number ≡ was_in) →
        (at n : ℕ) → is_member nat_eq groups.new at n ≡ (if (key == at) && (number == n) then is_in else is_member nat_eq groups.old at n)) }
{
    if is_in {
        if !was_in {
            groups.insert(key, number)?;
        }
    } else if was_in {
        groups.remove(&key, number);
    }
    Ok(())
}

/// The same, of an id.
fn put_id(
    groups: &mut Groups<IdOn>,
    key: IdOn,
    number: u64,
    was_in: bool,
    is_in: bool,
) -> Result<(), AllocError>
    ensures { OnOk result (((at : IdOn) → same_id key at ≡ true → is_member same_id groups.old at number ≡ was_in) →
        (at : IdOn) (n : ℕ) → is_member same_id groups.new at n ≡ (if same_id key at && (number == n) then is_in else is_member same_id groups.old at n)) }
{
    if is_in {
        if !was_in {
            groups.insert(key, number)?;
        }
    } else if was_in {
        groups.remove(&key, number);
    }
    Ok(())
}

/// The same, of an address.
fn put_at(
    groups: &mut OctetGroups,
    address: &[u8],
    number: u64,
    was_in: bool,
    is_in: bool,
) -> Result<(), AllocError>
    ensures { OnOk result (((at : List ℕ) → bytes_eq address.now at ≡ true → octets.is_member groups.old at number ≡ was_in) →
        (at : List ℕ) (n : ℕ) → octets.is_member groups.new at n ≡ (if bytes_eq address.now at && (number == n) then is_in else octets.is_member groups.old at n)) }
{
    if is_in {
        if !was_in {
            groups.insert(address, number)?;
        }
    } else if was_in {
        groups.remove(address, number);
    }
    Ok(())
}

impl HeldGroups {
    /// No deliveries.
    pub(crate) fn new(alloc: Global) -> HeldGroups
        ensures { AreGrouped result (λ n. None) }
    {
        HeldGroups {
            arriving: Groups::new(alloc),
            undecided: Groups::new(alloc),
            of_session: Groups::new(alloc),
            in_use: Groups::new(alloc),
            waiting: OctetGroups::new(alloc),
        }
    }

    /// The delivery, which is for this address and stood where the marks before say, stands where these say.
    ///
    /// # Errors
    ///
    /// Memory was refused; then it may stand in some of the groups and not in others.
    pub(crate) fn put(
        &mut self,
        delivery: &Incoming,
        address: &[u8],
        before: GroupMarks,
        marks: GroupMarks,
    ) -> Result<(), AllocError>
        ensures { OnOk result (IsMarked (incoming_view delivery.now) address.now before self.old →
            IsPut (incoming_view delivery.now) address.now marks self.old self.new) }
    {
        let number = delivery.number;
        let link = delivery.link.number;
        let session = delivery.link.session.number;
        let (was_undecided, is_undecided) = (before.is_undecided, marks.is_undecided);
        put(
            &mut self.arriving,
            link,
            number,
            before.is_arriving,
            marks.is_arriving,
        )?;
        put(
            &mut self.undecided,
            link,
            number,
            was_undecided,
            is_undecided,
        )?;
        put(
            &mut self.of_session,
            session,
            number,
            was_undecided,
            is_undecided,
        )?;
        if let Some(id) = delivery.id {
            let key = IdOn { session, id };
            put_id(&mut self.in_use, key, number, was_undecided, is_undecided)?;
        }
        put_at(
            &mut self.waiting,
            address,
            number,
            before.is_waiting,
            marks.is_waiting,
        )
    }
}
