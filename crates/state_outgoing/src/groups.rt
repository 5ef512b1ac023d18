//! Which deliveries to clients are still unsettled: by their id, their session, and their link.

ghost use Rattle.std.specs.Prelude.{◌≡◌, ◌<◌, ◌^◌, ℕ, None, IfSome, OnOk, nat_eq, ◌==◌, ◌&&◌, if◌then◌else◌};
ghost use Rattle.number_groups.specs.Groups.{is_member};
ghost use Rattle.number_groups.specs.Ids.{same_id};
ghost use Rattle.state_outgoing.specs.SentGrouped.{AreGrouped, IsPut};
ghost use Rattle.trace_events.specs.View.{outgoing_view};

use number_groups::{Groups, IdOn};
use std::alloc::{AllocError, Global};
use trace_events::Outgoing;

/// The numbers of the deliveries that are unsettled, in groups.
#[doc(hidden)]
#[derive(Drop)]
pub struct SentGroups {
    /// By their id.
    pub(crate) of_id: Groups<IdOn>,
    /// By the number of their session.
    pub(crate) of_session: Groups<u64>,
    /// By that of their link.
    pub(crate) of_link: Groups<u64>,
}

/// The number is in the group of the key, or not.
fn put(groups: &mut Groups<u64>, key: u64, number: u64, is_in: bool) -> Result<(), AllocError>
    ensures { OnOk result ((at n : ℕ) → is_member nat_eq groups.new at n ≡ (if (key == at) && (number == n) then is_in else is_member nat_eq groups.old at n)) }
{
    if is_in {
        groups.insert(key, number)?;
    } else {
        groups.remove(&key, number);
    }
    Ok(())
}

/// The same, of an id.
fn put_id(groups: &mut Groups<IdOn>, key: IdOn, number: u64, is_in: bool) -> Result<(), AllocError>
    ensures { OnOk result ((at : IdOn) (n : ℕ) → is_member same_id groups.new at n ≡ (if same_id key at && (number == n) then is_in else is_member same_id groups.old at n)) }
{
    if is_in {
        groups.insert(key, number)?;
    } else {
        groups.remove(&key, number);
    }
    Ok(())
}

/// The id of the delivery.
fn id_of(delivery: &Outgoing) -> Option<u32>
    ensures { result ≡ delivery.now.id }
{
    delivery.id
}

impl SentGroups {
    /// No deliveries.
    pub(crate) fn new(alloc: Global) -> SentGroups
        ensures { AreGrouped result (λ n. None) }
    {
        SentGroups {
            of_id: Groups::new(alloc),
            of_session: Groups::new(alloc),
            of_link: Groups::new(alloc),
        }
    }

    /// The delivery is unsettled, or not.
    ///
    /// # Errors
    ///
    /// Memory was refused; then it may stand in some of the groups and not in others.
    pub(crate) fn put(&mut self, delivery: &Outgoing, is_unsettled: bool) -> Result<(), AllocError>
        ensures put { OnOk result (IsPut (outgoing_view delivery.now) is_unsettled self.old self.new) }
        ensures counted { OnOk result (IfSome delivery.now.id (λ id. id < 2 ^ 32)) }
    {
        let number = delivery.number;
        let session = delivery.link.session.number;
        put(
            &mut self.of_link,
            delivery.link.number,
            number,
            is_unsettled,
        )?;
        put(&mut self.of_session, session, number, is_unsettled)?;
        if let Some(id) = id_of(delivery) {
            put_id(&mut self.of_id, IdOn { session, id }, number, is_unsettled)?;
        }
        Ok(())
    }
}
