//! The deliveries to clients that an event may touch.

ghost use Rattle.std.specs.Prelude.{◌≡◌, ℕ, ◌||◌, IfOk, IfSome, OnOk, length, map, nat_eq};
ghost use Rattle.std.specs.List.{list_any};
ghost use Rattle.flow_counts.specs.Serial.{serial_add};
ghost use Rattle.number_groups.specs.Numbers.{is_among};
ghost use Rattle.number_groups.specs.Groups.{is_member, numbers};
ghost use Rattle.trace_events.specs.Words.{is_some_and};
ghost use Rattle.number_groups.specs.Ids.{same_id};
ghost use Rattle.state_outgoing.specs.IdRanges.{IsCounted, are_few, some_place, span, stands_under};
ghost use Rattle.state_outgoing.specs.SentTouched as law;
ghost use Rattle.trace_events.specs.View.{event_view, link_view};

use crate::groups::SentGroups;
use crate::id_range::IdRange;
use amqp_perf::Role;
use number_groups::{Groups, IdOn, NumberSet};
use state_tables::{add_group, add_number};
use std::alloc::{AllocError, Global};
use trace_events::{Event, Link};

/// All numbers of the group of an id come in.
fn add_group_of_id(
    touched: &mut NumberSet,
    groups: &Groups<IdOn>,
    key: IdOn,
) -> Result<(), AllocError>
    ensures { OnOk result ((n : ℕ) → is_among touched.new n ≡ (is_among touched.old n || is_member same_id groups.now key n)) }
{
    for index in 0..groups.count(&key) {
        add_number(touched, groups.get(&key, index))?;
    }
    Ok(())
}

/// The delivery that the event is a part of.
fn part_number(event: &Event) -> Option<u64>
    ensures { result ≡ law.part_number (event_view event.now) }
{
    match &event.outgoing {
        Some(delivery) => Some(delivery.number),
        None => None,
    }
}

/// The ids of which the event's consumer speaks.
fn spoken_ids(event: &Event) -> Option<IdRange>
    ensures ids { result ≡ law.spoken_ids (event_view event.now) }
    ensures counted { IfSome result IsCounted }
{
    let fields = event.in_disposition()?;
    match fields.role {
        Role::Receiver => Some(IdRange {
            session: event.session?.number,
            first: fields.first,
            last: fields.last_id(),
        }),
        Role::Sender => None,
    }
}

/// What stands under the ids in front of the last comes in.
fn add_first_ids(
    touched: &mut NumberSet,
    groups: &Groups<IdOn>,
    ids: IdRange,
) -> Result<(), AllocError>
    ensures { OnOk result ((n : ℕ) → is_among touched.new n
        ≡ (is_among touched.old n || some_place (λ place. is_member same_id groups.now (record { session = ids.session; id = serial_add ids.first place }) n) (span ids))) }
{
    for place in 0..ids.span() {
        add_group_of_id(touched, groups, ids.id_at(place))?;
    }
    Ok(())
}

/// What stands under any of the ids comes in.
fn add_ids(touched: &mut NumberSet, groups: &Groups<IdOn>, ids: IdRange) -> Result<(), AllocError>
    ensures { OnOk result ((n : ℕ) → is_among touched.new n ≡ (is_among touched.old n || stands_under groups.now ids n)) }
{
    add_first_ids(touched, groups, ids)?;
    add_group_of_id(touched, groups, ids.last_id())
}

impl SentGroups {
    /// The ids are looked up one by one.
    fn are_few(&self, ids: IdRange) -> bool
        ensures { result ≡ are_few (span ids) (length (numbers nat_eq self.now.of_session ids.session)) }
    {
        ids.span() == 0 || (ids.span() as usize) < self.of_session.count(&ids.session)
    }

    /// What a consumer speaks of comes in, by these ids.
    fn add_spoken(&self, touched: &mut NumberSet, ids: Option<IdRange>) -> Result<(), AllocError>
        ensures { OnOk result ((n : ℕ) → is_among touched.new n ≡ (is_among touched.old n || is_some_and ids (λ those. law.finds self.now those n))) }
    {
        match ids {
            Some(ids) if self.are_few(ids) => add_ids(touched, &self.of_id, ids),
            Some(ids) => add_group(touched, &self.of_session, ids.session),
            None => Ok(()),
        }
    }

    /// The unsettled deliveries of which the event's consumer speaks.
    ///
    /// # Errors
    ///
    /// Memory was refused.
    pub(crate) fn spoken_of(&self, alloc: Global, event: &Event) -> Result<NumberSet, AllocError>
        ensures spoken { IfOk result (λ spoken. (n : ℕ) → is_among spoken n ≡ law.is_spoken_of self.now (event_view event.now) n) }
        ensures counted { OnOk result (IfSome (law.spoken_ids (event_view event.now)) IsCounted) }
    {
        let mut spoken = NumberSet::new(alloc);
        self.add_spoken(&mut spoken, spoken_ids(event))?;
        Ok(spoken)
    }

    /// What stands on the links that ended.
    fn add_all_of(&self, touched: &mut NumberSet, ended: &[Link]) -> Result<(), AllocError>
        ensures { OnOk result ((n : ℕ) → is_among touched.new n
            ≡ (is_among touched.old n || list_any (λ l. is_member nat_eq self.now.of_link (link_view l).number n) ended.now)) }
    {
        for link in ended {
            add_group(touched, &self.of_link, link.number)?;
        }
        Ok(())
    }

    /// The deliveries that the event may touch, with which these links end.
    ///
    /// # Errors
    ///
    /// Memory was refused.
    pub(crate) fn touched(
        &self,
        alloc: Global,
        ended: &[Link],
        event: &Event,
    ) -> Result<NumberSet, AllocError>
        ensures touched { IfOk result (λ touched. (n : ℕ) → is_among touched n ≡ law.may_touch self.now (map link_view ended.now) (event_view event.now) n) }
        ensures counted { OnOk result (IfSome (law.spoken_ids (event_view event.now)) IsCounted) }
    {
        let mut touched = NumberSet::new(alloc);
        add_number(&mut touched, part_number(event))?;
        add_number(&mut touched, event.settled)?;
        self.add_spoken(&mut touched, spoken_ids(event))?;
        self.add_all_of(&mut touched, ended)?;
        Ok(touched)
    }
}
