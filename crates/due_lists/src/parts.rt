//! The deliveries to consumers that may go on: in progress on live links whose session has window (part 2 of the standard,
//! sections 2.5.6 and 2.6.14).

ghost use Rattle.std.specs.Prelude.{◌≡◌, ◌∷◌, ℕ, List, [], Some, None, IfSome, OnOk, false, is_some, nat_eq, option_map, true, if◌then◌else◌, ◌==◌};
ghost use Rattle.number_groups.specs.Groups.{is_member};
ghost use Rattle.capture_form.specs.Rules.{RuleSet};
ghost use Rattle.capture_form.specs.declared.records.Record.{Record};
ghost use Rattle.trace_events.specs.Words.{is_some_and};
ghost use Rattle.trace_events.specs.Event as law;
ghost use Rattle.trace_events.specs.declared.session.Session.{Session};
ghost use Rattle.trace_events.specs.History.{history};
ghost use Rattle.trace_duties.specs.Quiet.{none_stands_still};
ghost use Rattle.state_tables.specs.Connections.{IsLawfulNext};
ghost use Rattle.state_tables.specs.EndedLinks.{views};
ghost use Rattle.state_tables.specs.ConsumerLinks.{has_link};
ghost use Rattle.state_answers.specs.Tables.{TellsOf};
ghost use Rattle.state_answers.specs.Effects.{AreEffects};
ghost use Rattle.due_lists.specs.Standing.{IsStill, goes_on, grants_window};
ghost use Rattle.due_lists.specs.Parts.{HasParts, IsDuePart, stands, waits};
ghost use Rattle.trace_events.specs.View.{Events, event_view};

use flow_counts::WindowEvent;
use number_groups::{Ascending, Groups};
use pairing_cert::Note;
use state_answers::{EventEffects, LentTables, add_group};
use state_outgoing::rest_of;
use std::alloc::{AllocError, Global};
use trace_events::{Event, Link};
use trace_judge::{Carriage, Counts};

/// A part that is due: on this link, with the note of the delivery in progress there, of what is left of its payload.
#[derive(Clone, Copy)]
pub struct DuePart<'t> {
    pub link: Link<'t>,
    pub note: Note,
    pub rest: &'t [u8],
}

/// The deliveries in progress, by the links on which they are.
#[derive(Drop)]
pub struct DeliveriesInProgress {
    /// All links with one, by their sessions.
    of_session: Groups<u64>,
    /// Those on which it may go on.
    links: Ascending,
}

impl DeliveriesInProgress {
    /// No records.
    pub fn new(alloc: Global) -> DeliveriesInProgress
        ensures { HasParts result [] }
    {
        DeliveriesInProgress {
            of_session: Groups::new(alloc),
            links: Ascending::new(alloc),
        }
    }

    /// The event follows, with these effects.
    ///
    /// # Errors
    ///
    /// Memory was refused; then a delivery that may go on may not be found.
    pub fn follow(&mut self, event: &Event, effects: &EventEffects<'_>) -> Result<(), AllocError>
        ensures { OnOk result ((rules : RuleSet) (records : List Record) (r : Record) → IsLawfulNext rules records r (event_view event.now) →
            AreEffects (event_view event.now) (history rules records) effects.now → HasParts self.old (history rules records) →
            HasParts self.new (event_view event.now ∷ history rules records)) }
    {
        self.end(effects.ended());
        self.go_on(event)?;
        self.wake(event)?;
        Ok(())
    }

    /// Nothing is in progress on these links any more.
    fn end(&mut self, ended: &[Link])
        ensures stood { (session n : ℕ) → has_link (views ended.now) n ≡ false → stands self.old session n ≡ true → stands self.new session n ≡ true }
        ensures waiting { (n : ℕ) → waits self.new n ≡ waits self.old n }
    {
        for link in ended {
            self.of_session.remove(&link.session.number, link.number);
        }
    }

    /// Where the event is a part, its delivery is in progress, or with its last part no more.
    fn go_on(&mut self, event: &Event) -> Result<(), AllocError>
        ensures part { OnOk result ((j : law.Outgoing) → (event_view event.now).outgoing ≡ Some j → goes_on (event_view event.now) ≡ true →
            (stands self.new j.link.session.number j.link.number ≡ true) × (waits self.new j.link.number ≡ true)) }
        ensures stood { OnOk result ((session n : ℕ) → is_some_and (event_view event.now).outgoing (λ j. j.link.number == n) ≡ false →
            stands self.old session n ≡ true → stands self.new session n ≡ true) }
        ensures waiting { OnOk result ((n : ℕ) → waits self.old n ≡ true → waits self.new n ≡ true) }
    {
        let Some(delivery) = event.outgoing else {
            return Ok(());
        };
        let link = delivery.link;
        if goes_on(event) {
            self.of_session.insert(link.session.number, link.number)?;
            self.links.insert(link.number)?;
        } else {
            self.of_session.remove(&link.session.number, link.number);
        }
        Ok(())
    }

    /// Where the event gives its session window, all deliveries in progress there may go on.
    fn wake(&mut self, event: &Event) -> Result<(), AllocError>
        ensures stood { OnOk result ((session n : ℕ) → stands self.new session n ≡ stands self.old session n) }
        ensures waiting { OnOk result ((n : ℕ) → waits self.old n ≡ true → waits self.new n ≡ true) }
        ensures woken { OnOk result ((s : Session) → (event_view event.now).session ≡ Some s → grants_window (event_view event.now) ≡ true →
            (n : ℕ) → stands self.old s.number n ≡ true → waits self.new n ≡ true) }
    {
        if let Some(session) = granted_session(event) {
            add_group(&mut self.links, &self.of_session, session)?;
        }
        Ok(())
    }

    /// The part that is due on the live link with the lowest number. Links below it are candidates no more.
    pub fn first_due<'t>(&mut self, tables: &LentTables<'t>) -> Option<DuePart<'t>>
        ensures due { IfSome result (λ part. (rules : RuleSet) (past : Events) → TellsOf rules tables.now past → IsDuePart part past) }
        ensures kept { (rules : RuleSet) (past : Events) → TellsOf rules tables.now past → HasParts self.old past → HasParts self.new past }
        ensures quiet { (rules : RuleSet) (past : Events) → TellsOf rules tables.now past → HasParts self.old past → result ≡ None →
            none_stands_still past ≡ true }
    {
        while let Some(number) = self.links.first() {
            if let Some(part) = part_due(number, tables) {
                return Some(part);
            }
            self.links.remove(number);
        }
        None
    }
}

/// The event is a part of a delivery to a client, with more to come.
fn goes_on(event: &Event) -> bool
    ensures { result ≡ goes_on (event_view event.now) }
{
    match event.out_transfer() {
        Some(transfer) => transfer.more == Some(true),
        None => false,
    }
}

/// The session to which the event may give window.
fn granted_session(event: &Event) -> Option<u64>
    ensures { result ≡ (if grants_window (event_view event.now) then option_map (λ (s : Session). s.number) (event_view event.now).session else None) }
{
    match event.moment.window_event() {
        Some(WindowEvent::TheirFlow { .. }) => Some(event.session?.number),
        _ => None,
    }
}

/// The part that is due on the link of this number.
#[inline(never)]
fn part_due<'t>(number: u64, tables: &LentTables<'t>) -> Option<DuePart<'t>>
    ensures due { IfSome result (λ part. (rules : RuleSet) (past : Events) → TellsOf rules tables.now past → IsDuePart part past) }
    ensures found { (rules : RuleSet) (past : Events) → TellsOf rules tables.now past → (l : law.Link) → l.number ≡ number → IsStill l past →
        is_some result ≡ true }
{
    let link = tables.consumer_links.get(number)?;
    let delivery = tables.outgoing_in_progress(&link)?;
    if tables.session_window(link.session) == 0 {
        return None;
    }
    let carried = tables.deliveries.to_carry(delivery.note)?;
    let payload = tables.deliveries.payload(&carried);
    Some(DuePart {
        link,
        note: delivery.note,
        rest: rest_of(payload, tables.sent.sent_count(delivery.number)),
    })
}
