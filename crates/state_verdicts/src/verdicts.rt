//! The copies that await their verdict, by the link and by the delivery, and the verdicts that there are.

ghost use Rattle.std.specs.Prelude.{◌≡◌, ◌≤◌, ◌<◌, ◌-◌, ◌∷◌, ◌++◌, ◌||◌, ◌&&◌, ◌==◌, ℕ, List, [], not, true, false, IfOk, OnOk, OnErr, is_some, length, nat_eq};
ghost use Rattle.std.specs.List.{list_any};
ghost use Rattle.amqp_perf.specs.declared.descriptor.Outcome.{Outcome};
ghost use Rattle.amqp_perf.specs.declared.descriptor.Outcome.TheVariants.{Modified};
ghost use Rattle.capture_form.specs.Rules.{RuleSet};
ghost use Rattle.capture_form.specs.declared.records.Record.{Record};
ghost use Rattle.number_groups.specs.Groups.{numbers};
ghost use Rattle.trace_events.specs.History.{history};
ghost use Rattle.trace_events.specs.Incoming as received;
ghost use Rattle.trace_events.specs.Words.{is_some_and};
ghost use Rattle.trace_events.specs.View.{Events, event_view};
ghost use Rattle.trace_events.specs.BestVerdict.{is_same_outcome};
ghost use Rattle.state_tables.specs.Connections.{IsLawfulNext};
ghost use Rattle.state_tables.specs.EndedLinks.{AreEnded, views};
ghost use Rattle.state_tables.specs.Copies.{AreDue};
ghost use Rattle.state_verdicts.specs.Verdicts.{AreGiven, AreMirrored, AreVerdicts, IsAwaited, MayGrow, awaits_in, comes_now, had_in, is_given, is_taken};

use crate::had::Had;
use amqp_perf::Outcome;
use http_server::Log;
use number_groups::Groups;
use number_map::NumberMap;
use std::alloc::{AllocError, Global};
use trace_events::{Event, Link};

/// The verdict of the copy of the delivery of this number on the link of that one.
#[derive(Clone, Copy)]
pub struct CopyVerdict {
    /// The number of the link.
    pub link: u64,
    /// The number of the delivery from a client.
    pub delivery: u64,
    /// What came of its copy there.
    pub outcome: Outcome,
}

/// The copies that await their verdict, and the verdicts that there are. Of those that were let go only proofs know.
pub struct Verdicts {
    /// By the number of a link the deliveries whose copies there await their verdict.
    on_link: Groups<u64>,
    /// By the number of a delivery the links on which its copies do.
    pub(crate) of_delivery: Groups<u64>,
    /// By the number of a delivery the verdicts of its copies.
    pub(crate) had: NumberMap<u64, Had>,
    /// The numbers of the deliveries whose verdicts were let go. They take no memory.
    let_go: Log<u64, ()>,
}

// Written out, and not derived, so that where one is let go the prover need not go through all that it owns.
impl Drop for Verdicts {
    fn drop(self) {
        let Verdicts {
            on_link: _,
            of_delivery: _,
            had: _,
            let_go: _,
        } = self;
    }
}

impl Verdicts {
    /// No records.
    pub fn new(alloc: Global) -> Verdicts
        ensures table { (rules : RuleSet) → AreVerdicts rules result [] }
        ensures gone { result.let_go.items ≡ [] }
    {
        Verdicts {
            on_link: Groups::new(alloc),
            of_delivery: Groups::new(alloc),
            had: NumberMap::new(alloc),
            let_go: Log::new(),
        }
    }

    /// By the number of a link the deliveries whose copies there await their verdict.
    pub fn on_link(&self) -> &Groups<u64>
        ensures { result.now ≡ self.now.on_link }
    {
        &self.on_link
    }

    /// The event follows those so far. To these links copies of what it completes come due; of those that were begun it gives
    /// these verdicts, of which those count whose copies await theirs; and these links live before it and end with it.
    ///
    /// # Errors
    ///
    /// Memory was refused, where a copy comes due or verdicts are given, or a link ends with a copy that awaits its verdict;
    /// then the table may agree with no records any more.
    pub fn take(
        &mut self,
        event: &Event,
        due: &[u64],
        given: &[CopyVerdict],
        ended: &[Link],
    ) -> Result<(), AllocError>
        ensures kept { OnOk result ((rules : RuleSet) (records : List Record) (r : Record) → IsLawfulNext rules records r (event_view event.now) →
            AreVerdicts rules self.old (history rules records) →
            AreDue rules (event_view event.now) (history rules records) due.now →
            AreGiven rules (event_view event.now) (history rules records) given.now →
            AreEnded (event_view event.now) (history rules records) (views ended.now) →
            AreVerdicts rules self.new (event_view event.now ∷ history rules records)) }
        ensures refused { OnErr result (MayGrow self.old (event_view event.now) due.now given.now (views ended.now)) }
        // The event lets none go.
        ensures gone { self.new.let_go.items ≡ self.old.let_go.items }
    {
        self.come(event, due)?;
        self.give(given)?;
        self.end(ended)?;
        Ok(())
    }

    /// The verdicts of the delivery of this number are let go, as it is itself. It takes no memory.
    pub fn let_go(&mut self, number: u64)
        ensures gone { self.new.let_go.items ≡ self.old.let_go.items ++ (number, tt) ∷ [] }
        // It has no verdict any more, and every other delivery has those that it had.
        ensures row { (outcome : Outcome) → had_in self.new number outcome ≡ false }
        ensures others { (n : ℕ) (outcome : Outcome) → (number == n) ≡ false → had_in self.new n outcome ≡ had_in self.old n outcome }
        ensures stands { (rules : RuleSet) (history : Events) → AreVerdicts rules self.old history → AreVerdicts rules self.new history }
    {
        let _ = self.had.swap_remove(&number);
        self.let_go = self.let_go.and(&number, &());
    }

    /// Copies of what the event completes await their verdict on these links.
    fn come(&mut self, event: &Event, due: &[u64]) -> Result<(), AllocError>
        ensures awaits { OnOk result ((link n : ℕ) → awaits_in self.new link n ≡ (comes_now (event_view event.now) due.now link n || awaits_in self.old link n)) }
        ensures had { OnOk result ((n : ℕ) (outcome : Outcome) → had_in self.new n outcome ≡ had_in self.old n outcome) }
        ensures mirrored { OnOk result (AreMirrored self.old → AreMirrored self.new) }
        ensures refused { OnErr result ((is_some (received.completed_by (event_view event.now)) ≡ true) × (0 < length due.now)) }
        ensures gone { self.new.let_go.items ≡ self.old.let_go.items }
    {
        if let Some(delivery) = event.completed_by() {
            self.await_on(delivery.number, due)?;
        }
        Ok(())
    }

    /// The copies of the delivery of this number await their verdict on these links.
    fn await_on(&mut self, number: u64, links: &[u64]) -> Result<(), AllocError>
        ensures awaits { OnOk result ((link n : ℕ) → awaits_in self.new link n ≡ ((number == n && list_any (λ m. m == link) links.now) || awaits_in self.old link n)) }
        ensures had { OnOk result ((n : ℕ) (outcome : Outcome) → had_in self.new n outcome ≡ had_in self.old n outcome) }
        ensures mirrored { OnOk result (AreMirrored self.old → AreMirrored self.new) }
        ensures refused { OnErr result (0 < length links.now) }
        ensures gone { self.new.let_go.items ≡ self.old.let_go.items }
    {
        for link in links {
            self.on_link.insert(*link, number)?;
            self.of_delivery.insert(number, *link)?;
        }
        Ok(())
    }

    /// Of these verdicts those are had whose copies await theirs; no copy that one of them is of awaits its verdict any more.
    fn give(&mut self, given: &[CopyVerdict]) -> Result<(), AllocError>
        ensures awaits { OnOk result ((link n : ℕ) → awaits_in self.new link n ≡ (awaits_in self.old link n && not (is_given given.now link n))) }
        ensures had { OnOk result ((n : ℕ) (outcome : Outcome) → had_in self.new n outcome ≡ (had_in self.old n outcome || list_any (is_taken self.old n outcome) given.now)) }
        ensures mirrored { OnOk result (AreMirrored self.old → AreMirrored self.new) }
        ensures refused { OnErr result (0 < length given.now) }
        ensures gone { self.new.let_go.items ≡ self.old.let_go.items }
    {
        self.note_all(given)?;
        self.remove_all(given);
        Ok(())
    }

    /// Of these verdicts those are had whose copies await theirs.
    fn note_all(&mut self, given: &[CopyVerdict]) -> Result<(), AllocError>
        ensures awaits { OnOk result ((link n : ℕ) → awaits_in self.new link n ≡ awaits_in self.old link n) }
        ensures had { OnOk result ((n : ℕ) (outcome : Outcome) → had_in self.new n outcome ≡ (had_in self.old n outcome || list_any (is_taken self.old n outcome) given.now)) }
        ensures mirrored { OnOk result (AreMirrored self.old → AreMirrored self.new) }
        ensures refused { OnErr result (0 < length given.now) }
        ensures gone { self.new.let_go.items ≡ self.old.let_go.items }
    {
        for verdict in given {
            self.note_awaited(verdict)?;
        }
        Ok(())
    }

    /// The verdict is had, if its copy awaits it.
    fn note_awaited(&mut self, verdict: &CopyVerdict) -> Result<(), AllocError>
        ensures awaits { OnOk result ((link n : ℕ) → awaits_in self.new link n ≡ awaits_in self.old link n) }
        ensures had { OnOk result ((n : ℕ) (outcome : Outcome) → had_in self.new n outcome ≡ (had_in self.old n outcome || is_taken self.old n outcome verdict.now)) }
        ensures mirrored { OnOk result (AreMirrored self.old → AreMirrored self.new) }
        ensures refused { OnErr result (awaits_in self.old verdict.now.link verdict.now.delivery ≡ true) }
        ensures gone { self.new.let_go.items ≡ self.old.let_go.items }
    {
        if self.on_link.has(&verdict.link, verdict.delivery) {
            self.note(verdict.delivery, verdict.outcome)?;
        }
        Ok(())
    }

    /// The copies that these are of do not await their verdicts any more.
    fn remove_all(&mut self, given: &[CopyVerdict])
        ensures awaits { (link n : ℕ) → awaits_in self.new link n ≡ (awaits_in self.old link n && not (is_given given.now link n)) }
        ensures had { (n : ℕ) (outcome : Outcome) → had_in self.new n outcome ≡ had_in self.old n outcome }
        ensures mirrored { AreMirrored self.old → AreMirrored self.new }
        ensures gone { self.new.let_go.items ≡ self.old.let_go.items }
    {
        for verdict in given {
            self.remove(verdict.link, verdict.delivery);
        }
    }

    /// The copy of this delivery on this link does not await its verdict any more.
    fn remove(&mut self, link: u64, delivery: u64)
        ensures awaits { (at n : ℕ) → awaits_in self.new at n ≡ (awaits_in self.old at n && not (link == at && (delivery == n))) }
        ensures had { (n : ℕ) (outcome : Outcome) → had_in self.new n outcome ≡ had_in self.old n outcome }
        ensures mirrored { AreMirrored self.old → AreMirrored self.new }
        ensures gone { self.new.let_go.items ≡ self.old.let_go.items }
    {
        self.on_link.remove(&link, delivery);
        self.of_delivery.remove(&delivery, link);
    }

    /// A copy of the delivery of this number has this verdict.
    fn note(&mut self, number: u64, verdict: Outcome) -> Result<(), AllocError>
        ensures awaits { (link n : ℕ) → awaits_in self.new link n ≡ awaits_in self.old link n }
        ensures had { OnOk result ((n : ℕ) (outcome : Outcome) → had_in self.new n outcome ≡ (had_in self.old n outcome || number == n && is_same_outcome outcome verdict)) }
        ensures mirrored { AreMirrored self.old → AreMirrored self.new }
        ensures refused { OnErr result ((outcome : Outcome) → had_in self.old number outcome ≡ false) }
        ensures gone { self.new.let_go.items ≡ self.old.let_go.items }
    {
        let had = match self.had.get(&number) {
            Some(had) => *had,
            None => Had::none(),
        };
        self.had.insert(number, had.and(verdict))?;
        Ok(())
    }

    /// What awaits its verdict on these links has it: modified.
    fn end(&mut self, ended: &[Link]) -> Result<(), AllocError>
        ensures awaits { OnOk result ((link n : ℕ) → awaits_in self.new link n ≡ (awaits_in self.old link n && not (list_any (λ l. l.number == link) ended.now))) }
        ensures had { OnOk result ((n : ℕ) (outcome : Outcome) → had_in self.new n outcome
            ≡ (had_in self.old n outcome || is_same_outcome outcome Modified && list_any (λ l. awaits_in self.old l.number n) ended.now)) }
        ensures mirrored { OnOk result (AreMirrored self.old → AreMirrored self.new) }
        ensures refused { OnErr result ((n : ℕ) × (list_any (λ l. awaits_in self.old l.number n) ended.now ≡ true)) }
        ensures gone { self.new.let_go.items ≡ self.old.let_go.items }
    {
        for link in ended {
            self.end_one(link.number)?;
        }
        Ok(())
    }

    /// What awaits its verdict on the link of this number has it: modified.
    fn end_one(&mut self, link: u64) -> Result<(), AllocError>
        ensures awaits { OnOk result ((at n : ℕ) → awaits_in self.new at n ≡ (awaits_in self.old at n && not (link == at))) }
        ensures had { OnOk result ((n : ℕ) (outcome : Outcome) → had_in self.new n outcome ≡ (had_in self.old n outcome || is_same_outcome outcome Modified && awaits_in self.old link n)) }
        ensures mirrored { OnOk result (AreMirrored self.old → AreMirrored self.new) }
        ensures refused { OnErr result (IsAwaited self.old link) }
        ensures gone { self.new.let_go.items ≡ self.old.let_go.items }
    {
        let mut left = self.on_link.count(&link);
        while left > 0 {
            left = self.end_first(link)?;
        }
        Ok(())
    }

    /// The first delivery that awaits its verdict on the link has it, if there is one: modified. How many do behind it.
    fn end_first(&mut self, link: u64) -> Result<usize, AllocError>
        ensures left { IfOk result (λ left. left ≡ length (numbers nat_eq self.new.on_link link)) }
        ensures fewer { IfOk result (λ left. left ≤ length (numbers nat_eq self.old.on_link link) - 1) }
        ensures others { OnOk result ((at n : ℕ) → (link == at) ≡ false → awaits_in self.new at n ≡ awaits_in self.old at n) }
        ensures within { OnOk result ((n : ℕ) → awaits_in self.new link n ≡ true → awaits_in self.old link n ≡ true) }
        ensures had { OnOk result ((n : ℕ) (outcome : Outcome) → had_in self.new n outcome
            ≡ (had_in self.old n outcome || is_same_outcome outcome Modified && (awaits_in self.old link n && not (awaits_in self.new link n)))) }
        ensures mirrored { OnOk result (AreMirrored self.old → AreMirrored self.new) }
        ensures refused { OnErr result (IsAwaited self.old link) }
        ensures gone { self.new.let_go.items ≡ self.old.let_go.items }
    {
        if let Some(delivery) = self.on_link.first(&link) {
            self.remove(link, delivery);
            self.note(delivery, Outcome::Modified)?;
        }
        Ok(self.on_link.count(&link))
    }
}
