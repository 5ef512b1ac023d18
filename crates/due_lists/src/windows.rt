//! The live sessions that may be to be given their window anew (part 2 of the standard, section 2.5.6).

ghost use Rattle.std.specs.Prelude.{◌≡◌, ◌∷◌, List, [], Some, None, IfSome, OnOk, true};
ghost use Rattle.capture_form.specs.Rules.{RuleSet};
ghost use Rattle.capture_form.specs.declared.records.Record.{Record};
ghost use Rattle.trace_events.specs.declared.session.Session.{Session};
ghost use Rattle.trace_events.specs.History.{history};
ghost use Rattle.trace_duties.specs.Quiet.{none_lacks_window};
ghost use Rattle.state_tables.specs.Connections.{IsLawfulNext};
ghost use Rattle.state_answers.specs.Tables.{TellsOf};
ghost use Rattle.due_lists.specs.Lacking.{HasLowered, IsLacking};
ghost use Rattle.due_lists.specs.Windows.{HasLacking};
ghost use Rattle.trace_events.specs.View.{Events, event_view};

use crate::candidates::Candidates;
use flow_counts::RENEWAL_MARK;
use state_answers::LentTables;
use std::alloc::{AllocError, Global};
use trace_events::{Event, Session};
use trace_judge::Inputs;

/// The sessions that may lack window.
#[derive(Drop)]
pub struct Windows {
    sessions: Candidates<Session>,
}

impl Windows {
    /// No records.
    pub fn new(alloc: Global) -> Windows
        ensures { HasLacking result [] }
    {
        Windows {
            sessions: Candidates::new(alloc),
        }
    }

    /// The event follows; `before` are the tables without it.
    ///
    /// # Errors
    ///
    /// Memory was refused; then a session that lacks window may not be found.
    pub fn follow(&mut self, event: &Event, before: &LentTables<'_>) -> Result<(), AllocError>
        ensures { OnOk result ((rules : RuleSet) (records : List Record) (r : Record) → IsLawfulNext rules records r (event_view event.now) →
            TellsOf rules before.now (history rules records) → HasLacking self.old (history rules records) →
            HasLacking self.new (event_view event.now ∷ history rules records)) }
    {
        let Some(session) = lowered(event, before) else {
            return Ok(());
        };
        self.sessions.insert(session.number, session)
    }

    /// The live session with the lowest number whose window is to be given anew. Those below it are candidates no more.
    pub fn first_due(&mut self, tables: &LentTables<'_>) -> Option<Session>
        ensures due { IfSome result (λ s. (rules : RuleSet) (past : Events) → TellsOf rules tables.now past → IsLacking s past) }
        ensures kept { (rules : RuleSet) (past : Events) → TellsOf rules tables.now past → HasLacking self.old past → HasLacking self.new past }
        ensures quiet { (rules : RuleSet) (past : Events) → TellsOf rules tables.now past → HasLacking self.old past → result ≡ None →
            none_lacks_window past ≡ true }
    {
        while let Some((number, candidate)) = self.sessions.first() {
            if let Some(session) = lacking(candidate, tables) {
                return Some(session);
            }
            self.sessions.remove(number);
        }
        None
    }
}

/// The session on which the event stands, where it may lack window behind it.
fn lowered(event: &Event, before: &LentTables<'_>) -> Option<Session>
    ensures known { (rules : RuleSet) (records : List Record) (r : Record) → IsLawfulNext rules records r (event_view event.now) →
        TellsOf rules before.now (history rules records) → HasLowered result (event_view event.now) (history rules records) }
    ensures stands { (s : Session) → result ≡ Some s → (event_view event.now).session ≡ Some s }
{
    let session = event.session?;
    if before.given_window(session) <= RENEWAL_MARK + 1 {
        Some(session)
    } else {
        None
    }
}

/// The live session of the candidate's channel, where it is the candidate and lacks window.
#[inline(never)]
fn lacking(candidate: Session, tables: &LentTables<'_>) -> Option<Session>
    ensures due { IfSome result (λ s. (rules : RuleSet) (past : Events) → TellsOf rules tables.now past → IsLacking s past) }
    ensures found { (rules : RuleSet) (past : Events) → TellsOf rules tables.now past → IsLacking candidate past → result ≡ Some candidate }
{
    let session = tables.live_session(candidate.connection, candidate.channel)?;
    if session.number == candidate.number && tables.given_window(session) <= RENEWAL_MARK {
        Some(session)
    } else {
        None
    }
}
