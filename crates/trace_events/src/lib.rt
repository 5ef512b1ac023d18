//! The events of a capture, and the clauses of the law over them: what each record says, what the records before it say of
//! it, and what each record that the router has written must meet. Definitions that compute, in `specs/`, over a history of
//! events, the newest first; what one more event does to each of them, and what every lawful capture keeps, as lemmas over
//! plain variables, in `proofs/`; and events as values of code, each function of which computes the definition that its
//! contract names, and looks at no other event. Whatever judges records stands on them: duties, judge, tables, plain scans.
//!
//! Reading order in `specs/`: `Frame`, `Event`, `Said`; `Connection`, `Session`, `Link`, `Ends`, `Window`, `Credit`,
//! `Address`; `Disposition`, `Incoming`, `Outgoing`, `Waiting`, `Queue`, `Decided`, `Parts`, `Due`, `Settling`, `Work`;
//! `Heard`, `Fault`, `History`. Then the clauses: `Written`, `CopyVerdict`, `BestVerdict`, `Outcome`, `Telling`;
//! `ConnectionClause`, `SessionClause`, `LinkClause`, `TransferClause`, `FlowClause`, `DispositionClause`, `Clauses`,
//! `Verdict`; `Kept` at each event and `Laws` at every moment say what `laws` proves of lawful captures. Of the values:
//! `View` and `LinkEvents` what they stand for, `Answering` which answers fit an attach, and `Known` what is asked of the
//! past because of an event.
//!
//! In `proofs/`: the ruleset `kinds` of `EventKinds` says what each kind of event is to each test, `steps` of `Steps`
//! what each definition is after an event of which the tests are known, `history_steps` of `HistorySteps` what they ask
//! of a history, and `every_step` of `EveryStep` what is known of a delivery, as one equation for any event. So do
//! `settling_steps` of `SettlingSteps` of the deliveries to settle, and `due_steps` of `DueSteps` of the copies to send.
//! What tables need of the events of lawful captures: `LinkEnds`, `WaitingQueue`, `UndecidedCount`, `Pairs`,
//! `OutgoingProgress`, `BegunDeliveries`, `OutcomesToTell`, `SettlingList`, `UnsentCopies`, `CopiesCounted`, `FirstSent`,
//! `LinkOrder`, `VerdictSteps`, `AwaitedSteps`, `OneCopy`. And captures on which the definitions are computed:
//! `ClauseExamples`, `FaultExamples` one for each clause and fault, `ReadingExamples` for what tells one reading of a rule
//! from another, `VerdictExamples` and `RowExamples` for the verdicts of copies and what they tell.
//!
//! - `clause`, `tally`: the clauses by name, what a capture holds; `laws`: what each lawful capture keeps;
//! - `fault`: what a client may do wrong, and what answers it;
//! - `event`, `frame`, `said`: a record in its place, its octets, read, and what they say; `read_record` is a record, read once;
//! - `connection`, `session`, `window`: a session, named by the record of its begin; what ends a connection or a session, and
//!   moves its windows;
//! - `link`, `credit`, `address`, `asking`: what opens and ends a link, and moves its credit; how an address distributes;
//!   what an attach asks for, and which answers fit;
//! - `incoming`, `outgoing`, `disposition`: parts of deliveries, what settles them, and what a disposition decides.
//!
//! The past itself is asked by the crates above: `trace_judge` judges over questions, `trace_law` scans.
#![tactic(auto)]

mod address;
mod asking;
mod clause;
mod connection;
mod credit;
mod disposition;
mod event;
mod fault;
mod frame;
mod incoming;
mod laws;
mod link;
mod outgoing;
mod read_record;
mod said;
mod session;
mod tally;
mod window;

pub use address::has_multicast;
pub use asking::{AskedAddress, Asking, is_without_address};
pub use clause::Clause;
pub use credit::{LinkEvent, is_drain_answer};
pub use disposition::{Decision, is_decisive};
pub use event::{Event, Incoming, Link, Moment, Outgoing};
pub use fault::Fault;
pub use frame::{Body, Frame, Spoken};
pub use incoming::goes_on;
pub use laws::laws_of_captures;
pub use link::{address_at, opens_link, their_first_count};
pub use outgoing::names;
pub use read_record::{ReadRecord, moment_of};
pub use said::{handle_in, is_of_connection};
pub use session::Session;
pub use tally::Tally;
