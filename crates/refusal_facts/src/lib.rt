//! Why a record of a capture is refused, as values: what the clause that it breaks compares, and what the numbers were.
//!
//! - `reason`: what is answered: the record, the clause, and the facts that the clause compares;
//! - `payloads`: what facts are asked of, beyond the questions of `trace_judge`;
//! - `connection` (L1), `opening` (L2, L3), `transfer` (L4 to L7, L9), `payload` (L8), `flow` (L10), `outcome` (L11, L12) and
//!   `ending` (L13): the facts of each clause;
//! - `explaining`: the reason of an event, by any past that can be asked.
#![tactic(auto)]

mod connection;
mod ending;
mod explaining;
mod flow;
mod opening;
mod outcome;
mod payload;
mod payloads;
mod reason;
mod transfer;

pub use connection::{FrameFacts, WritingFacts};
pub use ending::{DetachFacts, EndFacts};
pub use explaining::explain;
pub use flow::{ConsumerNumbers, FlowFacts, FlowLink, ProducerNumbers, SessionNumbers};
pub use opening::{AttachFacts, BeginFacts};
pub use outcome::{Carrier, OutcomeFacts, SettlingFacts, ToldDelivery};
pub use payload::{Difference, PayloadFacts};
pub use payloads::Payloads;
pub use reason::{Facts, Reason};
pub use trace_events::{AskedAddress, Asking, Clause, Decision, Incoming, Link, Outgoing};
pub use trace_judge::Told;
pub use transfer::{BeginningFacts, CarryingFacts, GoingOnFacts, Named, OrderFacts, SendingFacts};
