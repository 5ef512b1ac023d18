//! What the records of a capture say, as values with named fields, and what several of them come to.
//!
//! `view_of` looks at one record: its number, its connection, what happened, and its note. The octets of a frame are
//! read by `said_by`: a performative with its fields, or the first reason why they are none, and where that stands.
//! `condition_told` finds the condition of the error that a rejected state tells, `modified_told` what a modified one says of its
//! delivery; `outcome_name` is the name of an outcome. None of these takes memory.
//!
//! What follows takes records one after the other:
//!
//! - `Names` knows for each handle what its last attach told, in whichever direction, until a begin of its channel; `link_told` is
//!   what an attach tells of its link: the name, which end of it the client is, and the address. It takes memory for each
//!   handle that an attach named and each channel that a begin did, and for nothing else;
//! - `Totals` counts records by what happened, the transfers in both directions, the octets of their payloads, and, in a
//!   `TotalsByRow`, the outcomes that were told, by the rows of their notes: its numbers are those of `counted` over them;
//! - a `Choice` has up to five tests, all of which must hold of a record. `Trail` follows one delivery from a client: its
//!   parts, the transfers that carry it, the dispositions that name it, and its outcome;
//! - `Ids` are ids of deliveries by the channel that they are in use on, each with a value of the caller's, in order, so that
//!   those that a disposition covers are found without a look at the others. Ids are serial numbers: a range from its first
//!   to its last may go round the end of the numbers (RFC 1982).
//!
//! In reading order: `said`, `view`, `state`; `told`, `link`, `names`; `rows`, `totals`; `ids`, `choice`, `trail`.
#![tactic(auto)]

mod choice;
mod ids;
mod link;
mod names;
mod rows;
mod said;
mod state;
mod told;
mod totals;
mod trail;
mod view;

pub use choice::{Choice, Traits};
pub use ids::{Ids, Scope, Sender};
pub use link::{Link, LinkAddress};
pub use names::{ChannelKey, LinkKey, Names, key_of};
pub use rows::TotalsByRow;
pub use said::{FrameFlaw, Said, said_by};
pub use state::{ModifiedTold, condition_told, modified_told, outcome_name};
pub use told::{AddressTold, LinkRole, LinkTold, Writer, link_told};
pub use totals::Totals;
pub use trail::Trail;
pub use view::{Happened, RecordView, view_of};
