//! Performatives (part 2 of the standard, section 2.7): what a frame's body says. `Performative::read` is `Ok`
//! exactly where the octets begin with a list that is described as a performative, by its code or by its name, and
//! whose items fit the table of its fields; it then gives these fields and the octets behind it. Else it gives the
//! first fault, as `PerfFault` orders them. It takes no memory. A field that is absent is `None`; methods apply
//! the standard's defaults.
//!
//! - `fault`: what can be wrong;
//! - `descriptor`: what a descriptor names;
//! - `table`: the fields of each performative, in the standard's order;
//! - `fields`: a list's items, taken and checked as such fields;
//! - `checked`: the same in one go, without the name of a fault;
//! - `condition`: the names of errors;
//! - `state`, `terminus`: what is nested in a disposition and in an attach;
//! - `opening`, `begin`, `attach`, `flow`, `transfer`, `disposition`, `detach`: what each says; an end and a close
//!   say their error alone;
//! - `usual`: transfers, dispositions and flows in the form that most have, read in one go;
//! - `performative`: reading;
//! - `message`: the address that a message is for;
//! - `slot`: a field as it is written;
//! - `writing`: writing a performative;
//! - `router`: the performatives that the router writes.
#![tactic(auto)]

mod attach;
mod begin;
mod checked;
mod condition;
mod descriptor;
mod detach;
mod disposition;
mod fault;
mod fields;
mod flow;
mod message;
mod opening;
mod performative;
mod router;
mod slot;
mod state;
mod table;
mod terminus;
mod transfer;
mod usual;
mod writing;

pub use attach::{Attach, ReceiverSettleMode, Role, SenderSettleMode};
pub use begin::Begin;
pub use condition::ErrorCondition;
pub use descriptor::Outcome;
pub use detach::Detach;
pub use disposition::Disposition;
pub use fault::PerfFault;
pub use fields::{Fields, check_fields};
pub use flow::Flow;
pub use message::message_to;
pub use opening::Open;
pub use performative::Performative;
pub use slot::{Slot, put_fields};
pub use state::State;
pub use table::{Field, FieldType};
pub use terminus::{Address, Target, Terminus};
pub use transfer::Transfer;
pub use writing::{write_close, write_end};
