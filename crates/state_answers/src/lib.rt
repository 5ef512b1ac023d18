//! The tables that auditor and router share, as the one who answers the questions of `trace_judge`.
//!
//! - `tables`: all tables, moved forward by one event after the other;
//! - `lent_tables`: the same, lent to be asked, with `outcomes` and `carriage`;
//! - `completed`: the address of the delivery that an event completes;
//! - `closings`: what the table of deliveries from clients tells that of deliveries to clients;
//! - `effects`: what an event does to links and deliveries, worked out once for all lists that follow it;
//! - `listed`: the numbers of a set as a list;
//! - `adding`: what becomes a candidate of a list that follows events.
#![tactic(auto)]

mod adding;
mod closings;
mod completed;
mod effects;
mod lent_tables;
mod listed;
mod tables;

pub use adding::{add, add_all, add_group, add_octet_group, add_of_links};
pub use completed::{CompletedAddress, completed_for};
pub use effects::EventEffects;
pub use lent_tables::LentTables;
pub use tables::Tables;
