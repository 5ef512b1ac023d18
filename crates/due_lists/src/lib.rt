//! Lists of a router's work, each found without a look at what is not due: the work that sessions and links ask for (windows
//! and credit to be given anew, deliveries to go on with, drains to be answered), the anycast deliveries that wait and may
//! begin, and the copies of multicast deliveries that are still to be sent. Each keeps candidates, among which is all that is
//! due, is moved forward by one event after the other, and answers what is due first, by the tables of `state_answers`: of
//! windows, parts, credit and drains what has the lowest number, of deliveries that wait and of copies what was completed
//! first. An event touches what belongs to it alone: its session, its link, those of its address that wait for it, and the
//! links without address where it ends a consumer's link at which deliveries wait. That the lowest number comes first is the
//! code's doing, shown by worked captures: neither law nor duties ask for it, so no clause says it.
//!
//! - `windows`: the sessions whose window is to be given anew;
//! - `parts`: the deliveries to consumers that may go on;
//! - `credits`: the links of producers that may be given more credit;
//! - `drains`: the links of consumers whose drain may be answered;
//! - `candidates`: what may be to do for one of these, in the order of its numbers.
//!
//! Of the deliveries that wait:
//!
//! - `waiting`: the list;
//! - `begin`: a delivery that is due to begin, as this list and that of copies answer it;
//! - `picks`: the consumer's link that a delivery of an address goes to;
//! - `queues`: the deliveries that wait at each address, in the order in which they were completed;
//! - `addresses_to_try`: the addresses to look at, among which are all where one may begin;
//! - `by_session`: the live links of consumers, by their sessions.
//!
//! Of the copies, of which the one to the link with the lowest number comes first where one delivery has several:
//!
//! - `copies`: the list;
//! - `unsent_numbers`: the numbers of the copies and of their links;
//! - `by_link`: the copies of each link, in the order of their completion;
//! - `copy_candidates`: the links that may be sent one, in the order of what they are to be sent.
//!
//! In `specs/`, each list has a file of its name, which says what it has; `Lacking`, `Standing`, `Topping` and `Draining` are
//! what the first four list, in the law's words. `AddressCounts` says what an event does to the links that are picked from,
//! and `Waking` which events bring an address among those to look at.
#![tactic(auto)]

mod addresses_to_try;
mod begin;
mod by_link;
mod by_session;
mod candidates;
mod copies;
mod copy_candidates;
mod credits;
mod drains;
mod parts;
mod picks;
mod queues;
mod unsent_numbers;
mod waiting;
mod windows;

pub use begin::DueBegin;
pub use copies::UnsentCopies;
pub use credits::Credits;
pub use drains::Drains;
pub use parts::{DeliveriesInProgress, DuePart};
pub use picks::Picks;
pub use queues::Queues;
pub use waiting::Waiting;
pub use windows::Windows;
