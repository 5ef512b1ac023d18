//! Tables of what the records of a capture have come to, moved forward by one event after the other, so that none has to be
//! kept. Each look-up gives what `trace_events` says of all the events so far.
//!
//! - `unanswered`: what of a channel is still to be answered;
//! - `connection`: what a connection has come to, with its channels (`on_channels`);
//! - `connections`: all of them;
//! - `handle`: a handle of a live session, with its link (`counted_link`) and the client's attach (`held_attach`); `handles`:
//!   those of a session; `channels`: those of a connection; `links`: all of them; `ended_links`: those that an event ends;
//! - `held_link`: the link of a delivery that is kept; `own_octets`: its address, which stands in place where it is short
//!   (`in_place`);
//! - `gathered`: numbers that come into a set, as those of the deliveries that an event may touch;
//! - `answers`, `link_answers`: what they answer to the questions of `trace_judge`.
//!
//! Of the addresses (`addresses`, what is asked of their consumers):
//!
//! - `consumers`: by address the numbers of the live links of its consumers; `consumer_links`: by number these links themselves;
//! - `receivers`: to whose links a multicast delivery is to be copied;
//! - `copies`: the copies that are left to be sent, by the link the numbers of the deliveries.
//!
//! `LetGo` in `specs/` is of the tables of deliveries, in the crates above: which deliveries from clients one has let go.
#![tactic(auto)]

mod addresses;
mod answers;
mod channels;
mod connection;
mod connections;
mod consumer_links;
mod consumers;
mod copies;
mod counted_link;
mod ended_links;
mod gathered;
mod handle;
mod handles;
mod held_attach;
mod held_link;
mod in_place;
mod link_answers;
mod links;
mod on_channels;
mod own_octets;
mod receivers;
mod unanswered;

pub use addresses::Addresses;
pub use channels::Channels;
pub use connection::{Connection, ConnectionSummary};
pub use connections::Connections;
pub use consumer_links::ConsumerLinks;
pub use consumers::Consumers;
pub use copies::{Copies, Receiver, named_on_link};
pub use counted_link::CountedLink;
pub use gathered::{add_group, add_number};
pub use handle::Handle;
pub use handles::Handles;
pub use held_attach::{HeldAddress, HeldAttach};
pub use held_link::HeldLink;
pub use links::Links;
pub use on_channels::OnChannels;
pub use receivers::receivers_of;
pub use unanswered::Unanswered;
