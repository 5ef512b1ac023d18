//! Why a capture is refused, in words: one line that says what the clause asks, and a line for each thing that it compares.
//! No clause says what is printed; the runs of `corpus_captures` show it. Which records it names is a call of its own.
//!
//! - `explained`: a reason, with `opening`, `transfer`, `flow` and `outcome` for the clauses, and `clauses`, what each asks;
//! - `compared`: the records that it names;
//! - `malformed`: octets that are no capture;
//! - `text`: octets, names and flags as they are printed;
//! - `origins`, with `link` and `session`: where windows and credits come from, which is proved.
//!
//! `Origins` takes the records of a capture one after the other. Of the session that the router began last on a channel, as
//! long as no end stands there since, it knows the client's begin and last flow, and how many transfers the router has sent
//! since; of a link on that session, as long as no detach stands there since its attach, it knows its name, the client's
//! last flow with a link-credit, how many deliveries the router has begun since, and the router's answer to a drain. It
//! does not ask whether the connection is over. It takes memory for such sessions and links, and for each channel on
//! which a client has begun a session, and for nothing else.
#![tactic(auto)]

mod clauses;
mod compared;
mod explained;
mod flow;
mod link;
mod malformed;
mod opening;
mod origins;
mod outcome;
mod session;
mod text;
mod transfer;

pub use clauses::sentence;
pub use compared::{Compared, compared_with};
pub use explained::Explained;
pub use link::{Credited, LinkOrigin};
pub use malformed::{Around, Malformed, expected};
pub use origins::Origins;
pub use session::{Opened, SessionOrigin, Windowed};
