//! Addresses: by which rule the messages of each are distributed, which links its consumers have, and which of them a
//! delivery goes to.
//!
//! `Rules` are the rules of a router, and find the distribution of an address. `Table` keeps the links of consumers by
//! their addresses, and picks one. Whatever happened on the links, it has come to what the definitions of `flow_counts`
//! say of it, and each call counts one event more.
//!
//! In reading order: `fault` is why rules are refused; `rules`; `consumer` is one link; `address_links` has the links of one
//! address, in the order in which a balanced pick asks them too; `table` keeps them all; `history` counts whole lists of
//! events; `laws` says what the definitions come to.
#![tactic(auto)]

mod address_links;
mod consumer;
mod fault;
mod history;
mod laws;
mod rules;
mod table;

pub use consumer::Consumer;
pub use fault::RulesFault;
pub use history::{AddressEvent, table_after};
pub use laws::laws_of_tables;
pub use rules::Rules;
pub use table::Table;
