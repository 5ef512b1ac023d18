//! The words of the router's command line, and the lines that tell how a run ended.
//!
//! `amqp_router LISTEN CAPTURE WORKERS CONNECTIONS [RULE]...`. The modules, in reading order:
//!
//! - `words`: what the parser makes of the words, as texts and numbers
//! - `rule_words`: the rules that words spell, and whether one of them is `anonymous`
//! - `service`: what the router is to serve, after all words were looked into
//! - `fault`: what is wrong with words that the parser took
//! - `run_end`: how a run ended, with its line and its exit status
//! - `telling`: writing how a run ended where it belongs
#![tactic(auto)]

mod fault;
mod rule_words;
mod run_end;
mod service;
mod telling;
mod words;

pub use fault::WordsFault;
pub use run_end::RunEnd;
pub use service::Service;
pub use telling::tell;
pub use words::Words;
