//! What the router is to serve.

use crate::fault::WordsFault;
use crate::rule_words::{ask_anonymous, rules_in};
use crate::words::Words;
use address_table::Rules;
use std::alloc::Global;
use std::net::SocketAddrV4;

/// What the words ask the router to serve.
#[derive(Debug, Drop)]
pub struct Service<'a> {
    /// Where to listen.
    pub address: SocketAddrV4,
    /// The path of the file that the capture is to be written to.
    pub capture: &'a str,
    /// How many threads are to serve.
    pub workers: u8,
    /// How many connections are to be served.
    pub connections: u16,
    /// By which rules the messages are distributed, and whether anonymous senders are served.
    pub rules: Rules,
}

impl<'a> Service<'a> {
    ghost use Rattle.std.specs.Prelude.{◌≡◌, ◌↔◌, IfOk, IfErr};
    ghost use Rattle.router_words.specs.Service.{HasAddress, IsFaultOf, IsServiceOf};

    /// Looks into the words: at the address, then at each rule's word, then at all rules.
    pub fn from_words(alloc: Global, words: &Words<'a>) -> Result<Service<'a>, WordsFault>
        ensures service { IfOk result (IsServiceOf words.now) }
        ensures address { (result ≡ Err WordsFault.BadAddress) ↔ ¬ (HasAddress words.now.listen.now) }
        ensures fault { IfErr result (IsFaultOf words.now) }
    {
        let Ok(address) = words.listen.parse::<SocketAddrV4>() else {
            return Err(WordsFault::BadAddress);
        };
        let plain = Rules::new(rules_in(alloc, &words.rules)?)?;
        let rules = if ask_anonymous(&words.rules) {
            plain.with_anonymous()
        } else {
            plain
        };
        Ok(Service {
            address,
            capture: words.capture,
            workers: words.workers,
            connections: words.connections,
            rules,
        })
    }
}
