//! The rules of a router, and the links of consumers at addresses.

use crate::counting::words::{joined, parts};
use address_table::{AddressEvent, Rules, RulesFault, Table, table_after};
use capture_form::{Distribution, Rule, read_capture};
use kit_cases::{Answer, Subject, behind, done, number, parted, told, word};
use std::alloc::{AllocError, Global};
use std::cell::Cell;
use std::mem;

/// The rules that are written so far, those of a router and others that are kept beside them; and the links.
#[derive(Drop)]
pub struct Addresses {
    alloc: Global,
    written: Vec<Rule>,
    rules: Option<Rules>,
    kept: Option<Rules>,
    table: Table,
}

impl Addresses {
    pub fn new(alloc: Global) -> Addresses {
        Addresses {
            alloc,
            written: Vec::new(alloc),
            rules: None,
            kept: None,
            table: Table::new(alloc),
        }
    }
}

impl Subject for Addresses {
    fn answer(&mut self, words: &[&str]) -> Answer {
        let (verb, rest) = parted(words);
        match verb {
            "rule" => {
                let prefix = joined(self.alloc, behind(rest, 1))?;
                self.write(distribution_of(word(rest, 0)), prefix)?;
            }
            "long-rules" => self.write_long(number(word(rest, 0)), number(word(rest, 1)))?,
            "rules" => return told(self.alloc, self.make_rules()),
            "anonymous" => return self.serve_anonymous(),
            "keep" => return self.keep(),
            "links" => return self.table_answer(rest),
            _ => return self.rules_answer(verb, rest),
        }
        done(self.alloc)
    }
}

impl Addresses {
    /// Another rule is written.
    fn write(&mut self, distribution: Distribution, prefix: String) -> Result<(), AllocError> {
        self.written.push(Rule {
            distribution,
            prefix,
        })?;
        Ok(())
    }

    /// So many rules are written whose prefixes differ and have so many octets.
    fn write_long(&mut self, count: u64, octets: u64) -> Result<(), AllocError> {
        let octets = octets as usize;
        for number in 0..count {
            let prefix = format!(in self.alloc; "{number:0octets$}")?;
            self.write(Distribution::Closest, prefix)?;
        }
        Ok(())
    }

    /// The rules that are written become those of the router, unless they are refused.
    fn make_rules(&mut self) -> Result<(), (RulesFault, u8)> {
        let written = mem::replace(&mut self.written, Vec::new(self.alloc));
        match Rules::new(written) {
            Ok(rules) => self.rules = Some(rules),
            Err(fault) => return Err((fault, fault.number())),
        }
        Ok(())
    }

    /// The router's rules say that anonymous senders are served.
    fn serve_anonymous(&mut self) -> Answer {
        let Some(rules) = self.rules.take() else {
            return Ok(None);
        };
        self.rules = Some(rules.with_anonymous());
        done(self.alloc)
    }

    /// The router's rules are kept beside it.
    fn keep(&mut self) -> Answer {
        let Some(rules) = &self.rules else {
            return Ok(None);
        };
        self.kept = Some(rules.copied(self.alloc)?);
        done(self.alloc)
    }

    /// What comes of a word about the router's rules, and those behind it.
    fn rules_answer(&self, verb: &str, rest: &[&str]) -> Answer {
        let Some(rules) = &self.rules else {
            return Ok(None);
        };
        match verb {
            "distribution" => {
                let address = joined(self.alloc, rest)?;
                told(self.alloc, rules.distribution(address.as_str()))
            }
            "empty-capture" => {
                let capture = rules.empty_capture(self.alloc)?;
                let (form, list) = (capture.rules().form(), capture.rules().list());
                told(self.alloc, (form, list.len(), capture.records().len()))
            }
            "serves-anonymous" => told(self.alloc, rules.serves_anonymous()),
            "are-of-form-one" => self.are_of_form_one(rules),
            "are-those-kept" => self.are_kept(rules),
            _ => Ok(None),
        }
    }

    /// Whether the rules are those of a capture of the kept ones, and the other way round.
    fn are_kept(&self, rules: &Rules) -> Answer {
        let Some(kept) = &self.kept else {
            return Ok(None);
        };
        let are_of_kept = rules.are_of(&kept.empty_capture(self.alloc)?);
        let are_of_these = kept.are_of(&rules.empty_capture(self.alloc)?);
        told(self.alloc, (are_of_kept, are_of_these))
    }

    /// Whether the rules are those of a capture of form One without rules.
    fn are_of_form_one(&self, rules: &Rules) -> Answer {
        let Ok(capture) = read_capture(self.alloc, b"AMQPCAP1\x00\x00") else {
            return Ok(None);
        };
        told(self.alloc, rules.are_of(&capture))
    }

    /// What comes of words about the links.
    fn table_answer(&mut self, words: &[&str]) -> Answer {
        let (verb, rest) = parted(words);
        match verb {
            "after" => self.table_after(rest),
            "many" => self.attach_many(rest),
            "then" => self.follow(rest),
            "consumers" => {
                let address = joined(self.alloc, rest)?;
                told(self.alloc, self.table.consumers(address.as_str()))
            }
            "pick" => self.pick(rest),
            "asks" => self.asked(rest),
            _ => Ok(None),
        }
    }

    /// The link that a delivery goes to whose address and distribution these words tell, where the link behind `but` may not
    /// be sent it.
    fn pick(&self, words: &[&str]) -> Answer {
        let distribution = distribution_of(word(words, 1));
        let but = word(words, 3).parse::<u64>().ok();
        let picked = self
            .table
            .pick(word(words, 0), distribution, |link| Some(link) != but);
        told(self.alloc, picked)
    }

    /// The link that a delivery goes to whose address and distribution these words tell, where the links up to the number
    /// behind them may not be sent it; and how many links were asked.
    fn asked(&self, words: &[&str]) -> Answer {
        let refused = number(word(words, 2));
        let asked = Cell::new(0u64);
        let picked = self
            .table
            .pick(word(words, 0), distribution_of(word(words, 1)), |link| {
                asked.set(asked.get().saturating_add(1));
                link > refused
            });
        told(self.alloc, (picked, asked.get()))
    }

    /// The links from 1 up to a number are attached to an address, one after the other, and there are no others; these words
    /// tell the address, the number and the address's distribution.
    fn attach_many(&mut self, words: &[&str]) -> Answer {
        let distribution = distribution_of(word(words, 2));
        self.table = Table::new(self.alloc);
        for before in 0..number(word(words, 1)) {
            self.table.attach(
                word(words, 0),
                before.saturating_add(1),
                false,
                distribution,
            )?;
        }
        done(self.alloc)
    }

    /// These events happen to the links that there are.
    fn follow(&mut self, words: &[&str]) -> Answer {
        for word in words {
            let Some(event) = address_event(parts(self.alloc, word)?.as_slice()) else {
                return Ok(None);
            };
            self.happen(event)?;
        }
        done(self.alloc)
    }

    /// The event happens to the links that there are.
    fn happen(&mut self, event: AddressEvent<'_>) -> Result<(), AllocError> {
        match event {
            AddressEvent::Attached {
                address,
                link,
                pre_settled,
            } => self
                .table
                .attach(address, link, pre_settled, Distribution::Balanced)?,
            AddressEvent::Detached { link } => self.table.detach(link),
            AddressEvent::Begun { link, number } => {
                if self.table.undecided(link) < u64::MAX {
                    self.table.begun(link, number);
                }
            }
            AddressEvent::Decided { link } => {
                if self.table.undecided(link) > 0 {
                    self.table.decided(link);
                }
            }
        }
        Ok(())
    }

    /// All of these events happen to no links.
    fn table_after(&mut self, words: &[&str]) -> Answer {
        let mut events = Vec::new(self.alloc);
        for word in words {
            let Some(event) = address_event(parts(self.alloc, word)?.as_slice()) else {
                return Ok(None);
            };
            events.push(event)?;
        }
        self.table = table_after(self.alloc, events.as_slice())?;
        done(self.alloc)
    }
}

/// The distribution of this name, balanced where there is none.
fn distribution_of(word: &str) -> Distribution {
    match word {
        "closest" => Distribution::Closest,
        "multicast" => Distribution::Multicast,
        _ => Distribution::Balanced,
    }
}

/// What happens to a link, by the parts of its word.
fn address_event<'a>(parts: &[&'a str]) -> Option<AddressEvent<'a>> {
    let (verb, rest) = parted(parts);
    let link = number(word(rest, 0));
    match verb {
        "attached" => Some(AddressEvent::Attached {
            address: word(rest, 0),
            link: number(word(rest, 1)),
            pre_settled: word(rest, 2) == "pre-settled",
        }),
        "detached" => Some(AddressEvent::Detached { link }),
        "begun" => Some(AddressEvent::Begun {
            link,
            number: number(word(rest, 1)),
        }),
        "decided" => Some(AddressEvent::Decided { link }),
        _ => None,
    }
}
