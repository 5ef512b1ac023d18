//! An engine, and what is done to it.

use crate::lines::names::{Names, put_word};
use crate::lines::router::{Cue, Scripted};
use capture_form::What;
use conn_engine::{Engine, EngineFault, PortFault};
use route_items::StepFault;
use std::alloc::{AllocError, Global};
use std::mem;

/// The number of the connection.
const CONNECTION: u32 = 7;

/// An engine, and what the next one's router is to do.
#[derive(Drop)]
pub(crate) struct Bench {
    alloc: Global,
    names: Names,
    cues: Vec<Cue>,
    refusal: Option<(usize, PortFault)>,
    engine: Engine<Scripted>,
}

impl Bench {
    /// An engine over a router that gives nothing.
    pub(crate) fn new(alloc: Global) -> Bench {
        let port = Scripted::new(alloc, CONNECTION, Vec::new(alloc), None);
        Bench {
            alloc,
            names: Names::new(alloc),
            cues: Vec::new(alloc),
            refusal: None,
            engine: Engine::new(alloc, CONNECTION, port),
        }
    }

    /// Does what a line says of which nothing comes: a name for octets, a frame that the next router gives or an item that it
    /// refuses, and the next engine.
    pub(crate) fn prepare(&mut self, line: &str) -> Result<(), AllocError> {
        let words: Vec<&str> = line.split_whitespace().collect(self.alloc)?;
        match words.as_slice() {
            ["octets", name, digits] => self.names.give(name, digits),
            ["cue", items, names @ ..] => {
                let frame = self.names.octets_of(names)?;
                let items = number(items);
                self.cues.push(Cue { items, frame })?;
                Ok(())
            }
            ["refuses", place, fault] => {
                self.refusal = Some((number(place), fault_of(fault)));
                Ok(())
            }
            ["engine"] => {
                self.begin();
                Ok(())
            }
            _ => Ok(()),
        }
    }

    /// Takes the next engine, over a router that does what was said before.
    fn begin(&mut self) {
        let cues = mem::replace(&mut self.cues, Vec::new(self.alloc));
        let port = Scripted::new(self.alloc, CONNECTION, cues, self.refusal.take());
        self.engine = Engine::new(self.alloc, CONNECTION, port);
    }

    /// What comes of a line.
    pub(crate) fn answer(&mut self, said: &str) -> Result<String, AllocError> {
        let alloc = self.alloc;
        let words: Vec<&str> = said.split_whitespace().collect(alloc)?;
        match words.as_slice() {
            ["feed", names @ ..] => self.feed(usize::MAX, names),
            ["pieces", most, names @ ..] => self.feed(number(most), names),
            ["refill"] => match self.engine.refill() {
                Ok(()) => "taken".to_string(alloc),
                Err(_) => "no memory".to_string(alloc),
            },
            ["waits"] => self.names.of(self.engine.give()),
            ["gave", count] => self.gave(number(count)),
            ["gone"] => taken(alloc, self.engine.gone()),
            ["tick", moment] => match self.engine.tick(number(moment) as u64) {
                Ok(placed) => format!(in alloc; "{placed}"),
                Err(_) => "no memory".to_string(alloc),
            },
            ["over"] => format!(in alloc; "{}", self.engine.is_over()),
            ["items"] => self.items(),
            _ => "no such line".to_string(alloc),
        }
    }

    /// Feeds the octets of the names in pieces of at most so many octets: the first fault, if there is one.
    fn feed(&mut self, most: usize, names: &[&str]) -> Result<String, AllocError> {
        let octets = self.names.octets_of(names)?;
        if octets.is_empty() {
            return taken(self.alloc, self.engine.feed(&[]));
        }
        for piece in octets.chunks(most.max(1)) {
            if let Err(fault) = self.engine.feed(piece) {
                return taken(self.alloc, Err(fault));
            }
        }
        taken(self.alloc, Ok(()))
    }

    /// So many octets were given, or all: what waits behind them.
    fn gave(&mut self, count: usize) -> Result<String, AllocError> {
        let count = count.min(self.engine.give().len());
        self.engine.gave(count);
        self.names.of(self.engine.give())
    }

    /// What the router took, and then there is no engine but a new one.
    fn items(&mut self) -> Result<String, AllocError> {
        let port = Scripted::new(self.alloc, CONNECTION, Vec::new(self.alloc), None);
        let next = Engine::new(self.alloc, CONNECTION, port);
        let port = mem::replace(&mut self.engine, next).into_port();
        let mut text = String::new(self.alloc);
        for item in port.items() {
            match item {
                What::Opened => put_word(&mut text, "opened")?,
                What::Broken => put_word(&mut text, "broken")?,
                What::Lost => put_word(&mut text, "lost")?,
                What::In(frame) | What::Out(frame) => {
                    put_word(&mut text, self.names.of(frame.octets())?.as_str())?;
                }
            }
        }
        if text.is_empty() {
            put_word(&mut text, "-")?;
        }
        Ok(text)
    }
}

/// The number that a word tells; of `all` it is the greatest.
fn number(word: &str) -> usize {
    word.parse::<usize>().unwrap_or(usize::MAX)
}

/// The fault that a word names.
fn fault_of(word: &str) -> PortFault {
    match word {
        "full" => PortFault::Step(StepFault::Full),
        "unknown" => PortFault::Step(StepFault::UnknownConn),
        "failed" => PortFault::Step(StepFault::Failed),
        "stopped" => PortFault::Step(StepFault::Memory),
        _ => PortFault::Memory,
    }
}

/// Whether octets or a loss were taken, or the number and the name of the fault.
fn taken(alloc: Global, answer: Result<(), EngineFault>) -> Result<String, AllocError> {
    match answer {
        Ok(()) => "taken".to_string(alloc),
        Err(fault) => format!(in alloc; "{} {fault:?}", fault.number()),
    }
}
