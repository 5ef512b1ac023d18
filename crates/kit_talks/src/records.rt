//! A record of a capture in words: all that a frame of the router says, and what is certified beside it.

use crate::words::Words;
use amqp_frames::FrameView;
use amqp_perf::{
    Address, Attach, Begin, Detach, Disposition, Flow, Open, Outcome, Performative, Role, State,
    Target, Terminus, Transfer,
};
use capture_form::{Record, What};
use flow_counts::MAX_FRAME_SIZE;
use pairing_cert::Note;
use std::alloc::{AllocError, Global};

/// The names of the records in which deliveries began.
#[derive(Drop)]
pub struct Names {
    names: Vec<(u64, String)>,
}

impl Names {
    /// No names.
    pub fn new(alloc: Global) -> Names {
        Names {
            names: Vec::new(alloc),
        }
    }

    /// The record of this number has the name.
    pub fn give(&mut self, number: u64, name: &str) -> Result<(), AllocError> {
        let name = String::from_str(*self.names.allocator(), name)?;
        self.names.push((number, name))?;
        Ok(())
    }

    /// The record of this name.
    pub fn number(&self, name: &str) -> Option<u64> {
        for named in self.names.iter() {
            if named.1.as_str() == name {
                return Some(named.0);
            }
        }
        None
    }

    /// The name of the record, or a sign for one without.
    fn of(&self, number: u64) -> &str {
        for named in self.names.iter() {
            if named.0 == number {
                return named.1.as_str();
            }
        }
        "?"
    }
}

/// Words that grow.
#[derive(Drop)]
pub struct Telling {
    text: String,
}

impl Telling {
    /// These words, of which more are to come.
    pub fn new(text: String) -> Telling {
        Telling { text }
    }

    /// All words.
    pub fn into_text(self) -> String {
        self.text
    }

    /// A word.
    pub fn word(&mut self, word: &str) -> Result<(), AllocError> {
        self.text.push_str(" ")?;
        self.text.push_str(word)
    }

    /// A word with a name.
    pub fn value(&mut self, name: &str, value: &str) -> Result<(), AllocError> {
        self.word(name)?;
        self.text.push_str("=")?;
        self.text.push_str(value)
    }

    /// A number with a name; a sign where it is absent.
    pub fn number(&mut self, name: &str, number: Option<u32>) -> Result<(), AllocError> {
        self.count(name, number.map(u64::from))
    }

    /// The same, of a number that may be larger.
    pub fn count(&mut self, name: &str, number: Option<u64>) -> Result<(), AllocError> {
        let alloc = *self.text.allocator();
        match number {
            Some(number) => self.value(name, format!(in alloc; "{number}")?.as_str()),
            None => self.value(name, "-"),
        }
    }

    /// A word where something holds, the same with `not-` where it doesn't.
    pub fn fact(&mut self, word: &str, holds: bool) -> Result<(), AllocError> {
        if holds {
            return self.word(word);
        }
        self.word("not-")?;
        self.text.push_str(word)
    }

    /// Facts, one after the other.
    pub fn facts(&mut self, facts: &[(&str, bool)]) -> Result<(), AllocError> {
        for fact in facts {
            self.fact(fact.0, fact.1)?;
        }
        Ok(())
    }

    /// Numbers, one after the other.
    pub fn numbers(&mut self, numbers: &[(&str, Option<u64>)]) -> Result<(), AllocError> {
        for number in numbers {
            self.count(number.0, number.1)?;
        }
        Ok(())
    }

    /// The same of numbers that are no larger than what a frame tells.
    ///
    /// They are values of one list, here and above: where each is put by a call of its own, each of these is a way out.
    fn small_numbers(&mut self, numbers: &[(&str, Option<u32>)]) -> Result<(), AllocError> {
        for number in numbers {
            self.number(number.0, number.1)?;
        }
        Ok(())
    }

    /// The same, and nothing where it isn't said.
    fn flag(&mut self, word: &str, said: Option<bool>) -> Result<(), AllocError> {
        match said {
            Some(holds) => self.fact(word, holds),
            None => Ok(()),
        }
    }

    pub fn role(&mut self, role: Role) -> Result<(), AllocError> {
        self.word(match role {
            Role::Sender => "sender",
            Role::Receiver => "receiver",
        })
    }

    fn open(&mut self, open: Open<'_>) -> Result<(), AllocError> {
        self.word("open")?;
        self.value("container", open.container_id)?;
        self.small_numbers(&[
            ("frame", open.max_frame_size),
            ("channels", open.channel_max.map(u32::from)),
        ])
    }

    fn begin(&mut self, begin: Begin) -> Result<(), AllocError> {
        self.word("begin")?;
        self.small_numbers(&[
            ("remote", begin.remote_channel.map(u32::from)),
            ("first-out", Some(begin.next_outgoing_id)),
            ("window", Some(begin.incoming_window)),
            ("handles", begin.handle_max),
        ])
    }

    fn attach(&mut self, attach: Attach<'_>) -> Result<(), AllocError> {
        self.word("attach")?;
        self.value("name", attach.name)?;
        self.number("handle", Some(attach.handle))?;
        self.role(attach.role)?;
        self.small_numbers(&[
            (
                "snd",
                attach.snd_settle_mode.map(|mode| u32::from(mode as u8)),
            ),
            (
                "rcv",
                attach.rcv_settle_mode.map(|mode| u32::from(mode as u8)),
            ),
        ])?;
        self.terminus("source", attach.source)?;
        self.target(attach.target)?;
        self.number("count", attach.initial_delivery_count)
    }

    fn target(&mut self, target: Option<Target<'_>>) -> Result<(), AllocError> {
        match target {
            Some(Target::Coordinator) => self.value("target", "coordinator"),
            Some(Target::Terminus(target)) => self.terminus("target", Some(target)),
            None => self.terminus("target", None),
        }
    }

    fn terminus(&mut self, name: &str, terminus: Option<Terminus<'_>>) -> Result<(), AllocError> {
        let Some(terminus) = terminus else {
            return self.value(name, "-");
        };
        self.flag("dynamic", terminus.dynamic)?;
        match terminus.address {
            Some(Address::Text(text)) => self.value(name, text),
            Some(Address::Other(_)) => self.value(name, "numbered"),
            None => self.value(name, "nameless"),
        }
    }

    fn flow(&mut self, flow: Flow) -> Result<(), AllocError> {
        self.word("flow")?;
        self.small_numbers(&[
            ("awaited", flow.next_incoming_id),
            ("window", Some(flow.incoming_window)),
            ("first-out", Some(flow.next_outgoing_id)),
            ("handle", flow.handle),
            ("count", flow.delivery_count),
            ("credit", flow.link_credit),
        ])?;
        self.word(if flow.drains() { "drain" } else { "not-drain" })
    }

    fn transfer(&mut self, transfer: Transfer<'_>, payload: &[u8]) -> Result<(), AllocError> {
        self.word("transfer")?;
        self.small_numbers(&[
            ("handle", Some(transfer.handle)),
            ("id", transfer.delivery_id),
            ("format", transfer.message_format),
        ])?;
        self.flag("settled", transfer.settled)?;
        self.flag("more", transfer.more)?;
        self.number("payload", u32::try_from(payload.len()).ok())
    }

    fn disposition(&mut self, disposition: Disposition<'_>) -> Result<(), AllocError> {
        self.word("disposition")?;
        self.role(disposition.role)?;
        self.small_numbers(&[
            ("first", Some(disposition.first)),
            ("last", disposition.last),
        ])?;
        self.flag("settled", disposition.settled)?;
        match disposition.state {
            Some(state) => self.state(state),
            None => self.value("state", "-"),
        }
    }

    /// A state, by its name and how many octets it has.
    fn state(&mut self, state: State<'_>) -> Result<(), AllocError> {
        let name = match state.outcome() {
            Some(Outcome::Accepted) => "accepted",
            Some(Outcome::Rejected) => "rejected",
            Some(Outcome::Released) => "released",
            Some(Outcome::Modified) => "modified",
            None => "unfinished",
        };
        self.value("state", name)?;
        self.number("octets", u32::try_from(state.raw().len()).ok())
    }

    fn detach(&mut self, detach: Detach<'_>) -> Result<(), AllocError> {
        self.word("detach")?;
        self.number("handle", Some(detach.handle))?;
        self.flag("closed", detach.closed)?;
        self.value("error", detach.error.unwrap_or("-"))
    }

    fn ending(&mut self, word: &str, error: Option<&str>) -> Result<(), AllocError> {
        self.word(word)?;
        self.value("error", error.unwrap_or("-"))
    }

    /// What a frame says, and its payload.
    fn said(&mut self, said: Performative<'_>, payload: &[u8]) -> Result<(), AllocError> {
        match said {
            Performative::Open(open) => self.open(open),
            Performative::Begin(begin) => self.begin(begin),
            Performative::Attach(attach) => self.attach(attach),
            Performative::Flow(flow) => self.flow(flow),
            Performative::Transfer(transfer) => self.transfer(transfer, payload),
            Performative::Disposition(disposition) => self.disposition(disposition),
            Performative::Detach(detach) => self.detach(detach),
            Performative::End(error) => self.ending("end", error),
            Performative::Close(error) => self.ending("close", error),
        }
    }

    /// What the octets of a frame say, and how many there are.
    fn frame(&mut self, octets: &[u8]) -> Result<(), AllocError> {
        let Some(view) = FrameView::whole(octets, MAX_FRAME_SIZE) else {
            return self.word("torn");
        };
        match Performative::read(view.body()) {
            Ok((said, payload)) => self.said(said, payload)?,
            Err(_) => self.word("nonsense")?,
        }
        self.small_numbers(&[
            ("channel", Some(u32::from(view.channel()))),
            ("size", u32::try_from(octets.len()).ok()),
        ])
    }

    /// What happened.
    fn happened(&mut self, what: &What) -> Result<(), AllocError> {
        match what {
            What::Opened => self.word("opened"),
            What::Broken => self.word("broken"),
            What::Lost => self.word("lost"),
            What::In(frame) => {
                self.word(">")?;
                self.frame(frame.octets())
            }
            What::Out(frame) => {
                self.word("<")?;
                self.frame(frame.octets())
            }
        }
    }

    /// What is certified.
    fn note(&mut self, note: Note, names: &Names) -> Result<(), AllocError> {
        match note {
            Note::None => Ok(()),
            Note::Pair(number) => self.value("pair", names.of(number)),
            Note::Told(why) => {
                let alloc = *self.text.allocator();
                self.value("told", format!(in alloc; "{why:?}")?.as_str())
            }
        }
    }
}

/// A record in words, in the order of a scenario's lines.
pub fn told(alloc: Global, entry: &Record, names: &Names) -> Result<String, AllocError> {
    let connection = entry.connection;
    let mut telling = Telling {
        text: format!(in alloc; "{connection}")?,
    };
    telling.happened(&entry.what)?;
    telling.note(entry.note, names)?;
    Ok(telling.text)
}

/// Whether a record in words has each word of the line, and the line tells what is certified beside it.
pub fn is_told_by(record: &Words<'_>, line: &Words<'_>) -> bool {
    record.value("pair") == line.value("pair")
        && record.value("told") == line.value("told")
        && line
            .all()
            .iter()
            .all(|word| word.starts_with("times=") || record.has(word))
}
