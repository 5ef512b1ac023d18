//! The line of a record.

use crate::page::Page;
use amqp_perf::{Performative, message_to};
use capture_view::{AddressTold, Happened, LinkRole, LinkTold, RecordView, Said};
use pairing_cert::{Note, Why};
use std::alloc::AllocError;

impl Page {
    /// Appends the line of a record, whose frame names this link, or stands on a session that has begun. Where memory is
    /// refused the page stays as it was.
    pub fn put_record(
        &mut self,
        view: &RecordView<'_>,
        link: Option<LinkTold<'_>>,
        has_session: bool,
    ) -> Result<(), AllocError> {
        let start = self.text.len();
        let put = self.put_line(view, link, has_session);
        if put.is_err() {
            self.cut_to(start);
        }
        put
    }

    fn cut_to(&mut self, start: usize) {
        if self.text.is_char_boundary(start) {
            self.text.truncate(start);
        }
    }

    fn put_line(
        &mut self,
        view: &RecordView<'_>,
        link: Option<LinkTold<'_>>,
        has_session: bool,
    ) -> Result<(), AllocError> {
        write!(self.text, "{:>6} {:>3} ", view.number, view.connection)?;
        match view.happened {
            Happened::Opened => self.put("opened")?,
            Happened::Lost => self.put("lost")?,
            Happened::Broken => self.put("broken")?,
            Happened::In(said) => {
                self.put("in  ")?;
                self.put_said(view.connection, said, link, has_session)?;
                self.put_destination(said, link)?;
            }
            Happened::Out(said) => {
                self.put("out ")?;
                self.put_said(view.connection, said, link, has_session)?;
            }
        }
        self.put_note(view.note)?;
        self.put("\n")
    }

    fn put_said(
        &mut self,
        connection: u32,
        said: Said<'_>,
        link: Option<LinkTold<'_>>,
        has_session: bool,
    ) -> Result<(), AllocError> {
        match said {
            Said::NoFrame { flaw, at } => {
                self.put("- ")?;
                self.put_flaw(flaw, at)
            }
            Said::Empty { channel } => write!(self.text, "{channel} empty frame"),
            Said::NoPerformative { channel, fault, at } => {
                write!(self.text, "{channel} ")?;
                self.put_fault(fault, at)
            }
            Said::Says {
                channel,
                performative,
                rest,
            } => {
                write!(self.text, "{channel} ")?;
                self.put_performative(&performative)?;
                self.put_rest(&performative, rest.len())?;
                match link {
                    Some(told) => {
                        self.put("; ")?;
                        self.put_told(told)
                    }
                    None if has_session && is_of_session(&performative) => {
                        write!(self.text, "; session {connection}/{channel}")
                    }
                    None => Ok(()),
                }
            }
        }
    }

    /// Appends the address that the message of this transfer is for, where its producer's link has none and the message's whole
    /// properties stand in this part of it.
    fn put_destination(
        &mut self,
        said: Said<'_>,
        link: Option<LinkTold<'_>>,
    ) -> Result<(), AllocError> {
        let Said::Says {
            performative: Performative::Transfer(_),
            rest,
            ..
        } = said
        else {
            return Ok(());
        };
        match link {
            Some(
                LinkTold {
                    role: LinkRole::Producer,
                    address: AddressTold::Absent,
                    ..
                },
            ) => self.put_to(rest),
            _ => Ok(()),
        }
    }

    /// Appends the address in the properties of a message, where they name one.
    fn put_to(&mut self, payload: &[u8]) -> Result<(), AllocError> {
        match message_to(payload) {
            Some(to) => {
                self.put(" to=")?;
                self.put_text(to)
            }
            None => Ok(()),
        }
    }

    /// Appends how many octets stand behind a performative.
    fn put_rest(&mut self, performative: &Performative<'_>, len: usize) -> Result<(), AllocError> {
        match performative {
            Performative::Transfer(_) => write!(self.text, "; {len} octets"),
            _ if len == 0 => Ok(()),
            _ => write!(self.text, "; {len} octets behind it, passed over"),
        }
    }

    /// Appends a link: its name, which end of it the client is, and the address.
    pub fn put_told(&mut self, told: LinkTold<'_>) -> Result<(), AllocError> {
        self.put_text(told.name)?;
        self.put(match told.role {
            LinkRole::Producer => " producer → ",
            LinkRole::Consumer => " consumer ← ",
        })?;
        self.put_address(told.address)
    }

    fn put_address(&mut self, address: AddressTold<'_>) -> Result<(), AllocError> {
        match address {
            AddressTold::Absent => self.put("(no address)"),
            AddressTold::Text(text) => self.put_text(text),
            AddressTold::Other(octets) => {
                self.put("octets:")?;
                self.put_octets(octets)
            }
            AddressTold::Dynamic => self.put("(dynamic)"),
            AddressTold::Coordinator => self.put("(coordinator)"),
        }
    }

    fn put_note(&mut self, note: Note) -> Result<(), AllocError> {
        match note {
            Note::None => Ok(()),
            Note::Pair(delivery) => write!(self.text, "; carries {delivery}"),
            Note::Told(why) => {
                self.put("; told: ")?;
                self.put(match why {
                    Why::C => "consumer's outcome",
                    Why::Z => "consumer's outcome, shortened",
                    Why::S => "sent to a pre-settled link",
                    Why::L => "consumer's link over",
                    Why::N => "no consumer",
                    Why::M => "multicast",
                })
            }
        }
    }
}

/// Whether a performative is of a session, and not of one of its links alone or of its connection.
fn is_of_session(performative: &Performative<'_>) -> bool {
    matches!(
        performative,
        Performative::Begin(_)
            | Performative::Flow(_)
            | Performative::Disposition(_)
            | Performative::End(_)
    )
}
