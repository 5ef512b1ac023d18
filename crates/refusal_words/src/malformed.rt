//! Octets that are no capture, in words.

use capture_form::FormKind;
use std::fmt;

/// The octets around a fault, and the offset of the first of them.
#[derive(Clone, Copy)]
pub struct Around<'a> {
    pub first: u64,
    pub octets: &'a [u8],
}

/// A fault of a capture's text: where the rule or record begins that has it, which it is, and the octets from there on, if
/// they are at hand. Its text has several lines, without a newline at the end.
#[derive(Clone, Copy)]
pub struct Malformed<'a> {
    pub offset: u64,
    pub kind: FormKind,
    pub around: Option<Around<'a>>,
}

/// What is expected where a fault of this kind is.
pub fn expected(kind: FormKind) -> &'static str {
    match kind {
        FormKind::Magic =>
            "the eight octets \"AMQPCAP1\" or \"AMQPCAP2\", with which a capture begins",
        FormKind::Rules =>
            "behind \"AMQPCAP2\" a mark of 0 or 1, and at most 64 rules, each a distribution (0 closest, 1 balanced, 2 multicast) and a prefix of 1 to 160 octets of text, each prefix once",
        FormKind::Kind => "a record whose kind is one of the five: opened, in, out, lost, broken",
        FormKind::Note =>
            "a note of 0 to 7, with an index only where it names a delivery, and only on a frame of the router",
        FormKind::Length =>
            "a frame of at most 16384 octets in an in or out, and of none elsewhere",
        FormKind::Truncated =>
            "more octets: the capture ends within the mark, the number of rules, a rule or a record",
        FormKind::Memory => "memory for a rule or a record, which was refused",
        FormKind::Read => "more octets, which could not be read",
    }
}

/// How many octets stand in a line.
const IN_LINE: usize = 16;

impl fmt::Display for Malformed<'_> {
    fn fmt<W: fmt::Write>(&self, f: &mut fmt::Formatter<W>) -> fmt::Result {
        let offset = self.offset;
        write!(
            f,
            "no capture from offset {offset} on: {}\nexpected: {}",
            self.kind,
            expected(self.kind)
        )?;
        match &self.around {
            Some(around) => write_around(f, around),
            None => Ok(()),
        }
    }
}

/// The octets, some in each line behind their offset.
fn write_around<W: fmt::Write>(f: &mut fmt::Formatter<W>, around: &Around) -> fmt::Result {
    let mut offset = around.first;
    for line in around.octets.chunks(IN_LINE) {
        write!(f, "\noctets from {offset}:")?;
        write_octets(f, line)?;
        offset = offset.saturating_add(line.len() as u64);
    }
    Ok(())
}

fn write_octets<W: fmt::Write>(f: &mut fmt::Formatter<W>, octets: &[u8]) -> fmt::Result {
    for octet in octets {
        write!(f, " {octet:02x}")?;
    }
    Ok(())
}
