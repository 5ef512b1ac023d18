//! Captures made of others by damage: records are left out, repeated or exchanged, and octets changed. The auditor, which takes
//! a record after the other, and the plain checker, which asks about each by all those below it, have to say the same of them.

ghost use Rattle.std.specs.Prelude.{◌<◌, ◌≤◌, length, IfSome};

use audit_core::{Refusal, Tally, audit};
use capture_form::{Capture, Form, Reader, Reading, RuleSet, read_whole_records};
use kit_clients::Chance;
use std::alloc::{AllocError, Global};
use std::fmt;
use std::fmt::{Display, Formatter};
use trace_law::{slow_check, tally_capture};

/// Where the rules begin, in form One and in form Two.
const RULES_AT: usize = 10;

const RULES_BEHIND_MARK: usize = 11;

/// The octets of a record in front of its frame, and where the frame's length stands in them.
const RECORD_HEAD: usize = 18;

const LENGTH_AT: usize = 14;

/// Damage that is made anew and anew, the same in each run, and how what came of it is judged.
#[derive(Drop)]
pub struct Damage {
    chance: Chance,
    // How often each capture is damaged.
    often: u32,
    // How many of the captures that came of it are judged alike, and how many are not.
    alike: u64,
    otherwise: u64,
}

impl Damage {
    /// The first damage of this number, so often to each capture. Nothing is damaged yet.
    pub fn new(seed: u64, often: u32) -> Damage {
        Damage {
            chance: Chance::new(seed),
            often,
            alike: 0,
            otherwise: 0,
        }
    }

    /// Damages the text of a capture, and judges the captures that come of it. A text that has no head is left as it is.
    pub fn judge_damaged(&mut self, alloc: Global, text: &[u8]) -> Result<(), AllocError> {
        match head_of(alloc, text) {
            Some(head) => self.judge_behind(alloc, text, head),
            None => Ok(()),
        }
    }

    /// The same of a text whose records begin at this place.
    fn judge_behind(&mut self, alloc: Global, text: &[u8], head: usize) -> Result<(), AllocError> {
        for _ in 0..self.often {
            self.judge_next(alloc, text, head)?;
        }
        Ok(())
    }

    /// Damages the text of a capture whose records begin at this place once, and counts whether what comes of it is judged
    /// alike.
    fn judge_next(&mut self, alloc: Global, text: &[u8], head: usize) -> Result<(), AllocError> {
        let mut damaged = Vec::new(alloc);
        self.put_damaged(&mut damaged, text, head)?;
        self.count(is_judged_alike(alloc, damaged.as_slice()));
        Ok(())
    }

    /// Counts a capture that is judged alike, or one that is not.
    fn count(&mut self, is_alike: bool) {
        if is_alike {
            self.alike = self.alike.saturating_add(1);
        } else {
            self.otherwise = self.otherwise.saturating_add(1);
        }
    }

    /// Puts a text made of that of a capture whose records begin at this place: with one to three records left out, repeated or
    /// exchanged, and in one of two with an octet changed.
    fn put_damaged(
        &mut self,
        damaged: &mut Vec<u8>,
        text: &[u8],
        head: usize,
    ) -> Result<(), AllocError> {
        let (front, records) = text.split_at(head.min(text.len()));
        damaged.extend_from_slice(front)?;
        self.put_exchanged(damaged, records)?;
        if self.chance.below(2) == 0 {
            self.change_octet(damaged, head);
        }
        Ok(())
    }

    /// Puts records, of which one to three are left out, repeated or exchanged.
    fn put_exchanged(&mut self, out: &mut Vec<u8>, records: &[u8]) -> Result<(), AllocError> {
        let mut pieces = pieces_of(*out.allocator(), records)?;
        self.exchange_some(&mut pieces)?;
        put_pieces(out, pieces.as_slice())
    }

    /// Leaves one to three pieces out, repeats or exchanges them.
    fn exchange_some(&mut self, pieces: &mut Vec<&[u8]>) -> Result<(), AllocError> {
        for _ in 0..=self.chance.below(3) {
            self.exchange(pieces)?;
        }
        Ok(())
    }

    /// Leaves a piece out, repeats one somewhere, or exchanges two that stand side by side or anywhere.
    fn exchange(&mut self, pieces: &mut Vec<&[u8]>) -> Result<(), AllocError> {
        let count = pieces.len();
        if count == 0 {
            return Ok(());
        }
        let (one, other) = (self.chance.below(count), self.chance.below(count));
        match self.chance.below(4) {
            0 => {
                pieces.remove(one);
            }
            1 => pieces.insert(other, pieces[one])?,
            2 => pieces.swap(one, other),
            _ => pieces.swap(one, one.saturating_sub(1)),
        }
        Ok(())
    }

    /// Changes an octet behind the head.
    fn change_octet(&mut self, text: &mut [u8], head: usize) {
        let Some(count) = text.len().checked_sub(head) else {
            return;
        };
        if count > 0 {
            let place = head + self.chance.below(count);
            text[place] = self.chance.below(256) as u8;
        }
    }
}

impl Display for Damage {
    fn fmt<W: fmt::Write>(&self, f: &mut Formatter<W>) -> fmt::Result {
        write!(
            f,
            "damaged: {} judged alike, {} otherwise",
            self.alike, self.otherwise
        )
    }
}

/// Puts these pieces, one behind the other.
fn put_pieces(out: &mut Vec<u8>, pieces: &[&[u8]]) -> Result<(), AllocError> {
    for piece in pieces {
        out.extend_from_slice(piece)?;
    }
    Ok(())
}

/// Where the records begin in the text of a capture, if it has a head.
fn head_of(alloc: Global, text: &[u8]) -> Option<usize> {
    match Reader::start(alloc, text) {
        Ok((rules, _)) => Some(len_of_head(&rules)),
        Err(_) => None,
    }
}

/// How long what tells the form, the number of rules and these rules are.
fn len_of_head(rules: &RuleSet) -> usize {
    let mut len = match rules.form() {
        Form::One => RULES_AT,
        Form::Two { .. } => RULES_BEHIND_MARK,
    };
    for rule in rules.list() {
        len = len.saturating_add(rule.prefix.len()).saturating_add(3);
    }
    len
}

/// The texts of the records, as far as they are whole.
fn pieces_of(alloc: Global, records: &[u8]) -> Result<Vec<&[u8]>, AllocError> {
    let mut pieces = Vec::new(alloc);
    let mut rest = records;
    for _ in 0..records.len() {
        let Some(len) = len_of_first(rest) else {
            break;
        };
        let (piece, behind) = rest.split_at(len);
        pieces.push(piece)?;
        rest = behind;
    }
    Ok(pieces)
}

/// How long the first record is, if it is whole.
fn len_of_first(records: &[u8]) -> Option<usize>
    ensures { IfSome result (λ len. (0 < len) × (len ≤ length records.now)) }
{
    let head = records.get(..RECORD_HEAD)?;
    let length = head.get(LENGTH_AT..)?.first_chunk::<4>()?;
    let len = RECORD_HEAD.checked_add(u32::from_be_bytes(*length) as usize)?;
    records.get(..len)?;
    Some(len)
}

/// Whether the auditor and the plain checker say the same of the whole records in front of these octets.
fn is_judged_alike(alloc: Global, octets: &[u8]) -> bool {
    let Reading { capture, .. } = read_whole_records(alloc, octets);
    audit(alloc, &capture) == checked(&capture)
}

/// What the plain checker says of a capture: what it holds, or the first record that breaks a clause.
fn checked(capture: &Capture) -> Result<Tally, Refusal> {
    for number in 0..capture.records().len() {
        if let Err(clause) = slow_check(capture, number) {
            return Err(Refusal::Broken(number as u64, clause));
        }
    }
    Ok(tally_capture(capture))
}
