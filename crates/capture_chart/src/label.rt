//! What stands beside an arrow: the number of the record, which performative its octets are, and the fields of that which
//! matter most.

use crate::topic::topic_of;
use amqp_perf::{Disposition, Flow, Outcome, Performative, Transfer};
use capture_view::{Happened, RecordView, Said};
use capture_words::Page;
use std::alloc::{AllocError, Global};

/// At how many characters a label is cut, so that it ends in front of the first lane of a connection: a character of 11 pixels
/// is less than 7 wide.
const MOST: usize = 42;

/// How many characters of a text of the capture stand in it.
const NAME: usize = 24;

/// The label of a record.
pub(crate) fn label_of(alloc: Global, view: &RecordView<'_>) -> Result<String, AllocError> {
    let mut page = Page::new(alloc, Some(NAME));
    page.put_number(view.number)?;
    page.put(" ")?;
    page.put(topic_of(view.happened).words())?;
    match view.happened {
        Happened::In(said) | Happened::Out(said) => put_said(&mut page, said)?,
        Happened::Opened | Happened::Lost | Happened::Broken => {
            put_field(&mut page, " connection ", Some(view.connection))?;
        }
    }
    cut(alloc, page.text())
}

fn put_said(page: &mut Page, said: Said<'_>) -> Result<(), AllocError> {
    match said {
        Said::Says {
            channel,
            performative,
            rest,
        } => put_fields(page, channel, &performative, rest.len()),
        Said::NoFrame { .. } | Said::Empty { .. } | Said::NoPerformative { .. } => Ok(()),
    }
}

/// Appends what matters most of a performative with so many octets behind it.
fn put_fields(
    page: &mut Page,
    channel: u16,
    performative: &Performative<'_>,
    octets: usize,
) -> Result<(), AllocError> {
    match performative {
        Performative::Open(open) => put_name(page, Some(open.container_id)),
        Performative::Begin(begin) => {
            put_field(page, " ch=", Some(u32::from(channel)))?;
            put_field(page, " window=", Some(begin.incoming_window))
        }
        Performative::Attach(attach) => {
            put_field(page, " h=", Some(attach.handle))?;
            put_name(page, Some(attach.name))
        }
        Performative::Flow(flow) => put_flow(page, flow),
        Performative::Transfer(transfer) => put_transfer(page, transfer, octets),
        Performative::Disposition(disposition) => put_disposition(page, disposition),
        Performative::Detach(detach) => {
            put_field(page, " h=", Some(detach.handle))?;
            put_flag(page, " closed", detach.closed == Some(true))?;
            put_name(page, detach.error)
        }
        Performative::End(error) => {
            put_field(page, " ch=", Some(u32::from(channel)))?;
            put_name(page, *error)
        }
        Performative::Close(error) => put_name(page, *error),
    }
}

/// Appends the credit of a link, or the window of a session.
fn put_flow(page: &mut Page, flow: &Flow) -> Result<(), AllocError> {
    if flow.handle.is_none() {
        return put_field(page, " window=", Some(flow.incoming_window));
    }
    put_field(page, " h=", flow.handle)?;
    put_field(page, " credit=", flow.link_credit)?;
    put_flag(page, " drain", flow.drain == Some(true))
}

fn put_transfer(page: &mut Page, transfer: &Transfer<'_>, octets: usize) -> Result<(), AllocError> {
    put_field(page, " h=", Some(transfer.handle))?;
    put_field(page, " id=", transfer.delivery_id)?;
    page.put(" ")?;
    page.put_number(octets as u64)?;
    page.put(" octets")?;
    put_flag(page, " settled", transfer.settled == Some(true))?;
    put_flag(page, " more", transfer.has_more())?;
    put_flag(page, " aborted", transfer.is_aborted())
}

/// Appends the ids that a disposition names, and the outcome, or that they are settled without one.
fn put_disposition(page: &mut Page, disposition: &Disposition<'_>) -> Result<(), AllocError> {
    put_field(page, " ", Some(disposition.first))?;
    put_field(page, "..", disposition.last)?;
    match disposition.state.and_then(|state| state.outcome()) {
        Some(outcome) => page.put(outcome_words(outcome)),
        None => put_flag(page, " settled", disposition.is_settled()),
    }
}

fn outcome_words(outcome: Outcome) -> &'static str {
    match outcome {
        Outcome::Accepted => " accepted",
        Outcome::Rejected => " rejected",
        Outcome::Released => " released",
        Outcome::Modified => " modified",
    }
}

fn put_field(page: &mut Page, name: &str, number: Option<u32>) -> Result<(), AllocError> {
    match number {
        Some(number) => {
            page.put(name)?;
            page.put_number(u64::from(number))
        }
        None => Ok(()),
    }
}

fn put_flag(page: &mut Page, name: &str, is_set: bool) -> Result<(), AllocError> {
    if is_set { page.put(name) } else { Ok(()) }
}

fn put_name(page: &mut Page, name: Option<&str>) -> Result<(), AllocError> {
    match name {
        Some(name) => {
            page.put(" ")?;
            page.put_text(name)
        }
        None => Ok(()),
    }
}

/// A text, cut at `MOST` characters, with `..` behind.
fn cut(alloc: Global, text: &str) -> Result<String, AllocError> {
    let mut label = String::new(alloc);
    let mut left = MOST;
    for character in text.chars() {
        if left == 0 {
            label.push_str("..")?;
            break;
        }
        left -= 1;
        label.push(character)?;
    }
    Ok(label)
}
