//! What L4 to L9 compare, in words.

ghost use Rattle.std.specs.Prelude.{◌≡◌, IfSome};

use crate::text::{
    Addressed, Noted, OrNoAddress, OrNone, Quoted, deliveries, flag_name, kind_name, plural,
    where_so,
};
use crate::{Credited, LinkOrigin, Origins, SessionOrigin};
use pairing_cert::Note;
use refusal_facts::{
    BeginningFacts, CarryingFacts, Difference, GoingOnFacts, Incoming, Link, Named, OrderFacts,
    Outgoing, PayloadFacts, SendingFacts,
};
use std::fmt;
use trace_events::Session;

/// A link, as it is printed at the head of a line.
#[derive(Clone, Copy)]
pub(crate) struct Linked<'l, 'a>(pub &'l Link<'a>, pub &'l Origins);

impl fmt::Display for Linked<'_, '_> {
    fn fmt<W: fmt::Write>(&self, f: &mut fmt::Formatter<W>) -> fmt::Result {
        let link = self.0;
        match origin_of(self.1, link) {
            Some(origin) => write!(f, "link {:?} {}", origin.name.as_str(), Placed(link)),
            None => write!(f, "link {}", Placed(link)),
        }
    }
}

/// Where a link stands, in brackets.
#[derive(Clone, Copy)]
struct Placed<'l, 'a>(&'l Link<'a>);

impl fmt::Display for Placed<'_, '_> {
    fn fmt<W: fmt::Write>(&self, f: &mut fmt::Formatter<W>) -> fmt::Result {
        let link = self.0;
        let session = &link.session;
        write!(
            f,
            "(handle {}, session {}/{}, attached in record {}, {})",
            link.handle,
            session.connection,
            session.channel,
            link.number,
            Addressed(link.address)
        )
    }
}

/// Where the credit of the link comes from, which was attached in the same record.
pub(crate) fn origin_of<'o>(origins: &'o Origins, link: &Link) -> Option<&'o LinkOrigin>
    ensures { IfSome result (λ origin. origin.now.number ≡ link.now.number) }
{
    let origin = origins.link(link.session.connection, link.session.channel, link.handle)?;
    if origin.number == link.number {
        Some(origin)
    } else {
        None
    }
}

/// Where the window of the session comes from, which began in the same record.
pub(crate) fn window_origin_of<'o>(
    origins: &'o Origins,
    session: &Session,
) -> Option<&'o SessionOrigin>
    ensures { IfSome result (λ origin. origin.now.number ≡ session.now.number) }
{
    let origin = origins.session(session.connection, session.channel)?;
    if origin.number == session.number {
        Some(origin)
    } else {
        None
    }
}

/// What a number was so many steps ago, which now is this.
#[derive(Clone, Copy)]
struct When {
    name: &'static str,
    number: u32,
    steps: u64,
}

impl fmt::Display for When {
    fn fmt<W: fmt::Write>(&self, f: &mut fmt::Formatter<W>) -> fmt::Result {
        match u32::try_from(self.steps) {
            Ok(steps) => {
                let number = self.number.wrapping_sub(steps);
                write!(f, " when {} was {number}", self.name)
            }
            // It has gone round since.
            Err(_) => Ok(()),
        }
    }
}

/// Where the credit comes from of a link whose delivery-count is this.
pub(crate) fn write_credit_origin<W: fmt::Write>(
    f: &mut fmt::Formatter<W>,
    origin: Option<&LinkOrigin>,
    delivery_count: u32,
) -> fmt::Result {
    let Some(origin) = origin else {
        return Ok(());
    };
    match &origin.credit {
        Some(credit) => write_grant(f, origin, credit, delivery_count)?,
        None => write!(f, "; no flow has granted any since the attach")?,
    }
    let begun = origin.begun;
    write!(f, "; {begun} {} begun since", deliveries(begun))
}

/// The flow that granted the credit.
fn write_grant<W: fmt::Write>(
    f: &mut fmt::Formatter<W>,
    origin: &LinkOrigin,
    credit: &Credited,
    delivery_count: u32,
) -> fmt::Result {
    write!(
        f,
        ", of the flow in record {} (link-credit {}, delivery-count {}",
        credit.number,
        credit.link_credit,
        OrNone(credit.delivery_count)
    )?;
    let when = When {
        name: "it",
        number: delivery_count,
        steps: origin.begun,
    };
    match origin.drained {
        Some(number) => write!(f, ", drain); the drain was answered in record {number}"),
        None => write!(f, "{when}{})", where_so(credit.drain, ", drain")),
    }
}

/// Where the window comes from of a session whose next transfer-id is this.
pub(crate) fn write_window_origin<W: fmt::Write>(
    f: &mut fmt::Formatter<W>,
    origin: Option<&SessionOrigin>,
    next_outgoing_id: u32,
) -> fmt::Result {
    let Some(origin) = origin else {
        return Ok(());
    };
    write_window_grant(f, origin, next_outgoing_id)?;
    let sent = origin.sent;
    write!(f, "; {sent} transfer{} sent since", plural(sent))
}

/// The flow or the begin that granted the window.
fn write_window_grant<W: fmt::Write>(
    f: &mut fmt::Formatter<W>,
    origin: &SessionOrigin,
    next_outgoing_id: u32,
) -> fmt::Result {
    let when = When {
        name: "next-outgoing-id",
        number: next_outgoing_id,
        steps: origin.sent,
    };
    match (&origin.window, &origin.opened) {
        (Some(window), _) => write!(
            f,
            ", of the flow in record {} (incoming-window {}, next-incoming-id {}{when})",
            window.number,
            window.incoming_window,
            OrNone(window.next_incoming_id)
        ),
        (None, Some(opened)) => write!(
            f,
            ", of the client's begin in record {} (incoming-window {})",
            opened.number, opened.incoming_window
        ),
        (None, None) => Ok(()),
    }
}

/// The session on which a frame stands, and its window.
fn write_window<W: fmt::Write>(
    f: &mut fmt::Formatter<W>,
    facts: &SendingFacts,
    origins: &Origins,
) -> fmt::Result {
    let (Some(session), Some(window), Some(id)) = (
        &facts.session,
        facts.window,
        facts.next_outgoing_id,
    ) else {
        return write!(f, "\nsession: {NO_SESSION}");
    };
    write_session(f, session)?;
    write!(f, ": window {window}")?;
    write_window_origin(f, window_origin_of(origins, session), id)?;
    write!(f, "; next-outgoing-id {id}")
}

/// A session, at the head of a line.
pub(crate) fn write_session<W: fmt::Write>(
    f: &mut fmt::Formatter<W>,
    session: &Session,
) -> fmt::Result {
    write!(
        f,
        "\nsession {}/{} (begun in record {})",
        session.connection, session.channel, session.number
    )
}

/// What is said of a channel without a session.
pub(crate) const NO_SESSION: &str = "none is live on the channel; one named above was there before";

/// A handle without a link.
pub(crate) fn write_no_link<W: fmt::Write>(f: &mut fmt::Formatter<W>, handle: u32) -> fmt::Result {
    write!(
        f,
        "\nlink: none is live of handle {handle}; one named above was attached there before"
    )
}

/// The link that a transfer names.
fn write_named_link<W: fmt::Write>(
    f: &mut fmt::Formatter<W>,
    facts: &SendingFacts,
    origins: &Origins,
) -> fmt::Result {
    match &facts.link {
        None => write_no_link(f, facts.handle),
        Some(link) if link.is_consumer() => {
            write!(f, "\n{}: a consumer's, as is due", Linked(link, origins))
        }
        Some(link) => write!(
            f,
            "\n{}: a producer's, and not a consumer's",
            Linked(link, origins)
        ),
    }
}

/// L4.
pub(crate) fn write_sending<W: fmt::Write>(
    f: &mut fmt::Formatter<W>,
    facts: &SendingFacts,
    origins: &Origins,
) -> fmt::Result {
    write_named_link(f, facts, origins)?;
    write_window(f, facts, origins)?;
    write!(
        f,
        "{}{}",
        where_so(facts.is_resumed, "\nresume: true, due false"),
        where_so(facts.is_aborted, "\naborted: true, due false")
    )
}

/// L5.
pub(crate) fn write_beginning<W: fmt::Write>(
    f: &mut fmt::Formatter<W>,
    facts: &BeginningFacts,
    origins: &Origins,
) -> fmt::Result {
    let link = &facts.link;
    write!(f, "\n{}: credit {}", Linked(link, origins), facts.credit)?;
    write_credit_origin(f, origin_of(origins, link), facts.delivery_count)?;
    write!(f, "; delivery-count {}", facts.delivery_count)?;
    write_number(f, "delivery-id", facts.said_id, facts.due_id)
}

/// A number that is said, and the one that is due.
pub(crate) fn write_number<W: fmt::Write>(
    f: &mut fmt::Formatter<W>,
    name: &str,
    said: Option<u32>,
    due: u32,
) -> fmt::Result {
    if said == Some(due) {
        write!(f, "\n{name}: {due}, as is due")
    } else {
        write!(f, "\n{name}: {}, due {due}", OrNone(said))
    }
}

/// A flag that is said, and what is due.
pub(crate) fn write_flag<W: fmt::Write>(
    f: &mut fmt::Formatter<W>,
    name: &str,
    said: bool,
    due: bool,
) -> fmt::Result {
    if said == due {
        write!(f, "\n{name}: {}, as is due", flag_name(due))
    } else {
        write!(f, "\n{name}: {}, due {}", flag_name(said), flag_name(due))
    }
}

/// A delivery to a client, as it is printed in a line.
#[derive(Clone, Copy)]
pub(crate) struct ToClient<'d, 'a>(pub &'d Outgoing<'a>);

impl fmt::Display for ToClient<'_, '_> {
    fn fmt<W: fmt::Write>(&self, f: &mut fmt::Formatter<W>) -> fmt::Result {
        let outgoing = self.0;
        let session = &outgoing.link.session;
        write!(
            f,
            "delivery {} to session {}/{}, handle {}, begun in record {}",
            OrNone(outgoing.id),
            session.connection,
            session.channel,
            outgoing.link.handle,
            outgoing.number
        )
    }
}

/// The address of a producer's link, as it is printed with a delivery on it.
#[derive(Clone, Copy)]
struct OfLink<'l, 'a>(&'l Link<'a>);

impl fmt::Display for OfLink<'_, '_> {
    fn fmt<W: fmt::Write>(&self, f: &mut fmt::Formatter<W>) -> fmt::Result {
        if self.0.is_anonymous() {
            write!(f, "on a link without address")
        } else {
            write!(f, "address {}", Quoted(self.0.address))
        }
    }
}

/// A delivery from a client, as it is printed in a line.
#[derive(Clone, Copy)]
pub(crate) struct FromClient<'d, 'a>(pub &'d Incoming<'a>);

impl fmt::Display for FromClient<'_, '_> {
    fn fmt<W: fmt::Write>(&self, f: &mut fmt::Formatter<W>) -> fmt::Result {
        let delivery = self.0;
        let session = &delivery.link.session;
        write!(
            f,
            "delivery of record {} (session {}/{}, handle {}, delivery-id {}, {})",
            delivery.number,
            session.connection,
            session.channel,
            delivery.link.handle,
            OrNone(delivery.id),
            OfLink(&delivery.link)
        )
    }
}

/// L6.
pub(crate) fn write_going_on<W: fmt::Write>(
    f: &mut fmt::Formatter<W>,
    facts: &GoingOnFacts,
) -> fmt::Result {
    let Some(first) = &facts.first else {
        return write!(f, "\nin progress: no delivery");
    };
    write!(f, "\nin progress: {}", ToClient(first))?;
    write_same_id(f, facts.id, first.id)?;
    write_same_settled(f, facts.settled, first.is_settled)?;
    write_same_note(f, facts.note, first.note)
}

/// The note of a later transfer, against that of the first.
fn write_same_note<W: fmt::Write>(f: &mut fmt::Formatter<W>, note: Note, due: Note) -> fmt::Result {
    if note == due {
        write!(f, "\nnote: {}, as the first transfer has", Noted(note))
    } else {
        write!(
            f,
            "\nnote: {}, the first transfer's {}",
            Noted(note),
            Noted(due)
        )
    }
}

/// The delivery-id of a later transfer, against that of the first.
fn write_same_id<W: fmt::Write>(
    f: &mut fmt::Formatter<W>,
    id: Option<u32>,
    due: Option<u32>,
) -> fmt::Result {
    match id {
        Some(id) if due == Some(id) => write!(f, "\ndelivery-id: {id}, as the first transfer has"),
        Some(id) => write!(
            f,
            "\ndelivery-id: {id}, the first transfer's {}",
            OrNone(due)
        ),
        None => write!(f, "\ndelivery-id: none, as may be"),
    }
}

/// Whether a later transfer is settled, against the first.
fn write_same_settled<W: fmt::Write>(
    f: &mut fmt::Formatter<W>,
    settled: Option<bool>,
    due: bool,
) -> fmt::Result {
    let due_name = flag_name(due);
    match settled {
        Some(settled) if settled == due => {
            write!(f, "\nsettled: {due_name}, as the first transfer has")
        }
        Some(settled) => write!(
            f,
            "\nsettled: {}, the first transfer's {due_name}",
            flag_name(settled)
        ),
        None => write!(f, "\nsettled: absent, as may be"),
    }
}

/// The delivery that the note of a transfer names.
fn write_carried<W: fmt::Write>(
    f: &mut fmt::Formatter<W>,
    facts: &CarryingFacts,
    delivery: &Incoming,
) -> fmt::Result {
    write!(
        f,
        "\nnote: the {}, complete and not gone, as is due",
        FromClient(delivery)
    )?;
    if let Some(due) = facts.address {
        write_same_address(f, facts.link.address, delivery, due)?;
    }
    if facts.begins {
        write_number(f, "message-format", Some(facts.format), delivery.format)?;
        write_flag(f, "settled", facts.is_settled, facts.link.is_pre_settled)
    } else {
        Ok(())
    }
}

/// The address of a link, against that of the delivery that it carries.
fn write_same_address<W: fmt::Write>(
    f: &mut fmt::Formatter<W>,
    address: &[u8],
    delivery: &Incoming,
    due: &[u8],
) -> fmt::Result {
    if address == due {
        write!(f, "\naddress: {}, as is due", Quoted(address))?;
    } else {
        write!(
            f,
            "\naddress: the link's {}, the delivery's {}",
            OrNoAddress(address),
            OrNoAddress(due)
        )?;
    }
    write!(
        f,
        "{}",
        where_so(delivery.link.is_anonymous(), ", by its message")
    )
}

/// L7.
pub(crate) fn write_carrying<W: fmt::Write>(
    f: &mut fmt::Formatter<W>,
    facts: &CarryingFacts,
    origins: &Origins,
) -> fmt::Result {
    write!(f, "\n{}", Linked(&facts.link, origins))?;
    match &facts.named {
        Named::Nothing => write!(
            f,
            "\nnote: {}, due one that names a delivery",
            Noted(facts.note)
        ),
        Named::Unknown(number) => write!(
            f,
            "\nnote: the delivery of record {number}, and none is known of that number: no delivery begins there, or it was given up, or is gone and closed"
        ),
        Named::Carried(delivery) => write_carried(f, facts, delivery),
        Named::Kept {
            delivery,
            is_complete,
            is_gone,
        } => write!(
            f,
            "\nnote: the {}{}{}",
            FromClient(delivery),
            where_so(!*is_complete, "\ncomplete: no, its last part has not come"),
            where_so(
                *is_gone,
                "\ngone: yes, it found no consumer or lost the last one",
            )
        ),
    }
}

/// L8.
pub(crate) fn write_payload<W: fmt::Write>(
    f: &mut fmt::Formatter<W>,
    facts: &PayloadFacts,
) -> fmt::Result {
    write!(
        f,
        "\nnote: the {}, of {} octet{}",
        FromClient(&facts.delivery),
        facts.whole,
        plural(facts.whole as u64)
    )?;
    write!(
        f,
        "\npayload: {} octet{} sent before, {} in this transfer, more {}",
        facts.sent,
        plural(facts.sent),
        facts.said,
        flag_name(facts.has_more)
    )?;
    write_difference(f, facts.difference)
}

/// Where the octets are others.
fn write_difference<W: fmt::Write>(
    f: &mut fmt::Formatter<W>,
    difference: Difference,
) -> fmt::Result {
    match difference {
        Difference::Octet { offset, due, said } => write!(
            f,
            "\noctet {offset} of the payload: 0x{said:02x}, due 0x{due:02x}"
        ),
        Difference::TooMany(more) => write!(f, "\nlength: {more} octet{} too many", plural(more)),
        Difference::Missing(missing) => write!(
            f,
            "\nlength: {missing} octet{} missing at the end",
            plural(missing)
        ),
        Difference::Nothing => Ok(()),
    }
}

/// The record that completed a delivery, if one did, as it is printed behind that.
#[derive(Clone, Copy)]
struct CompleteSince(Option<u64>);

impl fmt::Display for CompleteSince {
    fn fmt<W: fmt::Write>(&self, f: &mut fmt::Formatter<W>) -> fmt::Result {
        match self.0 {
            Some(number) => write!(f, ", complete since record {number}"),
            None => Ok(()),
        }
    }
}

/// Whether a copy of a multicast delivery may go to the link, and why not.
fn write_copy<W: fmt::Write>(f: &mut fmt::Formatter<W>, facts: &OrderFacts) -> fmt::Result {
    if facts.is_unsent {
        return write!(f, "\ncopy: due to the link and not sent, as is due");
    }
    match &facts.carrier {
        Some(carrier) if carrier.link.number == facts.link.number => write!(
            f,
            "\ncopy: sent to the link before, as {}",
            ToClient(carrier)
        ),
        _ => write!(
            f,
            "\ncopy: none is due, since the link {}",
            why_no_copy(facts)
        ),
    }
}

/// Why no copy is due to the link that was not sent there before.
fn why_no_copy(facts: &OrderFacts) -> &'static str {
    match facts.completion {
        Some(number) if number < facts.link.number =>
            "was attached after the delivery was complete",
        _ =>
            "had no credit left for one when the delivery was complete; or it was sent there before",
    }
}

/// Whether an anycast delivery may go to the link.
fn write_receiver<W: fmt::Write>(f: &mut fmt::Formatter<W>, facts: &OrderFacts) -> fmt::Result {
    match &facts.carrier {
        None => write!(f, "\nsent before: to nobody, as is due"),
        Some(carrier) => write!(f, "\nsent before: as {}", ToClient(carrier)),
    }
}

/// L9.
pub(crate) fn write_order<W: fmt::Write>(
    f: &mut fmt::Formatter<W>,
    facts: &OrderFacts,
    origins: &Origins,
) -> fmt::Result {
    write!(
        f,
        "\n{}\nnote: the {} {}{}",
        Linked(&facts.link, origins),
        kind_name(facts.is_multicast),
        FromClient(&facts.delivery),
        CompleteSince(facts.completion)
    )?;
    if facts.is_multicast {
        write_copy(f, facts)?;
    } else {
        write_receiver(f, facts)?;
    }
    write_before(f, facts)
}

/// Whether the delivery comes behind the one that the link carried last.
fn write_before<W: fmt::Write>(f: &mut fmt::Formatter<W>, facts: &OrderFacts) -> fmt::Result {
    let Some(before) = &facts.before else {
        return write!(f, "\norder: the link's first delivery");
    };
    let order = if facts.is_in_order {
        "which is before, as is due"
    } else {
        "which is not before the one that this transfer carries"
    };
    write!(
        f,
        "\norder: the link's last delivery carries the {}{}, {order}",
        FromClient(before),
        CompleteSince(facts.before_completion)
    )
}
