//! What an attach tells of its link.

ghost use Rattle.std.specs.Prelude.{◌≡◌, option_map};
ghost use Rattle.amqp_perf.specs.NestedViews.{target_view, terminus_view};
ghost use Rattle.amqp_perf.specs.View.{attach_fields};
ghost use Rattle.capture_view.specs.Told.{address_of, address_text, link_told, role_told, source_address, target_address, told_text};

use amqp_perf::{Address, Attach, Role, Target, Terminus};

/// Who wrote a frame.
#[derive(Clone, Copy, Debug, PartialEq, Eq)]
pub enum Writer {
    Client,
    Router,
}

/// Which end of a link its client is: deliveries come from a producer, and go to a consumer.
#[derive(Clone, Copy, Debug, PartialEq, Eq)]
pub enum LinkRole {
    Producer,
    Consumer,
}

/// The address of a link: a producer's target, or a consumer's source.
#[derive(Clone, Copy, Debug)]
pub enum AddressTold<'a> {
    /// There is no such terminus, or it has no address.
    Absent,
    Text(&'a str),
    /// The octets of an address that is no string.
    Other(&'a [u8]),
    /// It is to be made up.
    Dynamic,
    /// The coordinator of transactions.
    Coordinator,
}

/// What an attach tells of its link.
#[derive(Clone, Copy, Debug)]
pub struct LinkTold<'a> {
    pub name: &'a str,
    pub role: LinkRole,
    pub address: AddressTold<'a>,
}

/// What an attach tells of its link.
pub fn link_told<'a>(writer: Writer, attach: &Attach<'a>) -> LinkTold<'a>
    ensures { told_text result ≡ link_told writer (attach_fields attach.now) }
{
    let role = role_told(writer, attach.role);
    LinkTold {
        name: attach.name,
        role,
        address: match role {
            LinkRole::Producer => target_address(attach.target),
            LinkRole::Consumer => source_address(attach.source),
        },
    }
}

/// Which end of the link the client is, where this one wrote an attach of this role.
fn role_told(writer: Writer, role: Role) -> LinkRole
    ensures { result ≡ role_told writer role }
{
    match (writer, role) {
        (Writer::Client, Role::Sender) | (Writer::Router, Role::Receiver) => LinkRole::Producer,
        (Writer::Client, Role::Receiver) | (Writer::Router, Role::Sender) => LinkRole::Consumer,
    }
}

fn target_address(target: Option<Target<'_>>) -> AddressTold<'_>
    ensures { address_text result ≡ target_address (option_map target_view target.entry) }
{
    match target {
        Some(Target::Terminus(terminus)) => address_of(terminus),
        Some(Target::Coordinator) => AddressTold::Coordinator,
        None => AddressTold::Absent,
    }
}

fn source_address(source: Option<Terminus<'_>>) -> AddressTold<'_>
    ensures { address_text result ≡ source_address (option_map terminus_view source.entry) }
{
    match source {
        Some(terminus) => address_of(terminus),
        None => AddressTold::Absent,
    }
}

/// An address that stands there counts, also where one is to be made up.
fn address_of(terminus: Terminus<'_>) -> AddressTold<'_>
    ensures { address_text result ≡ address_of (terminus_view terminus.entry) }
{
    match terminus.address {
        Some(Address::Text(text)) => AddressTold::Text(text),
        Some(Address::Other(octets)) => AddressTold::Other(octets),
        None if terminus.is_dynamic() => AddressTold::Dynamic,
        None => AddressTold::Absent,
    }
}
