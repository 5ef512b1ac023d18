//! The answers to an attach (part 2 of the standard, section 2.7.3).

ghost use Rattle.std.specs.Prelude.{◌≡◌, ◌≤◌, length, option_map};
ghost use Rattle.flow_counts.specs.declared.profile.TheConstants.{MAX_LINK_NAME, MAX_ADDRESS};
ghost use Rattle.amqp_perf.specs.Meaning.{AnAttach};
ghost use Rattle.amqp_perf.specs.declared.attach.Role.TheVariants as roles;
ghost use Rattle.amqp_perf.specs.NestedViews.{address_view, terminus_view, target_view};
ghost use Rattle.amqp_perf.specs.View.{attach_fields};
ghost use Rattle.amqp_perf.specs.Writing.{IsWritable};
ghost use Rattle.trace_events.specs.Address as addresses;
ghost use Rattle.trace_events.specs.Link as links;
ghost use Rattle.trace_events.specs.LinkClause as law;
ghost use Rattle.trace_events.specs.Written.{says};
ghost use Rattle.trace_duties.specs.Answer.{attach_answer, attach_to_anonymous};
ghost use Rattle.route_answers.specs.Replies.{reply_view, source_text, is_made, CanBeSaid};

use crate::reply::{Reply, Saying, Source};
use amqp_perf::{Address, Attach, Role, Target, Terminus};
use trace_events::is_without_address;

/// An address that is a text; any other is empty.
fn text_of(address: Option<Address<'_>>) -> &str
    ensures { result.now ≡ links.address_text (option_map address_view address.entry) }
{
    match address {
        Some(Address::Text(text)) => text,
        _ => "",
    }
}

/// The address of a target, empty where it has none that is a text.
fn target_text(target: Option<Target<'_>>) -> &str
    ensures { result.now ≡ links.target_address (option_map target_view target.entry) }
{
    match target {
        Some(Target::Terminus(terminus)) => text_of(terminus.address),
        _ => "",
    }
}

/// The address of a source, empty where it has none that is a text.
fn source_text_of(source: Option<Terminus<'_>>) -> &str
    ensures { result.now ≡ links.source_address (option_map terminus_view source.entry) }
{
    match source {
        Some(source) => text_of(source.address),
        None => "",
    }
}

/// The address that a consumer's attach in this record asks for.
fn asked_source<'a>(number: u64, theirs: &Attach<'a>) -> Source<'a>
    requires consumer { theirs.now.role ≡ roles.Receiver }
    ensures text { source_text result ≡ law.asked_address number (attach_fields theirs.now) }
    ensures made { is_made result ≡ law.has_dynamic_source (attach_fields theirs.now) }
{
    match theirs.source {
        Some(source) if source.is_dynamic() => Source::Made(number),
        source => Source::Given(source_text_of(source)),
    }
}

/// The answer to an anonymous sender: as to any producer, with a target without address.
pub(crate) fn to_anonymous<'a>(theirs: Attach<'a>) -> Attach<'a>
    ensures says { attach_fields result ≡ attach_to_anonymous (attach_fields theirs.entry) }
    ensures writable { length theirs.entry.name.now ≤ MAX_LINK_NAME → IsWritable (AnAttach (attach_to_anonymous (attach_fields theirs.entry))) }
{
    let target = Terminus {
        address: None,
        dynamic: None,
    };
    Attach {
        target: Some(Target::Terminus(target)),
        ..theirs.to_producer("")
    }
}

/// The answer to the attach in this record that is accepted. The router's sender settles as the client asks.
pub(crate) fn accepted<'a>(number: u64, channel: u16, theirs: Attach<'a>) -> Reply<'a>
    ensures says { reply_view result ≡ says channel (AnAttach (attach_answer number (attach_fields theirs.entry) theirs.entry.role)) }
    ensures short { length theirs.entry.name.now ≤ MAX_LINK_NAME → length (law.asked_address number (attach_fields theirs.entry)) ≤ MAX_ADDRESS
        → CanBeSaid result.saying }
{
    let saying = match theirs.role {
        Role::Sender if is_without_address(&theirs.target) => Saying::ToAnonymous(theirs),
        Role::Sender => Saying::ToProducer(theirs, target_text(theirs.target)),
        Role::Receiver => {
            let source = asked_source(number, &theirs);
            Saying::ToConsumer(theirs, source, theirs.sender_mode())
        }
    };
    Reply { channel, saying }
}
