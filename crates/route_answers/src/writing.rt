//! A reply as a frame.

ghost use Rattle.std.specs.Prelude.{◌≡◌, ◌≤◌, OnOk, length};
ghost use Rattle.std.specs.Option.{option_copied};
ghost use Rattle.flow_counts.specs.declared.profile.TheConstants.{MAX_LINK_NAME, MAX_ADDRESS};
ghost use Rattle.amqp_types.specs.Writing.{Puts};
ghost use Rattle.amqp_perf.specs.Meaning.{AnAttach};
ghost use Rattle.amqp_perf.specs.Router.{attach_to_consumer};
ghost use Rattle.amqp_perf.specs.View.{attach_fields, view};
ghost use Rattle.amqp_perf.specs.Writing.{IsWritable};
ghost use Rattle.trace_events.specs.Frame.{frame_read};
ghost use Rattle.trace_events.specs.Written.{spoken_octets, says, error_of};
ghost use Rattle.route_answers.specs.Writing.{frame_of};
ghost use Rattle.route_answers.specs.Replies.{reply_view, source_text, is_made, CanBeSaid};

use crate::attach::to_anonymous;
use crate::reply::{Reply, Saying, Source};
use amqp_frames::put_frame;
use amqp_perf::{Attach, Begin, Detach, ErrorCondition, Open, Performative, SenderSettleMode};
use std::alloc::AllocError;

/// Appends a performative as a frame without payload.
///
/// # Errors
///
/// Where memory is refused: then nothing was appended.
#[tactic(auto, unfolding(trace_events::specs::Written::spoken_octets))]
fn put(out: &mut Vec<u8>, channel: u16, performative: &Performative<'_>) -> Result<(), AllocError>
    requires writable { IsWritable (view performative.now) }
    requires short { length (spoken_octets (says channel (view performative.now))) ≤ 512 }
    ensures appended { Puts out.old.items out.new.items result (spoken_octets (says channel (view performative.now))) }
    ensures again { frame_read (spoken_octets (says channel (view performative.now))) ≡ frame_of (says channel (view performative.now)) }
{
    put_frame(out, channel, performative, &[])
}

/// The name of a condition, if there is one.
fn name_of(condition: Option<ErrorCondition>) -> Option<&'static str>
    ensures { option_copied result ≡ error_of condition }
{
    match condition {
        Some(condition) => Some(condition.name()),
        None => None,
    }
}

/// Appends the answer to a consumer's attach. An address that is made up is written out here.
///
/// # Errors
///
/// Where memory is refused: then nothing was appended.
fn put_to_consumer(
    out: &mut Vec<u8>,
    channel: u16,
    theirs: Attach<'_>,
    source: Source<'_>,
    mode: SenderSettleMode,
) -> Result<(), AllocError>
    requires named { length theirs.name.now ≤ MAX_LINK_NAME }
    requires short { length (source_text source) ≤ MAX_ADDRESS }
    ensures appended { Puts out.old.items out.new.items result (spoken_octets (says channel (AnAttach (attach_to_consumer (attach_fields theirs.entry) (source_text source.entry) (is_made source.entry) mode)))) }
    ensures again { OnOk result (frame_read (spoken_octets (says channel (AnAttach (attach_to_consumer (attach_fields theirs.entry) (source_text source.entry) (is_made source.entry) mode))))
        ≡ frame_of (says channel (AnAttach (attach_to_consumer (attach_fields theirs.entry) (source_text source.entry) (is_made source.entry) mode)))) }
{
    match source {
        Source::Given(address) => {
            let attach = theirs.to_consumer(address, false, mode);
            put(out, channel, &Performative::Attach(attach))
        }
        Source::Made(number) => {
            let address = format!(in *out.allocator(); "dyn/{number}")?;
            let attach = theirs.to_consumer(&address, true, mode);
            put(out, channel, &Performative::Attach(attach))
        }
    }
}

impl<'a> Reply<'a> {
    /// Appends the reply as a frame.
    ///
    /// # Errors
    ///
    /// Where memory is refused: then nothing was appended.
    #[tactic(auto, using(crate::proofs::Short::open_short, crate::proofs::Short::begin_short, crate::proofs::Echoes::flow_fits, amqp_perf::proofs::Lengths::begin_writable, amqp_perf::proofs::Lengths::flow_writable))]
    pub fn write(&self, out: &mut Vec<u8>) -> Result<(), AllocError>
        requires { CanBeSaid self.now.saying }
        // It is written in its octets.
        ensures appended { Puts out.old.items out.new.items result (spoken_octets (reply_view self.now)) }
        // They are read as what it says.
        ensures again { OnOk result (frame_read (spoken_octets (reply_view self.now)) ≡ frame_of (reply_view self.now)) }
    {
        let channel = self.channel;
        match self.saying {
            Saying::Open => put(out, channel, &Performative::Open(Open::of_router())),
            Saying::Close(condition) => put(out, channel, &Performative::Close(name_of(condition))),
            Saying::Begin => put(
                out,
                channel,
                &Performative::Begin(Begin::answering(channel)),
            ),
            Saying::End(condition) => put(out, channel, &Performative::End(name_of(condition))),
            Saying::ToProducer(theirs, address) => {
                let attach = theirs.to_producer(address);
                put(out, channel, &Performative::Attach(attach))
            }
            Saying::ToAnonymous(theirs) => {
                put(out, channel, &Performative::Attach(to_anonymous(theirs)))
            }
            Saying::ToConsumer(theirs, source, mode) => {
                put_to_consumer(out, channel, theirs, source, mode)
            }
            Saying::Refused(theirs) => {
                put(out, channel, &Performative::Attach(theirs.refused()))
            }
            Saying::Detach(handle, closed, condition) => {
                let detach = Detach::with(handle, closed, condition);
                put(out, channel, &Performative::Detach(detach))
            }
            Saying::Flow(flow) => put(out, channel, &Performative::Flow(flow)),
        }
    }
}
