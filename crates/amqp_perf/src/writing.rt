//! Writing a performative.

use crate::attach::Attach;
use crate::begin::Begin;
use crate::detach::Detach;
use crate::disposition::Disposition;
use crate::flow::Flow;
use crate::opening::Open;
use crate::performative::Performative;
use crate::slot::{Slot, put_fields};
use crate::terminus::{Target, Terminus};
use crate::transfer::Transfer;
use std::alloc::AllocError;

impl<'a> Open<'a> {
    ghost use Rattle.std.specs.Prelude.{◌≡◌};
    ghost use Rattle.amqp_types.specs.Writing.{Puts, levels_in_described};
    ghost use Rattle.amqp_perf.specs.Meaning.{AnOpen};
    ghost use Rattle.amqp_perf.specs.View.{open_fields};
    ghost use Rattle.amqp_perf.specs.Grammar.{IsPerformative};
    ghost use Rattle.amqp_perf.specs.Slots.{AllCanStand, IsShort};
    ghost use Rattle.amqp_perf.specs.SlotViews.{slots_view};
    ghost use Rattle.amqp_perf.specs.Writing.{open_slots, performative_octets, IsWritable};

    /// The fields in their places.
    fn slots(self) -> [Slot<'a>; 5]
        requires { IsShort self.container_id.now }
        ensures slots { slots_view result ≡ open_slots (open_fields self.entry) }
        ensures each { AllCanStand levels_in_described (open_slots (open_fields self.entry)) }
    {
        [
            Slot::text(self.container_id),
            Slot::Absent,
            Slot::uint(self.max_frame_size),
            Slot::ushort(self.channel_max),
            Slot::uint(self.idle_time_out),
        ]
    }

    /// Appends the open.
    ///
    /// # Errors
    ///
    /// Where memory is refused: then nothing was appended.
    pub fn write(self, out: &mut Vec<u8>) -> Result<(), AllocError>
        requires { IsWritable (AnOpen (open_fields self)) }
        ensures appended { Puts out.old.items out.new.items result (performative_octets (AnOpen (open_fields self.entry))) }
        ensures again { IsPerformative (performative_octets (AnOpen (open_fields self.entry))) (AnOpen (open_fields self.entry)) }
    {
        put_fields(out, 0x10, &self.slots())
    }
}

impl Begin {
    ghost use Rattle.std.specs.Prelude.{◌≡◌};
    ghost use Rattle.amqp_types.specs.Writing.{Puts, levels_in_described};
    ghost use Rattle.amqp_perf.specs.Meaning.{ABegin};
    ghost use Rattle.amqp_perf.specs.Grammar.{IsPerformative};
    ghost use Rattle.amqp_perf.specs.Slots.{AllCanStand};
    ghost use Rattle.amqp_perf.specs.SlotViews.{slots_view};
    ghost use Rattle.amqp_perf.specs.Writing.{begin_slots, performative_octets, IsWritable};

    /// The fields in their places.
    fn slots(self) -> [Slot<'static>; 5]
        ensures slots { slots_view result ≡ begin_slots self }
        ensures each { AllCanStand levels_in_described (begin_slots self) }
    {
        [
            Slot::ushort(self.remote_channel),
            Slot::number(self.next_outgoing_id),
            Slot::number(self.incoming_window),
            Slot::number(self.outgoing_window),
            Slot::uint(self.handle_max),
        ]
    }

    /// Appends the begin.
    ///
    /// # Errors
    ///
    /// Where memory is refused: then nothing was appended.
    #[tactic(auto, using(crate::proofs::Lengths::begin_writable))]
    pub fn write(self, out: &mut Vec<u8>) -> Result<(), AllocError>
        ensures appended { Puts out.old.items out.new.items result (performative_octets (ABegin self)) }
        ensures again { IsPerformative (performative_octets (ABegin self)) (ABegin self) }
    {
        put_fields(out, 0x11, &self.slots())
    }
}

impl Flow {
    ghost use Rattle.std.specs.Prelude.{◌≡◌};
    ghost use Rattle.amqp_types.specs.Writing.{Puts, levels_in_described};
    ghost use Rattle.amqp_perf.specs.Meaning.{AFlow};
    ghost use Rattle.amqp_perf.specs.Grammar.{IsPerformative};
    ghost use Rattle.amqp_perf.specs.Slots.{AllCanStand};
    ghost use Rattle.amqp_perf.specs.SlotViews.{slots_view};
    ghost use Rattle.amqp_perf.specs.Writing.{flow_slots, performative_octets, IsWritable};

    /// The fields in their places.
    fn slots(self) -> [Slot<'static>; 10]
        ensures slots { slots_view result ≡ flow_slots self }
        ensures each { AllCanStand levels_in_described (flow_slots self) }
    {
        [
            Slot::uint(self.next_incoming_id),
            Slot::number(self.incoming_window),
            Slot::number(self.next_outgoing_id),
            Slot::number(self.outgoing_window),
            Slot::uint(self.handle),
            Slot::uint(self.delivery_count),
            Slot::uint(self.link_credit),
            Slot::Absent,
            Slot::flag(self.drain),
            Slot::flag(self.echo),
        ]
    }

    /// Appends the flow.
    ///
    /// # Errors
    ///
    /// Where memory is refused: then nothing was appended.
    #[tactic(auto, using(crate::proofs::Lengths::flow_writable))]
    pub fn write(self, out: &mut Vec<u8>) -> Result<(), AllocError>
        ensures appended { Puts out.old.items out.new.items result (performative_octets (AFlow self)) }
        ensures again { IsPerformative (performative_octets (AFlow self)) (AFlow self) }
    {
        put_fields(out, 0x13, &self.slots())
    }
}

impl<'a> Transfer<'a> {
    ghost use Rattle.std.specs.Prelude.{◌≡◌};
    ghost use Rattle.amqp_types.specs.Writing.{Puts, levels_in_described};
    ghost use Rattle.std.specs.Option.{option_copied};
    ghost use Rattle.amqp_perf.specs.Meaning.{ATransfer};
    ghost use Rattle.amqp_perf.specs.View.{transfer_fields};
    ghost use Rattle.amqp_perf.specs.Grammar.{IsPerformative};
    ghost use Rattle.amqp_perf.specs.Slots.{AllCanStand, IsShort};
    ghost use Rattle.amqp_perf.specs.SlotViews.{slots_view};
    ghost use Rattle.amqp_perf.specs.Writing.{transfer_slots, performative_octets, IsWritable, IfThere};

    /// The fields in their places.
    fn slots(self) -> [Slot<'a>; 10]
        requires { IfThere IsShort (option_copied self.delivery_tag) }
        ensures slots { slots_view result ≡ transfer_slots (transfer_fields self.entry) }
        ensures each { AllCanStand levels_in_described (transfer_slots (transfer_fields self.entry)) }
    {
        [
            Slot::number(self.handle),
            Slot::uint(self.delivery_id),
            Slot::binary(self.delivery_tag),
            Slot::uint(self.message_format),
            Slot::flag(self.settled),
            Slot::flag(self.more),
            Slot::Absent,
            Slot::Absent,
            Slot::flag(self.resume),
            Slot::flag(self.aborted),
        ]
    }

    /// Appends the transfer, without its payload.
    ///
    /// # Errors
    ///
    /// Where memory is refused: then nothing was appended.
    pub fn write(self, out: &mut Vec<u8>) -> Result<(), AllocError>
        requires { IsWritable (ATransfer (transfer_fields self)) }
        ensures appended { Puts out.old.items out.new.items result (performative_octets (ATransfer (transfer_fields self.entry))) }
        ensures again { IsPerformative (performative_octets (ATransfer (transfer_fields self.entry))) (ATransfer (transfer_fields self.entry)) }
    {
        put_fields(out, 0x14, &self.slots())
    }
}

impl<'a> Disposition<'a> {
    ghost use Rattle.std.specs.Prelude.{◌≡◌, option_map};
    ghost use Rattle.amqp_types.specs.Writing.{Puts, levels_in_described};
    ghost use Rattle.amqp_perf.specs.Meaning.{ADisposition};
    ghost use Rattle.amqp_perf.specs.NestedViews.{state_view};
    ghost use Rattle.amqp_perf.specs.View.{disposition_fields};
    ghost use Rattle.amqp_perf.specs.Grammar.{IsPerformative};
    ghost use Rattle.amqp_perf.specs.Slots.{AllCanStand};
    ghost use Rattle.amqp_perf.specs.SlotViews.{slots_view};
    ghost use Rattle.amqp_perf.specs.Writing.{disposition_slots, performative_octets, IsWritable, IsWritableState, IfThere};

    /// The fields in their places.
    fn slots(self) -> [Slot<'a>; 5]
        requires { IfThere IsWritableState (option_map state_view self.state) }
        ensures slots { slots_view result ≡ disposition_slots (disposition_fields self.entry) }
        ensures each { AllCanStand levels_in_described (disposition_slots (disposition_fields self.entry)) }
    {
        [
            Slot::role(self.role),
            Slot::number(self.first),
            Slot::uint(self.last),
            Slot::flag(self.settled),
            Slot::state(self.state),
        ]
    }

    /// Appends the disposition.
    ///
    /// # Errors
    ///
    /// Where memory is refused: then nothing was appended.
    pub fn write(self, out: &mut Vec<u8>) -> Result<(), AllocError>
        requires { IsWritable (ADisposition (disposition_fields self)) }
        ensures appended { Puts out.old.items out.new.items result (performative_octets (ADisposition (disposition_fields self.entry))) }
        ensures again { IsPerformative (performative_octets (ADisposition (disposition_fields self.entry))) (ADisposition (disposition_fields self.entry)) }
    {
        put_fields(out, 0x15, &self.slots())
    }
}

ghost use Rattle.std.specs.Prelude.{◌≡◌, option_map};
ghost use Rattle.std.specs.Option.{option_copied};
ghost use Rattle.amqp_types.specs.Writing.{Puts, levels_in_described};
ghost use Rattle.amqp_perf.specs.Meaning.{ADetach, AnEnd, AClose, AnAttach};
ghost use Rattle.amqp_perf.specs.NestedViews.{terminus_view, target_view};
ghost use Rattle.amqp_perf.specs.View.{detach_fields, attach_fields, view};
ghost use Rattle.amqp_perf.specs.Grammar.{IsPerformative};
ghost use Rattle.amqp_perf.specs.Slots.{AllCanStand, AreShort, fields_octets};
ghost use Rattle.amqp_perf.specs.SlotViews.{slots_view};
ghost use Rattle.amqp_perf.specs.Writing.{attach_slots, terminus_slots, source_octets, target_octets, error_octets, ending_slots, octets_if, performative_octets, IsWritable, IsWritableError, IsWritableTerminus, IsWritableTarget, IfThere};

/// Appends an error, where there is one.
#[tactic(auto, using(crate::proofs::NestedAgain::error_slots_stand))]
fn put_error(out: &mut Vec<u8>, condition: Option<&str>) -> Result<(), AllocError>
    requires { IfThere IsWritableError (option_copied condition) }
    ensures { Puts out.old.items out.new.items result (octets_if error_octets (option_copied condition.entry)) }
{
    match condition {
        Some(condition) => put_fields(out, 0x1D, &[Slot::Symbol(condition)]),
        None => Ok(()),
    }
}

/// Appends an end or a close.
#[tactic(auto, using(crate::proofs::NestedAgain::error_slot, crate::proofs::NestedAgain::error_can))]
fn put_ending(out: &mut Vec<u8>, code: u8, error: Option<&str>) -> Result<(), AllocError>
    requires fields { IfThere IsWritableError (option_copied error) }
    requires few { AreShort (ending_slots (option_copied error)) }
    ensures { Puts out.old.items out.new.items result (fields_octets code (ending_slots (option_copied error.entry))) }
{
    let mut nested = Vec::new(*out.allocator());
    put_error(&mut nested, error)?;
    put_fields(out, code, &[Slot::nested(&nested)])
}

impl<'a> Detach<'a> {
    /// Appends the detach.
    ///
    /// # Errors
    ///
    /// Where memory is refused: then nothing was appended.
    pub fn write(self, out: &mut Vec<u8>) -> Result<(), AllocError>
        requires { IsWritable (ADetach (detach_fields self)) }
        ensures appended { Puts out.old.items out.new.items result (performative_octets (ADetach (detach_fields self.entry))) }
        ensures again { IsPerformative (performative_octets (ADetach (detach_fields self.entry))) (ADetach (detach_fields self.entry)) }
    {
        let handle = Slot::number(self.handle);
        let closed = Slot::flag(self.closed);
        let mut error = Vec::new(*out.allocator());
        put_error(&mut error, self.error)?;
        put_fields(out, 0x16, &[handle, closed, Slot::nested(&error)])
    }
}

/// Appends an end.
///
/// # Errors
///
/// Where memory is refused: then nothing was appended.
#[tactic(auto, using(crate::proofs::NestedAgain::end_again))]
pub fn write_end(out: &mut Vec<u8>, error: Option<&str>) -> Result<(), AllocError>
    requires { IsWritable (AnEnd (option_copied error)) }
    ensures appended { Puts out.old.items out.new.items result (performative_octets (AnEnd (option_copied error.entry))) }
    ensures again { IsPerformative (performative_octets (AnEnd (option_copied error.entry))) (AnEnd (option_copied error.entry)) }
{
    put_ending(out, 0x17, error)
}

/// Appends a close.
///
/// # Errors
///
/// Where memory is refused: then nothing was appended.
#[tactic(auto, using(crate::proofs::NestedAgain::close_again))]
pub fn write_close(out: &mut Vec<u8>, error: Option<&str>) -> Result<(), AllocError>
    requires { IsWritable (AClose (option_copied error)) }
    ensures appended { Puts out.old.items out.new.items result (performative_octets (AClose (option_copied error.entry))) }
    ensures again { IsPerformative (performative_octets (AClose (option_copied error.entry))) (AClose (option_copied error.entry)) }
{
    put_ending(out, 0x18, error)
}

impl<'a> Terminus<'a> {
    /// The fields in their places.
    #[tactic(auto, using(crate::proofs::NestedAgain::terminus_can))]
    fn slots(self) -> [Slot<'a>; 5]
        requires { IsWritableTerminus (terminus_view self) }
        ensures slots { slots_view result ≡ terminus_slots (terminus_view self.entry) }
        ensures each { AllCanStand levels_in_described (terminus_slots (terminus_view self.entry)) }
    {
        [
            Slot::address(self.address),
            Slot::Absent,
            Slot::Absent,
            Slot::Absent,
            Slot::flag(self.dynamic),
        ]
    }
}

/// Appends a source, where there is one.
fn put_source(out: &mut Vec<u8>, source: Option<Terminus<'_>>) -> Result<(), AllocError>
    requires { IfThere IsWritableTerminus (option_map terminus_view source) }
    ensures { Puts out.old.items out.new.items result (octets_if source_octets (option_map terminus_view source.entry)) }
{
    match source {
        Some(source) => put_fields(out, 0x28, &source.slots()),
        None => Ok(()),
    }
}

/// Appends a target, where there is one.
fn put_target(out: &mut Vec<u8>, target: Option<Target<'_>>) -> Result<(), AllocError>
    requires { IfThere IsWritableTarget (option_map target_view target) }
    ensures { Puts out.old.items out.new.items result (octets_if target_octets (option_map target_view target.entry)) }
{
    match target {
        Some(Target::Terminus(target)) => put_fields(out, 0x29, &target.slots()),
        Some(Target::Coordinator) => put_fields(out, 0x30, &[]),
        None => Ok(()),
    }
}

impl<'a> Attach<'a> {
    /// The fields in their places, with the octets of source and target, none where they are absent.
    #[tactic(auto, using(crate::proofs::NestedAgain::source_slot, crate::proofs::NestedAgain::target_slot, crate::proofs::NestedAgain::source_can, crate::proofs::NestedAgain::target_can))]
    fn slots<'s>(&'s self, source: &'s [u8], target: &'s [u8]) -> [Slot<'s>; 11]
        requires writable { IsWritable (AnAttach (attach_fields self.now)) }
        requires source { source.now ≡ octets_if source_octets (option_map terminus_view self.now.source) }
        requires target { target.now ≡ octets_if target_octets (option_map target_view self.now.target) }
        ensures slots { slots_view result ≡ attach_slots (attach_fields self.now) }
        ensures each { AllCanStand levels_in_described (attach_slots (attach_fields self.now)) }
    {
        [
            Slot::text(&*self.name),
            Slot::number(self.handle),
            Slot::role(self.role),
            Slot::sender_mode(self.snd_settle_mode),
            Slot::receiver_mode(self.rcv_settle_mode),
            Slot::nested(source),
            Slot::nested(target),
            Slot::Absent,
            Slot::Absent,
            Slot::uint(self.initial_delivery_count),
            Slot::ulong(self.max_message_size),
        ]
    }

    /// Appends the attach.
    ///
    /// # Errors
    ///
    /// Where memory is refused: then nothing was appended.
    #[tactic(auto, using(crate::proofs::NestedAgain::attach_again))]
    pub fn write(self, out: &mut Vec<u8>) -> Result<(), AllocError>
        requires { IsWritable (AnAttach (attach_fields self)) }
        ensures appended { Puts out.old.items out.new.items result (performative_octets (AnAttach (attach_fields self.entry))) }
        ensures again { IsPerformative (performative_octets (AnAttach (attach_fields self.entry))) (AnAttach (attach_fields self.entry)) }
    {
        let mut source = Vec::new(*out.allocator());
        put_source(&mut source, self.source)?;
        let mut target = Vec::new(*out.allocator());
        put_target(&mut target, self.target)?;
        put_fields(out, 0x12, &self.slots(&source, &target))
    }
}

impl<'a> Performative<'a> {
    /// Appends the performative, a transfer without its payload.
    ///
    /// # Errors
    ///
    /// Where memory is refused: then nothing was appended.
    pub fn write(&self, out: &mut Vec<u8>) -> Result<(), AllocError>
        requires { IsWritable (view self.now) }
        // The fields in their places, each in its shortest form, up to the last that is there.
        ensures appended { Puts out.old.items out.new.items result (performative_octets (view self.now)) }
        // What is written is this performative.
        ensures again { IsPerformative (performative_octets (view self.now)) (view self.now) }
    {
        match *self {
            Performative::Open(open) => open.write(out),
            Performative::Begin(begin) => begin.write(out),
            Performative::Attach(attach) => attach.write(out),
            Performative::Flow(flow) => flow.write(out),
            Performative::Transfer(transfer) => transfer.write(out),
            Performative::Disposition(disposition) => disposition.write(out),
            Performative::Detach(detach) => detach.write(out),
            Performative::End(error) => write_end(out, error),
            Performative::Close(error) => write_close(out, error),
        }
    }
}
