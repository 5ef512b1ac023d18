//! What an engine does with the octets that it is fed.

ghost use Rattle.std.specs.Prelude.{◌≡◌, [], ◌∷◌, ◌++◌, IfErr, OnOk, OnErr};
ghost use Rattle.route_items.specs.Items.{connection_of, what_of, IsShort};
ghost use Rattle.stream_reading.specs.declared.step.Phase.TheVariants as phases;
ghost use Rattle.stream_reading.specs.Stream.{answer_to, answer_to_fault};
ghost use Rattle.conn_engine.specs.Serving.{items_in};
ghost use Rattle.conn_engine.specs.Feeding.{feed_state, items_at_fault, ItemFault, IsShortStep, StepRefused, FaultTold, ToldMore, AfterStep, AfterSteps, AfterPiece};

use crate::fault::EngineFault;
use crate::output::Output;
use crate::port::{Port, PortFault};
use crate::silence::time_out_at;
use route_items::Item;
use stream_reading::{Event, Phase, Step, StreamFault, StreamReader, answer_to, answer_to_fault};

/// Takes the next octets of a stream, and each step that is whole then, in order: it is answered, and the router is
/// told of it; the idle-time-out of the first open is kept. The port holds in between.
///
/// # Errors
///
/// Why no further step is taken. Those before it were.
pub(crate) fn take_piece<P: Port>(
    connection: u32,
    port: &mut P,
    reader: &mut StreamReader,
    output: &mut Output,
    time_out: &mut Option<u32>,
    piece: &[u8],
) -> Result<(), EngineFault>
    requires own { connection ≡ P.connection port.old }
    ensures told { AfterPiece (feed_state (P.items port.old) reader.old output.old time_out.old) (feed_state (P.items port.new) reader.new output.new time_out.new) piece.now result }
    ensures frames { P.frames port.new ≡ P.frames port.old }
    ensures connection { P.connection port.new ≡ P.connection port.old }
{
    let Ok(()) = reader.feed(piece) else {
        return Err(EngineFault::Memory);
    };
    port.hold();
    let taken = take_steps(connection, port, reader, output, time_out);
    port.rest();
    taken
}

/// Takes each step that is whole.
fn take_steps<P: Port>(
    connection: u32,
    port: &mut P,
    reader: &mut StreamReader,
    output: &mut Output,
    time_out: &mut Option<u32>,
) -> Result<(), EngineFault>
    requires own { connection ≡ P.connection port.old }
    ensures told { AfterSteps (feed_state (P.items port.old) reader.old output.old time_out.old) (feed_state (P.items port.new) reader.new output.new time_out.new) result }
    ensures frames { P.frames port.new ≡ P.frames port.old }
    ensures connection { P.connection port.new ≡ P.connection port.old }
{
    loop {
        match take_step(connection, port, reader, output, time_out) {
            Ok(true) => {}
            Ok(false) => return Ok(()),
            Err(fault) => return Err(fault),
        }
    }
}

/// Takes the step that stands next, if one is whole.
fn take_step<P: Port>(
    connection: u32,
    port: &mut P,
    reader: &mut StreamReader,
    output: &mut Output,
    time_out: &mut Option<u32>,
) -> Result<bool, EngineFault>
    requires own { connection ≡ P.connection port.old }
    ensures told { AfterStep (feed_state (P.items port.old) reader.old output.old time_out.old) (feed_state (P.items port.new) reader.new output.new time_out.new) result }
    ensures frames { P.frames port.new ≡ P.frames port.old }
    ensures connection { P.connection port.new ≡ P.connection port.old }
{
    let phase = reader.phase();
    match reader.peek() {
        Ok(None) => Ok(false),
        Ok(Some(step)) => {
            let event = step.event;
            let len = step.octets.len();
            let time_out_then = time_out_at(*time_out, event, step.octets);
            match hand_on(connection, port, output, step) {
                Ok(()) => {
                    *time_out = time_out_then;
                    reader.took(event, len);
                    Ok(true)
                }
                Err(fault) => Err(fault),
            }
        }
        Err(fault) => Err(tell_fault(connection, port, output, phase, fault)),
    }
}

/// Answers a step, and tells the router of it.
fn hand_on<P: Port>(
    connection: u32,
    port: &mut P,
    output: &mut Output,
    step: Step<'_>,
) -> Result<(), EngineFault>
    requires own { connection ≡ P.connection port.old }
    requires short { IsShortStep step.event step.octets.now }
    ensures items { OnOk result (P.items port.new ≡ P.items port.old ++ items_in step.entry.event step.entry.octets.now) }
    ensures waiting { OnOk result (output.new ≡ output.old ++ answer_to step.entry.event) }
    ensures untold { OnErr result (P.items port.new ≡ P.items port.old) }
    ensures refused { IfErr result (StepRefused step.entry.event output.old output.new) }
    ensures frames { P.frames port.new ≡ P.frames port.old }
    ensures connection { P.connection port.new ≡ P.connection port.old }
{
    let Ok(()) = output.put(answer_to(step.event)) else {
        return Err(EngineFault::Memory);
    };
    match step.event {
        Event::SaslHeader => Ok(()),
        Event::AnonymousInit => Ok(()),
        Event::AmqpHeader => submit(port, Item::Opened(connection)),
        Event::AmqpFrame => submit(port, Item::In(connection, step.octets)),
    }
}

/// Says to the client why its stream ends, and tells the router where frames were due.
fn tell_fault<P: Port>(
    connection: u32,
    port: &mut P,
    output: &mut Output,
    phase: Phase,
    fault: StreamFault,
) -> EngineFault
    requires own { connection ≡ P.connection port.old }
    ensures told { ToldMore (P.items port.old) (P.items port.new) output.old output.new (λ last said. FaultTold phase fault last said result) }
    ensures frames { P.frames port.new ≡ P.frames port.old }
    ensures connection { P.connection port.new ≡ P.connection port.old }
{
    let Ok(()) = output.put(answer_to_fault(fault)) else {
        return EngineFault::Memory;
    };
    match tell_broken(connection, port, phase) {
        Ok(()) => EngineFault::of_stream(fault),
        Err(refusal) => refusal,
    }
}

/// Tells the router that the octets stopped being frames, where these were due.
fn tell_broken<P: Port>(connection: u32, port: &mut P, phase: Phase) -> Result<(), EngineFault>
    requires own { connection ≡ P.connection port.old }
    ensures ok { OnOk result (P.items port.new ≡ P.items port.old ++ items_at_fault phase) }
    ensures err { OnErr result (P.items port.new ≡ P.items port.old) }
    ensures due { OnErr result (phase ≡ phases.Open) }
    ensures refused { IfErr result ItemFault }
    ensures frames { P.frames port.new ≡ P.frames port.old }
    ensures connection { P.connection port.new ≡ P.connection port.old }
{
    match phase {
        Phase::Open => submit(port, Item::Broken(connection)),
        Phase::FirstHeader | Phase::Exchange | Phase::SecondHeader => Ok(()),
    }
}

/// Hands an item to the router.
pub(crate) fn submit<P: Port>(port: &mut P, item: Item<'_>) -> Result<(), EngineFault>
    requires own { connection_of item ≡ P.connection port.old }
    requires short { IsShort item }
    ensures ok { OnOk result (P.items port.new ≡ P.items port.old ++ what_of item.entry ∷ []) }
    ensures err { OnErr result (P.items port.new ≡ P.items port.old) }
    ensures refused { IfErr result ItemFault }
    ensures frames { P.frames port.new ≡ P.frames port.old }
    ensures connection { P.connection port.new ≡ P.connection port.old }
{
    match port.submit(item) {
        Ok(()) => Ok(()),
        Err(PortFault::Step(fault)) => Err(EngineFault::Port(fault)),
        Err(PortFault::Memory) => Err(EngineFault::Memory),
    }
}
