//! The engine of one connection.

ghost use Rattle.std.specs.Prelude.{◌≡◌, ◌≤◌, ◌++◌, ℕ, List, [], length, take, drop, None, Some, OnOk};
ghost use Rattle.stream_reading.specs.declared.step.Phase.TheVariants.{FirstHeader, Open};
ghost use Rattle.conn_engine.specs.declared.engine_state.EngineState.TheVariants.{Reading};
ghost use Rattle.conn_engine.specs.Closing.{is_over, place_given};
ghost use Rattle.conn_engine.specs.FrameEnds.{frame_ends_left, no_frame_ends};
ghost use Rattle.conn_engine.specs.Silence.{no_silence, silence_given};
ghost use Rattle.conn_engine.specs.Serving.{Extent, HasFed, HasGiven};
ghost use Rattle.conn_engine.specs.Feeding.{FedAt, and_fed, extent_after, place_after};
ghost use Rattle.conn_engine.specs.Taking.{AfterLoss, IsRefilled, Refilled, is_loss_due, loss_of};
ghost use Rattle.conn_engine.specs.Ticking.{AfterTick, and_tick, patience_of};

use crate::engine_state::{EngineState, Loss};
use crate::fault::EngineFault;
use crate::feeding::{submit, take_piece};
use crate::frame_ends::FrameEnds;
use crate::output::Output;
use crate::port::Port;
use crate::silence::{EMPTY_FRAME, Silence, patience};
use crate::taking::take_frames;
use route_items::Item;
use std::alloc::{AllocError, Global};
use std::marker::Model;
use stream_reading::{Phase, StreamReader};

mod paused;

pub use paused::PausedEngine;

/// What lies between a device and a router on one connection: it is fed the octets that the device delivers, in whatever
/// pieces, hands the router its items, and gives the octets that the device is to take.
///
/// It reads the client's header, perhaps behind a SASL exchange, and then its frames. Where these stop, because octets
/// are no frame, it is closing until the router's close is given. It is over once a close was given, once the device is
/// gone, and behind every other fault.
///
/// It keeps what was fed and is no whole frame yet, and what waits to be given.
#[derive(Drop)]
pub struct Engine<P: Port> {
    connection: u32,
    port: P,
    reader: StreamReader,
    output: Output,
    /// The number of the record from which on the router is asked for its next frame.
    next: u64,
    /// Where the router's open and its close end among the octets that wait.
    frame_ends: FrameEnds,
    place: EngineState,
    /// The idle-time-out of the client's open, in milliseconds, once it came; 0 where it has none.
    time_out: Option<u32>,
    silence: Silence,
}

impl<P: Port> Model for Engine<P> {
    ghost use Rattle.std.specs.Prelude.{◌≡◌};
    ghost use Rattle.conn_engine.specs.Serving.{Connection};

    ghost Value = { Connection };

    ghost view = { λ e. record { number = P.connection e.port; items = P.items e.port; frames = P.frames e.port; ahead = e.reader; waiting = e.output; is_idle = P.is_idle e.port; frame_ends = e.frame_ends; place = e.place; time_out = e.time_out; silence = e.silence } };

    ghost invariant = { λ e. e.connection ≡ P.connection e.port };
}

impl<P: Port> Engine<P> {
    /// The engine of the connection of this number, of which no octet has come yet. The port is of the same connection.
    pub fn new(alloc: Global, connection: u32, port: P) -> Engine<P>
        requires { connection ≡ P.connection port }
        ensures value { result ≡ record { number = connection; items = P.items port; frames = P.frames port; ahead = record { phase = FirstHeader; octets = [] }; waiting = []; is_idle = P.is_idle port; frame_ends = no_frame_ends; place = Reading; time_out = None; silence = no_silence } }
        ensures fed { P.items port ≡ [] → HasFed result [] }
        ensures given { (extent : Extent) → P.frames port ≡ [] → HasGiven extent result [] [] 0 }
    {
        Engine {
            connection,
            port,
            reader: StreamReader::new(alloc),
            output: Output::new(alloc),
            next: 0,
            frame_ends: FrameEnds::new(),
            place: EngineState::Reading,
            time_out: None,
            silence: Silence::new(),
        }
    }

    /// Takes the octets that the device delivered next.
    ///
    /// # Errors
    ///
    /// As `EngineFault` says. The items before the fault were taken by the router.
    pub fn feed(&mut self, piece: &[u8]) -> Result<(), EngineFault>
        ensures did { FedAt self.old.place self.old self.new piece.now result }
        ensures number { self.new.number ≡ self.old.number }
        ensures frames { self.new.frames ≡ self.old.frames }
        ensures frame_ends { self.new.frame_ends ≡ self.old.frame_ends }
        ensures silence { self.new.silence ≡ self.old.silence }
        // Whatever was fed before, now this piece was fed too.
        ensures fed { (fed : List ℕ) → HasFed self.old fed → HasFed self.new (and_fed result fed piece.now) }
        ensures given { (extent : Extent) (fed given : List ℕ) (ticks : ℕ) → HasGiven extent self.old fed given ticks
            → HasGiven (extent_after extent result) self.new (and_fed result fed piece.now) given ticks }
    {
        match self.place {
            EngineState::Reading => self.read_piece(piece),
            EngineState::Closing => Err(EngineFault::Frame),
            EngineState::Over(_) => Err(EngineFault::Over),
        }
    }

    /// Reads a piece of the stream.
    fn read_piece(&mut self, piece: &[u8]) -> Result<(), EngineFault>
        requires { self.old.place ≡ Reading }
        ensures did { FedAt Reading self.old self.new piece.now result }
        ensures number { self.new.number ≡ self.old.number }
        ensures frames { self.new.frames ≡ self.old.frames }
        ensures frame_ends { self.new.frame_ends ≡ self.old.frame_ends }
        ensures silence { self.new.silence ≡ self.old.silence }
    {
        let taken = take_piece(
            self.connection,
            &mut self.port,
            &mut self.reader,
            &mut self.output,
            &mut self.time_out,
            piece,
        );
        self.place = place_after(taken, self.reader.phase());
        taken
    }

    /// Takes frames of the router until it has none or 65536 octets wait.
    ///
    /// # Errors
    ///
    /// Where the memory for a frame is refused. Those before it were taken, and a later call goes on with it.
    #[tactic(auto, using(crate::proofs::FedOn::fed_refilled))]
    pub fn refill(&mut self) -> Result<(), AllocError>
        ensures took { Refilled self.old self.new }
        // Where the connection is open, the port was asked until it had none or enough octets wait.
        ensures all { OnOk result (self.old.ahead.phase ≡ Open → IsRefilled self.new.is_idle self.new.waiting) }
        ensures same { self.new ≡ record self.old { frames = self.new.frames; waiting = self.new.waiting; is_idle = self.new.is_idle; frame_ends = self.new.frame_ends } }
        // Whatever was fed and given before, is so still.
        ensures fed { (fed : List ℕ) → HasFed self.old fed → HasFed self.new fed }
        ensures given { (extent : Extent) (fed given : List ℕ) (ticks : ℕ) → HasGiven extent self.old fed given ticks → HasGiven extent self.new fed given ticks }
    {
        self.take_due_frames()
    }

    /// Takes frames of the router, if it was told that the connection is open.
    fn take_due_frames(&mut self) -> Result<(), AllocError>
        ensures took { Refilled self.old self.new }
        // Where the connection is open, the port was asked until it had none or enough octets wait.
        ensures all { OnOk result (self.old.ahead.phase ≡ Open → IsRefilled self.new.is_idle self.new.waiting) }
        ensures same { self.new ≡ record self.old { frames = self.new.frames; waiting = self.new.waiting; is_idle = self.new.is_idle; frame_ends = self.new.frame_ends } }
    {
        if self.reader.phase() != Phase::Open {
            return Ok(());
        }
        take_frames(
            &mut self.port,
            &mut self.output,
            &mut self.next,
            &mut self.frame_ends,
        )
    }

    /// What is to be given next, lent.
    pub fn give(&self) -> &[u8]
        ensures { result.now ≡ self.now.waiting }
    {
        self.output.waiting()
    }

    /// The first `n` octets of what is to be given were given. Where a close is among them, the engine is over.
    #[tactic(auto, using(crate::proofs::FedOn::fed_first, crate::proofs::GivenOn::given_first))]
    pub fn gave(&mut self, n: usize)
        requires { n ≤ length self.old.waiting }
        ensures value { self.new ≡ record self.old { waiting = drop n self.old.waiting; frame_ends = frame_ends_left self.old.frame_ends n; place = place_given self.old.place self.old.frame_ends.closed n; silence = silence_given self.old.silence n } }
        // Whatever was fed and given before, now these octets were given too.
        ensures fed { (fed : List ℕ) → HasFed self.old fed → HasFed self.new fed }
        ensures given { (extent : Extent) (fed given : List ℕ) (ticks : ℕ) → HasGiven extent self.old fed given ticks
            → HasGiven extent self.new fed (given ++ take n self.old.waiting) ticks }
    {
        self.output.gave(n);
        self.place = place_given(self.place, self.frame_ends.closed, n);
        self.frame_ends = self.frame_ends.left(n);
        self.silence = self.silence.given(n);
    }

    /// Is told the moment, in milliseconds, and places an empty frame where the client would else hear nothing for half of the
    /// idle-time-out of its open. It says whether it did. A moment before one that was told counts as that one.
    ///
    /// Nothing comes of it where the client's open has no idle-time-out, before an open of the router was given, behind its
    /// close, and once the engine is over.
    ///
    /// # Errors
    ///
    /// Where the memory for the frame is refused; nothing has changed then.
    #[tactic(auto, using(crate::proofs::FedOn::fed_ticked, crate::proofs::GivenOn::given_ticked))]
    pub fn tick(&mut self, moment: u64) -> Result<bool, AllocError>
        ensures did { AfterTick (patience_of self.old) moment self.old self.new result }
        // Whatever was fed and given before, is so still; one tick more may have placed an empty frame.
        ensures fed { (fed : List ℕ) → HasFed self.old fed → HasFed self.new fed }
        ensures given { (extent : Extent) (fed given : List ℕ) (ticks : ℕ) → HasGiven extent self.old fed given ticks
            → HasGiven extent self.new fed given (and_tick result ticks) }
    {
        self.keep_alive(moment)
    }

    /// Places an empty frame, if the client is to hear one at this moment.
    fn keep_alive(&mut self, moment: u64) -> Result<bool, AllocError>
        ensures { AfterTick (patience_of self.old) moment self.old self.new result }
    {
        match self.patience() {
            Some(patience) => self.end_silence(patience, moment),
            None => Ok(false),
        }
    }

    /// The silence that the client bears now, in milliseconds, if it is to hear anything.
    fn patience(&self) -> Option<u64>
        ensures { result ≡ patience_of self.now }
    {
        if self.frame_ends.is_open_given()
            && self.frame_ends.closed.is_none()
            && !self.place.is_over()
        {
            patience(self.time_out)
        } else {
            None
        }
    }

    /// Places an empty frame, if the client has borne such a silence.
    fn end_silence(&mut self, patience: u64, moment: u64) -> Result<bool, AllocError>
        ensures { AfterTick (Some patience) moment self.old self.new result }
    {
        let is_clear = self.output.waiting().is_empty();
        if !self.silence.is_due(is_clear, patience, moment) {
            self.silence = self.silence.after(false, moment);
            return Ok(false);
        }
        match self.output.put(&EMPTY_FRAME) {
            Ok(()) => {
                self.silence = self.silence.after(true, moment);
                Ok(true)
            }
            Err(fault) => Err(fault),
        }
    }

    /// The device is gone. The router is told so at the first call, if it was told that the connection is open; the
    /// engine is over.
    ///
    /// # Errors
    ///
    /// `Port` or `Memory`, where the router did not take it. It is told once at most.
    #[tactic(auto, using(crate::proofs::FedOn::fed_gone, crate::proofs::GivenOn::given_gone))]
    pub fn gone(&mut self) -> Result<(), EngineFault>
        ensures did { AfterLoss (is_loss_due self.old.ahead.phase self.old.place) self.old self.new result }
        // Whatever was fed and given before, is so still.
        ensures fed { (fed : List ℕ) → HasFed self.old fed → HasFed self.new fed }
        ensures given { (extent : Extent) (fed given : List ℕ) (ticks : ℕ) → HasGiven extent self.old fed given ticks → HasGiven extent self.new fed given ticks }
    {
        self.end()
    }

    /// Tells the router of the loss, if it is to be told, and goes on no more.
    fn end(&mut self) -> Result<(), EngineFault>
        ensures { AfterLoss (is_loss_due self.old.ahead.phase self.old.place) self.old self.new result }
    {
        if !self.place.is_loss_due(self.reader.phase()) {
            self.place = self.place.over();
            return Ok(());
        }
        let told = submit(&mut self.port, Item::Lost(self.connection));
        self.place = EngineState::Over(loss_of(told));
        told
    }

    /// Whether it takes no more octets and nothing is awaited but that the device takes what is to be given.
    pub fn is_over(&self) -> bool
        ensures { result ≡ is_over self.now.place }
    {
        self.place.is_over()
    }

    /// Gives the port back.
    pub fn into_port(self) -> P
        ensures connection { P.connection result ≡ self.number }
        ensures items { P.items result ≡ self.items }
        ensures frames { P.frames result ≡ self.frames }
    {
        let Engine { port, .. } = self;
        port
    }
}

/// Where an engine is that read a piece.
fn place_after(taken: Result<(), EngineFault>, phase: Phase) -> EngineState
    ensures { result ≡ place_after taken phase }
{
    match taken {
        Ok(()) => EngineState::Reading,
        Err(EngineFault::Frame) => match phase {
            Phase::Open => EngineState::Closing,
            Phase::FirstHeader | Phase::Exchange | Phase::SecondHeader => EngineState::Over(
                Loss::Untold,
            ),
        },
        Err(_) => EngineState::Over(Loss::Untold),
    }
}

/// Where an engine is when the first `n` octets that waited were given, of which so many are up to the end of a close.
fn place_given(place: EngineState, close: Option<usize>, n: usize) -> EngineState
    ensures { result ≡ place_given place close n }
{
    match close {
        Some(end) => { if end <= n { place.over() } else { place } }
        None => place,
    }
}

/// Whether the router was told of a loss.
fn loss_of(told: Result<(), EngineFault>) -> Loss
    ensures { result ≡ loss_of told }
{
    match told {
        Ok(()) => Loss::Told,
        Err(_) => Loss::Refused,
    }
}
