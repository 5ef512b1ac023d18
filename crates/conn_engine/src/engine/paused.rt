//! An engine without its port.

ghost use Rattle.std.specs.Prelude.{◌≡◌, [], None};
ghost use Rattle.stream_reading.specs.declared.step.Phase.TheVariants.{FirstHeader};
ghost use Rattle.conn_engine.specs.declared.engine_state.EngineState.TheVariants.{Reading};
ghost use Rattle.conn_engine.specs.FrameEnds.{no_frame_ends};
ghost use Rattle.conn_engine.specs.Pausing.{paused, resumed};
ghost use Rattle.conn_engine.specs.Silence.{no_silence};

use super::Engine;
use crate::engine_state::EngineState;
use crate::frame_ends::FrameEnds;
use crate::output::Output;
use crate::port::Port;
use crate::silence::Silence;
use std::alloc::Global;
use std::marker::Model;
use stream_reading::StreamReader;

/// What an engine keeps between two turns, where its port is not its own: one that lends it a port for each turn has this in the
/// meantime.
#[derive(Drop)]
pub struct PausedEngine {
    connection: u32,
    reader: StreamReader,
    output: Output,
    next: u64,
    frame_ends: FrameEnds,
    place: EngineState,
    time_out: Option<u32>,
    silence: Silence,
}

impl Model for PausedEngine {
    ghost use Rattle.conn_engine.specs.Pausing.{Paused};

    ghost Value = { Paused };

    ghost view = { λ e. record { number = e.connection; ahead = e.reader; waiting = e.output; frame_ends = e.frame_ends; place = e.place; time_out = e.time_out; silence = e.silence } };
}

impl PausedEngine {
    /// The engine of the connection of this number, of which no octet has come yet.
    pub fn new(alloc: Global, connection: u32) -> PausedEngine
        ensures { result ≡ record { number = connection; ahead = record { phase = FirstHeader; octets = [] }; waiting = []; frame_ends = no_frame_ends; place = Reading; time_out = None; silence = no_silence } }
    {
        PausedEngine {
            connection,
            reader: StreamReader::new(alloc),
            output: Output::new(alloc),
            next: 0,
            frame_ends: FrameEnds::new(),
            place: EngineState::Reading,
            time_out: None,
            silence: Silence::new(),
        }
    }

    /// Goes on with a port of the same connection. It is as before where the port took and gave the same as the one before it.
    pub fn resume<P: Port>(self, port: P) -> Engine<P>
        requires { P.connection port ≡ self.number }
        ensures { result ≡ resumed self (P.items port) (P.frames port) (P.is_idle port) }
    {
        Engine {
            connection: self.connection,
            port,
            reader: self.reader,
            output: self.output,
            next: self.next,
            frame_ends: self.frame_ends,
            place: self.place,
            time_out: self.time_out,
            silence: self.silence,
        }
    }
}

impl<P: Port> Engine<P> {
    /// What is kept between two turns, and the port.
    pub fn pause(self) -> (PausedEngine, P)
        ensures engine { result.0 ≡ paused self }
        ensures connection { P.connection result.1 ≡ self.number }
        ensures items { P.items result.1 ≡ self.items }
        ensures frames { P.frames result.1 ≡ self.frames }
    {
        let Engine {
            connection,
            port,
            reader,
            output,
            next,
            frame_ends,
            place,
            time_out,
            silence,
        } = self;
        let paused = PausedEngine {
            connection,
            reader,
            output,
            next,
            frame_ends,
            place,
            time_out,
            silence,
        };
        (paused, port)
    }
}
