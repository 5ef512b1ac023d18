//! Where an engine is.

ghost use Rattle.std.specs.Prelude.{◌≡◌};
ghost use Rattle.conn_engine.specs.Closing.{is_over, over_of};
ghost use Rattle.conn_engine.specs.Taking.{is_loss_due};

use stream_reading::Phase;

/// Whether octets are taken.
#[derive(Clone, Copy, Debug, PartialEq, Eq)]
pub(crate) enum EngineState {
    /// They are.
    Reading,
    /// Not any more: they stopped being frames, and the router was told so. Its close is still to be given.
    Closing,
    /// Not any more, and nothing is awaited but that the device takes what waits.
    Over(Loss),
}

/// Whether the router was told that the connection is lost.
#[derive(Clone, Copy, Debug, PartialEq, Eq)]
pub(crate) enum Loss {
    Untold,
    Told,
    /// It was to be told, and did not take it.
    Refused,
}

impl EngineState {
    /// Where an engine is then that goes on no more.
    pub(crate) fn over(self) -> EngineState
        ensures { result ≡ over_of self }
    {
        match self {
            EngineState::Reading | EngineState::Closing => EngineState::Over(Loss::Untold),
            EngineState::Over(loss) => EngineState::Over(loss),
        }
    }

    pub(crate) fn is_over(self) -> bool
        ensures { result ≡ is_over self }
    {
        match self {
            EngineState::Reading | EngineState::Closing => false,
            EngineState::Over(_) => true,
        }
    }

    /// Whether the router is still to be told of a loss, by what the stream is at.
    pub(crate) fn is_loss_due(self, phase: Phase) -> bool
        ensures { result ≡ is_loss_due phase self }
    {
        match phase {
            Phase::Open => match self {
                EngineState::Reading | EngineState::Closing | EngineState::Over(Loss::Untold) =>
                    true,
                EngineState::Over(Loss::Told) | EngineState::Over(Loss::Refused) => false,
            },
            Phase::FirstHeader | Phase::Exchange | Phase::SecondHeader => false,
        }
    }
}
