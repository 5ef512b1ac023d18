//! The conditions of errors that a router tells (part 2 of the standard, sections 2.8.14 to 2.8.18).

/// A condition, in the standard's terms; which fault of a client gets which is a choice of the router.
#[derive(Clone, Copy, Debug, PartialEq, Eq)]
pub enum ErrorCondition {
    /// The octets are no frame, or a frame breaks a limit of the connection (2.8.16).
    FramingError,
    /// A frame's body is no performative (2.8.15).
    DecodeError,
    /// What the peer did is not allowed (2.8.15).
    NotAllowed,
    /// A field has a value that it may not have (2.8.15).
    InvalidField,
    /// The handle of an attach is in use (2.8.17).
    HandleInUse,
    /// The peer asks for more than is allowed (2.8.15).
    ResourceLimitExceeded,
    /// The peer asks for what is not implemented (2.8.15).
    NotImplemented,
    /// A transfer came outside the session's window (2.8.17).
    WindowViolation,
    /// A frame came on a handle without link (2.8.17).
    UnattachedHandle,
    /// A delivery came without credit (2.8.18).
    TransferLimitExceeded,
    /// A message is too large (2.8.18).
    MessageSizeExceeded,
}

impl ErrorCondition {
    ghost use Rattle.std.specs.Prelude.{◌≡◌};
    ghost use Rattle.amqp_perf.specs.Conditions.{condition_name};
    ghost use Rattle.amqp_perf.specs.Writing.{IsWritableError};

    /// The condition's name, as an error tells it.
    #[tactic(auto, using(crate::proofs::Conditions::condition_writable))]
    pub fn name(self) -> &'static str
        ensures names { result.now ≡ condition_name self }
        ensures writable { IsWritableError result.now }
    {
        match self {
            ErrorCondition::FramingError => "amqp:connection:framing-error",
            ErrorCondition::DecodeError => "amqp:decode-error",
            ErrorCondition::NotAllowed => "amqp:not-allowed",
            ErrorCondition::InvalidField => "amqp:invalid-field",
            ErrorCondition::HandleInUse => "amqp:session:handle-in-use",
            ErrorCondition::ResourceLimitExceeded => "amqp:resource-limit-exceeded",
            ErrorCondition::NotImplemented => "amqp:not-implemented",
            ErrorCondition::WindowViolation => "amqp:session:window-violation",
            ErrorCondition::UnattachedHandle => "amqp:session:unattached-handle",
            ErrorCondition::TransferLimitExceeded => "amqp:link:transfer-limit-exceeded",
            ErrorCondition::MessageSizeExceeded => "amqp:link:message-size-exceeded",
        }
    }
}
