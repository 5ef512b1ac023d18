//! The fields of each performative, in the order of the standard (part 2, section 2.7).

ghost use Rattle.std.specs.Prelude.{◌≡◌};
ghost use Rattle.amqp_perf.specs.Tables.{table_of};

use crate::descriptor::PerformativeKind;

/// What a field of a described list holds. One of `Any` is passed over.
#[derive(Clone, Copy, Debug, PartialEq, Eq)]
pub enum FieldType {
    Any,
    Boolean,
    Ubyte,
    Ushort,
    Uint,
    Binary,
    Str,
    Symbol,
    /// An array of symbols.
    Symbols,
    /// An ubyte from 0 to 2.
    SenderMode,
    /// An ubyte of 0 or 1.
    ReceiverMode,
    /// A described value.
    State,
    Source,
    /// A target or a coordinator.
    Target,
}

/// A field of a described list.
#[derive(Clone, Copy, Debug, PartialEq, Eq)]
pub struct Field {
    /// It has to be there, and not null.
    pub is_mandatory: bool,
    pub field_type: FieldType,
}

pub(crate) const ANY: Field = Field {
    is_mandatory: false,
    field_type: FieldType::Any,
};

pub(crate) const BOOLEAN: Field = Field {
    is_mandatory: false,
    field_type: FieldType::Boolean,
};

pub(crate) const USHORT: Field = Field {
    is_mandatory: false,
    field_type: FieldType::Ushort,
};

pub(crate) const UINT: Field = Field {
    is_mandatory: false,
    field_type: FieldType::Uint,
};

pub(crate) const BINARY: Field = Field {
    is_mandatory: false,
    field_type: FieldType::Binary,
};

pub(crate) const SENDER_MODE: Field = Field {
    is_mandatory: false,
    field_type: FieldType::SenderMode,
};

pub(crate) const RECEIVER_MODE: Field = Field {
    is_mandatory: false,
    field_type: FieldType::ReceiverMode,
};

const STATE: Field = Field {
    is_mandatory: false,
    field_type: FieldType::State,
};

const SOURCE: Field = Field {
    is_mandatory: false,
    field_type: FieldType::Source,
};

const TARGET: Field = Field {
    is_mandatory: false,
    field_type: FieldType::Target,
};

pub(crate) const MANDATORY_BOOLEAN: Field = Field {
    is_mandatory: true,
    field_type: FieldType::Boolean,
};

pub(crate) const MANDATORY_UINT: Field = Field {
    is_mandatory: true,
    field_type: FieldType::Uint,
};

pub(crate) const MANDATORY_STR: Field = Field {
    is_mandatory: true,
    field_type: FieldType::Str,
};

/// container-id, hostname, max-frame-size, channel-max, idle-time-out, outgoing-locales, incoming-locales,
/// offered-capabilities, desired-capabilities, properties.
static OPEN: [Field; 10] = [MANDATORY_STR, ANY, UINT, ANY, UINT, ANY, ANY, ANY, ANY, ANY];

/// remote-channel, next-outgoing-id, incoming-window, outgoing-window, handle-max, offered-capabilities,
/// desired-capabilities, properties.
static BEGIN: [Field; 8] = [
    USHORT,
    MANDATORY_UINT,
    MANDATORY_UINT,
    MANDATORY_UINT,
    ANY,
    ANY,
    ANY,
    ANY,
];

/// name, handle, role, snd-settle-mode, rcv-settle-mode, source, target, unsettled, incomplete-unsettled,
/// initial-delivery-count, max-message-size, offered-capabilities, desired-capabilities, properties.
static ATTACH: [Field; 14] = [
    MANDATORY_STR,
    MANDATORY_UINT,
    MANDATORY_BOOLEAN,
    SENDER_MODE,
    RECEIVER_MODE,
    SOURCE,
    TARGET,
    ANY,
    ANY,
    UINT,
    ANY,
    ANY,
    ANY,
    ANY,
];

/// next-incoming-id, incoming-window, next-outgoing-id, outgoing-window, handle, delivery-count, link-credit,
/// available, drain, echo, properties.
static FLOW: [Field; 11] = [
    UINT,
    MANDATORY_UINT,
    MANDATORY_UINT,
    MANDATORY_UINT,
    UINT,
    UINT,
    UINT,
    ANY,
    BOOLEAN,
    BOOLEAN,
    ANY,
];

/// handle, delivery-id, delivery-tag, message-format, settled, more, rcv-settle-mode, state, resume, aborted,
/// batchable.
static TRANSFER: [Field; 11] = [
    MANDATORY_UINT,
    UINT,
    BINARY,
    UINT,
    BOOLEAN,
    BOOLEAN,
    ANY,
    ANY,
    BOOLEAN,
    BOOLEAN,
    ANY,
];

/// role, first, last, settled, state, batchable.
static DISPOSITION: [Field; 6] = [MANDATORY_BOOLEAN, MANDATORY_UINT, UINT, BOOLEAN, STATE, ANY];

/// handle, closed, error.
static DETACH: [Field; 3] = [MANDATORY_UINT, BOOLEAN, ANY];

/// error.
static END: [Field; 1] = [ANY];

/// error.
static CLOSE: [Field; 1] = [ANY];

/// The fields that a performative of this kind may have.
pub(crate) fn table(kind: PerformativeKind) -> &'static [Field]
    ensures { result.now ≡ table_of kind }
{
    match kind {
        PerformativeKind::Open => &OPEN,
        PerformativeKind::Begin => &BEGIN,
        PerformativeKind::Attach => &ATTACH,
        PerformativeKind::Flow => &FLOW,
        PerformativeKind::Transfer => &TRANSFER,
        PerformativeKind::Disposition => &DISPOSITION,
        PerformativeKind::Detach => &DETACH,
        PerformativeKind::End => &END,
        PerformativeKind::Close => &CLOSE,
    }
}
