//! The numbers of this profile, each once (`profile`), what happens on a session or link (`events`), and counts over its
//! own events, which are definitions alone, in `specs/`: every crate with a counter stands on them.
#![tactic(auto)]

mod events;
mod profile;

pub use events::{SentEvent, WindowEvent};
pub use profile::{
    CAPACITY, CHANNEL_MAX, HANDLE_MAX, INCOMING_WINDOW, LOW_MARK, MAX_ADDRESS, MAX_DELIVERY_TAG,
    MAX_DEPTH, MAX_FRAME_SIZE, MAX_LINK_NAME, MAX_MESSAGE_SIZE, MAX_PREFIX, MAX_RULES,
    MIN_MAX_FRAME_SIZE, OUTGOING_WINDOW, RENEWAL_MARK,
};
