//! The duties of a router: that nothing which can go waits, that each input is answered first, and that nothing else is
//! written; and in which order it writes what is due. Definitions that compute, in `specs/`, over the events, frames and
//! rows of `trace_events`. `route_answers` and `route_dues` write what they ask for.
//!
//! Reading order in `specs/`: `Consumers`, `Pick`, `Answer`, `Quiet`, `Diligent`, `Order`, `Turn`.
//!
//! `proofs/` has captures on which they are computed: `Worked*` octet by octet, `DutyExamples` one for each duty,
//! `OrderExamples` copies in order and swapped, `TurnExamples` records in turn and out of it; and lemmas for whoever follows
//! them: `PicksInOrder` and `CopyOrder` on the order of what is sent, `QuietLists` on when nothing is left, `Caused` on what
//! stands behind a transfer.
#![tactic(auto)]
