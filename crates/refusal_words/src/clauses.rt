//! What each clause asks, as `docs/LAW.md` says it.

use refusal_facts::Clause;

/// What the clause asks of a record.
pub fn sentence(clause: Clause) -> &'static str {
    match clause {
        Clause::L1 =>
            "a frame is a performative within the frame limit, on a connection that is open, in the order of opens and closes",
        Clause::L2 => "a begin answers a begin of the client",
        Clause::L3 =>
            "an attach answers the client's: same name, opposite role, its address and settle modes; or it refuses it",
        Clause::L4 => "a transfer stands on a consumer's live link, within its session's window",
        Clause::L5 => "a delivery begins within its link's credit, with the next delivery-id",
        Clause::L6 => "a later transfer goes on with the delivery in progress",
        Clause::L7 =>
            "a transfer's note names a delivery that is complete, not gone, and of the link's address",
        Clause::L8 => "a transfer carries that delivery's octets, and at its end all of them",
        Clause::L9 =>
            "an anycast delivery goes to one consumer, a multicast one once to each link that it is due to, in order",
        Clause::L10 => "a flow tells what its session and link have come to",
        Clause::L11 => "an outcome is that of the row that its note names, and is told once",
        Clause::L12 => "a settling follows the consumer's decision",
        Clause::L13 => "a detach or an end names a live link or session, or answers the client's",
        Clause::L14 => "nothing but a transfer and an outcome has a note",
    }
}
