//! What the definitions of the text say to one who reads it.

ghost use Rattle.std.specs.Prelude.{◌≡◌, ◌<◌, ◌≤◌, ◌^◌, ◌++◌, ◌∷◌, [], List, ℕ, length};
ghost use Rattle.flow_counts.specs.declared.profile.TheConstants.{MAX_FRAME_SIZE};
ghost use Rattle.capture_form.specs.declared.records.Record.{Record};
ghost use Rattle.capture_form.specs.Text.{IsRecord};
ghost use Rattle.capture_packets.specs.declared.segment.Segment.{Segment};
ghost use Rattle.capture_packets.specs.declared.blocks.TheConstants.{MOST_COMMENT};
ghost use Rattle.capture_packets.specs.Ends.{client_end};
ghost use Rattle.capture_packets.specs.Blocks.{packet_block};
ghost use Rattle.capture_packets.specs.Text.{blocks_at, blocks_behind, packets_text};
ghost use Rattle.capture_packets.specs.Laws.{EndsWithPacket, payload_in, told_length, told_length_again};

/// The laws of the text. The function does nothing: its contract is the laws.
pub fn laws_of_packets()
    // The blocks of a record stand behind the text of the records before it, and in front of those of the others.
    ensures parts { (before rest : List Record) (entry : Record) → packets_text (before ++ entry ∷ rest) ≡ packets_text before ++ (blocks_at before entry ++ blocks_behind (before ++ entry ∷ []) rest) }
    // They end with a packet of the record's own, whose payload is its frame.
    ensures packet { (before : List Record) (entry : Record) → IsRecord entry → length before < 2 ^ 64 → EndsWithPacket before entry }
    // Any packet of the text has the payload and the lengths that its block tells.
    ensures block { (time : ℕ) (comment : List ℕ) (segment : Segment) (payload : List ℕ) → length comment ≤ MOST_COMMENT → length payload ≤ MAX_FRAME_SIZE
        → (payload_in (packet_block time comment segment payload) ≡ payload)
        × (told_length (packet_block time comment segment payload) ≡ length (packet_block time comment segment payload))
        × (told_length_again (packet_block time comment segment payload) ≡ length (packet_block time comment segment payload)) }
    // No two connections share an address and port.
    ensures apart { (one other : ℕ) → one < 2 ^ 32 → other < 2 ^ 32 → client_end one ≡ client_end other → one ≡ other }
{}
