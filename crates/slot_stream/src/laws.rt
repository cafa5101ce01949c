ghost use Rattle.std.specs.Prelude.{◌≡◌, ◌≤◌, ◌++◌, All, List, length, ℕ};
ghost use Rattle.slot_stream.specs.SlotStream.{packets_before, slot_count, stream_of, Piece};

/// A stream begins with the packets at its first slots, as many of them as one takes.
pub fn stream_begins_with_its_front()
    ensures { (pid : ℕ) (pieces : List Piece) (slots : List ℕ) (until : ℕ)
        → until ≤ slot_count slots
        → (rest : List ℕ)
        × (stream_of pid pieces slots ≡ packets_before pid pieces slots until ++ rest) }
{}

/// Pieces that come later leave the packets at the slots before theirs as they are.
pub fn later_pieces_leave_the_front()
    ensures { (pid : ℕ) (pieces more : List Piece) (slots late : List ℕ) (until : ℕ)
        → length pieces ≡ length slots → All (λ slot. until ≤ slot) late
        → packets_before pid (pieces ++ more) (slots ++ late) until
        ≡ packets_before pid pieces slots until }
{}
