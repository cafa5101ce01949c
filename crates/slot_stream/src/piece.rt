use std::marker::Model;

/// A piece of a unit: its bytes, of which a packet takes 1 to 184 (`IsPiece`), and whether the unit
/// starts with it. It lends its bytes from the unit.
#[derive(Debug, Drop)]
pub struct Piece<'a> {
    /// The bytes of the piece.
    pub bytes: &'a [u8],
    /// Whether the unit starts with this piece.
    pub starts: bool,
}

impl<'a> Model for Piece<'a> {
    ghost use Rattle.slot_stream.specs.SlotStream.{Piece as PieceValue};

    ghost Value = { PieceValue };

    ghost view = { λ piece. record { bytes = piece.bytes.now; starts = piece.starts } };
}
