ghost use Rattle.std.specs.Prelude.{◌≡◌, ℕ, List, ◌++◌, ◌*◌, ◌<◌, ◌≤◌, length, take, drop, OnOk, All};
ghost use Rattle.slot_stream.specs.SlotStream.{IsPiece, all_pieces, pieces_of, piece_of, piece_count};
ghost use Rattle.slot_stream.specs.UnitBytes.{AreUnitsOf};
ghost use Rattle.stream_syntax.specs.declared.wire.TheConstants.{PAYLOAD_LENGTH};

use crate::piece::Piece;
use stream_syntax::PAYLOAD_LENGTH;
use sub_base::NoMemory;

/// Puts the pieces of units of these lengths, which stand one after the other, behind the others.
pub fn push_units<'a>(
    lengths: &[u32],
    bytes: &'a [u8],
    pieces: &mut Vec<Piece<'a>>,
) -> Result<(), NoMemory>
    requires units { (units : List (List ℕ)) × AreUnitsOf lengths.now bytes.now units }
    requires each { All IsPiece pieces.old.items }
    ensures pieces { OnOk result
        ((units : List (List ℕ)) → AreUnitsOf lengths.now bytes.now units
        → pieces.new.items ≡ pieces.old.items ++ all_pieces units) }
    ensures each { All IsPiece pieces.new.items }
{
    let mut left = bytes;
    for length in lengths {
        let (unit, behind) = left.split_at(*length as usize);
        push_pieces(unit, pieces)?;
        left = behind;
    }
    Ok(())
}

/// Puts the pieces of a unit behind the others.
fn push_pieces<'a>(unit: &'a [u8], pieces: &mut Vec<Piece<'a>>) -> Result<(), NoMemory>
    requires { All IsPiece pieces.old.items }
    ensures pieces { OnOk result (pieces.new.items ≡ pieces.old.items ++ pieces_of unit.now) }
    ensures each { All IsPiece pieces.new.items }
{
    for number in 0..unit.len().div_ceil(PAYLOAD_LENGTH) {
        pieces.push(piece(unit, number))?;
    }
    Ok(())
}

/// The piece of a unit at that place, from 0.
fn piece(unit: &[u8], number: usize) -> Piece<'_>
    requires { number < piece_count unit.now }
    ensures piece { result ≡ piece_of unit.now number }
    ensures fits { IsPiece result }
{
    Piece {
        bytes: chunk(unit, number),
        starts: number == 0,
    }
}

/// The bytes of the piece of a unit at that place.
fn chunk(unit: &[u8], number: usize) -> &[u8]
    requires { number < piece_count unit.now }
    ensures chunk { result.now ≡ take PAYLOAD_LENGTH (drop (PAYLOAD_LENGTH * number) unit.now) }
    ensures some { 1 ≤ length result.now }
    ensures fits { length result.now ≤ PAYLOAD_LENGTH }
{
    let start = PAYLOAD_LENGTH * number;
    let end = (start + PAYLOAD_LENGTH).min(unit.len());
    &unit[start..end]
}
