ghost use Rattle.std.specs.Prelude.{◌≡◌, ℕ, ◌≤◌, length, take, IfSome, IfNone, List, ◌++◌};
ghost use Rattle.stream_syntax.specs.PixelCodes.{Code, IsString, bits_of};
ghost use Rattle.code_strings.specs.Reached.{Reached};

use crate::token::{Token, read_token};
use crate::walk::quick_place;
use sub_base::Depth;

/// How many bytes the string of a depth has that begins these, with its end and the fill to a whole
/// byte; none where no end comes (EN 300 743, 2-bit, 4-bit and 8-bit pixel code strings).
pub fn string_end(body: &[u8], depth: Depth) -> Option<usize>
    requires { length body.now ≤ 65535 }
    ensures found { IfSome result
        (λ size. (size ≤ length body.now) × (codes : List Code)
        × IsString depth codes (take size body.now)) }
    ensures none { IfNone result
        ((codes : List Code) (front : List ℕ) (rest : List ℕ) → body.now ≡ front ++ rest
        → IsString depth codes front → ⊥) }
{
    let place = quick_place(body, depth);
    end_behind(body, depth, place)
}

/// The same, where codes up to a bit are known.
fn end_behind(body: &[u8], depth: Depth, known: usize) -> Option<usize>
    requires short { length body.now ≤ 65535 }
    requires known { Reached depth (bits_of body.now) known }
    ensures found { IfSome result
        (λ size. (size ≤ length body.now) × (codes : List Code)
        × IsString depth codes (take size body.now)) }
    ensures none { IfNone result
        ((codes : List Code) (front : List ℕ) (rest : List ℕ) → body.now ≡ front ++ rest
        → IsString depth codes front → ⊥) }
{
    let mut place = known;
    while let Some((token, next)) = read_token(body, place, depth) {
        match token {
            Token::End => return Some((next + 7) / 8),
            Token::Pixels { .. } => place = next,
        }
    }
    None
}
