//! Codes painted over several bytes. The codes of all bytes are counted on.

ghost use Rattle.std.specs.Prelude.{◌≡◌, ℕ, ◌+◌, ◌*◌, ◌<◌, ◌≤◌, ◌⊎◌, ◌^◌, length, slice_index};
ghost use Rattle.sub_base.specs.Depth.{code_count};
ghost use Rattle.string_painting.specs.Codes.{codes_in_byte};
ghost use Rattle.pixel_store.specs.Private.Painting.{code_number, Paints};

use crate::byte::{codes_over, codes_per_byte, painted, pattern, whole_bytes};
use sub_base::Depth;

// Paints some codes of one byte.
fn paint_in_byte(bytes: &mut [u8], depth: Depth, index: usize, from: usize, to: usize, code: u8)
    requires inside { from < to → index < length bytes.old }
    requires order { from ≤ to }
    requires to { to ≤ codes_in_byte depth }
    requires code { code < code_count depth }
    ensures { Paints depth (code_number depth index from) (code_number depth index to) code
        bytes.old bytes.new }
{
    if from < to {
        bytes[index] = painted(depth, bytes[index], from, to, code);
    }
}

/// Sets some bytes to a value.
pub(crate) fn fill(bytes: &mut [u8], from: usize, to: usize, value: u8)
    requires order { from ≤ to }
    requires to { to ≤ length bytes.old }
    ensures inside { (i : ℕ) → from ≤ i → i < to → slice_index bytes.new i ≡ value }
    ensures outside { (i : ℕ) → (i < from) ⊎ (to ≤ i)
        → slice_index bytes.new i ≡ slice_index bytes.old i }
{
    bytes[from..to].fill(value);
}

// Paints all codes of some bytes.
fn fill_codes(bytes: &mut [u8], depth: Depth, from: usize, to: usize, code: u8)
    requires order { from ≤ to }
    requires to { to ≤ length bytes.old }
    requires code { code < code_count depth }
    ensures { Paints depth (code_number depth from 0) (code_number depth to 0) code bytes.old
        bytes.new }
{
    fill(bytes, from, to, pattern(depth, code));
}

/// Paints the codes from `from` up to `to`, counted from the byte `start` on: whole bytes between
/// the two ends.
pub(crate) fn paint(bytes: &mut [u8], depth: Depth, start: usize, from: usize, to: usize, code: u8)
    requires order { from ≤ to }
    requires to { code_number depth start to ≤ length bytes.old * codes_in_byte depth }
    requires short { length bytes.old < 2 ^ 64 }
    requires code { code < code_count depth }
    ensures { Paints depth (code_number depth start from) (code_number depth start to) code
        bytes.old bytes.new }
{
    let first = start + whole_bytes(depth, from);
    let last = start + whole_bytes(depth, to);
    let begin = codes_over(depth, from);
    let end = codes_over(depth, to);
    if first == last {
        paint_in_byte(bytes, depth, first, begin, end, code);
    } else {
        paint_in_byte(bytes, depth, first, begin, codes_per_byte(depth), code);
        fill_codes(bytes, depth, first + 1, last, code);
        paint_in_byte(bytes, depth, last, 0, end, code);
    }
}
