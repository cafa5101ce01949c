ghost use Rattle.std.specs.Prelude.{◌≡◌, ◌+◌, ◌*◌, ◌<◌, ◌≤◌, ℕ, pos, negsuc, ◌≤ℤ◌, ◌≢◌, IfNone, IfSome, length};
ghost use Rattle.bitmap_font.specs.Drawing.{PaintsWhere, IsInkOfRow, IsInkOfGlyph};

use crate::glyph::Glyph;

/// The column or row of a picture, where it lies within the picture's side.
fn place_within(side: u16, place: i32) -> Option<u16>
    ensures outside { IfNone result ((k : ℕ) → k < side → pos k ≢ place) }
    ensures inside { IfSome result (λ k. (k < side) × (pos k ≡ place)) }
{
    // Glyphs may reach past the picture on any side: BDF bounds a glyph by its own box alone.
    if 0 <= place && place < i32::from(side) {
        Some(place as u16)
    } else {
        None
    }
}

/// Draws a row of a glyph from the column `left` of the row `y` on; what lies outside the picture
/// is left out.
fn draw_row(codes: &mut [u8], width: u16, y: u16, glyph: &Glyph, glyph_row: u16, left: i32, ink: u8)
    requires within { y * width + width ≤ length codes.old }
    requires row { glyph_row < glyph.now.height }
    requires left_low { negsuc 65535 ≤ℤ left }
    requires left_high { left ≤ℤ pos 65535 }
    ensures { (height : ℕ)
        → PaintsWhere (IsInkOfRow glyph.now glyph_row left y glyph.now.width) width height ink
        codes.old codes.new }
{
    for glyph_column in 0..glyph.width() {
        if glyph.is_set(glyph_column, glyph_row) {
            if let Some(x) = place_within(width, left + i32::from(glyph_column)) {
                codes[usize::from(y) * usize::from(width) + usize::from(x)] = ink;
            }
        }
    }
}

/// Draws a glyph with its upper left corner at the column `left` of the row `top`; what lies
/// outside the picture is left out.
pub(crate) fn draw_glyph(
    codes: &mut [u8],
    width: u16,
    height: u16,
    glyph: &Glyph,
    left: i32,
    top: i32,
    ink: u8,
)
    requires within { height * width ≤ length codes.old }
    requires left_low { negsuc 65535 ≤ℤ left }
    requires left_high { left ≤ℤ pos 65535 }
    requires top_low { negsuc 65535 ≤ℤ top }
    requires top_high { top ≤ℤ pos 65535 }
    ensures { PaintsWhere (IsInkOfGlyph glyph.now left top glyph.now.height) width height ink
        codes.old codes.new }
{
    for glyph_row in 0..glyph.height() {
        if let Some(y) = place_within(height, top + i32::from(glyph_row)) {
            draw_row(codes, width, y, glyph, glyph_row, left, ink);
        }
    }
}
