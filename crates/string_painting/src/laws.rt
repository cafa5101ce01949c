//! What a painted string has to do with the runs of a block, by which the last write to a pixel is
//! told.

ghost use Rattle.std.specs.Prelude.{◌≡◌, ◌≢◌, ℕ, ◌+◌, ◌*◌, List, length, None, unwrap_or};
ghost use Rattle.sub_base.specs.declared.depth.Depth.{Depth};
ghost use Rattle.stream_syntax.specs.PixelCodes.{Code};
ghost use Rattle.stream_syntax.specs.PixelBlocks.{Part, line_after, pixels_in, runs_from};
ghost use Rattle.stream_syntax.specs.declared.region.Listing.{Listing};
ghost use Rattle.decoder_model.specs.Pixels.{code_by_field};
ghost use Rattle.string_painting.specs.Painting.{IsInForce, laid_over, code_after, pixels_of_codes};
ghost use Rattle.string_painting.specs.declared.drawing.Brush.{Brush};

/// Pixels of a string that are laid over the row of their line leave there what the string's runs
/// write (EN 300 743, clause 7.2.5); the runs write nothing to another row; and the pen moves by as
/// many columns.
pub fn pixels_are_those_of_runs()
    ensures here { (brush : Brush) (table : List ℕ) (before : List Part) (listing : Listing)
        (first_row column : ℕ) (codes : List Code) (x old : ℕ) → IsInForce brush table before
        → code_after (laid_over brush table) (listing.x + column)
        (pixels_of_codes brush.string codes) x old
        ≡ unwrap_or (code_by_field brush.see_through listing first_row x
        (listing.y + 2 * line_after before + first_row)
        (runs_from brush.region brush.string before column codes)) old }
    ensures elsewhere { (brush : Brush) (before : List Part) (listing : Listing)
        (first_row column : ℕ) (codes : List Code) (x y : ℕ)
        → y ≢ listing.y + 2 * line_after before + first_row
        → code_by_field brush.see_through listing first_row x y
        (runs_from brush.region brush.string before column codes) ≡ None }
    ensures column { (depth : Depth) (codes : List Code)
        → length (pixels_of_codes depth codes) ≡ pixels_in depth codes }
{}
