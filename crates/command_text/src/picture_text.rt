ghost use Rattle.std.specs.Prelude.{◌≡◌, ◌+◌, ◌*◌, ◌≤◌, ◌∷◌, drop, length, slice_index_or};
ghost use Rattle.std.specs.List.{flat_map, range_with_len};
ghost use Rattle.sub_base.specs.Colour.{clear};
ghost use Rattle.command_text.specs.declared.line.TheConstants.{ROOM};
ghost use Rattle.command_text.specs.PictureText.{is_clear as is_clear_plane, is_same_colour as is_same, runs_of, row_line, plane_row, clear_line as clear_line_of, sides_line as sides_line_of, run_piece, picture_text};
ghost use Rattle.command_text.specs.Putting.{PutsOut};

use crate::line::Line;
use crate::text_buffer::{TextBuffer, put};
use sub_base::{CLEAR, Colour, Sink};

/// Puts out the text of the picture at a tick, with these sides in pixels and these colours by
/// rows.
pub fn put_picture<K: Sink>(
    sink: &mut K,
    buffer: &mut TextBuffer,
    tick: u64,
    width: u32,
    height: u32,
    plane: &[Colour],
)
    requires plane { length plane.now ≡ width * height }
    ensures { PutsOut
        (K.received sink.old)
        (K.received sink.new)
        buffer.old buffer.new (picture_text tick width height plane.now) }
{
    if is_clear(plane) {
        return put_clear(sink, buffer, tick);
    }
    put(sink, buffer, sides_line(tick, width, height).as_bytes());
    put_rows(sink, buffer, width as usize, height as usize, plane);
}

/// Puts out the text of a picture at a tick that is clear everywhere.
pub fn put_clear<K: Sink>(sink: &mut K, buffer: &mut TextBuffer, tick: u64)
    ensures { PutsOut
        (K.received sink.old)
        (K.received sink.new)
        buffer.old buffer.new (clear_line_of tick) }
{
    put(sink, buffer, clear_line(tick).as_bytes());
}

/// Puts out the rows of a plane, from the top.
fn put_rows<K: Sink>(
    sink: &mut K,
    buffer: &mut TextBuffer,
    width: usize,
    height: usize,
    plane: &[Colour],
)
    requires wide { 1 ≤ width }
    requires plane { length plane.now ≡ width * height }
    ensures { PutsOut
        (K.received sink.old)
        (K.received sink.new)
        buffer.old buffer.new
        (flat_map (λ y. row_line (plane_row width plane.now y)) (range_with_len 0 height)) }
{
    for y in 0..height {
        put_row(sink, buffer, row_at(plane, width, y));
    }
}

/// Puts out a row: its runs, parted by spaces.
fn put_row<K: Sink>(sink: &mut K, buffer: &mut TextBuffer, row: &[Colour])
    requires wide { 1 ≤ length row.now }
    ensures { PutsOut
        (K.received sink.old)
        (K.received sink.new)
        buffer.old buffer.new (row_line row.now) }
{
    let mut rest = row;
    while !rest.is_empty() {
        let count = first_run(rest);
        let line = run_line(rest[0], count, count == rest.len());
        put(sink, buffer, line.as_bytes());
        rest = after(rest, count);
    }
}

/// Row y of a plane of that width.
fn row_at(plane: &[Colour], width: usize, y: usize) -> &[Colour]
    requires { y * width + width ≤ length plane.now }
    ensures row { result.now ≡ plane_row width plane.now y }
    ensures whole { length result.now ≡ width }
{
    &plane[y * width..y * width + width]
}

/// What is left of a row after so many places.
fn after(row: &[Colour], count: usize) -> &[Colour]
    requires { count ≤ length row.now }
    ensures { result.now ≡ drop count row.now }
{
    &row[count..]
}

/// How many places from the left have the colour of the first.
fn first_run(row: &[Colour]) -> usize
    requires { 1 ≤ length row.now }
    ensures some { 1 ≤ result }
    ensures within { result ≤ length row.now }
    ensures run { runs_of row.now
        ≡ record { length = result; colour = slice_index_or row.now 0 clear }
        ∷ runs_of (drop result row.now) }
{
    let first = row[0];
    for (place, colour) in row.iter().enumerate() {
        if !is_same_colour(first, *colour) {
            return place;
        }
    }
    row.len()
}

/// Whether no place shows anything.
fn is_clear(plane: &[Colour]) -> bool
    ensures { result ≡ is_clear_plane plane.now }
{
    for colour in plane {
        if !is_same_colour(CLEAR, *colour) {
            return false;
        }
    }
    true
}

fn is_same_colour(first: Colour, second: Colour) -> bool
    ensures { result ≡ is_same first second }
{
    first.y == second.y && first.cr == second.cr && first.cb == second.cb && first.t == second.t
}

/// The line of a picture that is clear everywhere.
fn clear_line(tick: u64) -> Line
    ensures line { result ≡ clear_line_of tick }
    ensures short { length result ≤ ROOM }
{
    let mut line = Line::of("picture");
    line.push_then_number(tick);
    line.push_text(" clear\n");
    line
}

/// The first line of a picture that is not clear everywhere.
fn sides_line(tick: u64, width: u32, height: u32) -> Line
    ensures line { result ≡ sides_line_of tick width height }
    ensures short { length result ≤ ROOM }
{
    let mut line = Line::of("picture");
    line.push_then_number(tick);
    line.push_then_number(u64::from(width));
    line.push_then_number(u64::from(height));
    line.push_text("\n");
    line
}

/// A run of a colour, and what stands behind it in its row.
fn run_line(colour: Colour, count: usize, is_last: bool) -> Line
    ensures line { result ≡ run_piece colour count is_last }
    ensures short { length result ≤ ROOM }
{
    let mut line = Line::new();
    line.push_number(count as u64);
    line.push_text("*");
    line.push_hex(colour.y);
    line.push_hex(colour.cr);
    line.push_hex(colour.cb);
    line.push_hex(colour.t);
    line.push_text(if is_last { "\n" } else { " " });
    line
}
