ghost use Rattle.std.specs.Prelude.{◌≡◌, ◌+◌, ◌<◌, ◌≤◌, ◌^◌, ◌++◌, length, codes};
ghost use Rattle.command_text.specs.Lines.{line_end, then_number};
ghost use Rattle.list_text.specs.ListLines.{loss_line as loss_line_of, unit_line as unit_line_of, pes_line as pes_line_of, segment_line as segment_line_of, fault_line as fault_line_of};

use command_text::Line;
use fault_names::{pes_fault_name, segment_kind_name};
use stream_syntax::{Event, PesFault, SegmentFault};

/// The line of a loss at the packet of that place, and an empty text at another event.
pub fn loss_line(place: u64, event: Event) -> Line
    ensures line { result ≡ loss_line_of place event }
    ensures short { length result ≤ 128 }
{
    match event {
        Event::Gap { expected, found } => gap_line(place, expected, found),
        Event::ErrorFlag => placed_line("error", place),
        Event::Short { .. } => placed_line("short", place),
        Event::TooLong { .. } => placed_line("long", place),
        Event::Followed | Event::Other | Event::NoPayload | Event::Double | Event::Dropped =>
            Line::new(),
    }
}

/// The line of a unit that ends with the packet of that place: its presentation time in ticks of 90
/// kHz, and its bytes.
pub fn unit_line(place: u64, pts: u64, size: u64) -> Line
    ensures line { result ≡ unit_line_of place pts size }
    ensures short { length result ≤ 128 }
{
    let mut line = Line::of("unit");
    line.push_then_number(place);
    line.push_text(" pts");
    line.push_then_number(pts);
    line.push_text(" length");
    line.push_then_number(size);
    line.push_text("\n");
    line
}

/// The line of a unit that is no PES packet of subtitles.
pub fn pes_line(place: u64, fault: PesFault) -> Line
    ensures line { result ≡ pes_line_of place fault }
    ensures short { length result ≤ 128 }
{
    let mut line = Line::of("pes");
    line.push_then_number(place);
    push_name(&mut line, pes_fault_name(fault));
    line
}

/// Makes this the line of a segment that begins at that place of its field. One line serves for all
/// segments: they are most of a listing, and a line of its own for each would be moved twice.
pub fn write_segment_line(line: &mut Line, place: u64, kind: u8, page: u16, size: u64)
    ensures line { line.new ≡ segment_line_of place kind page size }
    ensures short { length line.new ≤ 128 }
{
    line.clear();
    line.push_text("segment");
    line.push_then_number(place);
    line.push_text(" ");
    line.push_hex(kind);
    line.push_then_number(u64::from(page));
    line.push_then_number(size);
    line.push_text("\n");
}

/// The line in place of a segment that begins at that place of its field and is refused.
pub fn fault_line(place: u64, fault: SegmentFault) -> Line
    requires { place + fault.place < 2 ^ 64 }
    ensures line { result ≡ fault_line_of place fault }
    ensures short { length result ≤ 128 }
{
    let mut line = Line::of("fault");
    // A fault's place counts from the first byte of its segment, a line's from that of the field.
    line.push_then_number(place + u64::from(fault.place));
    push_name(&mut line, segment_kind_name(fault.kind));
    line
}

fn gap_line(place: u64, expected: u8, found: u8) -> Line
    ensures line { result ≡ loss_line_of place (Event.Gap expected found) }
    ensures short { length result ≤ 128 }
{
    let mut line = Line::of("gap");
    line.push_then_number(place);
    line.push_then_number(u64::from(expected));
    line.push_then_number(u64::from(found));
    line.push_text("\n");
    line
}

/// The line of a word and a place.
fn placed_line(word: &str, place: u64) -> Line
    requires { length word.now ≤ 10 }
    ensures line { result ≡ word.now ++ then_number place ++ line_end }
    ensures short { length result ≤ 128 }
{
    let mut line = Line::of(word);
    line.push_then_number(place);
    line.push_text("\n");
    line
}

/// Puts a space, a name and the line feed at the end.
fn push_name(line: &mut Line, name: &str)
    requires line { length line.old ≤ 80 }
    requires name { length name.now ≤ 15 }
    ensures line { line.new ≡ line.old ++ codes " " ++ name.now ++ line_end }
    ensures short { length line.new ≤ length line.old + 17 }
{
    line.push_text(" ");
    line.push_text(name);
    line.push_text("\n");
}
