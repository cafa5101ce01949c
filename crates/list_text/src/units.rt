ghost use Rattle.std.specs.Prelude.{◌≡◌, ◌+◌, ◌<◌, ◌≤◌, ◌^◌, List, ℕ, length};
ghost use Rattle.segments.specs.Framing.{IsFrameOf};
ghost use Rattle.list_text.specs.ListText.{AreSegmentLines, AreUnitLines, IsSegmentLine};
ghost use Rattle.command_text.specs.Putting.{PutsOut};

use crate::lines::{fault_line, pes_line, unit_line, write_segment_line};
use command_text::{Line, TextBuffer, put};
use pes_packets::read_pes;
use segments::{Frame, frames};
use sub_base::Sink;

/// Puts out the lines of a unit that ends with the packet of that place.
#[inline(never)]
pub fn list_unit<K: Sink>(sink: &mut K, buffer: &mut TextBuffer, place: u64, unit: &[u8])
    ensures { (lines : List ℕ) × AreUnitLines place unit.now lines × PutsOut
        (K.received sink.old)
        (K.received sink.new)
        buffer.old buffer.new lines }
{
    match read_pes(unit) {
        Ok(pes) => {
            let line = unit_line(place, pes.pts, unit.len() as u64);
            put(sink, buffer, line.as_bytes());
            list_segments(sink, buffer, pes.segments);
        }
        Err(fault) => {
            let line = pes_line(place, fault);
            put(sink, buffer, line.as_bytes());
        }
    }
}

/// Puts out the lines of the segments of a field, the first of which begins at place 2.
fn list_segments<K: Sink>(sink: &mut K, buffer: &mut TextBuffer, segments: &[u8])
    ensures { (lines : List ℕ) × AreSegmentLines 2 segments.now lines × PutsOut
        (K.received sink.old)
        (K.received sink.new)
        buffer.old buffer.new lines }
{
    // Behind data identifier and subtitle stream id.
    let mut place = 2u64;
    let mut line = Line::new();
    for head in frames(segments) {
        match head {
            Ok(frame) => {
                write_framed_line(&mut line, place, &frame);
                put(sink, buffer, line.as_bytes());
                place += frame.whole as u64;
            }
            Err(fault) => {
                // Where a head is faulty, nothing says where the next segment begins.
                let line = fault_line(place, fault);
                put(sink, buffer, line.as_bytes());
                return;
            }
        }
    }
}

/// Makes this the line of the segment that this is the frame of.
fn write_framed_line(line: &mut Line, place: u64, frame: &Frame<'_>)
    requires place { place < 2 ^ 63 + 2 }
    requires short { length frame.now.body.now < 65536 }
    ensures line { (bytes : List ℕ) → IsFrameOf bytes frame.now
        → frame.now.whole ≡ length bytes
        → IsSegmentLine place bytes line.new }
    ensures short { length line.new ≤ 128 }
{
    match frame.segment() {
        Ok(_) => write_segment_line(line, place, frame.kind, frame.page, frame.body.len() as u64),
        Err(fault) => *line = fault_line(place, fault),
    }
}
