//! The names of what is wrong with a display set, with their numbers.

ghost use Rattle.std.specs.Prelude.{◌≡◌, ◌+◌, ◌≤◌, ◌++◌, length};
ghost use Rattle.command_text.specs.Lines.{then_number};
ghost use Rattle.fault_text.specs.SetFaults.{place_in_block as place_in, segment_fault_text, set_fault_text};

use command_text::Line;
use decoder_model::SetFault;
use fault_names::segment_kind_name;
use stream_syntax::{SegmentFault, SegmentKind};

/// Puts the name of why a set is broken, with its numbers, at the end of a line.
pub(crate) fn push_set_fault(line: &mut Line, fault: SetFault)
    requires { length line.old ≤ 8 }
    ensures line { line.new ≡ line.old ++ set_fault_text fault }
    ensures short { length line.new ≤ 100 }
{
    match fault {
        SetFault::Segment(fault) => {
            line.push_text("Segment ");
            push_segment_fault(line, fault);
        }
        SetFault::TwiceInSet { kind, id } => {
            line.push_text("TwiceInSet ");
            line.push_hex(kind);
            line.push_then_number(u64::from(id));
        }
        SetFault::NoPage => line.push_text("NoPage"),
        SetFault::DisplayTooLarge { width, height } => {
            push_numbers(line, "DisplayTooLarge", u64::from(width), u64::from(height));
        }
        SetFault::NoSuchRegion { id } => push_numbered(line, "NoSuchRegion", u64::from(id)),
        SetFault::RegionChanged { id } => push_numbered(line, "RegionChanged", u64::from(id)),
        SetFault::PixelFull { need, free } => push_numbers(line, "PixelFull", need, free),
        SetFault::CompositionFull { size } => {
            push_numbered(line, "CompositionFull", u64::from(size));
        }
        SetFault::SetTooLong { size } => push_numbered(line, "SetTooLong", size),
    }
}

/// Puts a name and a number at the end.
fn push_numbered(line: &mut Line, name: &str, number: u64)
    requires line { length line.old ≤ 8 }
    requires name { length name.now ≤ 15 }
    ensures line { line.new ≡ line.old ++ (name.now ++ then_number number) }
    ensures short { length line.new ≤ 44 }
{
    line.push_text(name);
    line.push_then_number(number);
}

/// Puts a name and two numbers at the end.
fn push_numbers(line: &mut Line, name: &str, first: u64, second: u64)
    requires line { length line.old ≤ 8 }
    requires name { length name.now ≤ 15 }
    ensures line { line.new ≡ line.old ++ (name.now ++ then_number first ++ then_number second) }
    ensures short { length line.new ≤ 65 }
{
    line.push_text(name);
    line.push_then_number(first);
    line.push_then_number(second);
}

/// Puts what is wrong with a segment, and where, at the end.
fn push_segment_fault(line: &mut Line, fault: SegmentFault)
    requires { length line.old ≤ 16 }
    ensures line { line.new ≡ line.old ++ segment_fault_text fault }
    ensures short { length line.new ≤ 73 }
{
    line.push_text(segment_kind_name(fault.kind));
    push_place_in_block(line, fault.kind);
    line.push_then_number(u64::from(fault.place));
}

/// Puts the place in the block at the end, where a block of pixel data is wrong.
fn push_place_in_block(line: &mut Line, kind: SegmentKind)
    requires { length line.old ≤ 31 }
    ensures line { line.new ≡ line.old ++ place_in kind }
    ensures short { length line.new ≤ length line.old + 21 }
{
    if let SegmentKind::Code(fault) = kind {
        line.push_then_number(u64::from(fault.place));
    }
}
