//! The names of what is wrong with a segment.

ghost use Rattle.std.specs.Prelude.{◌≡◌, ◌≤◌, length};
ghost use Rattle.fault_names.specs.FaultNames.{code_kind_name as name_of_code_kind, segment_kind_name as name_of_segment_kind};

use stream_syntax::{CodeKind, SegmentKind};

/// The name of what is wrong with a segment.
pub fn segment_kind_name(kind: SegmentKind) -> &'static str
    ensures name { result.now ≡ name_of_segment_kind kind }
    ensures short { length result.now ≤ 15 }
{
    match kind {
        SegmentKind::NoSync => "NoSync",
        SegmentKind::Cut => "Cut",
        SegmentKind::BadLength => "BadLength",
        SegmentKind::ReservedState => "ReservedState",
        SegmentKind::BadDepth => "BadDepth",
        SegmentKind::CharacterObject => "CharacterObject",
        SegmentKind::HeldObject => "HeldObject",
        SegmentKind::Progressive => "Progressive",
        SegmentKind::ReservedMethod => "ReservedMethod",
        SegmentKind::Code(fault) => code_kind_name(fault.kind),
        SegmentKind::BadWindow => "BadWindow",
        SegmentKind::ZeroSize => "ZeroSize",
    }
}

/// The name of why a sub-block of a pixel data block is not in the grammar.
fn code_kind_name(kind: CodeKind) -> &'static str
    ensures name { result.now ≡ name_of_code_kind kind }
    ensures short { length result.now ≤ 15 }
{
    match kind {
        CodeKind::UnknownType => "UnknownType",
        CodeKind::TooDeep => "TooDeep",
        CodeKind::CutString => "CutString",
        CodeKind::CutTable => "CutTable",
    }
}
