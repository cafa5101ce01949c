ghost use Rattle.std.specs.Prelude.{◌≡◌, ◌<◌, ◌^◌, length};

use stream_syntax::{SegmentFault, SegmentKind};

/// The bytes end before the segment does.
pub(crate) fn cut(bytes: &[u8]) -> SegmentFault
    requires { length bytes.now < 2 ^ 32 }
    ensures { result ≡ record { place = length bytes.now; kind = SegmentKind.Cut } }
{
    SegmentFault {
        place: bytes.len() as u32,
        kind: SegmentKind::Cut,
    }
}

/// The length field, at place 4, is none that the segment can have.
pub(crate) fn bad_length() -> SegmentFault
    ensures { result ≡ record { place = 4; kind = SegmentKind.BadLength } }
{
    SegmentFault {
        place: 4,
        kind: SegmentKind::BadLength,
    }
}
