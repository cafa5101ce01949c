ghost use Rattle.std.specs.Prelude.{◌≡◌, ◌+◌, ◌<◌, ◌≤◌, ◌^◌, IfErr, IfOk, OnOk, length};
ghost use Rattle.segments.specs.Contents.{object_value};
ghost use Rattle.segments.specs.Reading.{GivesReading, object_at};
ghost use Rattle.stream_syntax.specs.SegmentTests.{AreBlocks, IsBlocksFault};

use crate::fault::bad_length;
use crate::word::{bits, is_set, read_word};
use pixel_codes::check_block;
use stream_syntax::{CodeFault, SegmentFault, SegmentKind};
use sub_base::Depth;

/// The bytes before the blocks.
pub(crate) const FIXED: usize = 7;

/// The place of the coding method in the segment.
const METHOD: u32 = 8;

/// An object that is sent as pixels: the pixel data blocks of its top and its bottom field (EN 300
/// 743, object data segment). Where the bottom block is empty, the top block serves for both
/// fields.
#[derive(Clone, Copy, Debug, PartialEq, Eq)]
pub struct ObjectSeg<'a> {
    /// The id of the object (object_id).
    pub object: u16,
    /// The version, 0 to 15 (object_version_number).
    pub version: u8,
    /// Whether pixels of code 1 leave the region as it is (non_modifying_colour_flag).
    pub see_through: bool,
    /// The pixel data block of the rows 0, 2, 4 and so on (top field; its length in bytes is
    /// top_field_data_block_length).
    pub top: &'a [u8],
    /// The pixel data block of the rows between these (bottom field; its length in bytes is
    /// bottom_field_data_block_length); empty where it equals the top one.
    pub bottom: &'a [u8],
}

/// Reads what stands before the blocks, and cuts the blocks out.
pub(crate) fn object_of(body: &[u8]) -> Result<ObjectSeg<'_>, SegmentFault>
    ensures exact { GivesReading object_value result (object_at body.now) }
    ensures room { IfOk result
        (λ object. 7 + length object.top.now + length object.bottom.now ≤ length body.now) }
    ensures fields { IfOk result
        (λ object. (length object.top.now ≤ 65535) × (length object.bottom.now ≤ 65535)) }
{
    // The coding method is tested before the length that pixels ask for: the body of characters is
    // another one.
    if body.len() < 3 {
        return Err(bad_length());
    }
    match bits(body[2], 2, 2) {
        1 => return Err(bad_method(SegmentKind::CharacterObject)),
        2 => return Err(bad_method(SegmentKind::Progressive)),
        3 => return Err(bad_method(SegmentKind::ReservedMethod)),
        _ => {}
    }
    if body.len() < FIXED {
        return Err(bad_length());
    }
    let (top, bottom) = (read_word(body, 3) as usize, read_word(body, 5) as usize);
    let end = FIXED + top + bottom;
    // One byte 00 may follow, which makes the length even (8_stuff_bits).
    if body.len() != end && !(body.len() == end + 1 && body[end] == 0) {
        return Err(bad_length());
    }
    Ok(ObjectSeg {
        object: read_word(body, 0),
        version: body[2] >> 4,
        see_through: is_set(body[2], 1),
        top: &body[FIXED..FIXED + top],
        bottom: &body[FIXED + top..end],
    })
}

/// The fault of a coding method other than pixels.
fn bad_method(kind: SegmentKind) -> SegmentFault
    ensures { result ≡ record { place = 8; kind = kind } }
{
    SegmentFault {
        place: METHOD,
        kind,
    }
}

/// Tests the blocks of an object, the top one first.
pub(crate) fn check_blocks(top: &[u8], bottom: &[u8]) -> Result<(), SegmentFault>
    requires room { length top.now + length bottom.now < 65536 }
    ensures blocks { OnOk result (AreBlocks top.now bottom.now) }
    ensures fault { IfErr result (IsBlocksFault top.now bottom.now) }
{
    // A segment does not know its regions: strings that are too deep for one of these are found as
    // the object is painted.
    if let Err(code) = check_block(top, Depth::Eight) {
        return Err(in_block(13, code));
    }
    if let Err(code) = check_block(bottom, Depth::Eight) {
        return Err(in_block(13 + top.len() as u32, code));
    }
    Ok(())
}

/// The fault of a block that begins at that place of the segment.
fn in_block(start: u32, code: CodeFault) -> SegmentFault
    requires { start + code.place < 2 ^ 32 }
    ensures { result ≡ record { place = start + code.place; kind = SegmentKind.Code code } }
{
    SegmentFault {
        place: start + code.place,
        kind: SegmentKind::Code(code),
    }
}
