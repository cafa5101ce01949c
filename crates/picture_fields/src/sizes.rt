ghost use Rattle.std.specs.Prelude.{◌+◌, ◌*◌, ◌<◌, ◌≤◌, length};
ghost use Rattle.sub_base.specs.Picture.{bottom_field};
ghost use Rattle.stream_syntax.specs.FieldBlocks.{AreRowSizes, IsFieldSize, AreFieldSizes};
ghost use Rattle.picture_fields.specs.Private.Rows.{AreRows, room_of};

use crate::fields::table_bytes;
use indexed_picture::{FieldRows, Indexed};
use pixel_codes::row_size;
use sub_base::Depth;

/// The bytes of the pixel data blocks of a picture's two fields, as they would be written.
#[derive(Clone, Copy, Debug, PartialEq, Eq)]
pub struct FieldSizes {
    pub top: u64,
    pub bottom: u64,
}

/// How many bytes `write_fields` would append for each field. Nothing is written.
pub fn field_sizes(picture: &Indexed, region: Depth) -> FieldSizes
    ensures sizes { AreFieldSizes picture.now region result.top result.bottom }
    ensures short { (result.top ≤ 4300000000) × (result.bottom ≤ 4300000000) }
    ensures room { result.top + result.bottom
        ≤ 35 + picture.now.height * (3 * picture.now.width + 10) }
{
    let top = field_size(picture.depth(), region, picture.top_rows());
    let bottom = if picture.fields_equal() {
        0
    } else {
        bottom_field_size(picture, region)
    };
    FieldSizes { top, bottom }
}

/// The bytes of the block of the bottom field, which has no rows where the picture is one row high.
fn bottom_field_size(picture: &Indexed, region: Depth) -> u64
    ensures size { IsFieldSize picture.now.depth region (bottom_field picture.now) result }
    ensures short { result ≤ 4300000000 }
    ensures room { result ≤ 17 + room_of (bottom_field picture.now) }
{
    if picture.height() == 1 {
        1
    } else {
        field_size(picture.depth(), region, picture.bottom_rows())
    }
}

/// The bytes of the block of a field that has rows.
fn field_size(depth: Depth, region: Depth, rows: FieldRows<'_>) -> u64
    requires some { 0 < length rows }
    requires few { length rows ≤ 32768 }
    requires rows { AreRows depth rows }
    ensures size { IsFieldSize depth region rows.entry result }
    ensures short { result ≤ 4300000000 }
    ensures room { result ≤ 17 + room_of rows.entry }
{
    table_bytes(depth, region).len() as u64 + rows_size(depth, rows)
}

/// The bytes of the sub-blocks of rows.
fn rows_size(depth: Depth, rows: FieldRows<'_>) -> u64
    requires few { length rows ≤ 32768 }
    requires rows { AreRows depth rows }
    ensures sizes { AreRowSizes depth rows.entry result }
    ensures short { result ≤ 131075 * length rows.entry }
    ensures room { result ≤ room_of rows.entry }
{
    let mut size = 0;
    for row in rows {
        size += 2 + row_size(depth, row);
    }
    size
}
