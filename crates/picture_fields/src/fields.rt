ghost use Rattle.std.specs.Prelude.{◌≡◌, ℕ, ◌+◌, ◌*◌, ◌^◌, ◌<◌, ◌≤◌, List, ◌++◌, length, All, OnOk, OnErr, IfOk};
ghost use Rattle.sub_base.specs.Depth.{code_count};
ghost use Rattle.sub_base.specs.Picture.{IsPicture, top_field, bottom_field};
ghost use Rattle.stream_syntax.specs.PixelBlocks.{IsNoDeeper, string_type};
ghost use Rattle.stream_syntax.specs.FieldBlocks.{identity_table, IsRowBlock, IsFieldBlock, AreFieldBlocks, AreFieldSizes, DrawsPicture};
ghost use Rattle.pixel_codes.specs.Lists.{Extends};
ghost use Rattle.picture_fields.specs.Private.Rows.{AreRows, room_of};

use indexed_picture::{FieldRows, Indexed};
use pixel_codes::write_row;
use stream_syntax::{EIGHT_BIT_STRING, END_OF_LINE, FOUR_BIT_STRING, TWO_BIT_STRING};
use sub_base::{Depth, NoMemory};

/// The bytes of the pixel data blocks of a picture's two fields. Where the bottom field is the top
/// field, its block has none.
#[derive(Clone, Copy, Debug, PartialEq, Eq)]
pub struct FieldLengths {
    /// The bytes of the top block.
    pub top: u32,
    /// The bytes of the bottom block, 0 where the bottom field equals the top field.
    pub bottom: u32,
}

/// Appends the pixel data blocks of a picture's top and bottom field, for a region of a depth (EN
/// 300 743, object data segment): the map table in which each code stands for itself where the
/// picture is less deep than the region, then each row's string by the picture's depth and an end
/// of line. A field without rows is an end of line alone, and the bottom block is left out exactly
/// where the two fields are equal. After want of memory `out` is as before.
pub fn write_fields(
    picture: &Indexed,
    region: Depth,
    out: &mut Vec<u8>,
) -> Result<FieldLengths, NoMemory>
    requires { IsNoDeeper picture.now.depth region }
    ensures blocks { IfOk result (λ lengths. (top : List ℕ) × (bottom : List ℕ)
        × (out.new.items ≡ out.old.items ++ (top ++ bottom))
        × (lengths.top ≡ length top) × (lengths.bottom ≡ length bottom)
        × AreFieldBlocks picture.now region top bottom) }
    ensures kept { OnErr result (out.new.items ≡ out.old.items) }

    // One and a half bytes a pixel, five a row, and the bytes of two tables and an empty field are
    // enough.
    ensures short { OnOk result
        (2 * length out.new.items
        ≤ 2 * length out.old.items + 70 + picture.now.height * (3 * picture.now.width + 10)) }

    // What follows of the blocks: their sizes, and that they draw the picture.
    ensures sizes { IfOk result
        (λ lengths. AreFieldSizes picture.now region lengths.top lengths.bottom) }
    ensures only_sizes { IfOk result
        (λ lengths. (top : ℕ) (bottom : ℕ) → AreFieldSizes picture.now region top bottom
        → (lengths.top ≡ top) × (lengths.bottom ≡ bottom)) }
    ensures drawn { IfOk result (λ lengths. (top : List ℕ) × (bottom : List ℕ)
        × (out.new.items ≡ out.old.items ++ (top ++ bottom))
        × (lengths.top ≡ length top) × (lengths.bottom ≡ length bottom)
        × DrawsPicture picture.now region top bottom) }
{
    let before = out.len();
    let written = append_fields(picture, region, out);
    if written.is_err() {
        out.truncate(before);
    }
    written
}

fn append_fields(
    picture: &Indexed,
    region: Depth,
    out: &mut Vec<u8>,
) -> Result<FieldLengths, NoMemory>
    requires { IsNoDeeper picture.now.depth region }
    ensures blocks { IfOk result (λ lengths. (top : List ℕ) × (bottom : List ℕ)
        × (out.new.items ≡ out.old.items ++ (top ++ bottom))
        × (lengths.top ≡ length top) × (lengths.bottom ≡ length bottom)
        × AreFieldBlocks picture.now region top bottom) }
    ensures short { OnOk result
        (2 * length out.new.items
        ≤ 2 * length out.old.items + 70 + room_of (top_field picture.now)
        + room_of (bottom_field picture.now)) }
    ensures picture { IsPicture picture.now }
    ensures extends { Extends out.old.items out.new.items }
{
    let start = out.len();
    append_field(picture.depth(), region, picture.top_rows(), out)?;
    let middle = out.len();
    // A bottom block without bytes says that the top block serves for both (EN 300 743, object data
    // segment).
    if !picture.fields_equal() {
        append_bottom_field(picture, region, out)?;
    }
    Ok(FieldLengths {
        top: (middle - start) as u32,
        bottom: (out.len() - middle) as u32,
    })
}

/// Appends the block of the bottom field, which has no rows where the picture is one row high.
fn append_bottom_field(picture: &Indexed, region: Depth, out: &mut Vec<u8>) -> Result<(), NoMemory>
    requires { IsNoDeeper picture.now.depth region }
    ensures block { OnOk result ((bytes : List ℕ) × (out.new.items ≡ out.old.items ++ bytes)
        × (length bytes < 2 ^ 32)
        × IsFieldBlock picture.now.depth region (bottom_field picture.now) bytes) }
    ensures short { OnOk result
        (2 * length out.new.items
        ≤ 2 * length out.old.items + 34 + room_of (bottom_field picture.now)) }
    ensures extends { Extends out.old.items out.new.items }
{
    // No rows are left for it then, and a block without bytes would stand for the top one.
    if picture.height() == 1 {
        out.push(END_OF_LINE)?;
        return Ok(());
    }
    append_field(picture.depth(), region, picture.bottom_rows(), out)
}

/// Appends the block of a field that has rows.
fn append_field(
    depth: Depth,
    region: Depth,
    rows: FieldRows<'_>,
    out: &mut Vec<u8>,
) -> Result<(), NoMemory>
    requires some { 0 < length rows }
    requires few { length rows ≤ 32768 }
    requires rows { AreRows depth rows }
    ensures block { OnOk result ((bytes : List ℕ) × (out.new.items ≡ out.old.items ++ bytes)
        × (length bytes < 2 ^ 32) × IsFieldBlock depth region rows.entry bytes) }
    ensures short { OnOk result
        (2 * length out.new.items ≤ 2 * length out.old.items + 34 + room_of rows.entry) }
    ensures extends { Extends out.old.items out.new.items }
{
    out.extend_from_slice(table_bytes(depth, region))?;
    for row in rows {
        append_row(depth, row, out)?;
    }
    Ok(())
}

/// Appends the sub-blocks of a row.
fn append_row(depth: Depth, row: &[u8], out: &mut Vec<u8>) -> Result<(), NoMemory>
    requires { All (λ code. code < code_count depth) row.now }
    ensures block { OnOk result ((bytes : List ℕ) × (out.new.items ≡ out.old.items ++ bytes)
        × (2 * length bytes ≤ 3 * length row.now + 10) × IsRowBlock depth row.now bytes) }
    ensures short { OnOk result
        (2 * length out.new.items ≤ 2 * length out.old.items + 3 * length row.now + 10) }
    ensures extends { Extends out.old.items out.new.items }
{
    out.push(type_of_string(depth))?;
    write_row(depth, row, out)?;
    out.push(END_OF_LINE)?;
    Ok(())
}

/// The type byte of a string of a depth.
fn type_of_string(depth: Depth) -> u8
    ensures { result ≡ string_type depth }
{
    match depth {
        Depth::Two => TWO_BIT_STRING,
        Depth::Four => FOUR_BIT_STRING,
        Depth::Eight => EIGHT_BIT_STRING,
    }
}

/// The map table in which each code stands for itself, with its type byte; none where the picture
/// is as deep as the region.
pub(crate) fn table_bytes(depth: Depth, region: Depth) -> &'static [u8]
    ensures { result.now ≡ identity_table depth region }
{
    // A picture's codes are codes of the region, while the default tables would spread them over
    // its range.
    match (depth, region) {
        (Depth::Two, Depth::Four) => b"\x20\x01\x23",
        (Depth::Two, Depth::Eight) => b"\x21\x00\x01\x02\x03",
        (Depth::Four, Depth::Eight) =>
            b"\x22\x00\x01\x02\x03\x04\x05\x06\x07\x08\x09\x0A\x0B\x0C\x0D\x0E\x0F",
        _ => b"",
    }
}
