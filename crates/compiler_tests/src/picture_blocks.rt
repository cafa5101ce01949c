ghost use Rattle.std.specs.Prelude.{◌≤◌};
ghost use Rattle.stream_syntax.specs.PixelBlocks.{IsNoDeeper};

use crate::same::same;
use indexed_picture::Indexed;
use set_coder::{FieldLengths, write_fields};
use std::alloc::Global;
use std::panic::Expect;
use std::process::Abort;
use sub_base::Depth;

/// The blocks of a picture of two bits, and their lengths.
fn blocks<R: Abort>(
    rt: &R,
    alloc: Global,
    width: u16,
    height: u16,
    codes: &[u8],
    region: Depth,
) -> (Vec<u8>, FieldLengths)
    requires wide { 1 ≤ width }
    requires high { 1 ≤ height }
    requires region { IsNoDeeper Depth.Two region }
{
    let codes = codes.to_vec(alloc).expect(rt, "memory");
    let picture = Indexed::from_codes(alloc, width, height, Depth::Two, codes).expect(
        rt,
        "a picture",
    );
    let mut out = Vec::new(alloc);
    let lengths = write_fields(&picture, region, &mut out).expect(rt, "memory");
    (out, lengths)
}

#[test]
fn one_row_has_an_empty_bottom_field(rt: HostRuntime) {
    let (bytes, lengths) = blocks(&rt, rt.alloc(), 3, 1, &[1, 1, 0], Depth::Two);
    same(&rt, bytes.as_slice(), b"\x10\x51\x00\xF0\xF0".as_slice());
    same(&rt, lengths, FieldLengths { top: 4, bottom: 1 });
}

#[test]
fn equal_fields_share_the_top_block(rt: HostRuntime) {
    let (bytes, lengths) = blocks(&rt, rt.alloc(), 3, 2, &[1, 1, 0, 1, 1, 0], Depth::Two);
    same(&rt, bytes.as_slice(), b"\x10\x51\x00\xF0".as_slice());
    same(&rt, lengths, FieldLengths { top: 4, bottom: 0 });
}

/// The rows of three are the same, but the top field has one more.
#[test]
fn an_odd_height_has_a_bottom_block(rt: HostRuntime) {
    let (bytes, lengths) = blocks(&rt, rt.alloc(), 1, 3, &[1, 1, 1], Depth::Two);
    same(
        &rt,
        bytes.as_slice(),
        b"\x10\x40\xF0\x10\x40\xF0\x10\x40\xF0".as_slice(),
    );
    same(&rt, lengths, FieldLengths { top: 6, bottom: 3 });
}

#[test]
fn a_deeper_region_gets_the_identity_table(rt: HostRuntime) {
    let (bytes, lengths) = blocks(&rt, rt.alloc(), 2, 2, &[1, 0, 0, 1], Depth::Four);
    let wanted = b"\x20\x01\x23\x10\x44\x00\xF0\x20\x01\x23\x10\x14\x00\xF0";
    same(&rt, bytes.as_slice(), wanted.as_slice());
    same(&rt, lengths, FieldLengths { top: 7, bottom: 7 });
}
