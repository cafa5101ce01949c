ghost use Rattle.std.specs.Prelude.{◌≡◌};

use crate::same::same;
use string_painting::{Brush, Painted, RowPlace, paint_string};
use sub_base::Depth;

/// A pixel of code 7, three of code 9, two of code 0, one of code 1, the end, and a byte behind it.
pub(crate) const EIGHT_BIT_CODES: [u8; 10] = [
    0x07, 0x00, 0x83, 0x09, 0x00, 0x02, 0x01, 0x00, 0x00, 0x55,
];

/// A pixel of code 3, four of code 0, five of code 6, one and two of code 0, and the end.
pub(crate) const FOUR_BIT_CODES: [u8; 6] = [0x30, 0x20, 0x96, 0x0C, 0x0D, 0x00];

/// A pixel of code 2, four of code 1, one and two of code 0, 15 of code 3, the end, and two bits of
/// fill.
pub(crate) const TWO_BIT_CODES: [u8; 5] = [0x89, 0x44, 0x10, 0x8F, 0x00];

pub(crate) fn brush(string: Depth, region: Depth) -> Brush
    ensures string { result.string ≡ string }
    ensures region { result.region ≡ region }
{
    Brush {
        string,
        region,
        see_through: false,
    }
}

#[test]
fn eight_bits_in_eight(rt: HostRuntime) {
    let mut row = [0xEEu8; 10];
    let told = paint_string(
        &mut row,
        RowPlace { width: 9, x: 1 },
        &EIGHT_BIT_CODES,
        brush(Depth::Eight, Depth::Eight),
        &[],
    );
    same(&rt, told, Painted { size: 9, x: 8 });
    same(&rt, row, [0xEE, 7, 9, 9, 9, 0, 0, 1, 0xEE, 0xEE]);
}

#[test]
fn eight_bits_over_the_edge(rt: HostRuntime) {
    let mut row = [0xEEu8; 6];
    let told = paint_string(
        &mut row,
        RowPlace { width: 4, x: 1 },
        &EIGHT_BIT_CODES,
        brush(Depth::Eight, Depth::Eight),
        &[],
    );
    same(&rt, told, Painted { size: 9, x: 8 });
    same(&rt, row, [0xEE, 7, 9, 9, 0xEE, 0xEE]);
}

#[test]
fn eight_bits_seen_through(rt: HostRuntime) {
    let mut row = [0xEEu8; 8];
    let seen = Brush {
        string: Depth::Eight,
        region: Depth::Eight,
        see_through: true,
    };
    let told = paint_string(
        &mut row,
        RowPlace { width: 8, x: 0 },
        &EIGHT_BIT_CODES,
        seen,
        &[],
    );
    same(&rt, told, Painted { size: 9, x: 7 });
    same(&rt, row, [7, 9, 9, 9, 0, 0, 0xEE, 0xEE]);
}

#[test]
fn four_bits_in_eight(rt: HostRuntime) {
    let table = [
        0x10, 0x11, 0x12, 0x13, 0x14, 0x15, 0x16, 0x17, 0x18, 0x19, 0x1A, 0x1B, 0x1C, 0x1D, 0x1E,
        0x1F,
    ];
    let mut row = [0xEEu8; 12];
    let told = paint_string(
        &mut row,
        RowPlace { width: 12, x: 0 },
        &FOUR_BIT_CODES,
        brush(Depth::Four, Depth::Eight),
        &table,
    );
    same(&rt, told, Painted { size: 6, x: 13 });
    same(
        &rt,
        row,
        [
            0x13, 0x10, 0x10, 0x10, 0x10, 0x16, 0x16, 0x16, 0x16, 0x16, 0x10, 0x10,
        ],
    );
}

#[test]
fn two_bits_in_eight(rt: HostRuntime) {
    let table = [0xA0, 0xA1, 0xA2, 0xA3];
    let mut row = [0xEEu8; 12];
    let told = paint_string(
        &mut row,
        RowPlace { width: 11, x: 1 },
        &TWO_BIT_CODES,
        brush(Depth::Two, Depth::Eight),
        &table,
    );
    same(&rt, told, Painted { size: 5, x: 24 });
    same(
        &rt,
        row,
        [
            0xEE, 0xA2, 0xA1, 0xA1, 0xA1, 0xA1, 0xA0, 0xA0, 0xA0, 0xA3, 0xA3, 0xEE,
        ],
    );
}

#[test]
fn four_bits_in_four(rt: HostRuntime) {
    let mut row = [0xEEu8; 7];
    let told = paint_string(
        &mut row,
        RowPlace { width: 13, x: 1 },
        &FOUR_BIT_CODES,
        brush(Depth::Four, Depth::Four),
        &[],
    );
    same(&rt, told, Painted { size: 6, x: 14 });
    same(&rt, row, [0xE3, 0x00, 0x00, 0x66, 0x66, 0x60, 0x0E]);
}

#[test]
fn two_bits_in_two(rt: HostRuntime) {
    let mut row = [0x55u8; 6];
    let told = paint_string(
        &mut row,
        RowPlace { width: 21, x: 2 },
        &TWO_BIT_CODES,
        brush(Depth::Two, Depth::Two),
        &[],
    );
    same(&rt, told, Painted { size: 5, x: 25 });
    same(&rt, row, [0x59, 0x54, 0x0F, 0xFF, 0xFF, 0xD5]);
}

#[test]
fn two_bits_in_four(rt: HostRuntime) {
    let table = [0x1A, 0x2B];
    let mut row = [0xEEu8; 12];
    let told = paint_string(
        &mut row,
        RowPlace { width: 24, x: 0 },
        &TWO_BIT_CODES,
        brush(Depth::Two, Depth::Four),
        &table,
    );
    same(&rt, told, Painted { size: 5, x: 23 });
    same(
        &rt,
        row,
        [
            0x2A, 0xAA, 0xA1, 0x11, 0xBB, 0xBB, 0xBB, 0xBB, 0xBB, 0xBB, 0xBB, 0xBE,
        ],
    );
}
