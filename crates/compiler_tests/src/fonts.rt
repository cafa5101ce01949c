use crate::same::same;
use crate::texts::FONT;
use bitmap_font::{Font, FontFault, FontKind, SetFault};
use std::alloc::Global;
use std::panic::Expect;
use std::process::Abort;
use sub_base::Depth;

fn fault(alloc: Global, bytes: &[u8]) -> Option<FontFault> {
    Font::read(alloc, bytes).err()
}

fn refused<R: Abort>(rt: &R, alloc: Global, bytes: &[u8], line: u64, kind: FontKind) {
    same(
        rt,
        fault(alloc, bytes),
        Some(FontFault::Refused { line, kind }),
    );
}

#[test]
fn sets_two_lines_in_a_font_of_one_glyph(rt: HostRuntime) {
    let font = Font::read(rt.alloc(), FONT).expect(&rt, "a font");
    let picture = font.set("A\nAA", 1, 0, Depth::Four).expect(&rt, "memory");
    same(&rt, picture.width(), 6);
    same(&rt, picture.height(), 8);
    let codes = [
        0, 1, 0, 0, 0, 0, 1, 1, 0, 0, 0, 0, 0, 1, 0, 0, 0, 0, 0, 0, 0, 0, 0, 0, //
        0, 1, 0, 0, 1, 0, 1, 1, 0, 1, 1, 0, 0, 1, 0, 0, 1, 0, 0, 0, 0, 0, 0, 0,
    ];
    same(&rt, picture.codes(), codes.as_slice());
}

#[test]
fn refuses_texts_in_order(rt: HostRuntime) {
    let font = Font::read(rt.alloc(), FONT).expect(&rt, "a font");
    same(
        &rt,
        font.set("AB", 1, 0, Depth::Four).err(),
        Some(SetFault::MissingGlyph('B')),
    );
    same(
        &rt,
        font.set("", 1, 0, Depth::Four).err(),
        Some(SetFault::Empty),
    );
    same(
        &rt,
        font.set("\n\n", 1, 0, Depth::Four).err(),
        Some(SetFault::Empty),
    );
    let wide = "AAAAAAAAAAAAAAAAAAAAAAAAAAAAAAAAAAAAAAAA"
        .repeat(rt.alloc(), 17)
        .expect(&rt, "memory");
    same(
        &rt,
        font.set(&wide, 1, 0, Depth::Four).err(),
        Some(SetFault::TooWide),
    );
    let none = Font::empty(rt.alloc());
    same(
        &rt,
        none.set("A", 1, 0, Depth::Four).err(),
        Some(SetFault::MissingGlyph('A')),
    );
}

#[test]
fn refuses_fonts_at_their_first_wrong_line(rt: HostRuntime) {
    let alloc = rt.alloc();
    refused(&rt, alloc, b"", 1, FontKind::Truncated);
    refused(&rt, alloc, b"\tSTARTFONT 2.1\n", 1, FontKind::NotBdf);
    refused(&rt, alloc, b"  STARTFONT\r\nENDFONT", 2, FontKind::NotBdf);
    refused(
        &rt,
        alloc,
        b"STARTFONT\nFONTBOUNDINGBOX 0 1 0 0\n",
        2,
        FontKind::BadNumber,
    );
    refused(
        &rt,
        alloc,
        b"STARTFONT\nFONTBOUNDINGBOX 1 1 +0 0\n",
        2,
        FontKind::BadNumber,
    );
    refused(
        &rt,
        alloc,
        b"STARTFONT\nFONTBOUNDINGBOX 1 1 0\n",
        2,
        FontKind::BadNumber,
    );
    refused(&rt, alloc, b"STARTFONT\nSTARTCHAR A\n", 2, FontKind::NotBdf);
    refused(
        &rt,
        alloc,
        b"STARTFONT\nSTARTPROPERTIES 9\nENDFONT\nBBX\n",
        5,
        FontKind::Truncated,
    );
    refused(
        &rt,
        alloc,
        b"STARTFONT\nFONTBOUNDINGBOX 007 1 -0 0\nFONTBOUNDINGBOX 1 1 0 0\n",
        3,
        FontKind::NotBdf,
    );
    refused(
        &rt,
        alloc,
        b"STARTFONT\nFONTBOUNDINGBOX 9 9 0 0\nSTARTCHAR A\nBITMAP\n",
        4,
        FontKind::NotBdf,
    );
    let head = b"STARTFONT\n\
          FONTBOUNDINGBOX 9 9 0 0\n\
          STARTCHAR A\n\
          ENCODING 65\n\
          DWIDTH 9 x\n\
          BBX 9 1 0 0\n\
          BITMAP\n";
    for (row, kind) in [
        (b"ff8".as_slice(), FontKind::BadRow),
        (b"ff80 ".as_slice(), FontKind::BadRow),
        (b"fg80".as_slice(), FontKind::BadRow),
        (b"".as_slice(), FontKind::BadRow),
        (b"ENDCHAR".as_slice(), FontKind::NotBdf),
        (b"STARTFONT".as_slice(), FontKind::BadRow),
    ] {
        let mut bytes = head.to_vec(alloc).expect(&rt, "memory");
        bytes.extend_from_slice(row).expect(&rt, "memory");
        bytes.push(b'\n').expect(&rt, "memory");
        refused(&rt, alloc, &bytes, 8, kind);
    }
    let mut twice = head.to_vec(alloc).expect(&rt, "memory");
    twice
        .extend_from_slice(b"Ff80\nCOMMENT\nENDCHAR\nSTARTCHAR B\nENCODING 65\n")
        .expect(&rt, "memory");
    refused(&rt, alloc, &twice, 12, FontKind::DoubleGlyph);
}
