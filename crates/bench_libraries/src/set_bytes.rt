//! The bytes of a display set (EN 300 743, clause 7.2) whose one region shows a picture.

ghost use Rattle.std.specs.Prelude.{◌<◌, ◌≤◌, All, IfOk, OnOk, length};
ghost use Rattle.bench_libraries.specs.Private.Appended.{IsAppended};
ghost use Rattle.bench_libraries.specs.Private.Sent.{IsSent};

use anyhow::{Context, Result, ensure};
use indexed_picture::Indexed;
use pixel_codes::check_block;
use segments::{
    ClutEntry, Listing, ObjectSeg, PageEntry, RegionHead, SegmentOut, State, write_segment,
};
use set_coder::write_fields;
use std::alloc::Global;
use sub_base::{Colour, Depth};

/// The page id.
pub const PAGE: u16 = 1;

/// Appends a set: the display, the page, its region with a fill, all colours of its CLUT, the
/// picture as an object, and the end.
pub fn append_set(picture: &Indexed, state: State, version: u8, out: &mut Vec<u8>) -> Result<()>
    requires { version < 16 }
    ensures appended { OnOk result (IsAppended out.old.items out.new.items) }
{
    let large = picture.width() > 720;
    append_display(large, out)?;
    append_page(large, state, version, out)?;
    append_region(picture, version, out)?;
    append_clut(picture.depth(), version, out)?;
    append_object(picture, version, out)?;
    write_segment(PAGE, &SegmentOut::End, out)?;
    Ok(())
}

/// Appends a display of 1,920 by 1,080 pixels, or of 720 by 576.
fn append_display(large: bool, out: &mut Vec<u8>) -> Result<()>
    ensures appended { OnOk result (IsAppended out.old.items out.new.items) }
{
    let display = if large {
        SegmentOut::Display {
            version: 0,
            width: 1_920,
            height: 1_080,
        }
    } else {
        SegmentOut::Display {
            version: 0,
            width: 720,
            height: 576,
        }
    };
    write_segment(PAGE, &display, out)?;
    Ok(())
}

/// Appends a page with the region near the bottom of the display.
fn append_page(large: bool, state: State, version: u8, out: &mut Vec<u8>) -> Result<()>
    requires { version < 16 }
    ensures appended { OnOk result (IsAppended out.old.items out.new.items) }
{
    let entry = PageEntry {
        region: 0,
        x: 0,
        y: if large { 900 } else { 480 },
    };
    let page = SegmentOut::Page {
        time_out: 10,
        version,
        state,
        entries: &[entry],
    };
    write_segment(PAGE, &page, out)?;
    Ok(())
}

/// Appends the region, as large as the picture.
fn append_region(picture: &Indexed, version: u8, out: &mut Vec<u8>) -> Result<()>
    requires { version < 16 }
    ensures appended { OnOk result (IsAppended out.old.items out.new.items) }
{
    let head = RegionHead {
        region: 0,
        version,
        fill: true,
        width: picture.width(),
        height: picture.height(),
        depth: picture.depth(),
        clut: 0,
        code8: 0,
        code4: 0,
        code2: 0,
    };
    let listing = Listing {
        object: 0,
        x: 0,
        y: 0,
    };
    let region = SegmentOut::Region {
        head,
        listings: &[listing],
    };
    write_segment(PAGE, &region, out)?;
    Ok(())
}

/// Appends all colours of the CLUT: the first is clear, and the others are grey.
fn append_clut(depth: Depth, version: u8, out: &mut Vec<u8>) -> Result<()>
    requires { version < 16 }
    ensures appended { OnOk result (IsAppended out.old.items out.new.items) }
{
    let entries = greys(*out.allocator(), depth)?;
    let clut = SegmentOut::Clut {
        clut: 0,
        version,
        entries: entries.as_slice(),
    };
    write_segment(PAGE, &clut, out)?;
    Ok(())
}

/// The colours of a CLUT.
fn greys(alloc: Global, depth: Depth) -> Result<Vec<ClutEntry>>
    ensures { IfOk result (λ entries. All IsSent entries.items × (length entries.items ≤ 256)) }
{
    let mut entries = Vec::new(alloc);
    for entry in 0..depth.code_count() {
        entries.push(grey(depth, entry as u8))?;
    }
    Ok(entries)
}

/// An entry whose luminance is its number, as it is shown.
fn grey(depth: Depth, entry: u8) -> ClutEntry
    ensures { IsSent result }
{
    let bits = depth.bits();
    let colour = Colour {
        y: entry,
        cr: 128,
        cb: 128,
        t: 0,
    };
    ClutEntry {
        entry,
        two: bits == 2,
        four: bits == 4,
        eight: bits == 8,
        colour: colour.shown(),
    }
}

/// Appends the picture as an object.
fn append_object(picture: &Indexed, version: u8, out: &mut Vec<u8>) -> Result<()>
    requires { version < 16 }
    ensures appended { OnOk result (IsAppended out.old.items out.new.items) }
{
    let mut blocks = Vec::new(*out.allocator());
    let lengths = write_fields(picture, picture.depth(), &mut blocks)?;
    let (top, bottom) = blocks
        .as_slice()
        .split_at_checked(lengths.top as usize)
        .context("a block is cut")?;
    append_blocks(top, bottom, version, out)
}

/// Appends an object with the blocks of its two fields.
fn append_blocks(top: &[u8], bottom: &[u8], version: u8, out: &mut Vec<u8>) -> Result<()>
    requires { version < 16 }
    ensures appended { OnOk result (IsAppended out.old.items out.new.items) }
{
    ensure!(
        top.len() + bottom.len() < 65_528,
        "a picture is too large for a segment"
    );
    let _ = check_block(top, Depth::Eight)?;
    let _ = check_block(bottom, Depth::Eight)?;
    let object = ObjectSeg {
        object: 0,
        version,
        see_through: false,
        top,
        bottom,
    };
    write_segment(PAGE, &SegmentOut::Object(object), out)?;
    Ok(())
}
