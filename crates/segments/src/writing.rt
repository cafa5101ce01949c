ghost use Rattle.std.specs.Prelude.{◌≡◌, ◌+◌, ◌-◌, ◌*◌, ◌<◌, ◌≤◌, ◌++◌, All, None, OnErr, OnOk, length, vec_len};
ghost use Rattle.std.specs.Vec.{vec_capacity};
ghost use Rattle.segments.specs.Contents.{object_value, value_of};
ghost use Rattle.segments.specs.Sizes.{size_of};
ghost use Rattle.segments.specs.Writing.{
  body_bytes,
  clut_bytes,
  clut_entry_bytes,
  display_bytes,
  frame_bytes,
  head_bytes,
  listing_bytes,
  object_bytes,
  object_head_bytes,
  page_bytes,
  page_entry_bytes,
  region_bytes,
};
ghost use Rattle.stream_syntax.specs.Fields.{FitsFields};
ghost use Rattle.stream_syntax.specs.Segments.{IsHeadedBy, IsValid, IsSegment, IsWritable, byte_count, segment_kind, is_odd, spelled, state_number, depth_number, written_body};

use crate::append::{append, word};
use crate::frame::HEAD;
use crate::object::{FIXED, ObjectSeg};
use crate::size::{DISPLAY_SIZE, END_SIZE, clut_size, object_size, page_size, region_size};
use stream_syntax::{
    CLUT_DEFINITION, ClutEntry, DISPLAY_DEFINITION, END_OF_DISPLAY_SET, Listing, OBJECT_DATA,
    PAGE_COMPOSITION, PageEntry, REGION_COMPOSITION, RegionHead, SEGMENT_SYNC, State,
};
use sub_base::{Depth, NoMemory};

/// A byte of reserved bits.
const RESERVED: u8 = 0xFF;

/// A segment that is to be written.
#[derive(Clone, Copy, Debug)]
pub enum SegmentOut<'a> {
    /// A page composition.
    Page {
        /// The seconds after which the page is no longer shown (page_time_out).
        time_out: u8,
        /// The version, 0 to 15 (page_version_number).
        version: u8,
        /// Whether a receiver can begin at the set (page_state).
        state: State,
        /// The regions that the page lists; a later one lies over those before it.
        entries: &'a [PageEntry],
    },
    /// A region composition.
    Region {
        /// All of the region but its objects.
        head: RegionHead,
        /// The objects that it lists.
        listings: &'a [Listing],
    },
    /// A CLUT definition.
    Clut {
        /// The id of the CLUT (CLUT_id).
        clut: u8,
        /// The version, 0 to 15 (CLUT_version_number).
        version: u8,
        /// The entries that are set; others keep their colours.
        entries: &'a [ClutEntry],
    },
    /// Object data.
    Object(ObjectSeg<'a>),
    /// The sides of the display in pixels, without a window.
    Display {
        /// The version, 0 to 15 (dds_version_number).
        version: u8,
        /// The columns of the display (display_width, which is one less).
        width: u32,
        /// The rows of the display (display_height, which is one less).
        height: u32,
    },
    /// The end of a display set.
    End,
}

/// Appends a segment. Reserved bits are 1; the level of compatibility of a region is its depth,
/// colours are in the full range, and a byte 00 makes the length of an object even. After want of
/// memory `out` is as before.
pub fn write_segment(page: u16, segment: &SegmentOut<'_>, out: &mut Vec<u8>) -> Result<(), NoMemory>
    requires { IsWritable page (value_of segment.now) }
    ensures bytes { OnOk result
        (out.new.items ≡ out.old.items ++ spelled page (value_of segment.now)) }
    // What was appended is a segment with this value.
    ensures segment { OnOk result
        (IsSegment (spelled page (value_of segment.now)) (value_of segment.now)) }
    ensures head { OnOk result
        (IsHeadedBy (segment_kind (value_of segment.now)) page
        (spelled page (value_of segment.now))) }
    ensures size { OnOk result
        (length (spelled page (value_of segment.now))
        ≡ 6 + byte_count (written_body (value_of segment.now))) }
    ensures kept { OnErr result (out.new.items ≡ out.old.items) }
{
    let size = segment_size(segment);
    // All memory first, so that no part of a segment is left where there is none.
    out.reserve(size)?;
    append(
        out,
        &frame_bytes(kind_of(segment), page, (size - HEAD) as u16),
    );
    put_body(out, segment);
    Ok(())
}

/// The segment type.
fn kind_of(segment: &SegmentOut<'_>) -> u8
    ensures { result ≡ segment_kind (value_of segment.now) }
{
    match *segment {
        SegmentOut::Page { .. } => PAGE_COMPOSITION,
        SegmentOut::Region { .. } => REGION_COMPOSITION,
        SegmentOut::Clut { .. } => CLUT_DEFINITION,
        SegmentOut::Object(_) => OBJECT_DATA,
        SegmentOut::Display { .. } => DISPLAY_DEFINITION,
        SegmentOut::End => END_OF_DISPLAY_SET,
    }
}

/// How many bytes the segment has, its head included.
fn segment_size(segment: &SegmentOut<'_>) -> usize
    requires { size_of (value_of segment.now) < 6 + 65536 }
    ensures { result ≡ size_of (value_of segment.now) }
{
    match segment {
        SegmentOut::Page { entries, .. } => page_size(entries.len()),
        SegmentOut::Region { listings, .. } => region_size(listings.len()),
        SegmentOut::Clut { entries, .. } => clut_size(entries.len()),
        SegmentOut::Object(object) => object_size(object.top.len(), object.bottom.len()),
        SegmentOut::Display { .. } => DISPLAY_SIZE,
        SegmentOut::End => END_SIZE,
    }
}

/// The bytes of the head.
fn frame_bytes(kind: u8, page: u16, size: u16) -> [u8; HEAD]
    ensures { result ≡ frame_bytes kind page size }
{
    let (page, size) = (word(page), word(size));
    [SEGMENT_SYNC, kind, page[0], page[1], size[0], size[1]]
}

/// Appends the body, for which there is room.
#[tactic(auto, using(crate::proofs::Sizes::page_entries_size, crate::proofs::Sizes::listings_size, crate::proofs::Sizes::clut_entries_size, crate::proofs::Sizes::all_places_fit))]
fn put_body(out: &mut Vec<u8>, segment: &SegmentOut<'_>)
    requires fits { FitsFields (written_body (value_of segment.now)) }
    requires valid { IsValid (value_of segment.now) }
    requires room { vec_len out.old + length (body_bytes (value_of segment.now))
        ≤ vec_capacity out.old }
    ensures { out.new.items ≡ out.old.items ++ body_bytes (value_of segment.now) }
{
    match segment {
        SegmentOut::Page {
            time_out,
            version,
            state,
            entries,
        } => put_page(out, *time_out, *version, *state, entries),
        SegmentOut::Region { head, listings } => put_region(out, head, listings),
        SegmentOut::Clut {
            clut,
            version,
            entries,
        } => put_clut(out, *clut, *version, entries),
        SegmentOut::Object(object) => put_object(out, object),
        SegmentOut::Display {
            version,
            width,
            height,
        } => put_display(out, *version, *width, *height),
        SegmentOut::End => {}
    }
}

/// The bytes of an entry of a page.
fn page_entry_bytes(entry: &PageEntry) -> [u8; 6]
    ensures { result ≡ page_entry_bytes entry.now }
{
    let (x, y) = (word(entry.x), word(entry.y));
    [entry.region, RESERVED, x[0], x[1], y[0], y[1]]
}

/// The bytes of a listing of a region: its type and its provider are 0.
fn listing_bytes(listing: &Listing) -> [u8; 6]
    requires { listing.now.y < 4096 }
    ensures { result ≡ listing_bytes listing.now }
{
    // Above x are the object's type and provider, above y four reserved bits.
    let (object, x, y) = (
        word(listing.object),
        word(listing.x),
        word(0xF000 + listing.y),
    );
    [object[0], object[1], x[0], x[1], y[0], y[1]]
}

/// The bytes of an entry of a CLUT, with its colour in the full range.
fn clut_entry_bytes(entry: &ClutEntry) -> [u8; 6]
    ensures { result ≡ clut_entry_bytes entry.now }
{
    // Below the flags of the three tables are four reserved bits and that of the full range.
    let flags = u8::from(entry.two) * 128 + u8::from(entry.four) * 64 + u8::from(entry.eight) * 32;
    let colour = entry.colour;
    [
        entry.entry,
        flags + 31,
        colour.y,
        colour.cr,
        colour.cb,
        colour.t,
    ]
}

/// The number of a page state.
fn state_number(state: State) -> u8
    ensures number { result ≡ state_number state }
    ensures small { result < 3 }
{
    match state {
        State::Normal => 0,
        State::Acquisition => 1,
        State::ModeChange => 2,
    }
}

/// The number of a depth.
fn depth_number(depth: Depth) -> u8
    ensures number { result ≡ depth_number depth }
    ensures small { result < 4 }
{
    match depth {
        Depth::Two => 1,
        Depth::Four => 2,
        Depth::Eight => 3,
    }
}

/// Appends the body of a page, for which there is room.
fn put_page(out: &mut Vec<u8>, time_out: u8, version: u8, state: State, entries: &[PageEntry])
    requires version { version < 16 }
    requires room { vec_len out.old + 2 + 6 * length entries.now ≤ vec_capacity out.old }
    ensures { out.new.items ≡ out.old.items
        ++ page_bytes
        (record { time_out = time_out; version = version; state = state; entries = entries.now }) }
{
    append(out, &[time_out, version * 16 + state_number(state) * 4 + 3]);
    for entry in entries {
        append(out, &page_entry_bytes(entry));
    }
}

/// The bytes of a region before its listings.
fn head_bytes(head: &RegionHead) -> [u8; 10]
    requires version { head.now.version < 16 }
    requires code4 { head.now.code4 < 16 }
    requires code2 { head.now.code2 < 4 }
    ensures { result ≡ head_bytes head.now }
{
    let (width, height) = (word(head.width), word(head.height));
    // The level of compatibility is the least CLUT that a receiver has to have: that of the depth.
    let depth = depth_number(head.depth);
    [
        head.region,
        head.version * 16 + u8::from(head.fill) * 8 + 7,
        width[0],
        width[1],
        height[0],
        height[1],
        depth * 32 + depth * 4 + 3,
        head.clut,
        head.code8,
        head.code4 * 16 + head.code2 * 4 + 3,
    ]
}

/// Appends the body of a region, for which there is room.
fn put_region(out: &mut Vec<u8>, head: &RegionHead, listings: &[Listing])
    requires version { head.now.version < 16 }
    requires code4 { head.now.code4 < 16 }
    requires code2 { head.now.code2 < 4 }
    requires places { All (λ listing. listing.y < 4096) listings.now }
    requires room { vec_len out.old + 10 + 6 * length listings.now ≤ vec_capacity out.old }
    ensures { out.new.items ≡ out.old.items
        ++ region_bytes (record { head = head.now; listings = listings.now }) }
{
    append(out, &head_bytes(head));
    for listing in listings {
        append(out, &listing_bytes(listing));
    }
}

/// Appends the body of a CLUT, for which there is room.
fn put_clut(out: &mut Vec<u8>, clut: u8, version: u8, entries: &[ClutEntry])
    requires version { version < 16 }
    requires room { vec_len out.old + 2 + 6 * length entries.now ≤ vec_capacity out.old }
    ensures { out.new.items ≡ out.old.items
        ++ clut_bytes (record { clut = clut; version = version; entries = entries.now }) }
{
    append(out, &[clut, version * 16 + 15]);
    for entry in entries {
        append(out, &clut_entry_bytes(entry));
    }
}

/// The bytes of an object before its blocks.
fn object_head_bytes(object: &ObjectSeg<'_>) -> [u8; 7]
    requires version { object.now.version < 16 }
    requires top { length object.now.top.now < 65536 }
    requires bottom { length object.now.bottom.now < 65536 }
    ensures { result ≡ object_head_bytes (object_value object.now) }
{
    let id = word(object.object);
    let (top, bottom) = (
        word(object.top.len() as u16),
        word(object.bottom.len() as u16),
    );
    let flags = object.version * 16 + u8::from(object.see_through) * 2 + 1;
    [id[0], id[1], flags, top[0], top[1], bottom[0], bottom[1]]
}

/// Appends the body of an object, for which there is room. A byte 00 makes the segment's length
/// even.
fn put_object(out: &mut Vec<u8>, object: &ObjectSeg<'_>)
    requires version { object.now.version < 16 }
    requires top { length object.now.top.now < 65536 }
    requires bottom { length object.now.bottom.now < 65536 }
    requires room { vec_len out.old + length (object_bytes (object_value object.now))
        ≤ vec_capacity out.old }
    ensures { out.new.items ≡ out.old.items ++ object_bytes (object_value object.now) }
{
    append(out, &object_head_bytes(object));
    append(out, object.top);
    append(out, object.bottom);
    if is_odd(object) {
        append(out, &[0]);
    }
}

/// Whether the bytes of an object segment before its end are an odd number.
fn is_odd(object: &ObjectSeg<'_>) -> bool
    requires top { length object.now.top.now < 65536 }
    requires bottom { length object.now.bottom.now < 65536 }
    ensures { result ≡ is_odd (object_value object.now) }
{
    (HEAD + FIXED + object.top.len() + object.bottom.len()) % 2 == 1
}

/// Appends the body of a display definition, for which there is room.
fn put_display(out: &mut Vec<u8>, version: u8, width: u32, height: u32)
    requires version { version < 16 }
    requires wide { 1 ≤ width }
    requires width { width - 1 < 65536 }
    requires high { 1 ≤ height }
    requires height { height - 1 < 65536 }
    requires room { vec_len out.old + 5 ≤ vec_capacity out.old }
    ensures { out.new.items ≡ out.old.items
        ++ display_bytes
        (record { version = version; width = width; height = height; window = None }) }
{
    let (width, height) = (word((width - 1) as u16), word((height - 1) as u16));
    append(
        out,
        &[version * 16 + 7, width[0], width[1], height[0], height[1]],
    );
}
