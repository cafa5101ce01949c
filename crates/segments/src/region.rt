ghost use Rattle.std.specs.Prelude.{◌≡◌, ◌+◌, ◌<◌, ◌^◌, ◌≤◌, drop, length, slice_get, OnOk, Some};
ghost use Rattle.std.specs.Result.{result_and};
ghost use Rattle.segments.specs.Contents.{region_value};
ghost use Rattle.segments.specs.Reading.{GivesReading, tested, depth_at, region_head_at, region_at};
ghost use Rattle.stream_syntax.specs.SegmentTests.{listing_tests};

use crate::fault::bad_length;
use crate::word::{bits, is_set, read_word};
use stream_syntax::{Listing, RegionHead, SegmentFault, SegmentKind};
use sub_base::Depth;

/// The bytes before the listings.
pub(crate) const FIXED: usize = 10;

/// The bytes of a listing.
pub(crate) const LISTING: usize = 6;

/// A region: its sides in pixels, its colours, and the objects that it shows (EN 300 743, region
/// composition segment).
#[derive(Clone, Copy, Debug, PartialEq, Eq)]
pub struct RegionSeg<'a> {
    /// The id of the region (region_id).
    pub region: u8,
    /// The version, 0 to 15 (region_version_number).
    pub version: u8,
    /// Whether the region is filled before its objects are painted (region_fill_flag).
    pub fill: bool,
    /// The pixels of a row, at least 1 (region_width).
    pub width: u16,
    /// The rows, at least 1 (region_height).
    pub height: u16,
    /// The bits of its pixel codes (region_depth).
    pub depth: Depth,
    /// The id of its CLUT (CLUT_id).
    pub clut: u8,
    /// The code that fills a region of eight bits (region_8-bit_pixel_code).
    pub code8: u8,
    /// The code that fills a region of four bits (region_4-bit_pixel-code).
    pub code4: u8,
    /// The code that fills a region of two bits (region_2-bit_pixel-code).
    pub code2: u8,
    /// The listings, as bytes: object_id, object_type, object_provider_flag, and the object's
    /// horizontal and vertical position.
    pub listings: &'a [u8],
}

impl RegionSeg<'_> {
    /// How many objects the region lists.
    #[tactic(auto, using(crate::proofs::Sixes::length_by_six))]
    pub fn count(&self) -> usize
        ensures { result ≡ length (region_value self.now).listings }
    {
        self.listings.len() / LISTING
    }

    /// The listing at a place below the count.
    #[tactic(auto, using(crate::proofs::Sixes::length_by_six))]
    pub fn listing(&self, i: usize) -> Listing
        requires { i < length (region_value self.now).listings }
        ensures { slice_get (region_value self.now).listings i ≡ Some result }
    {
        let place = LISTING * i;
        Listing {
            object: read_word(self.listings, place),
            x: read_word(self.listings, place + 2) & 0xFFF,
            y: read_word(self.listings, place + 4) & 0xFFF,
        }
    }
}

/// Reads the body of a region.
#[tactic(auto, unfolding(crate::specs::Reading::region_at))]
pub(crate) fn region_of(body: &[u8]) -> Result<RegionSeg<'_>, SegmentFault>
    requires { length body.now < 65536 }
    ensures { GivesReading region_value result (region_at body.now) }
{
    let head = head_of(body)?;
    let listings = &body[FIXED..];
    check_listings(listings)?;
    Ok(RegionSeg {
        region: head.region,
        version: head.version,
        fill: head.fill,
        width: head.width,
        height: head.height,
        depth: head.depth,
        clut: head.clut,
        code8: head.code8,
        code4: head.code4,
        code2: head.code2,
        listings,
    })
}

/// Reads what stands before the listings.
fn head_of(body: &[u8]) -> Result<RegionHead, SegmentFault>
    ensures exact { result ≡ region_head_at body.now }
    ensures room { OnOk result (10 ≤ length body.now) }
{
    if body.len() < FIXED {
        return Err(bad_length());
    }
    let (width, height) = (read_word(body, 2), read_word(body, 4));
    // Tests go from the left, and the sides stand before the depth.
    if width == 0 || height == 0 {
        return Err(SegmentFault {
            place: 8,
            kind: SegmentKind::ZeroSize,
        });
    }
    Ok(RegionHead {
        region: body[0],
        version: body[1] >> 4,
        fill: is_set(body[1], 3),
        width,
        height,
        depth: depth_of(bits(body[6], 2, 3))?,
        clut: body[7],
        code8: body[8],
        code4: body[9] >> 4,
        code2: bits(body[9], 2, 2),
    })
}

/// The depth with that number.
fn depth_of(number: u8) -> Result<Depth, SegmentFault>
    ensures { result ≡ depth_at number }
{
    match number {
        1 => Ok(Depth::Two),
        2 => Ok(Depth::Four),
        3 => Ok(Depth::Eight),
        _ => Err(SegmentFault {
            place: 12,
            kind: SegmentKind::BadDepth,
        }),
    }
}

/// Tests the listings of a region from the left: each is whole, and of an object that is sent as
/// pixels.
fn check_listings(listings: &[u8]) -> Result<(), SegmentFault>
    requires { length listings.now < 65536 }
    ensures { result ≡ tested (listing_tests 16 listings.now) }
{
    let mut rest = listings;
    let mut place = 16;
    while !rest.is_empty() {
        check_listing(rest, place)?;
        rest = &rest[LISTING..];
        place += LISTING as u32;
    }
    Ok(())
}

/// Tests the first of the listings, which begins at that place of the segment.
#[tactic(auto, using(crate::proofs::Listings::whole_listing, crate::proofs::Listings::cut_listing, crate::proofs::Listings::listing_passes))]
fn check_listing(listings: &[u8], place: u32) -> Result<(), SegmentFault>
    requires room { place + 2 < 2 ^ 32 }
    requires some { 0 < length listings.now }
    ensures { tested (listing_tests place listings.now)
        ≡ result_and result (tested (listing_tests (place + 6) (drop 6 listings.now))) }
{
    if listings.len() < LISTING {
        return Err(bad_length());
    }
    if listings[2] >> 6 != 0 {
        return Err(SegmentFault {
            place: place + 2,
            kind: SegmentKind::CharacterObject,
        });
    }
    // object_provider_flag: 0 says that the stream brings the object.
    if bits(listings[2], 4, 2) != 0 {
        return Err(SegmentFault {
            place: place + 2,
            kind: SegmentKind::HeldObject,
        });
    }
    Ok(())
}
