//! How many bytes segments have that are written, their heads included.

ghost use Rattle.std.specs.Prelude.{◌≡◌, ◌≤◌, ◌^◌};
ghost use Rattle.segments.specs.Sizes.{clut_size, object_size, page_size, region_size};

use crate::frame::HEAD;
use crate::{clut, display, object, page, region};

/// The bytes of a display definition without a window.
pub const DISPLAY_SIZE: usize = HEAD + display::FIXED;

/// The bytes of the end of a display set, which has no body.
pub const END_SIZE: usize = HEAD;

/// The bytes of a page composition that lists so many regions.
pub fn page_size(entries: usize) -> usize
    requires { entries ≤ 65535 }
    ensures { result ≡ page_size entries }
{
    HEAD + page::FIXED + page::ENTRY * entries
}

/// The bytes of a region composition that lists so many objects.
pub fn region_size(listings: usize) -> usize
    requires { listings ≤ 65535 }
    ensures { result ≡ region_size listings }
{
    HEAD + region::FIXED + region::LISTING * listings
}

/// The bytes of a CLUT definition with so many entries, whose colours are in the full range.
pub fn clut_size(entries: usize) -> usize
    requires { entries ≤ 65535 }
    ensures { result ≡ clut_size entries }
{
    HEAD + clut::FIXED + clut::FULL * entries
}

/// The bytes of object data whose blocks have so many bytes, with the byte 00 that makes an odd
/// length even.
pub fn object_size(top: usize, bottom: usize) -> usize
    requires top { top ≤ 2 ^ 32 }
    requires bottom { bottom ≤ 2 ^ 32 }
    ensures { result ≡ object_size top bottom }
{
    let size = HEAD + object::FIXED + top + bottom;
    size + size % 2
}
