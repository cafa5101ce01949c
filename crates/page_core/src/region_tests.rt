//! The tests of the regions of a set, by what the epoch had before the set.

ghost use Rattle.std.specs.Prelude.{◌≡◌, ◌-◌, ◌+◌, ◌*◌, ◌<◌, ◌^◌, [], List, None, filter};
ghost use Rattle.sub_base.specs.Depth.{packed_length};
ghost use Rattle.sub_base.specs.declared.profile.Profile.{Profile};
ghost use Rattle.decoder_model.specs.Faults.{first_fault_by, has_same_shape as same_shape, pixels_full, region_changed};
ghost use Rattle.decoder_model.specs.Nodes.{region_bytes as bytes_of, pixels_used};
ghost use Rattle.decoder_model.specs.Readings.{Content};
ghost use Rattle.decoder_model.specs.Taken.{taken_of};
ghost use Rattle.segments.specs.Contents.{region_value};
ghost use Rattle.page_core.specs.Handed.{AreContents};
ghost use Rattle.page_core.specs.Private.RegionTests.{AreApart, HasHeads, fault_of_head, head_in, room_fault, room_left};
ghost use Rattle.page_core.specs.Private.Walks.{is_region};

use crate::composition::CompositionMemory;
use crate::walking::next_region;
use decoder_model::SetFault;
use segments::{RegionHead, RegionSeg};
use sub_base::Depth;

/// The first region of a set that changes its size or depth.
pub(crate) fn changed_region(composition: &CompositionMemory, bytes: &[u8]) -> Option<SetFault>
    ensures { (set older : List Content) → HasHeads older composition.now
        → AreContents set bytes.now
        → AreApart [] (filter is_region set)
        → result ≡ first_fault_by region_changed older set }
{
    let mut rest = bytes;
    while let Some(next) = next_region(rest) {
        if let Some(fault) = change_fault(composition, &next.segment) {
            return Some(fault);
        }
        rest = next.rest;
    }
    None
}

// A region segment with another version than the known one has another size or depth.
fn change_fault(composition: &CompositionMemory, region: &RegionSeg<'_>) -> Option<SetFault>
    ensures { result
        ≡ fault_of_head (region_value region.now).head
        (head_in composition.now region.now.region) }
{
    let known = composition.region(region.region)?.head;
    if known.version == region.version || has_same_shape(&known, region) {
        None
    } else {
        Some(SetFault::RegionChanged { id: region.region })
    }
}

pub(crate) fn has_same_shape(known: &RegionHead, region: &RegionSeg<'_>) -> bool
    ensures { result ≡ same_shape (region_value region.now).head known.now }
{
    region.width == known.width && region.height == known.height && region.depth == known.depth
}

/// The first region of a set that is new in the epoch and for which the regions before it leave too
/// few of the free bytes of pixels.
pub(crate) fn full_pixels(
    composition: &CompositionMemory,
    free: u64,
    bytes: &[u8],
) -> Option<SetFault>
    ensures { (profile : Profile) (set older : List Content)
        → free ≡ profile.pixels - pixels_used (taken_of older)
        → HasHeads older composition.now
        → AreContents set bytes.now → AreApart [] (filter is_region set)
        → first_fault_by region_changed older set ≡ None
        → result ≡ first_fault_by (pixels_full profile) older set }
{
    let mut left = free;
    let mut rest = bytes;
    while let Some(next) = next_region(rest) {
        if let Some(fault) = take_room(composition, &next.segment, &mut left) {
            return Some(fault);
        }
        rest = next.rest;
    }
    None
}

// A region that is not known takes its bytes of those that are left, unless they are too few.
fn take_room(
    composition: &CompositionMemory,
    region: &RegionSeg<'_>,
    left: &mut u64,
) -> Option<SetFault>
    ensures fault { result
        ≡ room_fault (region_value region.now).head (head_in composition.now region.now.region)
        left.old }
    ensures left { result ≡ None
        → left.new
        ≡ room_left (region_value region.now).head (head_in composition.now region.now.region)
        left.old }
{
    if composition.region(region.region).is_some() {
        return None;
    }
    let need = region_bytes(region);
    if *left < need {
        return Some(SetFault::PixelFull { need, free: *left });
    }
    *left -= need;
    None
}

// The bytes of the pixels of a region: each row in whole bytes.
fn region_bytes(region: &RegionSeg<'_>) -> u64
    ensures { result ≡ bytes_of (region_value region.now).head }
{
    row_bytes(region.width, region.depth) * u64::from(region.height)
}

fn row_bytes(width: u16, depth: Depth) -> u64
    ensures bytes { result ≡ packed_length depth width }
    ensures few { result < 2 ^ 17 }
{
    (u64::from(width) * u64::from(depth.bits()) + 7) / 8
}
