//! The region segments of a set, taken (EN 300 743, clause 7.2.3): each that is new in the epoch,
//! or has another version than the one before it.

ghost use Rattle.std.specs.Prelude.{◌≡◌, ◌+◌, ◌<◌, ◌≤◌, [], List, Some, None, filter, length, true, false};
ghost use Rattle.sub_base.specs.declared.profile.Profile.{Profile};
ghost use Rattle.decoder_model.specs.Faults.{has_same_shape as same_shape};
ghost use Rattle.decoder_model.specs.Pixels.{code_by_fill};
ghost use Rattle.decoder_model.specs.Readings.{Content};
ghost use Rattle.pixel_store.specs.Regions.{Regions};
ghost use Rattle.segments.specs.Contents.{region_value};
ghost use Rattle.page_core.specs.Composition.{AreIdsApart, region_in, taken_nodes};
ghost use Rattle.page_core.specs.Handed.{AreContents};
ghost use Rattle.page_core.specs.Private.Known.{IsRegionIn};
ghost use Rattle.block_painting.specs.Writing.{IsWritten};
ghost use Rattle.page_core.specs.Private.Painted.{HasRegion};
ghost use Rattle.page_core.specs.Private.RegionSteps.{AreBare, AreReady, AreStored, IsNewRegion, IsRegionTaken, IsValidHead, IsTakenAgain, KeepsBesideRegions};
ghost use Rattle.page_core.specs.Private.RegionSteps.{cleared_where, slot_in, takes_place, with_head, with_listings, with_region, with_regions_of};
ghost use Rattle.page_core.specs.Private.RegionTests.{AreApart, head_in, is_new};
ghost use Rattle.page_core.specs.Private.Walks.{is_region};
ghost use Rattle.sub_base.specs.Depth.{pixel_bytes};

use crate::composition::CompositionMemory;
use crate::node::RegionNode;
use crate::painting::fill_region;
use crate::region_tests::has_same_shape;
use crate::walking::next_region;
use pixel_store::{Slot, Store};
use segments::{RegionHead, RegionSeg};

/// Frees the listings of all regions whose place a segment of a set takes. A set may give one
/// region fewer listings and another more, so all are free before the first new one is put in.
pub(crate) fn clear_renewed(composition: &mut CompositionMemory, bytes: &[u8])
    requires { AreIdsApart composition.old.regions }
    ensures stored { (store : Regions) → AreStored composition.old store
        → AreStored composition.new store }
    ensures beside { KeepsBesideRegions composition.old composition.new }
    ensures bare { (set : List Content) → AreContents set bytes.now
        → AreBare (filter is_region set) composition.old composition.new }
{
    let mut rest = bytes;
    while let Some(next) = next_region(rest) {
        clear_if_renewed(composition, &next.segment);
        rest = next.rest;
    }
}

// Frees the listings of a region whose place the segment takes.
fn clear_if_renewed(composition: &mut CompositionMemory, region: &RegionSeg<'_>)
    ensures { composition.new
        ≡ cleared_where
        (takes_place (region_value region.now).head (head_in composition.old region.now.region))
        region.now.region composition.old }
{
    if is_renewing(composition, region) {
        composition.clear_listings(region.region);
    }
}

fn is_renewing(composition: &CompositionMemory, region: &RegionSeg<'_>) -> bool
    ensures { result
        ≡ takes_place (region_value region.now).head (head_in composition.now region.now.region) }
{
    match composition.region(region.region) {
        None => false,
        Some(known) => known.head.version != region.version,
    }
}

/// Takes all region segments of a set, one after another.
pub(crate) fn take_all(composition: &mut CompositionMemory, store: &mut Store, bytes: &[u8])
    requires { AreStored composition.old store.old }
    ensures stored { AreStored composition.new store.new }
    ensures beside { KeepsBesideRegions composition.old composition.new }
    ensures size { store.new.size ≡ store.old.size }
    ensures taken { (profile : Profile) (older set : List Content) → AreContents set bytes.now
        → AreApart [] (filter is_region set)
        → AreReady profile older (filter is_region set) composition.old store.old
        → AreReady profile (with_regions_of older set) [] composition.new store.new }
{
    let mut rest = bytes;
    while let Some(next) = next_region(rest) {
        take_one(composition, store, &next.segment);
        rest = next.rest;
    }
}

// Takes a region segment that is new in the epoch, or has another version than the last one. The
// tests before let no set through that has no room, or that changes the size or depth of a region:
// nothing is done then.
fn take_one(composition: &mut CompositionMemory, store: &mut Store, region: &RegionSeg<'_>)
    requires stored { AreStored composition.old store.old }
    requires valid { IsValidHead (region_value region.now).head }
    ensures taken { IsRegionTaken (region_value region.now) composition.old store.old
        composition.new store.new }
    ensures stored { AreStored composition.new store.new }
    ensures beside { KeepsBesideRegions composition.old composition.new }
    ensures size { store.new.size ≡ store.old.size }
{
    match composition.region(region.region) {
        None => take_first(composition, store, region),
        Some(known) => take_again(composition, store, region, known),
    }
}

// Takes a region segment that is new in the epoch, where there is room.
fn take_first(composition: &mut CompositionMemory, store: &mut Store, region: &RegionSeg<'_>)
    requires stored { AreStored composition.old store.old }
    requires valid { IsValidHead (region_value region.now).head }
    requires new { region_in composition.old region.now.region ≡ None }
    ensures taken { 1 + length (region_value region.now).listings ≤ composition.old.free
        → pixel_bytes region.now.width region.now.height region.now.depth ≤ store.old.free
        → IsNewRegion (region_value region.now) composition.old store.old composition.new
        store.new }
    ensures stored { AreStored composition.new store.new }
    ensures beside { KeepsBesideRegions composition.old composition.new }
    ensures size { store.new.size ≡ store.old.size }
{
    if composition.free() as usize <= region.count() {
        return;
    }
    if let Ok(slot) = store.place(region.width, region.height, region.depth) {
        put_in(composition, store, region, slot);
    }
}

// Puts a region in whose pixels have a place, and fills it where its segment says so.
fn put_in(
    composition: &mut CompositionMemory,
    store: &mut Store,
    region: &RegionSeg<'_>,
    slot: Slot,
)
    requires placed { HasRegion (region_value region.now).head slot store.old }
    requires valid { IsValidHead (region_value region.now).head }
    requires new { region_in composition.old region.now.region ≡ None }
    requires counted { composition.old.free + taken_nodes composition.old ≡ composition.old.size }
    requires apart { AreIdsApart composition.old.regions }
    requires room { 1 + length (region_value region.now).listings ≤ composition.old.free }
    ensures composition { composition.new
        ≡ with_listings region.now.region (region_value region.now).listings
        (with_region (region_value region.now).head slot composition.old) }
    ensures filled { IsWritten slot
        (λ x y. code_by_fill region.now.region (region_value region.now).head) store.old
        store.new }
{
    let node = RegionNode {
        head: head_of(region),
        slot,
    };
    fill_region(store, &node);
    composition.add_region(node);
    composition.add_listings(region);
}

// Takes a region segment for a region that is known, where it has another version, and the same
// size and depth.
fn take_again(
    composition: &mut CompositionMemory,
    store: &mut Store,
    region: &RegionSeg<'_>,
    known: RegionNode,
)
    requires stored { AreStored composition.old store.old }
    requires valid { IsValidHead (region_value region.now).head }
    requires known { IsRegionIn composition.old region.now.region (Some known) }
    ensures held { is_new (region_value region.now).head (Some known.head) ≡ false
        → (composition.new ≡ composition.old) × (store.new ≡ store.old) }
    ensures taken { is_new (region_value region.now).head (Some known.head) ≡ true
        → same_shape (region_value region.now).head known.head ≡ true
        → length (region_value region.now).listings ≤ composition.old.free
        → IsTakenAgain (region_value region.now) composition.old store.old composition.new
        store.new }
    ensures stored { AreStored composition.new store.new }
    ensures beside { KeepsBesideRegions composition.old composition.new }
    ensures size { store.new.size ≡ store.old.size }
{
    if known.head.version == region.version {
        return;
    }
    if has_same_shape(&known.head, region) && region.count() <= composition.free() as usize {
        renew(composition, store, region, known.slot);
    }
}

// Gives a region the head and the listings of a segment, and fills it where the segment says so.
fn renew(composition: &mut CompositionMemory, store: &mut Store, region: &RegionSeg<'_>, slot: Slot)
    requires placed { HasRegion (region_value region.now).head slot store.old }
    requires valid { IsValidHead (region_value region.now).head }
    requires known { slot_in composition.old region.now.region ≡ Some slot }
    requires apart { AreIdsApart composition.old.regions }
    requires room { length (region_value region.now).listings ≤ composition.old.free }
    ensures composition { composition.new
        ≡ with_listings region.now.region (region_value region.now).listings
        (with_head (region_value region.now).head composition.old) }
    ensures filled { IsWritten slot
        (λ x y. code_by_fill region.now.region (region_value region.now).head) store.old
        store.new }
{
    let renewed = RegionNode {
        head: head_of(region),
        slot,
    };
    fill_region(store, &renewed);
    composition.set_region(renewed);
    composition.add_listings(region);
}

fn head_of(region: &RegionSeg<'_>) -> RegionHead
    ensures { result ≡ (region_value region.now).head }
{
    RegionHead {
        region: region.region,
        version: region.version,
        fill: region.fill,
        width: region.width,
        height: region.height,
        depth: region.depth,
        clut: region.clut,
        code8: region.code8,
        code4: region.code4,
        code2: region.code2,
    }
}
