ghost use Rattle.std.specs.Prelude.{◌≡◌, ◌*◌, ◌<◌, ◌≤◌, ◌^◌, length, map, All, IfOk, sum_by};
ghost use Rattle.std.specs.List.Sorted.{IsPermutation, IsNonDecreasing};
ghost use Rattle.cue_records.specs.declared.limits.TheConstants.{MOST_COLOURS, MOST_CUES, MOST_REGIONS};
ghost use Rattle.page_epoch.specs.EpochStates.{AreOwn, IsSmallRegionState};
ghost use Rattle.page_epoch.specs.Private.Layouts.{IsLayout, ArePageRegions, shown_of};
ghost use Rattle.page_epoch.specs.SentRegions.{listed_cues, AreOrdered};
ghost use Rattle.page_epoch.specs.Needs.{region_need as pixels_of, pixel_need as pixels_of_all};

use crate::clut_changes::{ClutChanges, all_changes};
use crate::live::starts_of;
use crate::planned_set::SentRegion;
use crate::region_state::{RegionCues, RegionState};
use cue_list::{Cue, Epoch, Region};
use std::alloc::{AllocError, Global};
use sub_base::Items;

/// What stays in an epoch: its regions with their cues, by their numbers and from the top of the
/// display, its CLUTs, and the bytes of its regions' pixels.
#[derive(Drop)]
pub struct Layout {
    /// The regions in order of their numbers, as sets send them.
    pub by_id: Items<RegionCues>,
    /// The regions from the top of the display, as the page lists them.
    pub by_y: Items<PageRegion>,
    /// The CLUTs that colours set, in order of their numbers.
    pub cluts: Items<ClutChanges>,
    /// The bytes of the pixels of all regions.
    pub pixels: u64,
}

/// A region of the display: its upper edge, in pixels from the top, its number, and its place among
/// the regions by their numbers.
#[derive(Clone, Copy, Debug)]
pub struct PageRegion {
    /// The upper edge.
    pub y: u16,
    /// The number of the region.
    pub id: u8,
    /// Its index among the regions in order of their numbers.
    pub place: u32,
}

/// The regions by their numbers.
fn sorted_by_id(alloc: Global, regions: &[Region]) -> Result<Vec<Region>, AllocError>
    ensures { IfOk result
        (λ ordered. AreOrdered (λ region. region.id) regions.now ordered.items) }
{
    let mut ordered = Vec::from_slice(alloc, regions)?;
    ordered.sort_by_key(|region| region.id)?;
    Ok(ordered)
}

/// Regions, which are in order of their numbers, from the top of the display.
fn from_top(alloc: Global, regions: &[Region]) -> Result<Items<PageRegion>, AllocError>
    requires { length regions.now ≤ MOST_REGIONS }
    ensures { IfOk result (ArePageRegions regions.now) }
{
    let mut page_regions = Vec::new(alloc);
    for (place, region) in regions.iter().enumerate() {
        page_regions.push(PageRegion {
            y: region.y,
            id: region.id,
            place: place as u32,
        })?;
    }
    // No two regions of an epoch share a row, so this order is one of the whole display.
    page_regions.sort_by_key(|page_region| page_region.y)?;
    Ok(Items::new(alloc, page_regions))
}

/// Regions with their cues.
fn with_cues(
    alloc: Global,
    cues: &[Cue],
    regions: &[Region],
) -> Result<Items<RegionCues>, AllocError>
    requires { length cues.now ≤ MOST_CUES }
    ensures ids { IfOk result
        (λ found. map (λ region. region.id) found ≡ map (λ region. region.id) regions.now) }
    ensures own { IfOk result (AreOwn cues.now) }
{
    let mut found = Vec::new(alloc);
    for region in regions {
        let starts = starts_of(alloc, cues, region.id)?;
        found.push(RegionCues {
            id: region.id,
            starts,
        })?;
    }
    Ok(Items::new(alloc, found))
}

impl Layout {
    /// What stays in an epoch.
    pub fn of(alloc: Global, epoch: &Epoch) -> Result<Layout, AllocError>
        requires regions { length epoch.now.regions ≤ MOST_REGIONS }
        requires cues { length epoch.now.cues ≤ MOST_CUES }
        requires colours { length epoch.now.colours ≤ MOST_COLOURS }
        ensures { IfOk result (IsLayout epoch.now) }
    {
        let regions = sorted_by_id(alloc, epoch.regions.as_slice())?;
        let by_id = with_cues(alloc, epoch.cues.as_slice(), &regions)?;
        let by_y = from_top(alloc, &regions)?;
        let cluts = all_changes(alloc, epoch.colours.as_slice())?;
        let pixels = pixel_need(&regions);
        Ok(Layout {
            by_id,
            by_y,
            cluts,
            pixels,
        })
    }
}

/// The numbers of the regions that have a live cue, from the top of the display.
pub fn shown_ids(
    alloc: Global,
    page_regions: &[PageRegion],
    states: &[RegionState],
) -> Result<Items<u8>, AllocError>
    requires { All (λ page_region. page_region.place < length states.now) page_regions.now }
    ensures { IfOk result (λ shown. shown ≡ shown_of states.now page_regions.now) }
{
    let mut shown = Vec::new(alloc);
    for page_region in page_regions {
        if states[page_region.place as usize].live.len() != 0 {
            shown.push(page_region.id)?;
        }
    }
    Ok(Items::new(alloc, shown))
}

/// The cues that regions list, in the script's order.
pub fn listed_cues_of(alloc: Global, regions: &[SentRegion]) -> Result<Items<u32>, AllocError>
    ensures same { IfOk result (λ cues. IsPermutation (listed_cues regions.now) cues) }
    ensures order { IfOk result IsNonDecreasing }
{
    let mut cues = Vec::new(alloc);
    for region in regions {
        cues.extend_from_slice(region.cues.as_slice())?;
    }
    // Regions come by their numbers, objects in the script's order.
    cues.sort()?;
    Ok(Items::new(alloc, cues))
}

/// How many objects the receiver's regions list: the cues with which each region of the epoch was
/// last drawn.
pub fn drawn_count(states: &[RegionState]) -> u64
    requires few { length states.now ≤ MOST_REGIONS }
    requires small { All IsSmallRegionState states.now }
    ensures value { result ≡ sum_by (λ current. current.drawn_count) states.now }
    ensures few { result ≤ MOST_REGIONS * MOST_CUES }
{
    let mut sum = 0;
    for current in states {
        sum += current.drawn_count;
    }
    sum
}

/// The bytes of a region's pixels, in rows of whole bytes.
fn region_need(region: &Region) -> u64
    ensures value { result ≡ pixels_of region.now }
    ensures few { result ≤ 2 ^ 33 }
{
    (u64::from(region.width) * u64::from(region.depth.bits())).div_ceil(8)
        * u64::from(region.height)
}

/// The bytes of the pixels of an epoch's regions.
fn pixel_need(regions: &[Region]) -> u64
    requires { length regions.now ≤ MOST_REGIONS }
    ensures { result ≡ pixels_of_all regions.now }
{
    let mut sum = 0;
    for region in regions {
        sum += region_need(region);
    }
    sum
}
