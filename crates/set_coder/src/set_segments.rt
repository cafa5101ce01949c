ghost use Rattle.std.specs.Prelude.{◌≡◌, ◌<◌, ◌≤◌, ◌++◌, length, map, All, IfOk, OnOk, OnErr};
ghost use Rattle.std.specs.List.{flat_map};
ghost use Rattle.cue_records.specs.declared.limits.TheConstants.{MOST_CUES, MOST_REGIONS};
ghost use Rattle.stream_syntax.specs.Fields.{FitsFields};
ghost use Rattle.stream_syntax.specs.Segments.{spelled, end_of_set, listing_fields};
ghost use Rattle.page_epoch.specs.Sendable.{HasRegion, HasCue, HasColour, IsSendableIn, IsSendableRegion, IsSendableClut};
ghost use Rattle.set_coder.specs.SetSegments.{display_segments, time_out_of, page_entry_of, page_segment, listing_of, listed_region, region_segment_of, clut_entry_of, clut_segment_of, leading_segments};
ghost use Rattle.set_coder.specs.Usable.{IsUsable};

use crate::named::{colour_at, cue_at, epoch_region};
use cue_list::{Epoch, Script};
use page_epoch::{PlannedSet, SentClut, SentRegion, State};
use segments::{ClutEntry, Listing, PageEntry, RegionHead, SegmentOut, write_segment};
use std::alloc::Global;
use sub_base::{NoMemory, SECOND};

/// Appends the segments of a set before its objects.
pub(crate) fn append_leading(
    script: &Script,
    epoch: &Epoch,
    page: u16,
    set: &PlannedSet,
    field: &mut Vec<u8>,
) -> Result<(), NoMemory>
    requires usable { IsUsable epoch.now }
    requires carried { IsSendableIn epoch.now set.now }
    ensures bytes { OnOk result
        (field.new.items ≡ field.old.items
        ++ flat_map (spelled page) (leading_segments script.now epoch.now set.now)) }
{
    append_display(script, page, set.state, field)?;
    append_page(script, epoch, page, set, field)?;
    append_regions(epoch, page, set.regions.as_slice(), field)?;
    append_cluts(epoch, page, set.cluts.as_slice(), field)
}

/// Appends the display definition, which a normal set does not have.
pub fn append_display(
    script: &Script,
    page: u16,
    state: State,
    field: &mut Vec<u8>,
) -> Result<(), NoMemory>
    ensures bytes { OnOk result
        (field.new.items ≡ field.old.items
        ++ flat_map (spelled page) (display_segments script.now state)) }
    ensures kept { OnErr result (field.new.items ≡ field.old.items) }
{
    // Whoever shows a normal set has the display from the entry point before.
    if state == State::Normal {
        return Ok(());
    }
    let segment = SegmentOut::Display {
        version: 0,
        width: u32::from(script.width),
        height: u32::from(script.height),
    };
    write_segment(page, &segment, field)
}

/// The seconds after which a receiver clears a page that is not sent again (page_time_out).
fn time_out(script: &Script) -> u8
    ensures value { result ≡ time_out_of script.now }
    ensures short { result ≤ 122 }
{
    // Longer than a refresh, so that a page stays where one refresh is lost.
    (2 * (script.refresh / SECOND) + 2) as u8
}

/// Appends the page with the regions that it shows, for a set of the epoch.
pub fn append_page(
    script: &Script,
    epoch: &Epoch,
    page: u16,
    set: &PlannedSet,
    field: &mut Vec<u8>,
) -> Result<(), NoMemory>
    requires usable { IsUsable epoch.now }
    requires version { set.now.page_version < 16 }
    requires few { length set.now.shown ≤ MOST_REGIONS }
    requires shown { All (HasRegion epoch.now) set.now.shown }
    ensures bytes { OnOk result
        (field.new.items ≡ field.old.items
        ++ spelled page (page_segment script.now epoch.now set.now)) }
    ensures kept { OnErr result (field.new.items ≡ field.old.items) }
{
    let entries = page_entries(*field.allocator(), epoch, set.shown.as_slice())?;
    let segment = SegmentOut::Page {
        time_out: time_out(script),
        version: set.page_version,
        state: set.state,
        entries: entries.as_slice(),
    };
    write_segment(page, &segment, field)
}

/// The entries of a page.
fn page_entries(alloc: Global, epoch: &Epoch, shown: &[u8]) -> Result<Vec<PageEntry>, NoMemory>
    requires { All (HasRegion epoch.now) shown.now }
    ensures { IfOk result (λ entries. entries.items ≡ map (page_entry_of epoch.now) shown.now) }
{
    let mut entries = Vec::with_capacity(alloc, shown.len())?;
    for id in shown {
        let region = epoch_region(epoch, *id);
        entries.push(PageEntry {
            region: *id,
            x: region.x,
            y: region.y,
        })?;
    }
    Ok(entries)
}

/// Appends the regions of a set.
fn append_regions(
    epoch: &Epoch,
    page: u16,
    regions: &[SentRegion],
    field: &mut Vec<u8>,
) -> Result<(), NoMemory>
    requires usable { IsUsable epoch.now }
    requires each { All (IsSendableRegion epoch.now) regions.now }
    ensures bytes { OnOk result
        (field.new.items ≡ field.old.items
        ++ flat_map (spelled page) (map (region_segment_of epoch.now) regions.now)) }
{
    for sent in regions {
        append_region(epoch, page, sent, field)?;
    }
    Ok(())
}

/// Appends a region with its listings.
fn append_region(
    epoch: &Epoch,
    page: u16,
    sent: &SentRegion,
    field: &mut Vec<u8>,
) -> Result<(), NoMemory>
    requires usable { IsUsable epoch.now }
    requires sent { IsSendableRegion epoch.now sent.now }
    ensures bytes { OnOk result
        (field.new.items ≡ field.old.items
        ++ spelled page (region_segment_of epoch.now sent.now)) }
    ensures kept { OnErr result (field.new.items ≡ field.old.items) }
{
    let listings = listings_of(*field.allocator(), epoch, sent.cues.as_slice())?;
    append_listed(epoch, page, sent, listings.as_slice(), field)
}

/// Appends a region of an epoch that lists these objects, one for each of its cues. After want of
/// memory `field` is as before.
pub fn append_listed(
    epoch: &Epoch,
    page: u16,
    sent: &SentRegion,
    listings: &[Listing],
    field: &mut Vec<u8>,
) -> Result<(), NoMemory>
    requires usable { IsUsable epoch.now }
    requires sent { IsSendableRegion epoch.now sent.now }
    requires many { length listings.now ≡ length sent.now.cues }
    requires fit { FitsFields (flat_map listing_fields listings.now) }
    ensures bytes { OnOk result
        (field.new.items ≡ field.old.items
        ++ spelled page (listed_region epoch.now sent.now listings.now)) }
    ensures kept { OnErr result (field.new.items ≡ field.old.items) }
{
    let region = epoch_region(epoch, sent.id);
    let head = RegionHead {
        region: sent.id,
        version: sent.version,
        fill: sent.fill,
        width: region.width,
        height: region.height,
        depth: region.depth,
        clut: region.clut,
        code8: 0,
        code4: 0,
        code2: 0,
    };
    write_segment(page, &SegmentOut::Region { head, listings }, field)
}

/// The listings of cues.
fn listings_of(alloc: Global, epoch: &Epoch, cues: &[u32]) -> Result<Vec<Listing>, NoMemory>
    requires few { length epoch.now.cues ≤ MOST_CUES }
    requires each { All (HasCue epoch.now) cues.now }
    ensures { IfOk result (λ listings. listings.items ≡ map (listing_of epoch.now) cues.now) }
{
    let mut listings = Vec::with_capacity(alloc, cues.len())?;
    for place in cues {
        let cue = cue_at(epoch, *place);
        listings.push(Listing {
            object: *place as u16,
            x: cue.x,
            y: cue.y,
        })?;
    }
    Ok(listings)
}

/// Appends the CLUTs of a set.
fn append_cluts(
    epoch: &Epoch,
    page: u16,
    cluts: &[SentClut],
    field: &mut Vec<u8>,
) -> Result<(), NoMemory>
    requires usable { IsUsable epoch.now }
    requires each { All (IsSendableClut epoch.now) cluts.now }
    ensures bytes { OnOk result
        (field.new.items ≡ field.old.items
        ++ flat_map (spelled page) (map (clut_segment_of epoch.now) cluts.now)) }
{
    for sent in cluts {
        append_clut(epoch, page, sent, field)?;
    }
    Ok(())
}

/// Appends a CLUT with its entries.
pub fn append_clut(
    epoch: &Epoch,
    page: u16,
    sent: &SentClut,
    field: &mut Vec<u8>,
) -> Result<(), NoMemory>
    requires usable { IsUsable epoch.now }
    requires sent { IsSendableClut epoch.now sent.now }
    ensures bytes { OnOk result
        (field.new.items ≡ field.old.items ++ spelled page (clut_segment_of epoch.now sent.now)) }
    ensures kept { OnErr result (field.new.items ≡ field.old.items) }
{
    let entries = clut_entries(*field.allocator(), epoch, sent.rows.as_slice())?;
    let segment = SegmentOut::Clut {
        clut: sent.clut,
        version: sent.version,
        entries: entries.as_slice(),
    };
    write_segment(page, &segment, field)
}

/// The entries of colour rows.
fn clut_entries(alloc: Global, epoch: &Epoch, rows: &[u32]) -> Result<Vec<ClutEntry>, NoMemory>
    requires { All (HasColour epoch.now) rows.now }
    ensures { IfOk result (λ entries. entries.items ≡ map (clut_entry_of epoch.now) rows.now) }
{
    let mut entries = Vec::with_capacity(alloc, rows.len())?;
    for place in rows {
        let row = colour_at(epoch, *place);
        let bits = row.depth.bits();
        entries.push(ClutEntry {
            entry: row.entry,
            two: bits == 2,
            four: bits == 4,
            eight: bits == 8,
            colour: row.colour,
        })?;
    }
    Ok(entries)
}

/// Appends the end of a set.
pub fn append_end(page: u16, field: &mut Vec<u8>) -> Result<(), NoMemory>
    ensures bytes { OnOk result (field.new.items ≡ field.old.items ++ spelled page end_of_set) }
    ensures kept { OnErr result (field.new.items ≡ field.old.items) }
{
    write_segment(page, &SegmentOut::End, field)
}
