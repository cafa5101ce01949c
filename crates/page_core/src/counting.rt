//! How many nodes the composition memory needs for the regions and CLUTs of a set (EN 300 743,
//! clause 5.2), before anything is changed.

ghost use Rattle.std.specs.Prelude.{◌≡◌, ◌+◌, ◌<◌, ◌^◌, ◌==◌, ◌∷◌, ◌++◌, [], ℕ, List, None, Some, filter, reverse, if◌then◌else◌, map, min, option_map, slice_index_or};
ghost use Rattle.std.specs.Option.{option_or};
ghost use Rattle.stream_syntax.specs.Segments.{of_clut};
ghost use Rattle.decoder_model.specs.Readings.{Content};
ghost use Rattle.decoder_model.specs.Taken.{taken_among};
ghost use Rattle.segments.specs.Contents.{clut_value, region_value};
ghost use Rattle.page_core.specs.Composition.{KeptClut, clut_in, region_in};
ghost use Rattle.page_core.specs.Private.Counting.{AreCounted, AreKept, CountsMore, HasRegionNeed, HasVersions, IsClutCounted, added_by, clut_need, gone_by, new_or_none, region_need};
ghost use Rattle.sub_base.specs.Depth.{code_count};
ghost use Rattle.sub_base.specs.declared.colour.Colour.{Colour as ColourOf};
ghost use Rattle.page_core.specs.Private.ClutSteps.{in_depth, in_depths, placed_by, with_entries_of, with_place};
ghost use Rattle.page_core.specs.Private.Marks.{uncounted};
ghost use Rattle.page_core.specs.Private.Nodes.{place_kept};
ghost use Rattle.page_core.specs.Private.RegionTests.{AreApart};
ghost use Rattle.page_core.specs.Private.Walks.{is_clut, is_region};
ghost use Rattle.page_core.specs.Handed.{AreContents};

use crate::cluts::{is_in_depth, is_new_version};
use crate::composition::CompositionMemory;
use crate::marks::{Mark, Marks};
use crate::node::TablePlace;
use crate::walking::{next_clut, next_region};
use segments::{ClutSeg, RegionSeg};
use stream_syntax::ClutEntry;
use sub_base::Depth;

/// The nodes that the regions of a set need: those that are added, and those of listings that are
/// taken away.
#[derive(Clone, Copy)]
pub(crate) struct RegionNodes {
    pub added: u64,
    pub gone: u64,
}

/// The nodes that the regions of a set add and take away.
pub(crate) fn region_nodes(composition: &CompositionMemory, bytes: &[u8]) -> RegionNodes
    requires { composition.now.size < 2 ^ 31 }
    ensures { (older set : List Content) → AreKept older composition.now
        → AreContents set bytes.now
        → AreApart [] (filter is_region set) → region_need (taken_among older) < 2 ^ 32
        → HasRegionNeed older set result.added result.gone }
{
    let mut nodes = RegionNodes { added: 0, gone: 0 };
    let mut rest = bytes;
    while let Some(next) = next_region(rest) {
        nodes = with_region(composition, &next.segment, nodes);
        rest = next.rest;
    }
    nodes
}

// With those of one more region.
fn with_region(
    composition: &CompositionMemory,
    region: &RegionSeg<'_>,
    nodes: RegionNodes,
) -> RegionNodes
    requires { composition.now.size < 2 ^ 31 }
    ensures added { result.added
        ≡ min (nodes.added
        + min (added_by (region_value region.now) (region_in composition.now region.now.region))
        18446744073709551615) 18446744073709551615 }
    ensures gone { result.gone
        ≡ min (nodes.gone
        + gone_by (region_value region.now) (region_in composition.now region.now.region))
        18446744073709551615 }
{
    RegionNodes {
        added: nodes.added.saturating_add(added_nodes(composition, region)),
        gone: nodes
            .gone
            .saturating_add(u64::from(gone_nodes(composition, region))),
    }
}

// A region that is new has a node, and one that is new or of another version has its listings.
fn added_nodes(composition: &CompositionMemory, region: &RegionSeg<'_>) -> u64
    ensures { result
        ≡ min (added_by (region_value region.now) (region_in composition.now region.now.region))
        18446744073709551615 }
{
    match composition.region(region.region) {
        None => (region.count() as u64).saturating_add(1),
        Some(known) if known.head.version == region.version => 0,
        Some(_) => region.count() as u64,
    }
}

// The listings of a region of another version are gone.
fn gone_nodes(composition: &CompositionMemory, region: &RegionSeg<'_>) -> u32
    requires { composition.now.size < 2 ^ 31 }
    ensures { result
        ≡ gone_by (region_value region.now) (region_in composition.now region.now.region) }
{
    match composition.region(region.region) {
        None => 0,
        Some(known) if known.head.version == region.version => 0,
        Some(_) => composition.listing_count(region.region),
    }
}

/// The nodes that the CLUTs of a set and the entries that they set are more. The entries are marked
/// as counted.
pub(crate) fn clut_nodes(composition: &CompositionMemory, marks: &mut Marks, bytes: &[u8]) -> u64
    ensures marks { map uncounted marks.new ≡ map uncounted marks.old }
    ensures counted { (base set : List Content) → HasVersions base composition.now []
        → AreCounted (placed_by (taken_among base)) composition.now.set_entries marks.old
        → AreContents set bytes.now
        → clut_need (taken_among (reverse (filter is_clut set) ++ base)) < 2 ^ 63
        → clut_need (taken_among (reverse (filter is_clut set) ++ base))
        ≡ clut_need (taken_among base) + result }
{
    let mut versions = no_versions();
    let mut nodes = 0u64;
    let mut rest = bytes;
    while let Some(next) = next_clut(rest) {
        nodes = nodes.saturating_add(count_clut(composition, marks, &mut versions, &next.segment));
        rest = next.rest;
    }
    nodes
}

fn no_versions() -> [Option<u8>; 256]
    ensures { (id : ℕ) → id < 256 → slice_index_or result id None ≡ None }
{
    [None; 256]
}

// The nodes that one more CLUT segment needs: none, where its version is the last one of the set,
// or else the one that is kept.
fn count_clut(
    composition: &CompositionMemory,
    marks: &mut Marks,
    versions: &mut [Option<u8>; 256],
    clut: &ClutSeg<'_>,
) -> u64
    ensures marks { map uncounted marks.new ≡ map uncounted marks.old }
    ensures counted { (earlier : List Content) (content : Content)
        → of_clut (clut_value clut.now) ≡ content.value
        → HasVersions earlier composition.now versions.old
        → AreCounted (placed_by (taken_among earlier)) composition.now.set_entries marks.old
        → clut_need (taken_among (content ∷ earlier)) < 2 ^ 63
        → IsClutCounted earlier content composition.now versions.new marks.new result }
{
    let known = last_version(composition, versions, clut.clut);
    if is_new_version(clut.version, known) {
        set_version(versions, clut.clut, clut.version);
        new_or_none(known).saturating_add(count_entries(marks, clut))
    } else {
        0
    }
}

// The last version of a CLUT: that of the set, and else the one that is kept.
fn last_version(
    composition: &CompositionMemory,
    versions: &[Option<u8>; 256],
    clut: u8,
) -> Option<u8>
    ensures version { result
        ≡ option_or (slice_index_or versions.now clut None)
        (option_map (λ (kept : KeptClut). kept.version) (clut_in composition.now clut)) }
    ensures byte { clut < 256 }
{
    match versions[usize::from(clut)] {
        None => composition.clut_version(clut),
        Some(version) => Some(version),
    }
}

fn set_version(versions: &mut [Option<u8>; 256], clut: u8, version: u8)
    ensures { (other : ℕ) → other < 256
        → slice_index_or versions.new other None
        ≡ (if clut == other then Some version else slice_index_or versions.old other None) }
{
    versions[usize::from(clut)] = Some(version);
}

// A CLUT that is not known needs a node.
fn new_or_none(known: Option<u8>) -> u64
    ensures { result ≡ new_or_none known }
{
    match known {
        None => 1,
        Some(_) => 0,
    }
}

// Counts the entries of a CLUT segment that are neither set nor counted, and marks them.
fn count_entries(marks: &mut Marks, clut: &ClutSeg<'_>) -> u64
    ensures marks { map uncounted marks.new ≡ map uncounted marks.old }
    ensures counted { CountsMore (with_entries_of clut.now.clut (clut_value clut.now).entries)
        marks.old marks.new result }
{
    let mut count = 0u64;
    let mut items = clut.items();
    while let Some(entry) = items.next() {
        count = count.saturating_add(count_entry(marks, clut.clut, entry));
    }
    count
}

// Counts an entry in each table for which it is flagged.
fn count_entry(marks: &mut Marks, clut: u8, entry: ClutEntry) -> u64
    ensures marks { map uncounted marks.new ≡ map uncounted marks.old }
    ensures counted { CountsMore (in_depths clut entry) marks.old marks.new result }
{
    let two = count_in_depth(marks, clut, entry, Depth::Two);
    let four = count_in_depth(marks, clut, entry, Depth::Four);
    let eight = count_in_depth(marks, clut, entry, Depth::Eight);
    two + four + eight
}

// Counts an entry in the table for codes of a depth, where it is flagged for it and the table has
// it.
fn count_in_depth(marks: &mut Marks, clut: u8, entry: ClutEntry, depth: Depth) -> u64
    ensures marks { map uncounted marks.new ≡ map uncounted marks.old }
    ensures counted { CountsMore (in_depth clut entry depth) marks.old marks.new result }
    ensures one { result < 2 }
{
    if is_in_depth(entry, depth) {
        let place = TablePlace {
            clut,
            depth,
            entry: entry.entry,
        };
        count_place(marks, place)
    } else {
        0
    }
}

// Counts an entry of a table that is neither set nor counted, and marks it.
fn count_place(marks: &mut Marks, place: TablePlace) -> u64
    requires clut { place.clut < 256 }
    requires table { place.entry < code_count place.depth }
    ensures marks { map uncounted marks.new ≡ map uncounted marks.old }
    ensures counted { (colour : ColourOf)
        → CountsMore (with_place (place_kept place) colour) marks.old marks.new result }
    ensures one { result < 2 }
{
    match marks.at(place) {
        Mark::Unset => {
            marks.put(place, Mark::Counted);
            1
        }
        _ => 0,
    }
}
