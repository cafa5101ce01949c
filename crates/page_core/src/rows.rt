//! Rows of the picture: the lines of regions, drawn one over another within the window of the
//! display (EN 300 743, clauses 7.2.1 and 7.2.2).

ghost use Rattle.std.specs.Prelude.{◌≡◌, ℕ, ◌+◌, ◌<◌, ◌≤◌, length, All, MatchOption, option_map};
ghost use Rattle.sub_base.specs.Colour.{clear};
ghost use Rattle.sub_base.specs.Depth.{code_count};
ghost use Rattle.decoder_model.specs.Shown.{window_of};
ghost use Rattle.segments.specs.Contents.{display_value};
ghost use Rattle.pixel_store.specs.Regions.{region_at, IsPackedRow};
ghost use Rattle.page_core.specs.Coloured.{colour_of};
ghost use Rattle.page_core.specs.Memory.{Memory};
ghost use Rattle.page_core.specs.Private.Painted.{HasRegion};
ghost use Rattle.page_core.specs.Rows.{IsDrawnOver, IsLineDrawn, IsKeptAs, colour_by_entry, colour_by_region, row_in, window_at, listed_in, IsLineLent};

use crate::colours::colours_into;
use crate::composition::CompositionMemory;
use crate::inks::Inks;
use crate::node::RegionNode;
use pixel_store::Store;
use segments::DisplaySeg;
use stream_syntax::PageEntry;
use sub_base::{CLEAR, Colour};

/// A row of the display, and the first and last columns and rows in which regions are seen.
#[derive(Clone, Copy)]
pub(crate) struct RowPlace {
    pub(crate) left: u32,
    pub(crate) right: u32,
    pub(crate) top: u32,
    pub(crate) bottom: u32,
    pub(crate) y: u32,
}

/// Makes a row the row y of the picture.
pub(crate) fn row_into(
    composition: &CompositionMemory,
    store: &Store,
    inks: &Inks,
    display: DisplaySeg,
    y: u32,
    row: &mut [Colour],
)
    requires { All (λ kept. HasRegion kept.head kept.slot store.now) composition.now.regions }
    ensures { (memory : Memory) → IsKeptAs memory composition.now store.now inks.now
        → memory.display ≡ display_value display
        → length row.old ≡ memory.display.width → row.new ≡ row_in memory y }
{
    clear_row(row);
    let place = row_place(display, y);
    let mut entries = composition.entries();
    while let Some(entry) = entries.next_entry() {
        entry_into(composition, store, inks, place, entry, row);
    }
}

/// A row of a display, in its window where it has one (EN 300 743, clause 7.2.1).
pub(crate) fn row_place(display: DisplaySeg, y: u32) -> RowPlace
    ensures window { window_at result ≡ window_of (display_value display) }
    ensures y { result.y ≡ y }
{
    match display.window {
        Some(window) => RowPlace {
            left: u32::from(window.left),
            right: u32::from(window.right),
            top: u32::from(window.top),
            bottom: u32::from(window.bottom),
            y,
        },
        None => RowPlace {
            left: 0,
            right: display.width.saturating_sub(1),
            top: 0,
            bottom: display.height.saturating_sub(1),
            y,
        },
    }
}

/// Draws the region of an entry of the page over a row, as far as the window has it.
fn entry_into(
    composition: &CompositionMemory,
    store: &Store,
    inks: &Inks,
    place: RowPlace,
    entry: PageEntry,
    row: &mut [Colour],
)
    requires { All (λ kept. HasRegion kept.head kept.slot store.now) composition.now.regions }
    ensures { (memory : Memory) → IsKeptAs memory composition.now store.now inks.now
        → IsDrawnOver (window_at place) place.y
        (λ x. colour_by_entry memory (window_at place) x place.y entry) row.old row.new }
{
    if let Some(region) = composition.region(entry.region) {
        let colours = inks.table(region.head.clut, region.head.depth);
        region_into(store, &region, colours, place, entry, row);
    }
}

/// Draws a region over a row of the display, as far as the window has it, with its corner at an
/// entry of the page. The colours are those of its CLUT for codes of its depth.
pub(crate) fn region_into(
    store: &Store,
    region: &RegionNode,
    colours: &[Colour],
    place: RowPlace,
    entry: PageEntry,
    row: &mut [Colour],
)
    requires region { HasRegion region.now.head region.now.slot store.now }
    requires colours { length colours.now ≡ code_count region.now.head.depth }
    ensures { IsDrawnOver (window_at place) place.y
        (λ x. colour_by_region region.now.head (region_at store.now region.now.slot) colours.now
        (place.left + entry.x) (place.top + entry.y) x place.y) row.old row.new }
{
    let left = place.left as usize + usize::from(entry.x);
    let top = place.top as usize + usize::from(entry.y);
    let y = place.y as usize;
    if y < top || place.bottom < place.y || usize::from(region.head.height) <= y - top {
        return;
    }
    let end = (left + usize::from(region.head.width))
        .min(place.right as usize + 1)
        .min(row.len());
    if left < end {
        line_within(store, region, (y - top) as u16, colours, left, end, row);
    }
}

/// Draws the front of a line of a region over the places from one up to another.
fn line_within(
    store: &Store,
    region: &RegionNode,
    line: u16,
    colours: &[Colour],
    from: usize,
    to: usize,
    row: &mut [Colour],
)
    requires region { HasRegion region.now.head region.now.slot store.now }
    requires line { line < region.now.head.height }
    requires colours { length colours.now ≡ code_count region.now.head.depth }
    requires order { from ≤ to }
    requires wide { to ≤ from + region.now.head.width }
    requires row { to ≤ length row.old }
    ensures { IsLineDrawn (region_at store.now region.now.slot) line colours.now from to row.old
        row.new }
{
    line_into(store, region, line, colours, &mut row[from..to]);
}

/// Draws the front of a line of a region.
fn line_into(store: &Store, region: &RegionNode, line: u16, colours: &[Colour], row: &mut [Colour])
    requires region { HasRegion region.now.head region.now.slot store.now }
    requires line { line < region.now.head.height }
    requires colours { length colours.now ≡ code_count region.now.head.depth }
    requires row { length row.old ≤ region.now.head.width }
    ensures { IsLineDrawn (region_at store.now region.now.slot) line colours.now 0 (length row.old)
        row.old row.new }
{
    colours_into(
        store.packed_row(region.slot, line),
        region.head.depth,
        colours,
        row,
    );
}

/// Makes each place of a row clear.
fn clear_row(row: &mut [Colour])
    ensures { (x : ℕ) → x < length row.old → colour_of row.new x ≡ clear }
{
    row.fill(CLEAR);
}

/// Lends the packed bytes of a line of the region of that id. None exactly where the page lists no
/// such region or the region has no such line.
pub(crate) fn packed_row<'a>(
    composition: &CompositionMemory,
    store: &'a Store,
    id: u8,
    line: u16,
) -> Option<&'a [u8]>
    requires { All (λ kept. HasRegion kept.head kept.slot store.now) composition.now.regions }
    ensures { (memory : Memory) → memory.composition ≡ composition.now
        → memory.store ≡ store.now
        → IsLineLent memory (listed_in memory id) line (option_map (λ bytes. bytes.now) result) }
{
    if !composition.is_listed(id) {
        return None;
    }
    let region = composition.region(id)?;
    packed_line(store, &region, line)
}

/// Lends the packed bytes of a line of a region. None exactly where the region has no such line.
pub(crate) fn packed_line<'a>(store: &'a Store, region: &RegionNode, line: u16) -> Option<&'a [u8]>
    requires { HasRegion region.now.head region.now.slot store.now }
    ensures { MatchOption result (region.now.head.height ≤ line)
        (λ bytes. (line < region.now.head.height)
        × IsPackedRow (region_at store.now region.now.slot) line bytes.now) }
{
    if line < region.head.height {
        Some(store.packed_row(region.slot, line))
    } else {
        None
    }
}
