//! Whether regions lie inside the window of the display (EN 300 743, clauses 7.2.1 and 7.2.2).

ghost use Rattle.std.specs.Prelude.{◌≡◌, ◌-◌, Some};
ghost use Rattle.page_core.specs.Edges.{is_outside_in, passes_edge as passes_edge_of};
ghost use Rattle.page_core.specs.Memory.{Memory};
ghost use Rattle.page_core.specs.Rows.{window_at};
ghost use Rattle.segments.specs.Contents.{display_value};

use crate::composition::CompositionMemory;
use crate::rows::{RowPlace, row_place};
use segments::DisplaySeg;
use stream_syntax::{PageEntry, RegionHead};

/// Whether the region that an entry of the page lists does not lie inside the window of the
/// display. A region that is not defined passes no edge.
pub(crate) fn is_outside(
    composition: &CompositionMemory,
    display: DisplaySeg,
    entry: PageEntry,
) -> bool
    ensures { (memory : Memory) → memory.composition ≡ composition.now
        → memory.display ≡ display_value display → result ≡ is_outside_in memory entry }
{
    match composition.region(entry.region) {
        None => false,
        Some(region) => passes_edge(row_place(display, 0), entry, region.head),
    }
}

/// Whether a region that stands from an entry of the page on passes an edge of the window in which
/// a row is.
fn passes_edge(window: RowPlace, entry: PageEntry, head: RegionHead) -> bool
    ensures { result ≡ passes_edge_of (window_at window) entry (Some head) }
{
    let right = u64::from(window.left) + u64::from(entry.x) + last_of(head.width);
    let bottom = u64::from(window.top) + u64::from(entry.y) + last_of(head.height);
    right > u64::from(window.right) || bottom > u64::from(window.bottom)
}

/// The last of so many places, counted from 0.
fn last_of(count: u16) -> u64
    ensures { result ≡ count - 1 }
{
    u64::from(count.saturating_sub(1))
}
