ghost use Rattle.std.specs.Prelude.{◌≡◌, ◌==◌, ◌&&◌, ◌≢◌, ◌↔◌, ℕ, ◌+◌, ◌*◌, ◌<◌, ◌≤◌, List, [], length, slice_index, IsTrue, option_map};
ghost use Rattle.sub_base.specs.Depth.{code_count};
ghost use Rattle.cue_list.specs.Authored.{authored_picture, picture_at_place, epoch_at as epoch_at_tick, is_live as is_live_at, live_cues};
ghost use Rattle.sub_base.specs.declared.colour.Colour.{Colour};
ghost use Rattle.cue_list.specs.Planes.{IsBlank, HasLive, SetsRow, SetsAll, FitsIn, PaintsRows, FillsRows, PaintsRegion, AreEntriesBy, AreCuesOf, ArePaintable, ShowsRegions, HasDefaults, colour_of, sets_clut as sets_clut_by};

use crate::epoch::{Cue, Epoch};
use crate::script::Script;
use cue_records::{ColourRow, Region};
use indexed_picture::Indexed;
use sub_base::{CLEAR, Colour, Depth, default_colour};

/// Makes the plane the authored picture of a script at a tick: its colours by rows, from the top
/// and from the left.
pub fn picture_at(script: &Script, tick: u64, plane: &mut [Colour])
    requires { length plane.old ≡ script.now.width * script.now.height }
    ensures { plane.new
        ≡ authored_picture script.now.width script.now.height script.now.epochs
        script.now.pictures
        tick }
{
    clear_plane(plane);
    if let Some(epoch) = epoch_at(script.epochs.as_slice(), tick) {
        paint_regions(plane, script, epoch, epoch.regions.as_slice(), tick);
    }
}

/// Paints the regions of an epoch on a clear plane.
fn paint_regions(
    plane: &mut [Colour],
    script: &Script,
    epoch: &Epoch,
    regions: &[Region],
    tick: u64,
)
    requires plane { length plane.old ≡ script.now.width * script.now.height }
    requires blank { IsBlank plane.old }
    requires regions { ArePaintable script.now.width script.now.height script.now.pictures
        epoch.now.cues regions.now }
    ensures { ShowsRegions script.now.pictures epoch.now regions.now tick script.now.width
        script.now.height plane.new }
{
    for region in regions {
        paint_region(plane, script, epoch, *region, tick);
    }
}

fn clear_plane(plane: &mut [Colour])
    ensures { IsBlank plane.new }
{
    for place in plane.iter_mut() {
        *place = CLEAR;
    }
}

/// The last epoch that has started at a tick.
fn epoch_at(epochs: &[Epoch], tick: u64) -> Option<&Epoch>
    ensures { option_map (λ epoch. epoch.now) result ≡ epoch_at_tick epochs.now tick }
{
    let mut last = None;
    for epoch in epochs {
        // Epochs are in order of their starts.
        if epoch.start <= tick {
            last = Some(epoch);
        }
    }
    last
}

/// Whether a cue of the region is live at a tick.
fn has_live_cue(cues: &[Cue], region: u8, tick: u64) -> bool
    ensures { IsTrue result ↔ (live_cues cues.now region tick ≢ []) }
{
    for cue in cues {
        if is_live_in(cue, region, tick) {
            return true;
        }
    }
    false
}

/// Whether a cue is one of the region, and live at a tick.
fn is_live_in(cue: &Cue, region: u8, tick: u64) -> bool
    ensures { result ≡ ((cue.now.region == region) && is_live_at tick cue.now) }
{
    cue.region == region && cue.is_live_at(tick)
}

/// The colours of all entries of a CLUT at a depth, by a tick. Of rows that set the same entry, the
/// one with the latest tick counts, and among equal ticks the last.
fn entries_at(colours: &[ColourRow], clut: u8, depth: Depth, tick: u64) -> [Colour; 256]
    ensures { AreEntriesBy colours.now clut depth tick result }
{
    let mut entries = default_entries(depth);
    let mut ticks = no_ticks();
    for row in colours {
        if sets_clut(row, clut, depth, tick) {
            put_row(&mut entries, &mut ticks, row);
        }
    }
    entries
}

/// Whether a row sets an entry of a CLUT at a depth, by a tick.
fn sets_clut(row: &ColourRow, clut: u8, depth: Depth, tick: u64) -> bool
    ensures { result ≡ sets_clut_by clut depth tick row.now }
{
    row.clut == clut && row.depth.bits() == depth.bits() && row.tick <= tick
}

fn no_ticks() -> [u64; 256]
    ensures { (entry : ℕ) → slice_index result entry ≡ 0 }
{
    // No tick is before 0, so the first row of an entry always counts.
    [0; 256]
}

/// Gives an entry the colour of a row, but where a row with a later tick has given it one.
fn put_row(entries: &mut [Colour; 256], ticks: &mut [u64; 256], row: &ColourRow)
    ensures same { (entry : ℕ) → (row.now.entry ≡ entry → ⊥)
        → (colour_of entries.new entry ≡ colour_of entries.old entry)
        × (slice_index ticks.new entry ≡ slice_index ticks.old entry) }
    ensures put { (entry : ℕ) → row.now.entry ≡ entry
        → slice_index ticks.old entry ≤ row.now.tick
        → (colour_of entries.new entry ≡ row.now.colour)
        × (slice_index ticks.new entry ≡ row.now.tick) }
    ensures kept { (entry : ℕ) → row.now.entry ≡ entry
        → row.now.tick < slice_index ticks.old entry
        → (colour_of entries.new entry ≡ colour_of entries.old entry)
        × (slice_index ticks.new entry ≡ slice_index ticks.old entry) }
{
    let entry = usize::from(row.entry);
    // Rows are in the script's order, so that of equal ticks the later row counts.
    if ticks[entry] <= row.tick {
        ticks[entry] = row.tick;
        entries[entry] = row.colour;
    }
}

fn default_entries(depth: Depth) -> [Colour; 256]
    ensures { HasDefaults depth (code_count depth) result }
{
    let mut entries = [CLEAR; 256];
    for code in 0..depth.code_count() {
        entries[usize::from(code)] = default_colour(depth, code as u8);
    }
    entries
}

/// Paints a region: where a cue is live in it, all of the region in the colours of its codes.
fn paint_region(plane: &mut [Colour], script: &Script, epoch: &Epoch, region: Region, tick: u64)
    requires plane { length plane.old ≡ script.now.width * script.now.height }
    requires across { region.x + region.width ≤ script.now.width }
    requires down { region.y + region.height ≤ script.now.height }
    requires cues { AreCuesOf script.now.pictures region epoch.now.cues }
    ensures { PaintsRegion script.now.pictures epoch.now region tick script.now.width
        script.now.height plane.old plane.new }
{
    let cues = epoch.cues.as_slice();
    // Such a region is not on the page, and the video is seen there.
    if !has_live_cue(cues, region.id, tick) {
        return;
    }
    let entries = entries_at(epoch.colours.as_slice(), region.clut, region.depth, tick);
    fill_rows(plane, script.width, region, background(&entries));
    paint_live_cues(plane, script, region, cues, tick, &entries);
}

/// Paints the live cues of a region, in order.
fn paint_live_cues(
    plane: &mut [Colour],
    script: &Script,
    region: Region,
    cues: &[Cue],
    tick: u64,
    entries: &[Colour; 256],
)
    requires plane { length plane.old ≡ script.now.width * script.now.height }
    requires across { region.x + region.width ≤ script.now.width }
    requires down { region.y + region.height ≤ script.now.height }
    requires cues { AreCuesOf script.now.pictures region cues.now }
    ensures { (before : List Colour)
        → HasLive script.now.pictures entries.now region [] script.now.width script.now.height
        before plane.old
        → HasLive script.now.pictures entries.now region (live_cues cues.now region.id tick)
        script.now.width script.now.height before plane.new }
{
    for cue in cues {
        if is_live_in(cue, region.id, tick) {
            paint_cue(plane, script, region, cue, entries);
        }
    }
}

/// The colour of code 0, with which a region is filled.
fn background(entries: &[Colour; 256]) -> Colour
    ensures { result ≡ colour_of entries.now 0 }
{
    entries[0]
}

/// Paints a cue's picture in its region.
fn paint_cue(
    plane: &mut [Colour],
    script: &Script,
    region: Region,
    cue: &Cue,
    entries: &[Colour; 256],
)
    requires plane { length plane.old ≡ script.now.width * script.now.height }
    requires across { region.x + region.width ≤ script.now.width }
    requires down { region.y + region.height ≤ script.now.height }
    requires fits { FitsIn script.now.pictures region cue.now }
    ensures { PaintsRows entries.now (picture_at_place script.now.pictures cue.now.picture)
        (region.x + cue.now.x) (region.y + cue.now.y) cue.now.see_through script.now.width
        script.now.height (picture_at_place script.now.pictures cue.now.picture).height plane.old
        plane.new }
{
    let picture = &script.pictures.as_slice()[cue.picture as usize];
    let left = usize::from(region.x) + usize::from(cue.x);
    let top = usize::from(region.y) + usize::from(cue.y);
    paint_rows(
        plane,
        usize::from(script.width),
        left,
        top,
        picture,
        cue.see_through,
        entries,
    );
}

/// Paints a picture with its upper left corner at a place of a plane of that width.
fn paint_rows(
    plane: &mut [Colour],
    width: usize,
    left: usize,
    top: usize,
    picture: &Indexed,
    see_through: bool,
    entries: &[Colour; 256],
)
    requires across { left + picture.now.width ≤ width }
    requires down { (top + picture.now.height) * width ≤ length plane.old }
    ensures { (height : ℕ)
        → PaintsRows entries.now picture.now left top see_through width height picture.now.height
        plane.old plane.new }
{
    for row in 0..picture.height() {
        let start = (top + usize::from(row)) * width + left;
        paint_row(plane, start, picture.row(row), see_through, entries);
    }
}

/// Paints a row of codes on a plane, from a place on.
fn paint_row(
    plane: &mut [Colour],
    start: usize,
    codes: &[u8],
    see_through: bool,
    entries: &[Colour; 256],
)
    requires { start + length codes.now ≤ length plane.old }
    ensures { SetsRow entries.now codes.now start see_through plane.old plane.new }
{
    for (place, code) in codes.iter().enumerate() {
        // The non-modifying colour of EN 300 743 is code 1 as the picture has it, before any map
        // table.
        if !(see_through && *code == 1) {
            plane[start + place] = entries[usize::from(*code)];
        }
    }
}

/// Gives all places of a region one colour.
fn fill_rows(plane: &mut [Colour], width: u16, region: Region, colour: Colour)
    requires across { region.x + region.width ≤ width }
    requires down { (region.y + region.height) * width ≤ length plane.old }
    ensures { (height : ℕ)
        → FillsRows colour region width height region.height plane.old plane.new }
{
    for row in 0..region.height {
        let start = (usize::from(region.y) + usize::from(row)) * usize::from(width)
            + usize::from(region.x);
        fill_row(plane, start, usize::from(region.width), colour);
    }
}

fn fill_row(plane: &mut [Colour], start: usize, count: usize, colour: Colour)
    requires { start + count ≤ length plane.old }
    ensures { SetsAll colour start count plane.old plane.new }
{
    for place in start..start + count {
        plane[place] = colour;
    }
}
