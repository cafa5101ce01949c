ghost use Rattle.std.specs.Prelude.{◌≡◌, ℕ, ◌+◌, ◌++◌, ◌==◌, ◌<◌, ◌≤◌, nat_le, true, false, List, [], length, take, filter, All, IfOk, OnOk, Some, None, if◌then◌else◌, slice_index_or as get_or};
ghost use Rattle.std.specs.List.{flat_map};
ghost use Rattle.std.specs.List.Sorted.{IsNonDecreasingBy, IsPartitionPoint};
ghost use Rattle.std.specs.Option.{option_to_list};
ghost use Rattle.cue_records.specs.declared.row_values.ColourRow.{ColourRow};
ghost use Rattle.cue_records.specs.declared.limits.TheConstants.{MOST_COLOURS};
ghost use Rattle.page_epoch.specs.declared.clut_rows.Entry.{Entry};
ghost use Rattle.page_epoch.specs.SentCluts.{row_at, entries_at, all_entries as entries_of, rows_of_clut as clut_rows_of, is_of_entry as is_of};
ghost use Rattle.page_epoch.specs.Private.Changes.{first_of, current_of, AreInOrder};

use cue_list::ColourRow;
use std::alloc::{AllocError, Global};
use sub_base::{Depth, Items};

/// An entry of a CLUT: the depth of its pixel codes, and its number.
#[derive(Clone, Copy, Debug, PartialEq, Eq)]
pub struct Entry {
    /// The depth whose table has it.
    pub depth: Depth,
    /// Its number, below the codes of the depth.
    pub number: u8,
}

/// Appends the entries of a depth.
fn push_entries(entries: &mut Vec<Entry>, depth: Depth) -> Result<(), AllocError>
    ensures { OnOk result (entries.new.items ≡ entries.old.items ++ entries_at depth) }
{
    for number in 0..depth.code_count() {
        entries.push(Entry {
            depth,
            number: number as u8,
        })?;
    }
    Ok(())
}

/// The entries of a CLUT, by depth and number.
pub fn all_entries(alloc: Global) -> Result<Items<Entry>, AllocError>
    ensures { IfOk result (λ entries. entries ≡ entries_of) }
{
    let mut entries = Vec::new(alloc);
    push_entries(&mut entries, Depth::Two)?;
    push_entries(&mut entries, Depth::Four)?;
    push_entries(&mut entries, Depth::Eight)?;
    Ok(Items::new(alloc, entries))
}

/// The places of the rows of a CLUT.
pub fn rows_of_clut(
    alloc: Global,
    colours: &[ColourRow],
    clut: u8,
) -> Result<Items<u32>, AllocError>
    requires few { length colours.now ≤ MOST_COLOURS }
    ensures { IfOk result (λ own. own ≡ clut_rows_of colours.now clut) }
{
    let mut own = Vec::new(alloc);
    for (place, row) in colours.iter().enumerate() {
        if row.clut == clut {
            own.push(place as u32)?;
        }
    }
    Ok(Items::new(alloc, own))
}

/// The tick of the row at a place.
fn tick_of(colours: &[ColourRow], place: u32) -> u64
    ensures { result ≡ (row_at colours.now place).tick }
{
    match colours.get(place as usize) {
        Some(row) => row.tick,
        // No place comes here that has no row; the sort's key has to answer all the same.
        None => 0,
    }
}

/// These rows in order of their ticks, and rows of one tick in the order that they have.
pub fn in_order(alloc: Global, colours: &[ColourRow], own: &[u32]) -> Result<Vec<u32>, AllocError>
    ensures { IfOk result (λ rows. AreInOrder colours.now own.now rows.items) }
{
    let mut rows = Vec::from_slice(alloc, own)?;
    // The sort is stable, so that of rows with one tick the later one in the script stays later,
    // and counts.
    rows.sort_by_key(|place| tick_of(colours, *place))?;
    Ok(rows)
}

/// How many of these rows, which are in order of their ticks, have come by a tick.
pub fn rows_by(colours: &[ColourRow], rows: &[u32], tick: u64) -> usize
    ensures few { result ≤ length rows.now }
    ensures point { IsNonDecreasingBy (λ place. (row_at colours.now place).tick) rows.now
        → IsPartitionPoint (λ place. nat_le (row_at colours.now place).tick tick ≡ true)
        (λ place. nat_le (row_at colours.now place).tick tick ≡ false) rows.now result }
{
    rows.partition_point(|place| tick_of(colours, *place) <= tick)
}

/// The current rows of entries before the first change: none.
pub fn no_rows(alloc: Global, entries: &[Entry]) -> Result<Vec<Option<u32>>, AllocError>
    ensures { IfOk result
        (λ current. (colours : List ColourRow)
        → current.items ≡ current_of colours entries.now []) }
{
    let mut current = Vec::new(alloc);
    for _entry in entries {
        current.push(None)?;
    }
    Ok(current)
}

/// How many entries come before those of a depth.
fn first_entry(depth: Depth) -> usize
    ensures { result ≡ first_of depth }
{
    match depth {
        Depth::Two => 0,
        Depth::Four => 4,
        Depth::Eight => 20,
    }
}

/// Makes a row the current one of its entry.
fn note(current: &mut Vec<Option<u32>>, row: &ColourRow, place: u32)
    requires { length current.old.items ≡ 276 }
    ensures long { length current.new.items ≡ length current.old.items }
    ensures each { (k : ℕ) (d : Entry) → k < length entries_of
        → get_or current.new.items k None
        ≡ (if is_of (get_or entries_of k d) row.now then Some place
        else get_or current.old.items k None) }
{
    // Each row of a script is such: the test is here so that nothing has to be asked of the rows.
    if u16::from(row.entry) < row.depth.code_count() {
        current[first_entry(row.depth) + row.entry as usize] = Some(place);
    }
}

/// Applies the rows behind the first `applied` up to `next`, in order of their ticks: of an entry's
/// rows the later one counts.
pub fn take_in(
    current: &mut Vec<Option<u32>>,
    colours: &[ColourRow],
    rows: &[u32],
    applied: usize,
    next: usize,
)
    requires within { All (λ place. place < length colours.now) rows.now }
    requires rows { IsNonDecreasingBy (λ place. (row_at colours.now place).tick) rows.now }
    requires order { applied ≤ next }
    requires few { next ≤ length rows.now }
    requires current { current.old.items
        ≡ current_of colours.now entries_of (take applied rows.now) }
    ensures { current.new.items ≡ current_of colours.now entries_of (take next rows.now) }
{
    for i in applied..next {
        note(current, &colours[rows[i] as usize], rows[i]);
    }
}

/// The rows that there are among the current ones.
pub fn defined_rows(alloc: Global, current: &[Option<u32>]) -> Result<Items<u32>, AllocError>
    ensures { IfOk result (λ rows. rows ≡ flat_map option_to_list current.now) }
{
    // Counted first, so that the list is as long as it needs to be: there is one for each change of
    // a CLUT.
    let count = current.iter().flatten().count();
    let mut rows = Vec::with_capacity(alloc, count)?;
    for found in current {
        if let Some(place) = found {
            rows.push(*place)?;
        }
    }
    Ok(Items::new(alloc, rows))
}

/// The rows of these that have that tick.
pub fn rows_of_tick(
    alloc: Global,
    colours: &[ColourRow],
    rows: &[u32],
    tick: u64,
) -> Result<Items<u32>, AllocError>
    requires { All (λ place. place < length colours.now) rows.now }
    ensures { IfOk result
        (λ found. found ≡ filter (λ place. (row_at colours.now place).tick == tick) rows.now) }
{
    let mut found = Vec::new(alloc);
    for place in rows {
        if colours[*place as usize].tick == tick {
            found.push(*place)?;
        }
    }
    Ok(Items::new(alloc, found))
}
