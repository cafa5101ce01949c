ghost use Rattle.std.specs.Prelude.{◌≡◌, ◌==◌, ◌<◌, ◌≤◌, nat_le, true, false, length, map, All, IfOk};
ghost use Rattle.std.specs.List.{list_any};
ghost use Rattle.std.specs.List.Sorted.{IsNonDecreasingBy, IsPartitionPoint, IsStrictlyIncreasing};
ghost use Rattle.cue_records.specs.declared.limits.TheConstants.{MOST_COLOURS};
ghost use Rattle.page_epoch.specs.SentCluts.{row_at, all_entries as entries_of, named_cluts};
ghost use Rattle.page_epoch.specs.Private.Changes.{change_at, AreTicksOf, AreChanges};

use crate::clut_rows::{
    Entry, all_entries, defined_rows, in_order, no_rows, rows_by, rows_of_clut, take_in,
};
use cue_list::ColourRow;
use std::alloc::{AllocError, Global};
use sub_base::Items;

/// A tick at which colours of a CLUT change.
#[derive(Drop)]
pub struct Change {
    /// The tick.
    pub tick: u64,
    /// The rows that give the entries of the CLUT their colours from then on, by depth and entry.
    pub rows: Items<u32>,
}

/// A CLUT and its changes, in order.
#[derive(Drop)]
pub struct ClutChanges {
    /// The number of the CLUT.
    pub clut: u8,
    /// Its changes, one for each tick that sets an entry of it.
    pub changes: Items<Change>,
}

/// The ticks of these rows, each once and in order.
fn ticks_of(alloc: Global, colours: &[ColourRow], own: &[u32]) -> Result<Vec<u64>, AllocError>
    requires { All (λ place. place < length colours.now) own.now }
    ensures { IfOk result (λ ticks. AreTicksOf colours.now own.now ticks.items) }
{
    let mut ticks = Vec::new(alloc);
    for place in own {
        ticks.push(colours[*place as usize].tick)?;
    }
    ticks.sort()?;
    ticks.dedup();
    Ok(ticks)
}

/// The changes of a CLUT at these ticks, from its rows in order of theirs: each row is taken in
/// once.
fn changes_at(
    alloc: Global,
    colours: &[ColourRow],
    entries: &[Entry],
    rows: &[u32],
    ticks: &[u64],
) -> Result<Items<Change>, AllocError>
    requires entries { entries.now ≡ entries_of }
    requires within { All (λ place. place < length colours.now) rows.now }
    requires rows { IsNonDecreasingBy (λ place. (row_at colours.now place).tick) rows.now }
    requires ticks { IsStrictlyIncreasing ticks.now }
    ensures { IfOk result
        (λ changes. changes ≡ map (change_at colours.now entries_of rows.now) ticks.now) }
{
    let mut current = no_rows(alloc, entries)?;
    let mut applied = 0;
    let mut changes = Vec::new(alloc);
    for tick in ticks {
        // Rows are in order of their ticks, so each is applied once, at the first tick that has it.
        let next = rows_by(colours, rows, *tick);
        take_in(&mut current, colours, rows, applied, next);
        changes.push(Change {
            tick: *tick,
            rows: defined_rows(alloc, &current)?,
        })?;
        applied = next;
    }
    Ok(Items::new(alloc, changes))
}

/// A CLUT and its changes.
fn changes_of(
    alloc: Global,
    colours: &[ColourRow],
    entries: &[Entry],
    clut: u8,
) -> Result<ClutChanges, AllocError>
    requires few { length colours.now ≤ MOST_COLOURS }
    requires entries { entries.now ≡ entries_of }
    ensures clut { IfOk result (λ changes. changes.clut ≡ clut) }
    ensures changes { IfOk result (AreChanges colours.now) }
{
    let own = rows_of_clut(alloc, colours, clut)?;
    let rows = in_order(alloc, colours, own.as_slice())?;
    let ticks = ticks_of(alloc, colours, own.as_slice())?;
    let changes = changes_at(alloc, colours, entries, &rows, &ticks)?;
    Ok(ClutChanges { clut, changes })
}

/// Whether some row is of the CLUT.
fn is_named(colours: &[ColourRow], clut: u8) -> bool
    ensures { result ≡ list_any (λ row. row.clut == clut) colours.now }
{
    colours.iter().any(|row| row.clut == clut)
}

/// How many numbers of CLUTs there are.
const CLUTS: u32 = 256;

/// The CLUTs that colour rows name, and their changes, by their numbers.
pub fn all_changes(alloc: Global, colours: &[ColourRow]) -> Result<Items<ClutChanges>, AllocError>
    requires { length colours.now ≤ MOST_COLOURS }
    ensures named { IfOk result
        (λ cluts. map (λ clut. clut.clut) cluts ≡ named_cluts colours.now) }
    ensures changes { IfOk result (All (AreChanges colours.now)) }
{
    let entries = all_entries(alloc)?;
    let mut cluts = Vec::new(alloc);
    // By number, as sets send them; a CLUT that no row names keeps its default colours and is not
    // sent.
    for clut in 0..CLUTS {
        if is_named(colours, clut as u8) {
            cluts.push(changes_of(alloc, colours, entries.as_slice(), clut as u8)?)?;
        }
    }
    Ok(Items::new(alloc, cluts))
}

/// How many of these changes, which are in order, have come by a tick.
pub fn changes_by(changes: &[Change], tick: u64) -> usize
    ensures few { result ≤ length changes.now }
    ensures point { IsNonDecreasingBy (λ change. change.tick) changes.now
        → IsPartitionPoint (λ change. nat_le change.tick tick ≡ true)
        (λ change. nat_le change.tick tick ≡ false) changes.now result }
{
    changes.partition_point(|change| change.tick <= tick)
}
