ghost use Rattle.std.specs.Prelude.{◌≡◌, ℕ, ◌+◌, ◌-◌, ◌++◌, ◌≤◌, nat_le, true, false, length, filter, IfOk, OnOk, map};
ghost use Rattle.std.specs.List.{slice_range};
ghost use Rattle.std.specs.List.Sorted.{IsNonDecreasing, IsNonDecreasingBy, IsPartitionPoint, IsStrictlyIncreasing};
ghost use Rattle.cue_records.specs.declared.limits.TheConstants.{MOST_CUES};
ghost use Rattle.page_epoch.specs.Live.{cue_at, times, AreStarts};
ghost use Rattle.cue_list.specs.Authored.{is_live as is_live_by};

use cue_list::Cue;
use std::alloc::{AllocError, Global};
use sub_base::Items;

/// A cue of a region: the tick at which it starts, and its place.
#[derive(Clone, Copy, Debug)]
pub struct CueStart {
    /// The tick at which the cue starts.
    pub tick: u64,
    /// Its index in the epoch's list of cues.
    pub place: u32,
}

/// Whether the cue at a place is shown at a tick.
fn is_live_at(cues: &[Cue], place: u32, tick: u64) -> bool
    ensures { result ≡ is_live_by tick (cue_at cues.now place) }
{
    match cues.get(place as usize) {
        Some(cue) => cue.is_live_at(tick),
        // No place comes here that has no cue.
        None => false,
    }
}

/// The cues of a region, in order of their starts.
pub fn starts_of(alloc: Global, cues: &[Cue], region: u8) -> Result<Items<CueStart>, AllocError>
    requires few { length cues.now ≤ MOST_CUES }
    ensures { IfOk result (AreStarts cues.now region) }
{
    let mut starts = Vec::new(alloc);
    for (place, cue) in cues.iter().enumerate() {
        if cue.region == region {
            starts.push(CueStart {
                tick: cue.start,
                place: place as u32,
            })?;
        }
    }
    starts.sort_by_key(|start| start.tick)?;
    Ok(Items::new(alloc, starts))
}

/// How many of these cues, which are in order of their starts, have started by a tick.
pub fn count_started(starts: &[CueStart], tick: u64) -> usize
    ensures few { result ≤ length starts.now }
    ensures point { IsNonDecreasingBy (λ start. start.tick) starts.now
        → IsPartitionPoint (λ start. nat_le start.tick tick ≡ true)
        (λ start. nat_le start.tick tick ≡ false) starts.now result }
{
    starts.partition_point(|start| start.tick <= tick)
}

/// The cues of these that are live at a tick.
fn live_of(alloc: Global, cues: &[Cue], places: &[u32], tick: u64) -> Result<Vec<u32>, AllocError>
    ensures { IfOk result
        (λ live. live.items
        ≡ filter (λ place. is_live_by tick (cue_at cues.now place)) places.now) }
{
    let mut live = Vec::new(alloc);
    for place in places {
        if is_live_at(cues, *place, tick) {
            live.push(*place)?;
        }
    }
    Ok(live)
}

/// Appends the cues of these that are live at a tick.
fn push_live(
    live: &mut Vec<u32>,
    cues: &[Cue],
    starts: &[CueStart],
    tick: u64,
) -> Result<(), AllocError>
    ensures { OnOk result
        (live.new.items ≡ live.old.items
        ++ filter (λ place. is_live_by tick (cue_at cues.now place))
        (map (λ start. start.place) starts.now)) }
{
    for start in starts {
        if is_live_at(cues, start.place, tick) {
            live.push(start.place)?;
        }
    }
    Ok(())
}

/// The live cues of a region at a tick, from those at an earlier one: which of them stay, and which
/// of the cues that started since are live.
pub fn live_after(
    alloc: Global,
    cues: &[Cue],
    starts: &[CueStart],
    old: &[u32],
    before: usize,
    started: usize,
    tick: u64,
) -> Result<Items<u32>, AllocError>
    requires few { started ≤ length starts.now }
    ensures same { (place : ℕ)
        → IfOk result
        (λ live. times place live
        ≡ times place (filter (λ place. is_live_by tick (cue_at cues.now place)) old.now)
        + times place
        (filter (λ place. is_live_by tick (cue_at cues.now place))
        (map (λ start. start.place) (slice_range starts.now before started)))) }
    ensures order { IsStrictlyIncreasing old.now → IfOk result IsNonDecreasing }
    ensures few { IfOk result (λ live. length live ≤ length old.now + (started - before)) }
{
    let mut live = live_of(alloc, cues, old, tick)?;
    if before < started {
        push_live(&mut live, cues, &starts[before..started], tick)?;
        // Cues are drawn in the script's order, and not in that of their starts.
        live.sort()?;
    }
    Ok(Items::new(alloc, live))
}
