ghost use Rattle.std.specs.Prelude.{◌≡◌, ℕ, ◌+◌, ◌≤◌, true, length, ◌∷◌, ◌++◌, All, IfOk, OnOk, List};
ghost use Rattle.std.specs.Option.{option_to_list};
ghost use Rattle.std.specs.List.{flat_map};
ghost use Rattle.cue_records.specs.declared.limits.TheConstants.{MOST_CUES};
ghost use Rattle.page_epoch.specs.Live.{started_by, live_places, AreStarts};
ghost use Rattle.page_epoch.specs.EpochStates.{region_after, region_state, region_states, is_first, IsReachedBy, AreOwn, IsSmallRegionState};
ghost use Rattle.page_epoch.specs.SentRegions.{is_redrawn as is_redrawn_of, is_extended as is_extended_of, region_from, sent_region};

use crate::live::{CueStart, count_started, live_after};
use crate::planned_set::SentRegion;
use cue_list::Cue;
use std::alloc::{AllocError, Global};
use sub_base::Items;

/// A region and the cues that it shows, in order of their starts.
#[derive(Drop)]
pub struct RegionCues {
    /// The number of the region.
    pub id: u8,
    /// Its cues, in order of their starts.
    pub starts: Items<CueStart>,
}

/// A region at an instant.
#[derive(Drop)]
pub struct RegionState {
    /// The cues that are live, by their places.
    pub live: Items<u32>,
    /// How many cues have started.
    pub started: usize,
    /// The version of the region, 0 to 15.
    pub version: u8,
    /// How many cues were live at the latest instant at which some were.
    pub drawn_count: u64,
}

impl RegionState {
    /// The region at the next instant, or at the first one of its epoch, where so many cues have
    /// started, and these are live.
    pub fn after(&self, first: bool, started: usize, new: Items<u32>) -> RegionState
        requires small { IsSmallRegionState self.now }
        requires live { length new ≤ started }
        requires few { started ≤ MOST_CUES }
        ensures next { result ≡ region_after first self.now started new }
        ensures small { IsSmallRegionState result }
    {
        // Versions are 0 at the first instant, at which all is new to a receiver.
        let redrawn = !first && is_redrawn(self.live.as_slice(), new.as_slice());
        let version = if redrawn {
            (self.version + 1) % 16
        } else {
            self.version
        };
        // A region that goes empty is not drawn again: the receiver keeps its listings, and the
        // nodes of these.
        let drawn_count = if new.len() == 0 {
            self.drawn_count
        } else {
            new.len() as u64
        };
        RegionState {
            live: new,
            started,
            version,
            drawn_count,
        }
    }
}

/// The regions of an epoch at the next instant, and those that its set sends.
#[derive(Drop)]
pub struct RegionSteps {
    /// All regions of the layout, in its order.
    pub states: Items<RegionState>,
    /// Those that the set sends.
    pub sent: Items<SentRegion>,
}

/// Takes the regions of an epoch to its next instant, or to its first one.
pub fn step_regions(
    alloc: Global,
    cues: &[Cue],
    regions: &[RegionCues],
    states: &[RegionState],
    tick: u64,
    first: bool,
    whole: bool,
) -> Result<RegionSteps, AllocError>
    requires few { length cues.now ≤ MOST_CUES }
    requires own { AreOwn cues.now regions.now }
    requires long { length states.now ≡ length regions.now }
    requires small { All IsSmallRegionState states.now }
    ensures states { (seen : List ℕ) → first ≡ is_first seen
        → states.now ≡ region_states cues.now seen regions.now → IsReachedBy seen tick
        → IfOk result
        (λ steps. steps.states ≡ region_states cues.now (tick ∷ seen) regions.now) }
    ensures sent { (seen : List ℕ) → first ≡ is_first seen
        → states.now ≡ region_states cues.now seen regions.now → IsReachedBy seen tick
        → IfOk result
        (λ steps. steps.sent
        ≡ flat_map (λ region. sent_region cues.now whole (tick ∷ seen) region.id)
        regions.now) }
    ensures long { IfOk result (λ steps. length steps.states ≡ length regions.now) }
    ensures small { IfOk result (λ steps. All IsSmallRegionState steps.states) }
{
    let mut stepped = Vec::new(alloc);
    let mut sent = Vec::new(alloc);
    for (i, region) in regions.iter().enumerate() {
        let current = &states[i];
        let next = step_region(alloc, cues, region, current, tick, first)?;
        let found = send_region(
            alloc,
            region.id,
            next.version,
            whole,
            current.live.as_slice(),
            next.live.as_slice(),
        )?;
        push_some(&mut sent, found)?;
        stepped.push(next)?;
    }
    Ok(RegionSteps {
        states: Items::new(alloc, stepped),
        sent: Items::new(alloc, sent),
    })
}

/// Takes a region to the next instant, or to the first one of its epoch. A cue that has started
/// stays so.
fn step_region(
    alloc: Global,
    cues: &[Cue],
    region: &RegionCues,
    current: &RegionState,
    tick: u64,
    first: bool,
) -> Result<RegionState, AllocError>
    requires few { length cues.now ≤ MOST_CUES }
    requires own { AreStarts cues.now region.now.id region.now.starts }
    requires small { IsSmallRegionState current.now }
    ensures next { (seen : List ℕ) → current.now ≡ region_state cues.now seen region.now.id
        → IsReachedBy seen tick
        → IfOk result
        (λ next. next
        ≡ region_after first current.now (started_by cues.now region.now.id tick)
        (live_places cues.now region.now.id tick)) }
    ensures small { IfOk result IsSmallRegionState }
{
    let starts = region.starts.as_slice();
    let started = count_started(starts, tick);
    let old = current.live.as_slice();
    let live = live_after(alloc, cues, starts, old, current.started, started, tick)?;
    // No fewer have begun than at the instant before, whatever the tick: the region then keeps its
    // bounds.
    Ok(current.after(first, started.max(current.started), live))
}

/// Puts what was found last, if something was.
pub fn push_some<T: Drop>(items: &mut Vec<T>, found: Option<T>) -> Result<(), AllocError>
    ensures { OnOk result (items.new.items ≡ items.old.items ++ option_to_list found) }
{
    if let Some(item) = found {
        items.push(item)?;
    }
    Ok(())
}

/// Whether a region rises: its live cues changed, and it has some.
pub fn is_redrawn(old: &[u32], new: &[u32]) -> bool
    ensures { result ≡ is_redrawn_of old.now new.now }
{
    // An empty region leaves the page and is not sent.
    old != new && !new.is_empty()
}

/// Whether new cues were put behind old ones that stay.
pub fn is_extended(old: &[u32], new: &[u32]) -> bool
    ensures value { result ≡ is_extended_of old.now new.now }
    ensures longer { result ≡ true → length old.now ≤ length new.now }
{
    // Later cues lie over earlier ones, so new ones behind the old ones can be drawn over what is
    // there. Over an empty region nothing is kept: what is in it are the cues that it had last.
    !old.is_empty() && old.len() < new.len() && new.starts_with(old)
}

/// A region as a set sends it, if it does.
pub fn send_region(
    alloc: Global,
    id: u8,
    version: u8,
    whole: bool,
    old: &[u32],
    new: &[u32],
) -> Result<Option<SentRegion>, AllocError>
    ensures { IfOk result
        (λ sent. option_to_list sent ≡ region_from id version whole old.now new.now) }
{
    // At a set at which a receiver may begin all regions are sent, the empty ones with them: it has
    // to know every region of the epoch, as normal sets send no region for the first time.
    if !whole && !is_redrawn(old, new) {
        return Ok(None);
    }
    let keeps = !whole && is_extended(old, new);
    let cues = if keeps { &new[old.len()..] } else { new };
    Ok(Some(SentRegion {
        id,
        version,
        // Without a fill a receiver draws over the codes that it has.
        fill: !keeps,
        cues: Items::new(alloc, Vec::from_slice(alloc, cues)?),
    }))
}
