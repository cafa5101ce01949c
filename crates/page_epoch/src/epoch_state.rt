ghost use Rattle.std.specs.Prelude.{◌≡◌, ℕ, ◌<◌, ◌≤◌, List, [], length, map, All, IfOk};
ghost use Rattle.cue_list.specs.declared.epoch.Epoch.{Epoch as EpochValue};
ghost use Rattle.cue_records.specs.declared.limits.TheConstants.{MOST_EPOCHS};
ghost use Rattle.stream_syntax.specs.Segments.{is_entry_state as is_entry_state_of};
ghost use Rattle.page_epoch.specs.EpochStates.{first_region_state};
ghost use Rattle.page_epoch.specs.Private.Layouts.{IsLayout};
ghost use Rattle.page_epoch.specs.EpochWalks.{IsSmallEpoch, IsEpochState, IsSafe, IsTimely, IsSetOf, IsAdvanced, IsEpochWalk, WalkGoesOn};

use crate::clut_changes::ClutChanges;
use crate::clut_step::step_cluts;
use crate::instants::Instant;
use crate::layout::{Layout, drawn_count, listed_cues_of, shown_ids};
use crate::planned_set::PlannedSet;
use crate::region_state::{RegionCues, RegionState, step_regions};
use cue_list::Epoch;
use std::alloc::{AllocError, Global};
use stream_syntax::State;
use sub_base::Items;

/// What changes in an epoch from instant to instant.
#[derive(Drop)]
pub struct EpochState {
    /// The regions, in order of their numbers.
    pub regions: Items<RegionState>,
    /// The versions of the CLUTs that changed so far.
    pub versions: Items<Option<u8>>,
    /// True until the epoch's first instant.
    pub first: bool,
}

/// Where the walk over the instants stands: the place of the epoch in the script, what stays in it,
/// and what changes.
#[derive(Drop)]
pub struct EpochWalk {
    /// The index of the epoch in the script.
    pub place: u32,
    /// What stays in it.
    pub layout: Layout,
    /// What changes in it.
    pub current: EpochState,
}

/// What a set is, whatever it carries of its epoch.
#[derive(Clone, Copy, Debug)]
pub struct SetHead {
    /// Its instant.
    pub instant: Instant,
    /// Its page state.
    pub state: State,
    /// The version of its page, 0 to 15.
    pub page_version: u8,
    /// The index of its epoch in the script.
    pub place: u32,
}

/// An epoch one instant on, the set of that instant, and the nodes that the set needs.
#[derive(Drop)]
pub struct EpochStep {
    /// The epoch one instant on.
    pub current: EpochState,
    /// The set of that instant.
    pub set: PlannedSet,
    /// The nodes that a receiver holds behind the set.
    pub nodes: u64,
}

/// Whether a receiver can begin at a set of that state.
pub fn is_entry_state(state: State) -> bool
    ensures { result ≡ is_entry_state_of state }
{
    match state {
        State::Normal => false,
        State::Acquisition | State::ModeChange => true,
    }
}

/// Regions before the first instant.
fn first_region_states(
    alloc: Global,
    regions: &[RegionCues],
) -> Result<Items<RegionState>, AllocError>
    ensures { IfOk result (λ states. states ≡ map (λ _. first_region_state) regions.now) }
{
    let mut states = Vec::new(alloc);
    for _region in regions {
        states.push(RegionState {
            live: Items::new(alloc, Vec::new(alloc)),
            started: 0,
            version: 0,
            drawn_count: 0,
        })?;
    }
    Ok(Items::new(alloc, states))
}

/// The versions of CLUTs before the first instant: there are none.
fn first_versions(alloc: Global, cluts: &[ClutChanges]) -> Result<Items<Option<u8>>, AllocError>
    ensures { IfOk result (λ versions. versions ≡ map (λ _. None) cluts.now) }
{
    let mut versions = Vec::new(alloc);
    for _clut in cluts {
        versions.push(None)?;
    }
    Ok(Items::new(alloc, versions))
}

impl EpochState {
    /// An epoch before its first instant.
    pub fn begin(alloc: Global, layout: &Layout) -> Result<EpochState, AllocError>
        ensures current { (epoch : EpochValue) → IfOk result (IsEpochState epoch layout.now []) }
        ensures safe { IfOk result (IsSafe layout.now) }
    {
        Ok(EpochState {
            regions: first_region_states(alloc, layout.by_id.as_slice())?,
            versions: first_versions(alloc, layout.cluts.as_slice())?,
            first: true,
        })
    }

    /// The epoch at its next instant, and the set of that instant.
    pub fn advance(
        &self,
        alloc: Global,
        epoch: &Epoch,
        layout: &Layout,
        head: SetHead,
    ) -> Result<EpochStep, AllocError>
        requires few { IsSmallEpoch epoch.now }
        requires layout { IsLayout epoch.now layout.now }
        requires safe { IsSafe layout.now self.now }
        ensures safe { IfOk result (λ step. IsSafe layout.now step.current) }
        ensures set { IfOk result (λ step. IsSetOf head step.set) }
        ensures advanced { (seen : List ℕ)
            → IsEpochState epoch.now layout.now seen self.now
            → IsTimely epoch.now.start seen head.instant.tick
            → IfOk result (IsAdvanced epoch.now layout.now seen head.instant.tick head.state) }
    {
        let whole = is_entry_state(head.state);
        let tick = head.instant.tick;
        let cues = epoch.cues.as_slice();
        let regions = step_regions(
            alloc,
            cues,
            layout.by_id.as_slice(),
            self.regions.as_slice(),
            tick,
            self.first,
            whole,
        )?;
        let cluts = step_cluts(
            alloc,
            epoch.colours.as_slice(),
            layout.cluts.as_slice(),
            self.versions.as_slice(),
            tick,
            whole,
        )?;
        let shown = shown_ids(alloc, layout.by_y.as_slice(), regions.states.as_slice())?;
        let listed = listed_cues_of(alloc, regions.sent.as_slice())?;
        // What a receiver holds behind this set: regions, page entries, listings, and CLUTs with
        // the entries that are set.
        let nodes = epoch.regions.len() as u64
            + shown.len() as u64
            + drawn_count(regions.states.as_slice())
            + cluts.nodes;
        Ok(EpochStep {
            current: EpochState {
                regions: regions.states,
                versions: cluts.versions,
                first: false,
            },
            set: PlannedSet {
                pts: tick,
                state: head.state,
                row: head.instant.row,
                epoch: head.place,
                page_version: head.page_version,
                shown,
                regions: regions.sent,
                cluts: cluts.sent,
                cues: listed,
            },
            nodes,
        })
    }
}

impl EpochWalk {
    /// The walk before the first instant of an epoch.
    pub fn begin(alloc: Global, epochs: &[Epoch], place: u32) -> Result<EpochWalk, AllocError>
        requires there { place < length epochs.now }
        requires few { All IsSmallEpoch epochs.now }
        ensures place { IfOk result (λ walk. walk.place ≡ place) }
        ensures walk { IfOk result (IsEpochWalk epochs.now []) }
    {
        let layout = Layout::of(alloc, &epochs[place as usize])?;
        let current = EpochState::begin(alloc, &layout)?;
        Ok(EpochWalk {
            place,
            layout,
            current,
        })
    }

    /// The walk at its next tick: in the next epoch, where that begins by then.
    pub fn at(self, alloc: Global, epochs: &[Epoch], tick: u64) -> Result<EpochWalk, AllocError>
        requires few { All IsSmallEpoch epochs.now }
        requires many { length epochs.now ≤ MOST_EPOCHS }
        requires there { self.place < length epochs.now }
        ensures { IfOk result (WalkGoesOn epochs.now tick self) }
    {
        let next = self.place + 1;
        // One epoch at most begins from one instant to the next, as the start of an epoch is itself
        // an instant.
        if (next as usize) < epochs.len() && epochs[next as usize].start <= tick {
            return EpochWalk::begin(alloc, epochs, next);
        }
        Ok(self)
    }
}
