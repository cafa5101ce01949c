ghost use Rattle.std.specs.Prelude.{◌≡◌, ◌≢◌, ◌<◌, ◌≤◌, List, reverse, All, IfOk, IfErr, MatchResult, OnOk};
ghost use Rattle.page_epoch.specs.States.{state_of as state_by};
ghost use Rattle.page_epoch.specs.Plan.{ArePlanned, IsPlan};
ghost use Rattle.page_epoch.specs.Refusals.{IsPlanCause, IsNeedFault, AnswersPlanFault, IsSetCause};
ghost use Rattle.page_epoch.specs.Sendable.{IsOfItsEpoch};
ghost use Rattle.page_epoch.specs.EpochWalks.{IsPlain, version_behind};

use crate::epoch_state::{EpochWalk, SetHead, is_entry_state};
use crate::fault::PlanFault;
use crate::instants::instants_of;
use crate::planned_set::PlannedSet;
use cue_list::{Epoch, Script};
use std::alloc::Global;
use stream_syntax::State;
use sub_base::{Items, Profile};

/// The display sets that a script is sent as, in order of their presentation times.
#[derive(Drop)]
pub struct Plan {
    /// The sets, one for each instant of the script.
    pub sets: Items<PlannedSet>,
}

impl Plan {
    /// The plan of a script for a receiver of a profile: one set for each instant. The display is
    /// tested first, then the sets in order, the pixels of a set's epoch before its nodes.
    pub fn make(alloc: Global, script: &Script, profile: &Profile) -> Result<Plan, PlanFault>
        ensures plan { IfOk result (λ plan. IsPlan script.now profile.now plan.sets) }
        ensures sendable { IfOk result (λ plan. All (IsOfItsEpoch script.now) plan.sets) }
        ensures cause { IfErr result (IsPlanCause script.now profile.now) }

        // But for want of memory each script with a plan is planned, with its one plan, and each
        // other one is refused, for its one fault.
        ensures every_plan { (sets : List PlannedSet) → IsPlan script.now profile.now sets
            → MatchResult result (λ made. made.sets ≡ sets) (λ fault. fault ≡ PlanFault.Memory) }
        ensures every_fault { (fault : PlanFault) → IsPlanCause script.now profile.now fault
            → fault ≢ PlanFault.Memory → AnswersPlanFault fault result }
    {
        plan_script(alloc, script, profile)
    }
}

/// The same, of a display that fits and of its sets.
fn plan_script(alloc: Global, script: &Script, profile: &Profile) -> Result<Plan, PlanFault>
    ensures plan { IfOk result (λ plan. IsPlan script.now profile.now plan.sets) }
    ensures sendable { IfOk result (λ plan. All (IsOfItsEpoch script.now) plan.sets) }
    ensures cause { IfErr result (IsPlanCause script.now profile.now) }
{
    if u32::from(script.width) > profile.width || u32::from(script.height) > profile.height {
        // The display is always the second record.
        return Err(PlanFault::DisplayTooLarge { row: 2 });
    }
    let sets = plan_sets(alloc, script.epochs.as_slice(), script.refresh, profile)?;
    Ok(Plan {
        sets: Items::new(alloc, sets),
    })
}

/// The page state of a set: a mode change where the epoch begins; an acquisition point at a
/// refresh, or where an entry point is due; else normal.
fn state_of(starts: bool, named: bool, due: bool) -> State
    ensures { result ≡ state_by starts named due }
{
    if starts {
        State::ModeChange
    } else if !named || due {
        State::Acquisition
    } else {
        State::Normal
    }
}

/// The version of the page of a set behind these. It goes on over the start of an epoch, since
/// receivers pass over a page that has the version of the one before.
fn next_page_version(before: &[PlannedSet], named: bool) -> u8
    requires { All (λ set. set.page_version < 16) before.now }
    ensures { result ≡ version_behind (reverse before.now) named }
{
    match before.last() {
        None => 0,
        Some(set) if named => (set.page_version + 1) % 16,
        // A refresh shows the same page once more, in the same version.
        Some(set) => set.page_version,
    }
}

/// Tests what a set needs: the bytes of its epoch's pixels first, then its nodes.
fn check_needs(profile: &Profile, pixels: u64, nodes: u64, row: u64) -> Result<(), PlanFault>
    ensures held { OnOk result ((pixels ≤ profile.now.pixels) × (nodes ≤ profile.now.nodes)) }
    ensures fault { IfErr result (IsNeedFault profile.now pixels nodes row) }
{
    if pixels > profile.pixels {
        return Err(PlanFault::PixelFull { row, need: pixels });
    }
    if nodes > u64::from(profile.nodes) {
        return Err(PlanFault::CompositionFull { row, need: nodes });
    }
    Ok(())
}

/// The sets of all instants, or the first one that a receiver cannot hold.
fn plan_sets(
    alloc: Global,
    epochs: &[Epoch],
    refresh: u64,
    profile: &Profile,
) -> Result<Vec<PlannedSet>, PlanFault>
    requires { IsPlain epochs.now refresh }
    ensures planned { IfOk result (λ sets. ArePlanned epochs.now refresh profile.now sets.items) }
    ensures cause { IfErr result (IsSetCause epochs.now refresh profile.now) }
{
    let instants = instants_of(alloc, epochs, refresh)?;
    let mut sets = Vec::new(alloc);
    let mut walk = EpochWalk::begin(alloc, epochs, 0)?;
    let mut last_entry = 0;
    for instant in &instants {
        walk = walk.at(alloc, epochs, instant.tick)?;
        let epoch = &epochs[walk.place as usize];
        // Named instants may come so thick that no refresh has room between them: then one of them
        // is the entry point.
        let due = last_entry + refresh <= instant.tick;
        let state = state_of(walk.current.first, instant.named, due);
        let head = SetHead {
            instant: *instant,
            state,
            page_version: next_page_version(sets.as_slice(), instant.named),
            place: walk.place,
        };
        let step = walk.current.advance(alloc, epoch, &walk.layout, head)?;
        check_needs(profile, walk.layout.pixels, step.nodes, instant.row)?;
        if is_entry_state(state) {
            last_entry = instant.tick;
        }
        sets.push(step.set)?;
        walk.current = step.current;
    }
    Ok(sets)
}
