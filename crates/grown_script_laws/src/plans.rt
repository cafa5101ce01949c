ghost use Rattle.std.specs.Prelude.{◌+◌, ◌≡◌, ◌≤◌, All, List, ℕ};
ghost use Rattle.cue_list.specs.declared.epoch.Epoch.{Epoch};
ghost use Rattle.cue_list.specs.declared.script.Script.{Script};
ghost use Rattle.grown_script_laws.specs.Growth.{BeginAlike, EpochGrows, EpochsGrow, Grows};
ghost use Rattle.page_epoch.specs.Instants.{is_named, IsInstant};
ghost use Rattle.page_epoch.specs.Live.{live_places};
ghost use Rattle.page_epoch.specs.Plan.{IsEpochAt, IsPlan, IsBringingRecord};
ghost use Rattle.page_epoch.specs.States.{page_version};
ghost use Rattle.page_epoch.specs.declared.instants.TheConstants.{REFRESH_ROOM};
ghost use Rattle.page_epoch.specs.declared.planned_set.PlannedSet.{PlannedSet};
ghost use Rattle.sub_base.specs.declared.profile.Profile.{Profile};

/// A script that goes on above a horizon keeps its instants up to the room of a refresh below the
/// horizon, and has no others there.
pub fn instants_stay()
    ensures { (horizon : ℕ) (old new : List Epoch) (refresh time : ℕ)
        → EpochsGrow horizon old new → time + REFRESH_ROOM ≤ horizon
        → (IsInstant old refresh time → IsInstant new refresh time)
        × (IsInstant new refresh time → IsInstant old refresh time) }
{}

/// A script that goes on above a horizon names the same ticks up to it.
pub fn names_stay()
    ensures { (horizon : ℕ) (old new : List Epoch) (tick : ℕ) → EpochsGrow horizon old new
        → tick ≤ horizon → is_named new tick ≡ is_named old tick }
{}

/// The record that brings the set of a tick up to the horizon stays the same.
pub fn rows_stay()
    ensures { (horizon : ℕ) (old new : List Epoch) (past : List PlannedSet) (tick row : ℕ)
        → EpochsGrow horizon old new → tick ≤ horizon
        → IsBringingRecord old past tick row → IsBringingRecord new past tick row }
{}

/// The epoch of a tick up to the horizon stays at its place, and goes on above the horizon.
pub fn epochs_stay()
    ensures { (horizon : ℕ) (old new : List Epoch) (tick place : ℕ) (epoch : Epoch)
        → EpochsGrow horizon old new → tick ≤ horizon → IsEpochAt old tick place epoch
        → (grown : Epoch) × IsEpochAt new tick place grown × EpochGrows horizon epoch grown }
{}

/// The version of the page at instants up to the horizon stays the same.
pub fn page_version_stays()
    ensures { (horizon : ℕ) (old new : List Epoch) (instants : List ℕ) → EpochsGrow horizon old new
        → All (λ tick. tick ≤ horizon) instants
        → page_version new instants ≡ page_version old instants }
{}

/// In an epoch that goes on above a horizon the same cues of a region are live up to it.
pub fn live_places_stay()
    ensures { (horizon : ℕ) (old new : Epoch) (region tick : ℕ) → EpochGrows horizon old new
        → tick ≤ horizon → live_places new.cues region tick ≡ live_places old.cues region tick }
{}

/// Plans of a script and of one that goes on above a horizon begin with the same sets: with those
/// that lie the room of a refresh below the horizon, or more.
pub fn sets_stay()
    ensures { (horizon : ℕ) (old new : Script) (profile : Profile) (before now : List PlannedSet)
        → Grows horizon old new → IsPlan old profile before → IsPlan new profile now
        → BeginAlike horizon before now }
{}
