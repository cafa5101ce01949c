ghost use Rattle.std.specs.Prelude.{◌≤◌, List, ℕ};
ghost use Rattle.std.specs.List.{Contains};
ghost use Rattle.cue_list.specs.declared.script.Script.{Script};
ghost use Rattle.grown_script_laws.specs.Growth.{Grows};
ghost use Rattle.page_epoch.specs.Plan.{IsPlan};
ghost use Rattle.page_epoch.specs.declared.planned_set.PlannedSet.{PlannedSet};
ghost use Rattle.set_coder.specs.SetSegments.{AreSetPackets};
ghost use Rattle.set_coder.specs.SetSizes.{IsSetLoad};
ghost use Rattle.sub_base.specs.declared.load.WriteLoad.{WriteLoad};
ghost use Rattle.sub_base.specs.declared.profile.Profile.{Profile};

/// The PES packets of a set of a plan, up to the horizon above which the script goes on, stay the
/// same.
pub fn packets_stay()
    ensures { (horizon page : ℕ) (old new : Script) (profile : Profile) (sets : List PlannedSet)
        (set : PlannedSet) (packets : List (List ℕ))
        → Grows horizon old new → IsPlan old profile sets → Contains sets set → set.pts ≤ horizon
        → AreSetPackets old page set packets → AreSetPackets new page set packets }
{}

/// What sending such a set takes stays the same.
pub fn loads_stay()
    ensures { (horizon : ℕ) (old new : Script) (profile : Profile) (sets : List PlannedSet)
        (set : PlannedSet) (load : WriteLoad)
        → Grows horizon old new → IsPlan old profile sets → Contains sets set → set.pts ≤ horizon
        → IsSetLoad old set load → IsSetLoad new set load }
{}
