//! Laws on the loads of the sets of a generated script, whatever its number of cues.

ghost use Rattle.std.specs.Prelude.{◌≡◌, ℕ, List, All};
ghost use Rattle.std.specs.List.{AllZip, Contains};
ghost use Rattle.cue_list.specs.declared.script.Script.{Script};
ghost use Rattle.generated_script_laws.specs.SmallLoads.{IsSmallLoad, IsSmallSet};
ghost use Rattle.generated_script.specs.Generated.{IsGenerated};
ghost use Rattle.page_epoch.specs.Plan.{IsPlan};
ghost use Rattle.page_epoch.specs.declared.planned_set.PlannedSet.{PlannedSet};
ghost use Rattle.schedule.specs.Refusals.{IsScheduleCause};
ghost use Rattle.schedule.specs.Slots.{IsLoad};
ghost use Rattle.schedule.specs.declared.fault.ScheduleFault.{ScheduleFault};
ghost use Rattle.schedule.specs.declared.fault.ScheduleFault.TheVariants.{Memory};
ghost use Rattle.set_coder.specs.SetSizes.{IsSetLoad};
ghost use Rattle.sub_base.specs.Pace.{IsSending, pace_of};
ghost use Rattle.sub_base.specs.declared.load.WriteLoad.{WriteLoad};
ghost use Rattle.sub_base.specs.declared.profile.Profile.{Profile};

/// A set of a generated script that lists few cues of its epoch is sent in one PES packet of few
/// bytes, and painted within few ticks: each set of its plan for any receiver.
pub fn generated_load()
    ensures few_listed { (number : ℕ) (script : Script) (set : PlannedSet) (load : WriteLoad)
        → IsGenerated number script → IsSmallSet script set → IsSetLoad script set load
        → IsSmallLoad load }
    ensures planned { (number : ℕ) (script : Script) (profile : Profile) (sets : List PlannedSet)
        (set : PlannedSet) (load : WriteLoad)
        → IsGenerated number script → IsPlan script profile sets → Contains sets set
        → IsSetLoad script set load → IsSmallLoad load }
{}

/// The schedule of the sets of its plan is refused for want of memory alone, in each profile in
/// which packets are sent.
pub fn no_schedule_is_refused()
    ensures { (number : ℕ) (script : Script) (profile : Profile) (sets : List PlannedSet)
        (loads : List WriteLoad) (fault : ScheduleFault)
        → IsSending profile → IsGenerated number script → IsPlan script profile sets
        → AllZip (IsSetLoad script) sets loads → All IsLoad loads
        → IsScheduleCause loads (pace_of script.origin profile) fault → fault ≡ Memory }
{}
