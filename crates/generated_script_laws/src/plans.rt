//! Laws on the plans of generated scripts, for each number of cues.

ghost use Rattle.std.specs.Prelude.{◌≡◌, ℕ, List, Some, slice_get};
ghost use Rattle.std.specs.List.{Contains};
ghost use Rattle.cue_list.specs.declared.epoch.Epoch.{Epoch};
ghost use Rattle.cue_list.specs.declared.script.Script.{Script};
ghost use Rattle.generated_script_laws.specs.Listed.{AreFarApart, ListsFew};
ghost use Rattle.generated_script.specs.Generated.{IsGenerated};
ghost use Rattle.page_epoch.specs.Instants.{IsRefresh};
ghost use Rattle.page_epoch.specs.Plan.{IsPlan};
ghost use Rattle.page_epoch.specs.Refusals.{IsPlanCause};
ghost use Rattle.page_epoch.specs.declared.fault.PlanFault.{PlanFault};
ghost use Rattle.page_epoch.specs.declared.fault.PlanFault.TheVariants.{Memory};
ghost use Rattle.page_epoch.specs.declared.planned_set.PlannedSet.{PlannedSet};
ghost use Rattle.sub_base.specs.declared.profile.Profile.{Profile};
ghost use Rattle.sub_base.specs.Profile.{IsProfile};

/// A plan is refused for want of memory alone, whatever the profile.
pub fn no_plan_is_refused()
    ensures { (number : ℕ) (script : Script) (profile : Profile) (fault : PlanFault)
        → IsProfile profile → IsGenerated number script → IsPlanCause script profile fault
        → fault ≡ Memory }
{}

/// No page of a generated script is sent again: no cue lasts as long as a refresh takes.
pub fn nothing_is_refreshed()
    ensures { (number : ℕ) (script : Script) (tick : ℕ) → IsGenerated number script
        → IsRefresh script.epochs script.refresh tick → ⊥ }
{}

/// The sets of a plan are far apart.
pub fn sets_are_far_apart()
    ensures { (number : ℕ) (script : Script) (profile : Profile) (sets : List PlannedSet)
        → IsGenerated number script → IsPlan script profile sets → AreFarApart sets }
{}

/// Each set of a plan shows, sends and lists few regions and cues, and no CLUT.
pub fn sets_list_few_cues()
    ensures { (number : ℕ) (script : Script) (profile : Profile) (sets : List PlannedSet)
        (set : PlannedSet) (epoch : Epoch)
        → IsGenerated number script → IsPlan script profile sets → Contains sets set
        → slice_get script.epochs set.epoch ≡ Some epoch → ListsFew epoch set }
{}
