ghost use Rattle.std.specs.Prelude.{All, IfErr, IfOk};
ghost use Rattle.page_epoch.specs.Plan.{IsPlan};
ghost use Rattle.page_epoch.specs.Sendable.{IsOfItsEpoch};
ghost use Rattle.sub_base.specs.Profile.{profile_of};
ghost use Rattle.page_pair.specs.Private.Sending.{IsPlanStop};

use cue_list::Script;
use page_epoch::{Plan, PlanFault};
use std::alloc::Global;
use sub_base::{Profile, ProfileName};

/// Why a script has no plan.
#[derive(Clone, Copy, Debug, PartialEq, Eq)]
pub(crate) enum PlanStop {
    /// No memory was found.
    Memory,
    /// The plan is refused; the fault is never want of memory.
    Refused(PlanFault),
}

/// The plan of a script for receivers of a profile.
pub(crate) fn plan_of(
    alloc: Global,
    profile: ProfileName,
    script: &Script,
) -> Result<Plan, PlanStop>
    ensures plan { IfOk result (λ plan. IsPlan script.now (profile_of profile) plan.sets) }
    ensures sendable { IfOk result (λ plan. All (IsOfItsEpoch script.now) plan.sets) }
    ensures stop { IfErr result (IsPlanStop profile script.now) }
{
    let receiver = Profile::of(profile);
    match Plan::make(alloc, script, &receiver) {
        Ok(plan) => Ok(plan),
        Err(PlanFault::Memory) => Err(PlanStop::Memory),
        Err(PlanFault::DisplayTooLarge { row }) => {
            Err(PlanStop::Refused(PlanFault::DisplayTooLarge { row }))
        }
        Err(PlanFault::PixelFull { row, need }) => {
            Err(PlanStop::Refused(PlanFault::PixelFull { row, need }))
        }
        Err(PlanFault::CompositionFull { row, need }) => {
            Err(PlanStop::Refused(PlanFault::CompositionFull { row, need }))
        }
    }
}
