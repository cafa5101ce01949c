ghost use Rattle.std.specs.Prelude.{All, IfErr, IfOk};
ghost use Rattle.page_epoch.specs.Plan.{IsPlan};
ghost use Rattle.page_epoch.specs.Sendable.{IsOfItsEpoch};
ghost use Rattle.set_coder.specs.KeptBlocks.{AreCoded};
ghost use Rattle.shown_stream.specs.Compiled.{IsCompiledFor};
ghost use Rattle.sub_base.specs.Profile.{profile_of};
ghost use Rattle.script_stream.specs.Refused.{IsSendCause};
ghost use Rattle.script_stream.specs.Private.Timing.{IsTimed};

use crate::faults::SendFault;
use crate::loads::loads_of;
use crate::refusals::{plan_refused, schedule_refused};
use cue_list::Script;
use page_epoch::Plan;
use schedule::Schedule;
use set_coder::KeptBlocks;
use std::alloc::Global;
use sub_base::{Profile, ProfileName, WriteLoad};

/// The sets of a script's plan, what sending each of them takes, and the slots of their packets.
#[derive(Drop)]
pub struct Timed {
    pub plan: Plan,
    pub loads: Vec<WriteLoad>,
    pub schedule: Schedule,
}

/// The plan of a script for receivers of a profile, or the first set that it refuses.
pub fn plan_of(alloc: Global, profile: ProfileName, script: &Script) -> Result<Plan, SendFault>
    ensures plan { IfOk result (λ plan. IsPlan script.now (profile_of profile) plan.sets) }
    ensures sendable { IfOk result (λ plan. All (IsOfItsEpoch script.now) plan.sets) }
    ensures cause { IfErr result (IsSendCause profile script.now) }
{
    let receiver = Profile::of(profile);
    match Plan::make(alloc, script, &receiver) {
        Ok(plan) => Ok(plan),
        Err(fault) => Err(plan_refused(fault)),
    }
}

impl Timed {
    /// The sets of a script's plan in the earliest slots from the script's origin on, with the
    /// blocks that are kept. Or the first set that the schedule refuses.
    pub fn of_plan(
        alloc: Global,
        profile: ProfileName,
        script: &Script,
        blocks: &KeptBlocks,
        plan: Plan,
    ) -> Result<Timed, SendFault>
        requires profile { IsCompiledFor profile }
        requires blocks { AreCoded script.now.pictures blocks.now.coded.items }
        requires plan { IsPlan script.now (profile_of profile) plan.sets }
        requires sendable { All (IsOfItsEpoch script.now) plan.sets }
        ensures timed { IfOk result (λ timed. IsTimed profile script.now
            timed.plan.sets timed.loads.items timed.schedule) }
        ensures cause { IfErr result (IsSendCause profile script.now) }
    {
        let receiver = Profile::of(profile);
        let sets = plan.sets.as_slice();
        let Ok(loads) = loads_of(alloc, script, blocks, sets) else {
            return Err(SendFault::Memory);
        };
        let asked = loads.as_slice();
        let schedule = match Schedule::make(alloc, asked, script.origin, &receiver) {
            Ok(schedule) => schedule,
            Err(fault) => return Err(schedule_refused(sets, fault)),
        };
        Ok(Timed {
            plan,
            loads,
            schedule,
        })
    }
}
