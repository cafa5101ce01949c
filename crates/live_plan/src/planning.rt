ghost use Rattle.std.specs.Prelude.{◌≡◌, ◌<◌, ◌≤◌, IfErr, IfOk, OnErr, OnOk};
ghost use Rattle.set_coder.specs.GrownBlocks.{AreBlocksOf};
ghost use Rattle.shown_stream.specs.Compiled.{IsCompiledFor};
ghost use Rattle.sub_base.specs.Pace.{pace_of};
ghost use Rattle.sub_base.specs.Profile.{profile_of};
ghost use Rattle.live_plan.specs.LiveCalls.{HasBlocks};
ghost use Rattle.live_plan.specs.Private.Planning.{IsLeftOf, IsSendRefused, KeepsBlocks, refusal_of};

use crate::faults::RowFault;
use cue_list::Script;
use script_stream::{PacketsLeft, SendFault, packets_left};
use set_coder::KeptBlocks;
use std::alloc::Global;
use sub_base::{NoMemory, Profile, ProfileName};

/// For whom packets are made.
#[derive(Clone, Copy)]
pub(crate) struct Target {
    /// The profile of the receivers.
    pub(crate) profile: ProfileName,
    /// The PID of the packets.
    pub(crate) pid: u16,
    /// The page of the service.
    pub(crate) page: u16,
}

impl Target {
    /// The ticks of 90 kHz from one slot to the next.
    pub(crate) fn step(self) -> u64
        requires profile { IsCompiledFor self.profile }
        ensures step { result ≡ (pace_of 0 (profile_of self.profile)).step }
        ensures some { 1 ≤ result }
    {
        Profile::of(self.profile).step.unwrap()
    }

    /// What is left of a script's packets behind so many slots. Pictures that are new are coded
    /// first, and their blocks kept; where the script is refused, and after want of memory, the
    /// blocks are those from before.
    pub(crate) fn packets_behind(
        self,
        alloc: Global,
        blocks: &mut KeptBlocks,
        script: &Script,
        sent: u64,
    ) -> Result<PacketsLeft, RowFault>
        requires profile { IsCompiledFor self.profile }
        requires pid { self.pid < 8192 }
        requires goes_on { HasBlocks script.now.pictures blocks.old }
        ensures left { IfOk result (IsLeftOf self sent script.now) }
        ensures refused { IfErr result (IsSendRefused self.profile script.now) }
        ensures grown { OnOk result (AreBlocksOf script.now.pictures blocks.new) }
        ensures back { OnErr result (KeepsBlocks script.now.pictures blocks.old blocks.new) }
    {
        let before = match blocks.grow(script) {
            Ok(before) => before,
            Err(NoMemory) => return Err(RowFault::Memory),
        };
        match packets_left(
            alloc,
            self.profile,
            self.pid,
            self.page,
            script,
            blocks,
            sent,
        ) {
            Ok(left) => Ok(left),
            Err(fault) => {
                blocks.go_back(before);
                Err(refusal(fault))
            }
        }
    }
}

/// A script that is not sent, as the fault of its last record.
fn refusal(fault: SendFault) -> RowFault
    ensures { result ≡ refusal_of fault }
{
    match fault {
        SendFault::Memory => RowFault::Memory,
        SendFault::Plan(fault) => RowFault::Plan(fault),
        SendFault::Schedule { fault, .. } => RowFault::Schedule(fault),
    }
}
