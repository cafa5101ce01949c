ghost use Rattle.std.specs.Prelude.{ℕ, ◌<◌, List, drop, IfErr, IfOk};
ghost use Rattle.set_coder.specs.KeptBlocks.{AreCoded};
ghost use Rattle.shown_stream.specs.Compiled.{IsCompiledFor, IsCompiledTo, compiling_for};
ghost use Rattle.script_stream.specs.LeftPackets.{ArePacketsLeft};
ghost use Rattle.script_stream.specs.Refused.{IsSendCause};
ghost use Rattle.script_stream.specs.Private.Timing.{AreFirst, AreKeptOf, AreLeftOf, AreReady};

use crate::faults::SendFault;
use crate::first::{FirstSets, first_sets};
use crate::timed::{Timed, plan_of};
use crate::units::{pieces_of, units_of};
use cue_list::Script;
use set_coder::KeptBlocks;
use slot_stream::{KeptPackets, first_from, slot_count};
use std::alloc::Global;
use sub_base::{NoMemory, ProfileName};

/// The packets of a script that are not sent yet, and how many slots the script has in all.
#[derive(Drop)]
pub struct PacketsLeft {
    /// The packets, each with its slot; null packets are not kept. Some that were sent may be among
    /// them.
    pub kept: KeptPackets,
    /// How many slots there are up to the last used one.
    pub count: u64,
}

/// The packets of a script for receivers of a profile, on a PID and a page, that stand behind so
/// many slots: the sets of its plan in the earliest slots from the script's origin on. The blocks
/// are those of the script's pictures, as far as they are kept. Sets whose packets all stand before
/// are not coded. Or the first set that plan or schedule refuses, by the record that brings it.
pub fn packets_left(
    alloc: Global,
    profile: ProfileName,
    pid: u16,
    page: u16,
    script: &Script,
    blocks: &KeptBlocks,
    sent: u64,
) -> Result<PacketsLeft, SendFault>
    requires pid { pid < 8192 }
    requires profile { IsCompiledFor profile }
    requires blocks { AreCoded script.now.pictures blocks.now.coded.items }
    ensures left { IfOk result (λ left. (packets : List ℕ)
        × IsCompiledTo (compiling_for profile pid page script.now) packets
        × ArePacketsLeft packets sent left) }
    ensures cause { IfErr result (IsSendCause profile script.now) }
{
    let plan = plan_of(alloc, profile, script)?;
    let timed = Timed::of_plan(alloc, profile, script, blocks, plan)?;
    match left_of(alloc, pid, page, script, blocks, &timed, sent) {
        Ok(left) => Ok(left),
        Err(NoMemory) => Err(SendFault::Memory),
    }
}

/// What is left of the packets of a script's sets.
fn left_of(
    alloc: Global,
    pid: u16,
    page: u16,
    script: &Script,
    blocks: &KeptBlocks,
    timed: &Timed,
    sent: u64,
) -> Result<PacketsLeft, NoMemory>
    requires pid { pid < 8192 }
    requires blocks { AreCoded script.now.pictures blocks.now.coded.items }
    requires ready { AreReady script.now timed.now.plan.sets timed.now.loads.items
        timed.now.schedule }
    ensures { IfOk result (AreLeftOf script.now pid page timed.now.plan.sets timed.now.loads.items
        timed.now.schedule.slots sent) }
{
    let slots = timed.schedule.all_slots();
    // The first sets, all of whose packets are sent, are not coded again.
    let before = first_from(slots, sent);
    let first = first_sets(&timed.schedule, timed.loads.as_slice(), before);
    let kept = kept_behind(alloc, pid, page, script, blocks, timed, first)?;
    Ok(PacketsLeft {
        kept,
        count: slot_count(slots),
    })
}

/// The packets of a script's sets behind the first ones.
fn kept_behind(
    alloc: Global,
    pid: u16,
    page: u16,
    script: &Script,
    blocks: &KeptBlocks,
    timed: &Timed,
    first: FirstSets,
) -> Result<KeptPackets, NoMemory>
    requires pid { pid < 8192 }
    requires blocks { AreCoded script.now.pictures blocks.now.coded.items }
    requires ready { AreReady script.now timed.now.plan.sets timed.now.loads.items
        timed.now.schedule }
    requires first { AreFirst timed.now.loads.items first.sets first.packets }
    ensures { IfOk result (AreKeptOf script.now pid page first.packets
        (drop first.sets timed.now.plan.sets)
        (drop first.packets timed.now.schedule.slots)) }
{
    let (_, sets) = timed.plan.sets.as_slice().split_at(first.sets);
    let (_, loads) = timed.loads.as_slice().split_at(first.sets);
    let (_, slots) = timed.schedule.all_slots().split_at(first.packets);
    let written = units_of(alloc, script, blocks, sets, page)?;
    let pieces = pieces_of(alloc, loads, written.as_slice())?;
    KeptPackets::of_pieces(alloc, pid, first.packets as u64, pieces.as_slice(), slots)
}
