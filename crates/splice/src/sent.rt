//! The sets of two joined streams, sent in the slots of their schedule.

ghost use Rattle.std.specs.Prelude.{◌≡◌, ◌<◌, IfErr, IfOk, List, OnOk, All, ℕ};
ghost use Rattle.std.specs.Io.KnownBytes.{Appends, Keeps};
ghost use Rattle.sub_base.specs.Counts.{HasRisen};
ghost use Rattle.sub_base.specs.Endpoints.{AppendsPrefix};
ghost use Rattle.sub_base.specs.Lists.{all_of};
ghost use Rattle.schedule.specs.Refusals.{IsScheduleCause};
ghost use Rattle.schedule.specs.Slots.{IsLoad};
ghost use Rattle.sent_sets.specs.RawSets.{RawSet};
ghost use Rattle.slot_stream.specs.SlotStream.{all_pieces, stream_of};
ghost use Rattle.splice.specs.SplicedSets.{IsSplicing, Streams, splice_pace, spliced_sets};
ghost use Rattle.splice.specs.SplicedStream.{CanBeJoined};
ghost use Rattle.splice.specs.Private.JoinedSets.{AreCut, IsJoinedOf};
ghost use Rattle.splice.specs.Private.Sent.{AreInTime, HaveSlots, IsSendEnd, unscheduled as unscheduled_status};
ghost use Rattle.stream_syntax.specs.declared.wire.TheConstants.{NULL_PID};

use crate::joined::{Joined, pieces_of};
use crate::splice_fault::SpliceFault;
use crate::splice_words::Splicing;
use schedule::{Schedule, ScheduleFault};
use slot_stream::{StreamFault, write_stream};
use std::alloc::Global;
use sub_base::{Profile, Sink, ToolStatus, Which};

/// Sends the sets that are kept, from the origin on, and writes the packets of all slots up to the
/// last used one. Answers how that ended. All memory is taken before the first byte is written.
pub(crate) fn send<K: Sink>(
    alloc: Global,
    splicing: Splicing,
    joined: &Joined,
    out: &mut K,
) -> ToolStatus<SpliceFault>
    requires ranges { IsSplicing splicing }
    requires kept { (sets : List RawSet) × IsJoinedOf sets joined.now }
    ensures { (streams : Streams) → CanBeJoined splicing streams
        → IsJoinedOf (spliced_sets splicing streams) joined.now
        → IsSendEnd splicing streams (K.received out.old) (K.received out.new) result }
{
    let schedule = match schedule_of(alloc, splicing, joined) {
        Ok(schedule) => schedule,
        Err(fault) => return unscheduled(fault),
    };
    match write_sets(alloc, splicing.pid, joined, &schedule, out) {
        Ok(()) => ToolStatus::Done,
        Err(StreamFault::Memory) => ToolStatus::Memory,
        Err(StreamFault::Write) => ToolStatus::WriteFault(Which::Out),
    }
}

/// The slots of the packets of the sets, from the origin on.
fn schedule_of(
    alloc: Global,
    splicing: Splicing,
    joined: &Joined,
) -> Result<Schedule, ScheduleFault>
    requires ranges { IsSplicing splicing }
    requires each { All IsLoad joined.now.loads.items }
    ensures in_time { IfOk result (AreInTime (splice_pace splicing) joined.now.loads.items) }
    ensures cause { IfErr result (IsScheduleCause joined.now.loads.items (splice_pace splicing)) }
{
    let receiver = Profile::of(splicing.profile);
    Schedule::make(alloc, joined.loads.as_slice(), splicing.origin, &receiver)
}

/// How sending ends where the sets have no slots.
fn unscheduled(fault: ScheduleFault) -> ToolStatus<SpliceFault>
    ensures { result ≡ unscheduled_status fault }
{
    match fault {
        ScheduleFault::Memory => ToolStatus::Memory,
        _ => ToolStatus::Refused(SpliceFault::Schedule(fault)),
    }
}

/// Writes the packets of the sets at their slots, and null packets between.
fn write_sets<K: Sink>(
    alloc: Global,
    pid: u16,
    joined: &Joined,
    schedule: &Schedule,
    out: &mut K,
) -> Result<(), StreamFault>
    requires pid { pid < NULL_PID }
    requires cut { (units : List (List (List ℕ)))
        × AreCut joined.now.loads.items joined.now.written.items units }
    requires slots { HaveSlots joined.now.loads.items schedule.now }
    ensures all { OnOk result ((units : List (List (List ℕ)))
        → AreCut joined.now.loads.items joined.now.written.items units
        → Appends (K.received out.old).written (K.received out.new).written
        (stream_of pid (all_pieces (all_of units)) schedule.now.slots)) }
    ensures front { IfErr result (λ fault. fault ≡ StreamFault.Write
        → (units : List (List (List ℕ)))
        → AreCut joined.now.loads.items joined.now.written.items units
        → AppendsPrefix (K.received out.old).written (K.received out.new).written
        (stream_of pid (all_pieces (all_of units)) schedule.now.slots)) }
    ensures nothing { IfErr result (λ fault. fault ≡ StreamFault.Memory
        → Keeps (K.received out.old).written (K.received out.new).written) }
    ensures cause { IfErr result (λ fault. fault ≡ StreamFault.Write
        → HasRisen (K.received out.old).faults (K.received out.new).faults) }
{
    let Ok(pieces) = pieces_of(alloc, joined.loads.as_slice(), joined.written.as_slice()) else {
        return Err(StreamFault::Memory);
    };
    write_stream(alloc, out, pid, pieces.as_slice(), schedule.all_slots())
}
