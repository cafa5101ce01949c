ghost use Rattle.std.specs.Prelude.{◌≡◌, ◌<◌, ◌^◌, All, IfErr, IfOk, length};
ghost use Rattle.std.specs.List.Sorted.{IsStrictlyIncreasing};
ghost use Rattle.schedule.specs.Slots.{IsLoad, IsOnTime, IsSchedule};
ghost use Rattle.script_stream.specs.Refused.{IsRowAt};
ghost use Rattle.shown_stream.specs.Compiled.{IsCompiledFor};
ghost use Rattle.sub_base.specs.Pace.{pace_of};
ghost use Rattle.sub_base.specs.Profile.{profile_of};
ghost use Rattle.page_pair.specs.Private.Sending.{IsSlotStop};

use page_epoch::PlannedSet;
use schedule::{Schedule, ScheduleFault};
use std::alloc::Global;
use sub_base::{Profile, ProfileName, WriteLoad};

/// Why sets have no slots.
#[derive(Clone, Copy, Debug, PartialEq, Eq)]
pub(crate) enum SlotStop {
    /// No memory was found.
    Memory,
    /// The set that this record brings has none; the fault is never want of memory.
    Refused { row: u64, fault: ScheduleFault },
}

/// The earliest slots of sets with these loads, from the origin on.
pub(crate) fn slots_of(
    alloc: Global,
    profile: ProfileName,
    origin: u64,
    sets: &[PlannedSet],
    loads: &[WriteLoad],
) -> Result<Schedule, SlotStop>
    requires profile { IsCompiledFor profile }
    requires origin { origin < 2 ^ 62 }
    requires loads { All IsLoad loads.now }
    requires many { length loads.now ≡ length sets.now }
    ensures schedule { IfOk result
        (IsSchedule loads.now (length loads.now) (pace_of origin (profile_of profile))) }
    ensures on_time { IfOk result
        (IsOnTime loads.now (length loads.now) (pace_of origin (profile_of profile))) }
    ensures rise { IfOk result (λ table. IsStrictlyIncreasing table.slots) }
    ensures small { IfOk result (λ table. All (λ slot. slot < 2 ^ 56) table.slots) }
    ensures stop { IfErr result
        (IsSlotStop sets.now loads.now (pace_of origin (profile_of profile))) }
{
    let receiver = Profile::of(profile);
    match Schedule::make(alloc, loads, origin, &receiver) {
        Ok(schedule) => Ok(schedule),
        Err(ScheduleFault::Memory) => Err(SlotStop::Memory),
        Err(ScheduleFault::CodedFull { set, size }) => Err(SlotStop::Refused {
            row: row_at(sets, set),
            fault: ScheduleFault::CodedFull { set, size },
        }),
        Err(ScheduleFault::Late { set, done, pts }) => Err(SlotStop::Refused {
            row: row_at(sets, set),
            fault: ScheduleFault::Late { set, done, pts },
        }),
        Err(ScheduleFault::SegmentFull { set, longest }) => Err(SlotStop::Refused {
            row: row_at(sets, set),
            fault: ScheduleFault::SegmentFull { set, longest },
        }),
    }
}

/// The record of the script that brings the set at a place.
fn row_at(sets: &[PlannedSet], set: u64) -> u64
    requires { set < length sets.now }
    ensures { IsRowAt sets.now set result }
{
    sets[set as usize].row
}
