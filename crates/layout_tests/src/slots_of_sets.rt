ghost use Rattle.std.specs.Prelude.{◌≡◌, ◌^◌, ◌<◌, ◌≤◌, sum, IfOk};
ghost use Rattle.schedule.specs.Slots.{IsLoad};

use crate::same::same;
use schedule::{Schedule, ScheduleFault};
use std::alloc::{AllocError, Global};
use std::panic::Expect;
use sub_base::{Items, Profile, ProfileName, SetLoad, WriteLoad};

/// A set that is sent in units of these lengths.
fn write_load(
    alloc: Global,
    load: SetLoad,
    longest: u64,
    units: &[u32],
) -> Result<WriteLoad, AllocError>
    requires some { 1 ≤ load.size }
    requires size { load.size ≡ sum units.now }
    requires pts { load.pts < 2 ^ 62 }
    requires painted { load.painted < 2 ^ 62 }
    ensures { IfOk result IsLoad }
{
    Ok(WriteLoad {
        load,
        longest,
        units: Items::new(alloc, units.to_vec(alloc)?),
    })
}

/// A set that is sent in one unit and painted at once.
fn one_unit(alloc: Global, pts: u64, size: u32) -> Result<WriteLoad, AllocError>
    requires some { 1 ≤ size }
    requires pts { pts < 2 ^ 62 }
    ensures { IfOk result IsLoad }
{
    let load = SetLoad {
        pts,
        size: u64::from(size),
        painted: 0,
    };
    write_load(alloc, load, 0, &[size])
}

/// The set that takes the whole buffer has a packet in each of the slots 0 to 133.
#[test]
fn set_of_a_whole_buffer(rt: HostRuntime) {
    let loads = [one_unit(rt.alloc(), 200_000, 24_576).expect(&rt, "memory")];
    let schedule = Schedule::make(rt.alloc(), &loads, 0, &Profile::of(ProfileName::Sd)).expect(
        &rt, "memory",
    );
    let slots = schedule.slots_of(0);
    same(&rt, slots.len(), 134);
    same(&rt, slots.last(), Some(&133));
    same(&rt, schedule.done(0), 118_341);
}

#[test]
fn set_larger_than_the_buffer(rt: HostRuntime) {
    let loads = [one_unit(rt.alloc(), 200_000, 24_577).expect(&rt, "memory")];
    let fault = Schedule::make(rt.alloc(), &loads, 0, &Profile::of(ProfileName::Sd)).err();
    same(
        &rt,
        fault,
        Some(ScheduleFault::CodedFull {
            set: 0,
            size: 24_577,
        }),
    );
}

/// A packet of 184 bytes is done at 184, and no earlier.
#[test]
fn set_done_in_time_or_late(rt: HostRuntime) {
    let profile = Profile::of(ProfileName::Sd);
    let early = [one_unit(rt.alloc(), 184, 184).expect(&rt, "memory")];
    let schedule = Schedule::make(rt.alloc(), &early, 0, &profile).expect(&rt, "memory");
    same(&rt, schedule.done(0), 184);
    let late = [one_unit(rt.alloc(), 183, 184).expect(&rt, "memory")];
    let fault = Schedule::make(rt.alloc(), &late, 0, &profile).err();
    same(
        &rt,
        fault,
        Some(ScheduleFault::Late {
            set: 0,
            done: 184,
            pts: 183,
        }),
    );
}

/// The second set waits in slot 133 until the first has left the buffer: its slots are 109 to 132
/// and 137 to 221.
#[test]
fn set_that_waits_for_room(rt: HostRuntime) {
    let loads = [
        one_unit(rt.alloc(), 300_000, 20_000).expect(&rt, "memory"),
        one_unit(rt.alloc(), 400_000, 20_000).expect(&rt, "memory"),
    ];
    let schedule = Schedule::make(rt.alloc(), &loads, 0, &Profile::of(ProfileName::Sd)).expect(
        &rt, "memory",
    );
    same(&rt, schedule.all_slots().len(), 218);
    let first = schedule.slots_of(0);
    assert_eq!(rt; first.len(), 109);
    same(&rt, first[108], 108);
    let second = schedule.slots_of(1);
    assert_eq!(rt; second.len(), 109);
    same(&rt, second[0], 109);
    same(&rt, second[23], 132);
    same(&rt, second[24], 137);
    same(&rt, second[108], 221);
    same(&rt, schedule.done(0), 96_140);
    same(&rt, schedule.done(1), 320_000);
}

/// Three units with 327 packets each: they begin 450,000 ticks before the set is shown.
#[test]
fn set_in_three_units(rt: HostRuntime) {
    let load = SetLoad {
        pts: 500_000,
        size: 180_158,
        painted: 32_400,
    };
    let loads = [write_load(rt.alloc(), load, 60_014, &[60_090, 60_031, 60_037]).expect(
        &rt, "room",
    )];
    let schedule = Schedule::make(rt.alloc(), &loads, 0, &Profile::of(ProfileName::Large)).expect(
        &rt, "memory",
    );
    let slots = schedule.slots_of(0);
    same(&rt, slots.len(), 981);
    same(&rt, slots.first(), Some(&556));
    same(&rt, slots.last(), Some(&1_536));
    same(&rt, schedule.done(0), 350_798);
}

/// A segment of 65,614 bytes fits no PES packet. The size is tested before it, and the time behind
/// it.
#[test]
fn segment_too_long(rt: HostRuntime) {
    let load = SetLoad {
        pts: 60,
        size: 65_718,
        painted: 32_400,
    };
    let loads = [write_load(rt.alloc(), load, 65_614, &[64, 65_631, 23]).expect(&rt, "room")];
    let large = Schedule::make(rt.alloc(), &loads, 0, &Profile::of(ProfileName::Large)).err();
    same(
        &rt,
        large,
        Some(ScheduleFault::SegmentFull {
            set: 0,
            longest: 65_614,
        }),
    );
    let hd = Schedule::make(rt.alloc(), &loads, 0, &Profile::of(ProfileName::Hd)).err();
    same(
        &rt,
        hd,
        Some(ScheduleFault::CodedFull {
            set: 0,
            size: 65_718,
        }),
    );
}

/// A segment of 65,524 bytes fills its PES packet.
#[test]
fn segment_that_just_fits(rt: HostRuntime) {
    let load = SetLoad {
        pts: 500_000,
        size: 65_564,
        painted: 0,
    };
    let loads = [write_load(rt.alloc(), load, 65_524, &[65_541, 23]).expect(&rt, "room")];
    let schedule = Schedule::make(rt.alloc(), &loads, 0, &Profile::of(ProfileName::Large)).expect(
        &rt, "memory",
    );
    same(&rt, schedule.slots_of(0).len(), 358);
}
