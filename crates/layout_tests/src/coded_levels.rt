use crate::same::same;
use buffer_model::{Breach, Levels};
use std::panic::Expect;
use sub_base::{Profile, ProfileName, SetLoad};

/// A set of 20,000 bytes leaves where it is done, at the tick of slot 29; a packet that does not
/// fit is a breach.
#[test]
fn set_leaves_when_done(rt: HostRuntime) {
    let mut levels = Levels::make(rt.alloc(), &Profile::of(ProfileName::Sd), 0).expect(
        &rt, "memory",
    );
    same(&rt, levels.arrive(0, 20_000), 20_000);
    let load = SetLoad {
        pts: 300_000,
        size: 20_000,
        painted: 7,
    };
    same(&rt, levels.set_whole(load), 20_007);
    same(&rt, levels.arrive(1, 4_416), 24_416);
    same(&rt, levels.arrive(29, 184), 4_600);
    same(&rt, levels.tick(), 20_445);
    levels.drop_unit();
    same(&rt, levels.peak(), 24_416);
    same(&rt, levels.first_breach(), None);
    same(&rt, levels.arrive(30, 24_577), 24_577);
    same(&rt, levels.arrive(31, 1), 24_577);
    same(&rt, levels.peak(), 24_577);
    same(
        &rt,
        levels.first_breach(),
        Some(Breach::Coded {
            slot: 30,
            level: 24_577,
        }),
    );
}

/// A packet of 184 bytes is done at 184, too late for a set that is shown at 183.
#[test]
fn set_done_late(rt: HostRuntime) {
    let mut levels = Levels::make(rt.alloc(), &Profile::of(ProfileName::Sd), 0).expect(
        &rt, "memory",
    );
    same(&rt, levels.arrive(0, 184), 184);
    let load = SetLoad {
        pts: 183,
        size: 184,
        painted: 0,
    };
    same(&rt, levels.set_whole(load), 184);
    same(
        &rt,
        levels.first_breach(),
        Some(Breach::Late {
            done: 184,
            pts: 183,
        }),
    );
}

/// A set in three packets in the largest buffer, which then fills up to its last byte, and past it.
#[test]
fn largest_buffer(rt: HostRuntime) {
    let mut levels = Levels::make(rt.alloc(), &Profile::of(ProfileName::Large), 0).expect(
        &rt, "memory",
    );
    same(&rt, levels.arrive(556, 60_090), 60_090);
    same(&rt, levels.arrive(1_000, 60_031), 120_121);
    same(&rt, levels.arrive(1_536, 60_037), 180_158);
    let load = SetLoad {
        pts: 500_000,
        size: 180_158,
        painted: 32_400,
    };
    same(&rt, levels.set_whole(load), 350_798);
    same(&rt, levels.arrive(1_537, 65_536), 245_694);
    same(&rt, levels.arrive(1_538, 16_450), 262_144);
    same(&rt, levels.first_breach(), None);
    same(&rt, levels.arrive(1_539, 1), 262_145);
    same(&rt, levels.peak(), 262_145);
    same(
        &rt,
        levels.first_breach(),
        Some(Breach::Coded {
            slot: 1_539,
            level: 262_145,
        }),
    );
}

/// Packets that come by the tick: two in one tick, of which the second does not fit.
#[test]
fn packets_by_the_tick(rt: HostRuntime) {
    let mut levels = Levels::by_ticks(rt.alloc(), &Profile::of(ProfileName::Sd)).expect(
        &rt, "memory",
    );
    same(&rt, levels.arrive(7, 20_000), 20_000);
    same(&rt, levels.tick(), 7);
    let load = SetLoad {
        pts: 300_000,
        size: 20_000,
        painted: 0,
    };
    same(&rt, levels.set_whole(load), 20_007);
    same(&rt, levels.arrive(20_006, 184), 20_184);
    same(&rt, levels.arrive(20_006, 4_393), 24_577);
    same(&rt, levels.peak(), 24_577);
    same(
        &rt,
        levels.first_breach(),
        Some(Breach::Coded {
            slot: 20_006,
            level: 24_577,
        }),
    );
}
