ghost use Rattle.std.specs.Prelude.{◌≤◌};

use crate::same::same;
use cue_list::{Cue, Region};
use generated_script::generate;
use std::alloc::Global;
use std::panic::Expect;
use std::process::Abort;
use sub_base::Depth;

/// What is wanted of a script: how many epochs and pictures it has, where its last epoch starts and
/// in which record, how many cues that epoch has, its last cue, and the codes in the four corners
/// of that cue's picture.
struct Wanted {
    epochs: usize,
    pictures: usize,
    start: u64,
    row: u64,
    cues: usize,
    last: Cue,
    corners: [u8; 4],
}

const OF_ONE: Wanted = Wanted {
    epochs: 1,
    pictures: 1,
    start: 180_000,
    row: 5,
    cues: 1,
    last: Cue {
        start: 180_000,
        end: 243_000,
        row: 8,
        region: 0,
        x: 0,
        y: 0,
        picture: 0,
        see_through: false,
    },
    corners: [0, 7, 10, 1],
};

const OF_FOURTEEN: Wanted = Wanted {
    epochs: 1,
    pictures: 14,
    start: 180_000,
    row: 18,
    cues: 14,
    last: Cue {
        start: 1_350_000,
        end: 1_566_000,
        row: 34,
        region: 1,
        x: 1,
        y: 7,
        picture: 13,
        see_through: false,
    },
    corners: [13, 4, 7, 14],
};

const OF_SIXTEEN: Wanted = Wanted {
    epochs: 1,
    pictures: 16,
    start: 180_000,
    row: 20,
    cues: 16,
    last: Cue {
        start: 1_530_000,
        end: 1_593_000,
        row: 38,
        region: 1,
        x: 11,
        y: 13,
        picture: 15,
        see_through: true,
    },
    corners: [15, 6, 9, 0],
};

const OF_SEVENTEEN: Wanted = Wanted {
    epochs: 2,
    pictures: 16,
    start: 1_620_000,
    row: 39,
    cues: 1,
    last: Cue {
        start: 1_620_000,
        end: 1_683_000,
        row: 42,
        region: 0,
        x: 16,
        y: 0,
        picture: 0,
        see_through: false,
    },
    corners: [0, 7, 10, 1],
};

const OF_FIVE_HUNDRED: Wanted = Wanted {
    epochs: 32,
    pictures: 16,
    start: 44_820_000,
    row: 609,
    cues: 4,
    last: Cue {
        start: 45_090_000,
        end: 45_306_000,
        row: 615,
        region: 1,
        x: 31,
        y: 9,
        picture: 3,
        see_through: true,
    },
    corners: [3, 10, 13, 4],
};

const REGIONS: [Region; 2] = [
    Region {
        id: 0,
        x: 16,
        y: 40,
        width: 96,
        height: 48,
        depth: Depth::Four,
        clut: 0,
    },
    Region {
        id: 1,
        x: 160,
        y: 100,
        width: 96,
        height: 48,
        depth: Depth::Four,
        clut: 0,
    },
];

/// The codes of a picture of 64 by 32 pixels in its corners: those of the first row, and then of
/// the last.
fn check_corners<R: Abort>(rt: &R, codes: &[u8], wanted: &[u8; 4]) {
    same(&rt, codes.len(), 2_048);
    let above = (codes.get(0).copied(), codes.get(63).copied());
    let below = (codes.get(1_984).copied(), codes.get(2_047).copied());
    same(&rt, above, (Some(wanted[0]), Some(wanted[1])));
    same(&rt, below, (Some(wanted[2]), Some(wanted[3])));
}

/// The script of so many cues is as wanted.
fn check_script<R: Abort>(rt: &R, alloc: Global, number: u64, wanted: &Wanted)
    requires some { 1 ≤ number }
    requires few { number ≤ 500 }
{
    let script = generate(alloc, number).expect(rt, "memory");
    same(rt, (script.origin, script.refresh), (0, 450_000));
    same(rt, (script.width, script.height), (320, 180));
    same(rt, script.epochs.len(), wanted.epochs);
    same(rt, script.pictures.len(), wanted.pictures);
    let Some(epoch) = script.epochs.as_slice().last() else {
        panic!(rt; "the script has an epoch");
    };
    same(rt, (epoch.start, epoch.row), (wanted.start, wanted.row));
    same(rt, epoch.regions.as_slice(), REGIONS.as_slice());
    same(rt, epoch.colours.len(), 0);
    same(rt, epoch.cues.len(), wanted.cues);
    let Some(cue) = epoch.cues.as_slice().last() else {
        panic!(rt; "the epoch has a cue");
    };
    same(rt, *cue, wanted.last);
    let Some(picture) = script.pictures.as_slice().get(cue.picture as usize) else {
        panic!(rt; "the picture is there");
    };
    same(rt, (picture.width(), picture.height()), (64, 32));
    check_corners(rt, picture.codes(), &wanted.corners);
}

#[test]
fn last_cues_of_scripts(rt: HostRuntime) {
    let alloc = rt.alloc();
    check_script(&rt, alloc, 1, &OF_ONE);
    check_script(&rt, alloc, 14, &OF_FOURTEEN);
    check_script(&rt, alloc, 16, &OF_SIXTEEN);
    check_script(&rt, alloc, 17, &OF_SEVENTEEN);
    check_script(&rt, alloc, 500, &OF_FIVE_HUNDRED);
}
