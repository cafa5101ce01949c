ghost use Rattle.std.specs.Prelude.{◌≡◌, ◌≤◌, true};

use crate::same::same;
use band_draw::draw;
use page_core::{Core, SetEnd};
use samples::is_seen;
use std::alloc::Global;
use std::panic::Expect;
use std::process::Abort;
use std::sync::atomic::{AtomicBool, AtomicU32, Ordering};
use std::thread::Threads;
use sub_base::{BandGate, CLEAR, Colour, NoGate, Profile, ProfileName};

/// A display of four columns and five rows, of which rows 1 to 3 are filled with code 1 of 8 bits.
#[rattlefmt::skip]
const SET: [u8; 47] = [
    0x0F, 0x14, 0x00, 0x01, 0x00, 0x05, 0x07, 0x00, 0x03, 0x00, 0x04,
    0x0F, 0x10, 0x00, 0x01, 0x00, 0x08, 0x0C, 0x0B, 0x00, 0xFF, 0x00, 0x00, 0x00, 0x01,
    0x0F, 0x11, 0x00, 0x01, 0x00, 0x0A, 0x00, 0x0F, 0x00, 0x04, 0x00, 0x03, 0x6F, 0x00, 0x01, 0x03,
    0x0F, 0x80, 0x00, 0x01, 0x00, 0x00,
];

/// The default colour of that code.
const RED: Colour = Colour {
    y: 81,
    cr: 240,
    cb: 90,
    t: 192,
};

/// The core that shows the display of five rows.
fn core_with_five_rows<R: Abort>(rt: &R, alloc: Global) -> Core
    ensures { result.known ≡ true }
{
    let mut core = Core::make(alloc, &Profile::of(ProfileName::Sd), 1, 0).expect(rt, "memory");
    match core.take_set(90_000, &SET) {
        SetEnd::Shown => core,
        _ => rt.panic("the set is not shown"),
    }
}

/// Draws into twenty places, which the display must have.
fn draw_twenty<R: Threads + Sync + Abort, G: BandGate + Sync>(
    rt: &R,
    core: &Core,
    plane: &mut [Colour; 20],
    bands: u32,
    gate: &G,
)
    requires known { core.now.known ≡ true }
    requires some { 1 ≤ bands }
    requires few { bands ≤ 64 }
{
    let scene = core.scene();
    if u64::from(scene.width()) * u64::from(scene.height()) != 20 {
        rt.panic("the display has not twenty places")
    }
    draw(rt, &scene, plane, bands, gate);
}

/// Bands 0 and 1 raise their flags, and each looks for the other's.
#[derive(Drop)]
struct Meeting {
    first: AtomicBool,
    second: AtomicBool,
    met: AtomicU32,
}

impl BandGate for Meeting {
    fn enter(&self, band: u32) {
        let (mine, other) = if band == 0 {
            (&self.first, &self.second)
        } else {
            (&self.second, &self.first)
        };
        mine.store(true, Ordering::SeqCst);
        if is_seen(other) {
            self.met.fetch_add(1, Ordering::SeqCst);
        }
    }
}

/// Two bands are drawn at the same time: each sees the other's flag.
#[test]
fn two_bands_meet(rt: HostRuntime) {
    let core = core_with_five_rows(&rt, rt.alloc());
    let gate = Meeting {
        first: AtomicBool::new(false),
        second: AtomicBool::new(false),
        met: AtomicU32::new(0),
    };
    let mut plane = [CLEAR; 20];
    draw_twenty(&rt, &core, &mut plane, 2, &gate);
    same(&rt, gate.met.load(Ordering::SeqCst), 2);
}

/// How often each band was entered, four bits for each.
#[derive(Drop)]
struct Entries {
    count: AtomicU32,
}

impl BandGate for Entries {
    fn enter(&self, band: u32) {
        self.count
            .fetch_add(1 << (4 * (band % 8)), Ordering::SeqCst);
    }
}

/// Sixty-four bands over five rows are five: each is entered once.
#[test]
fn bands_without_rows_are_left_out(rt: HostRuntime) {
    let core = core_with_five_rows(&rt, rt.alloc());
    let gate = Entries {
        count: AtomicU32::new(0),
    };
    let mut plane = [CLEAR; 20];
    draw_twenty(&rt, &core, &mut plane, 64, &gate);
    same(&rt, gate.count.load(Ordering::SeqCst), 0x1_1111);
}

/// The picture is the same in any number of bands.
#[test]
fn one_picture_in_any_bands(rt: HostRuntime) {
    let core = core_with_five_rows(&rt, rt.alloc());
    for bands in [1, 2, 3, 5, 7, 64] {
        let mut plane = [RED; 20];
        draw_twenty(&rt, &core, &mut plane, bands, &NoGate);
        same(&rt, &plane[..4], [CLEAR; 4].as_slice());
        same(&rt, &plane[4..16], [RED; 12].as_slice());
        same(&rt, &plane[16..], [CLEAR; 4].as_slice());
    }
}
