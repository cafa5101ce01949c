//! Drawing in bands: each worker has some rows of the plane for itself, and all read one scene,
//! which nobody changes meanwhile.

ghost use Rattle.std.specs.Prelude.{◌≡◌, ◌<◌, ◌≤◌, ◌*◌, ◌^◌, ◌/◌, length};
ghost use Rattle.page_core.specs.Rows.{picture_in};
ghost use Rattle.band_draw.specs.Bands.{IsBand, IsPlanePart};

use page_core::Scene;
use std::thread;
use std::thread::Threads;
use sub_base::{BandGate, Colour};

/// Makes the plane the picture of the scene, the colours of which stand row by row. It is drawn in
/// `bands` bands, 1 to 64, at the same time: each has the height divided by `bands`, rounded up,
/// rows, the last one perhaps fewer, and bands without rows are left out. Each band enters the gate
/// once with its number, from 0, before it is drawn.
pub fn draw<R: Threads + Sync, G: BandGate + Sync>(
    rt: &R,
    scene: &Scene<'_>,
    plane: &mut [Colour],
    bands: u32,
    gate: &G,
)
    requires plane { length plane.old ≡ scene.now.display.width * scene.now.display.height }
    requires some { 1 ≤ bands }
    requires few { bands ≤ 64 }
    ensures picture { plane.new ≡ picture_in scene.now }
{
    if plane.is_empty() {
        return;
    }
    let width = scene.width() as usize;
    let size = scene.height().div_ceil(bands) as usize * width;
    thread::for_each_chunk_mut(
        rt,
        plane,
        size,
        &|start: usize, part: &mut [Colour]|
            requires { IsBand scene.now start (length part.now) × (0 < size)
                × (start < 2 ^ 32 * size) }
            ensures { IsPlanePart scene.entry.now start (length part.entry.now) part.exit.now }
        {
            gate.enter(band_at(start, size));
            band_into(scene, start, part)
        },
    );
}

// Draws the rows of the band whose first place has that number.
fn band_into(scene: &Scene<'_>, start: usize, part: &mut [Colour])
    requires { IsBand scene.now start (length part.old) }
    ensures { IsPlanePart scene.now start (length part.old) part.new }
{
    let width = scene.width() as usize;
    let _ = scene.height(); // The rows have numbers of 32 bits.
    if width > 0 {
        let first = start / width;
        for i in 0..part.len() / width {
            scene.row_into((first + i) as u32, &mut part[i * width..(i + 1) * width]);
        }
    }
}

// The number of the band whose first place has that number.
fn band_at(start: usize, size: usize) -> u32
    requires some { 0 < size }
    requires few { start < 2 ^ 32 * size }
    ensures { result ≡ start / size }
{
    (start / size) as u32
}
