//! The time that a set takes to be painted (EN 300 743, clause 5.2).

ghost use Rattle.std.specs.Prelude.{◌≡◌, ◌*◌, ◌≤◌, ◌<◌, ◌^◌, List, length};
ghost use Rattle.sub_base.specs.Pace.{painting_ticks};
ghost use Rattle.decoder_model.specs.Painting.{set_painting};
ghost use Rattle.decoder_model.specs.Readings.{Content};
ghost use Rattle.page_core.specs.Handed.{AreContents};

use crate::walking::next_region;

/// The pixels that are painted in a tick of 90 kHz.
const PIXELS_A_TICK: u64 = 64;

/// How many ticks painting a set takes, of the bytes of its segments, none of which is refused: one
/// for each 64 pixels of its region segments that are begun.
pub fn painting_time(bytes: &[u8]) -> u64
    requires { length bytes.now < 2 ^ 32 }
    ensures time { (set : List Content) → AreContents set bytes.now
        → result ≡ set_painting set }
    ensures few { result ≤ length bytes.now * 67108864 }
{
    let mut ticks = 0;
    let mut rest = bytes;
    while let Some(next) = next_region(rest) {
        ticks += ticks_of(next.segment.width, next.segment.height);
        rest = next.rest;
    }
    ticks
}

/// How many ticks painting a region of these sides takes.
fn ticks_of(width: u16, height: u16) -> u64
    ensures ticks { result ≡ painting_ticks width height }
    ensures few { result ≤ 67108864 }
{
    let pixels = u64::from(width) * u64::from(height);
    pixels.div_ceil(PIXELS_A_TICK)
}
