ghost use Rattle.std.specs.Prelude.{◌≤◌, IfOk};
ghost use Rattle.generated_script.specs.Generated.{IsGenerated};

use crate::epoch::epochs;
use crate::picture::pictures;
use cue_list::{Pictures, Script};
use std::alloc::Global;
use sub_base::{Items, NoMemory};

/// The width of the display, in pixels.
const WIDTH: u16 = 320;

/// The height of the display, in pixels.
const HEIGHT: u16 = 180;

/// The ticks after which a page that stays is sent again: five seconds.
const REFRESH: u64 = 450_000;

/// The script of so many cues: one starts each second, in one of two regions in turn, with sixteen
/// cues in each epoch but the last.
pub fn generate(alloc: Global, number: u64) -> Result<Script, NoMemory>
    requires some { 1 ≤ number }
    requires few { number ≤ 500 }
    ensures made { IfOk result (IsGenerated number) }
{
    let epochs = epochs(alloc, number)?;
    let pictures = pictures(alloc, number)?;
    Ok(Script {
        origin: 0,
        width: WIDTH,
        height: HEIGHT,
        refresh: REFRESH,
        epochs: Items::new(alloc, epochs),
        pictures: Pictures::new(alloc, pictures),
    })
}
