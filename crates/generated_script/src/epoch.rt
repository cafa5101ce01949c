ghost use Rattle.std.specs.Prelude.{◌≡◌, ◌+◌, ◌*◌, ◌/◌, ◌<◌, ◌≤◌, [], ◌∷◌, map, IfOk};
ghost use Rattle.std.specs.List.{range_with_len, AllZip};
ghost use Rattle.generated_script.specs.Generated.{generated_length, generated_region, IsGeneratedCue, IsGeneratedEpoch};

use crate::picture::PICTURES;
use cue_list::{Cue, Epoch, Region};
use std::alloc::Global;
use sub_base::{Depth, Items, NoMemory};

/// The tick at which the first epoch and its first cue start.
const FIRST_START: u64 = 180_000;

/// How many ticks after a cue the next one starts: a second.
const CUE_DISTANCE: u64 = 90_000;

/// How many cues an epoch has, but for the last one.
pub(crate) const EPOCH_CUES: u64 = 16;

/// How many ticks after an epoch the next one starts.
const EPOCH_DISTANCE: u64 = EPOCH_CUES * CUE_DISTANCE;

/// How many ticks a cue lasts that ends before the next one starts.
const SHORT: u64 = 63_000;

/// How many ticks a cue lasts that goes on into the second one after it.
const LONG: u64 = 216_000;

/// How many places there are for the left edge of a picture, and for its upper edge.
const COLUMNS: u64 = 32;

const LINES: u64 = 16;

/// How many records a script has before those of its pictures: origin, display and refresh.
const HEAD_RECORDS: u64 = 3;

/// How many records an epoch has before those of its cues: its own and its regions'.
const EPOCH_RECORDS: u64 = 3;

/// The two regions of each epoch.
const REGIONS: [Region; 2] = [
    Region {
        id: 0,
        x: 16,
        y: 40,
        width: 96,
        height: 48,
        depth: Depth::Four,
        clut: 0,
    },
    Region {
        id: 1,
        x: 160,
        y: 100,
        width: 96,
        height: 48,
        depth: Depth::Four,
        clut: 0,
    },
];

/// How many ticks the cue of that number lasts.
fn length(number: u64) -> u64
    ensures { result ≡ generated_length number }
{
    if number % 2 == 1 && number % EPOCH_CUES != EPOCH_CUES - 1 {
        LONG
    } else {
        SHORT
    }
}

/// The cue of that number, from a record of the script.
fn cue(number: u64, row: u64) -> Cue
    requires { number < 500 }
    ensures generated { IsGeneratedCue number result }
    ensures row { result.row ≡ row }
{
    let start = FIRST_START + CUE_DISTANCE * number;
    Cue {
        start,
        end: start + length(number),
        row,
        region: (number % 2) as u8,
        x: (5 * number % COLUMNS) as u16,
        y: (3 * number % LINES) as u16,
        picture: (number % PICTURES) as u32,
        see_through: number % 4 == 3,
    }
}

/// So many cues from that number on, from neighbouring records of the script.
fn cues(alloc: Global, first: u64, count: u64, row: u64) -> Result<Vec<Cue>, NoMemory>
    requires few { first + count ≤ 500 }
    requires row { row ≤ 1000 }
    ensures each { IfOk result
        (λ cues. AllZip IsGeneratedCue (range_with_len first count) cues.items) }
    ensures rows { IfOk result
        (λ cues. map (λ cue. cue.row) cues.items ≡ range_with_len row count) }
{
    let mut cues = Vec::new(alloc);
    for place in 0..count {
        cues.push(cue(first + place, row + place))?;
    }
    Ok(cues)
}

/// The regions of an epoch.
fn regions(alloc: Global) -> Result<Vec<Region>, NoMemory>
    ensures { IfOk result (λ regions.
        regions.items ≡ generated_region 0 ∷ generated_region 1 ∷ []) }
{
    Ok(Vec::from_slice(alloc, &REGIONS)?)
}

/// The epoch of that number in a script of so many cues. Its record and those of its cues are
/// numbered as in a file where the pictures stand before the epochs.
fn epoch(alloc: Global, cue_count: u64, number: u64) -> Result<Epoch, NoMemory>
    requires few { cue_count ≤ 500 }
    requires there { number < (cue_count + 15) / 16 }
    ensures { IfOk result (IsGeneratedEpoch cue_count number) }
{
    let first = EPOCH_CUES * number;
    let count = cue_count.min(first + EPOCH_CUES) - first;
    let row = HEAD_RECORDS + cue_count.min(PICTURES) + (EPOCH_RECORDS + EPOCH_CUES) * number + 1;
    let cues = cues(alloc, first, count, row + EPOCH_RECORDS)?;
    let regions = regions(alloc)?;
    Ok(Epoch {
        start: FIRST_START + EPOCH_DISTANCE * number,
        row,
        regions: Items::new(alloc, regions),
        colours: Items::new(alloc, Vec::new(alloc)),
        cues: Items::new(alloc, cues),
    })
}

/// The epochs of a script of so many cues.
pub(crate) fn epochs(alloc: Global, cues: u64) -> Result<Vec<Epoch>, NoMemory>
    requires { cues ≤ 500 }
    ensures { IfOk result (λ epochs.
        AllZip (IsGeneratedEpoch cues) (range_with_len 0 ((cues + 15) / 16)) epochs.items) }
{
    let mut epochs = Vec::new(alloc);
    for number in 0..cues.div_ceil(EPOCH_CUES) {
        epochs.push(epoch(alloc, cues, number)?)?;
    }
    Ok(epochs)
}
