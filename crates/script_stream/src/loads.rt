ghost use Rattle.std.specs.Prelude.{All, IfOk};
ghost use Rattle.page_epoch.specs.Sendable.{IsOfItsEpoch};
ghost use Rattle.schedule.specs.Slots.{IsLoad};
ghost use Rattle.set_coder.specs.KeptBlocks.{AreCoded};
ghost use Rattle.shown_stream.specs.Compiled.{AreLoads};

use cue_list::Script;
use page_epoch::PlannedSet;
use set_coder::KeptBlocks;
use std::alloc::Global;
use sub_base::{NoMemory, WriteLoad};

/// What sending the sets of a plan takes.
pub fn loads_of(
    alloc: Global,
    script: &Script,
    kept: &KeptBlocks,
    sets: &[PlannedSet],
) -> Result<Vec<WriteLoad>, NoMemory>
    requires kept { AreCoded script.now.pictures kept.now.coded.items }
    requires sendable { All (IsOfItsEpoch script.now) sets.now }
    ensures loads { IfOk result (λ loads. AreLoads script.now sets.now loads.items) }
    ensures each { IfOk result (λ loads. All IsLoad loads.items) }
{
    let mut loads = Vec::new(alloc);
    for set in sets {
        loads.push(kept.load_of(script, set)?)?;
    }
    Ok(loads)
}
