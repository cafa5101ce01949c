ghost use Rattle.std.specs.Prelude.{◌≡◌, ℕ, List, All, length, map, IfOk};
ghost use Rattle.std.specs.List.{concat};
ghost use Rattle.page_epoch.specs.Sendable.{IsOfItsEpoch};
ghost use Rattle.set_coder.specs.KeptBlocks.{AreCoded};
ghost use Rattle.set_coder.specs.SetSegments.{AreSetPackets};
ghost use Rattle.set_coder.specs.SetSizes.{AreUnitSizes, FitsPackets};
ghost use Rattle.shown_stream.specs.Compiled.{all_units};
ghost use Rattle.slot_stream.specs.SlotStream.{IsPiece, all_pieces};
ghost use Rattle.script_stream.specs.Private.SetUnits.{AreCut, AreWritten};

use cue_list::Script;
use page_epoch::PlannedSet;
use set_coder::KeptBlocks;
use slot_stream::{Piece, push_units};
use std::alloc::Global;
use sub_base::{Items, NoMemory, WriteLoad};

/// The PES packets of a set, one after the other.
pub type SetUnits = Items<u8>;

/// The PES packets of the sets of a plan, whose segments are of that page.
pub fn units_of(
    alloc: Global,
    script: &Script,
    kept: &KeptBlocks,
    sets: &[PlannedSet],
    page: u16,
) -> Result<Vec<SetUnits>, NoMemory>
    requires kept { AreCoded script.now.pictures kept.now.coded.items }
    requires sendable { All (IsOfItsEpoch script.now) sets.now }
    requires fit { All (FitsPackets script.now) sets.now }
    ensures { IfOk result
        (λ written. (units : List (List (List ℕ)))
        × AreWritten script.now page sets.now written.items units) }
{
    let mut written = Vec::new(alloc);
    for set in sets {
        written.push(set_units(alloc, script, kept, set, page)?)?;
    }
    Ok(written)
}

/// The PES packets of a set.
fn set_units(
    alloc: Global,
    script: &Script,
    kept: &KeptBlocks,
    set: &PlannedSet,
    page: u16,
) -> Result<SetUnits, NoMemory>
    requires kept { AreCoded script.now.pictures kept.now.coded.items }
    requires sendable { IsOfItsEpoch script.now set.now }
    requires fits { FitsPackets script.now set.now }
    ensures { IfOk result (λ bytes. (packets : List (List ℕ)) × (bytes ≡ concat packets)
        × AreSetPackets script.now page set.now packets
        × AreUnitSizes script.now set.now (map length packets)) }
{
    let mut bytes = Vec::new(alloc);
    kept.write_set(script, set, page, &mut bytes)?;
    Ok(Items::new(alloc, bytes))
}

/// The pieces of all PES packets of all sets, in order, where each set has as many packets of such
/// lengths as its load says.
pub fn pieces_of<'a>(
    alloc: Global,
    loads: &[WriteLoad],
    written: &'a [SetUnits],
) -> Result<Vec<Piece<'a>>, NoMemory>
    requires many { length loads.now ≡ length written.now }
    requires cut { (units : List (List (List ℕ))) × AreCut loads.now written.now units }
    ensures pieces { IfOk result (λ pieces. (units : List (List (List ℕ)))
        → AreCut loads.now written.now units → pieces.items ≡ all_pieces (all_units units)) }
    ensures each { IfOk result (λ pieces. All IsPiece pieces.items) }
{
    let mut pieces = Vec::new(alloc);
    for i in 0..written.len() {
        push_units(
            loads[i].units.as_slice(),
            written[i].as_slice(),
            &mut pieces,
        )?;
    }
    Ok(pieces)
}
