ghost use Rattle.std.specs.Prelude.{◌≡◌, ℕ, ◌+◌, ◌^◌, ◌<◌, List, ◌++◌, map, length, OnOk, OnErr, IfOk};
ghost use Rattle.std.specs.List.{concat, flat_map};
ghost use Rattle.pixel_codes.specs.Lists.{Extends};
ghost use Rattle.stream_syntax.specs.Segments.{SegmentValue, spelled};
ghost use Rattle.page_epoch.specs.Sendable.{IsOfItsEpoch};
ghost use Rattle.set_coder.specs.KeptBlocks.{AreCoded};
ghost use Rattle.set_coder.specs.SetSegments.{AreSetSegments};
ghost use Rattle.set_coder.specs.SetSizes.{FitsPackets, IsSetAppended};
ghost use Rattle.set_coder.specs.Private.UnitParts.{AreUnitParts, part_packet};

use crate::coded_picture::{BlockLookup, KeptBlocks};
use crate::named::epoch_of;
use crate::set_objects::append_objects;
use crate::set_segments::{append_end, append_leading};
use crate::set_sizes::load_with;
use cue_list::Script;
use page_epoch::PlannedSet;
use pes_packets::{OTHER_BYTES, write_unit};
use std::alloc::Global;
use stream_syntax::TIME_ROUND;
use sub_base::NoMemory;

/// Appends the PES packets of a set, whose segments are of that page (EN 300 743, clauses 5 and 7):
/// the display definition where the set is not normal, the page, the regions, the CLUTs, the
/// objects and the end of the set, as many in each packet as it has room for. Together they have
/// `size_of` bytes. After want of memory `out` is as before.
pub fn write_set(
    script: &Script,
    set: &PlannedSet,
    page: u16,
    out: &mut Vec<u8>,
) -> Result<(), NoMemory>
    requires sendable { IsOfItsEpoch script.now set.now }
    requires fits { FitsPackets script.now set.now }
    ensures packets { OnOk result
        (IsSetAppended script.now page set.now out.old.items out.new.items) }
    ensures kept { OnErr result (out.new.items ≡ out.old.items) }
{
    write_with(&BlockLookup::nothing(), script, set, page, out)
}

impl KeptBlocks {
    /// What `write_set` does for a set of the script whose blocks these are.
    pub fn write_set(
        &self,
        script: &Script,
        set: &PlannedSet,
        page: u16,
        out: &mut Vec<u8>,
    ) -> Result<(), NoMemory>
        requires blocks { AreCoded script.now.pictures self.now.coded.items }
        requires sendable { IsOfItsEpoch script.now set.now }
        requires fits { FitsPackets script.now set.now }
        ensures packets { OnOk result
            (IsSetAppended script.now page set.now out.old.items out.new.items) }
        ensures kept { OnErr result (out.new.items ≡ out.old.items) }
    {
        write_with(&self.lookup(), script, set, page, out)
    }
}

/// Appends the PES packets of a set, with the blocks that are kept.
fn write_with(
    kept: &BlockLookup<'_>,
    script: &Script,
    set: &PlannedSet,
    page: u16,
    out: &mut Vec<u8>,
) -> Result<(), NoMemory>
    requires blocks { AreCoded script.now.pictures kept.now.coded.now }
    requires sendable { IsOfItsEpoch script.now set.now }
    requires fits { FitsPackets script.now set.now }
    ensures packets { OnOk result
        (IsSetAppended script.now page set.now out.old.items out.new.items) }
    ensures kept { OnErr result (out.new.items ≡ out.old.items) }
{
    let alloc = *out.allocator();
    // Measured again: this says where the units end, and how much room their segments need.
    let load = load_with(alloc, kept, script, set)?;
    let segments = segments_of(alloc, script, kept, set, page, load.load.size)?;
    write_units(
        // A PES packet has 33 bits for its time.
        set.pts % TIME_ROUND,
        load.units.as_slice(),
        segments.as_slice(),
        out,
    )
}

/// The bytes of the segments of a set, with room for that many.
fn segments_of(
    alloc: Global,
    script: &Script,
    kept: &BlockLookup<'_>,
    set: &PlannedSet,
    page: u16,
    room: u64,
) -> Result<Vec<u8>, NoMemory>
    requires blocks { AreCoded script.now.pictures kept.now.coded.now }
    requires sendable { IsOfItsEpoch script.now set.now }
    requires fits { FitsPackets script.now set.now }
    ensures { IfOk result
        (λ bytes. (segments : List SegmentValue) × AreSetSegments script.now page set.now segments
        × (bytes.items ≡ flat_map (spelled page) segments)) }
{
    let epoch = epoch_of(script, set);
    let mut bytes = Vec::with_capacity(alloc, room as usize)?;
    append_leading(script, epoch, page, set, &mut bytes)?;
    append_objects(script, kept, epoch, page, set.cues.as_slice(), &mut bytes)?;
    append_end(page, &mut bytes)?;
    Ok(bytes)
}

/// Appends a PES packet for each unit of these lengths, whose segments have the bytes that are
/// next. After want of memory
/// `out` is as before.
fn write_units(
    time: u64,
    lengths: &[u32],
    segments: &[u8],
    out: &mut Vec<u8>,
) -> Result<(), NoMemory>
    requires time { time < 2 ^ 33 }
    requires parts { (parts : List (List ℕ)) × AreUnitParts segments.now lengths.now parts }
    ensures packets { (parts : List (List ℕ)) → AreUnitParts segments.now lengths.now parts
        → OnOk result (out.new.items ≡ out.old.items ++ concat (map (part_packet time) parts)) }
    ensures kept { OnErr result (out.new.items ≡ out.old.items) }
{
    let before = out.len();
    let written = append_units(time, lengths, segments, out);
    if written.is_err() {
        out.truncate(before);
    }
    written
}

/// Appends a PES packet for each unit.
fn append_units(
    time: u64,
    lengths: &[u32],
    segments: &[u8],
    out: &mut Vec<u8>,
) -> Result<(), NoMemory>
    requires time { time < 2 ^ 33 }
    requires parts { (parts : List (List ℕ)) × AreUnitParts segments.now lengths.now parts }
    ensures packets { (parts : List (List ℕ)) → AreUnitParts segments.now lengths.now parts
        → OnOk result (out.new.items ≡ out.old.items ++ concat (map (part_packet time) parts)) }
    ensures extends { Extends out.old.items out.new.items }
{
    let mut left = segments;
    for length in lengths {
        let (unit, behind) = left.split_at(*length as usize - OTHER_BYTES as usize);
        write_unit(time, unit, out)?;
        left = behind;
    }
    Ok(())
}
