ghost use Rattle.std.specs.Prelude.{◌≡◌, ℕ, ◌+◌, ◌≤◌, ◌++◌, List, length, All, OnOk, OnErr};
ghost use Rattle.std.specs.List.{flat_map};
ghost use Rattle.cue_records.specs.declared.limits.TheConstants.{MOST_CUES};
ghost use Rattle.segments.specs.Sizes.{object_size};
ghost use Rattle.stream_syntax.specs.FieldBlocks.{AreFieldBlocks, DrawsPicture};
ghost use Rattle.stream_syntax.specs.SegmentTests.{AreBlocks};
ghost use Rattle.stream_syntax.specs.Segments.{SegmentValue, spelled, IsWritable};
ghost use Rattle.page_epoch.specs.Sendable.{HasCue};
ghost use Rattle.set_coder.specs.Private.BothBlocks.{AreBothBlocks};
ghost use Rattle.set_coder.specs.SetSegments.{object_segment, IsObjectOf, AreObjectsOf};
ghost use Rattle.set_coder.specs.SetSizes.{IsObjectSize, AreObjectSizes};
ghost use Rattle.set_coder.specs.Usable.{AreDrawable};
ghost use Rattle.set_coder.specs.KeptBlocks.{AreCoded};
ghost use Rattle.sub_base.specs.declared.load.TheConstants.{UNIT_ROOM};

use crate::coded_picture::BlockLookup;
use crate::named::{cue_at, epoch_region};
use cue_list::{Epoch, Script};
use indexed_picture::Indexed;
use segments::{ObjectSeg, SegmentOut, write_segment};
use sub_base::{Depth, NoMemory, UNIT_ROOM};

/// Appends the objects of cues.
pub(crate) fn append_objects(
    script: &Script,
    kept: &BlockLookup<'_>,
    epoch: &Epoch,
    page: u16,
    cues: &[u32],
    field: &mut Vec<u8>,
) -> Result<(), NoMemory>
    requires kept { AreCoded script.now.pictures kept.now.coded.now }
    requires drawable { AreDrawable script.now.pictures epoch.now }
    requires few { length epoch.now.cues ≤ MOST_CUES }
    requires each { All (HasCue epoch.now) cues.now }
    requires room { (sizes : List ℕ)
        × AreObjectSizes script.now.pictures epoch.now cues.now sizes
        × All (λ size. size ≤ UNIT_ROOM) sizes }
    ensures objects { OnOk result
        ((objects : List SegmentValue)
        × AreObjectsOf script.now.pictures epoch.now cues.now objects
        × All (IsWritable page) objects
        × (field.new.items ≡ field.old.items ++ flat_map (spelled page) objects)) }
{
    for place in cues {
        append_object(script, kept, epoch, page, *place, field)?;
    }
    Ok(())
}

/// Appends the object of a cue.
fn append_object(
    script: &Script,
    kept: &BlockLookup<'_>,
    epoch: &Epoch,
    page: u16,
    place: u32,
    field: &mut Vec<u8>,
) -> Result<(), NoMemory>
    requires kept { AreCoded script.now.pictures kept.now.coded.now }
    requires drawable { AreDrawable script.now.pictures epoch.now }
    requires few { length epoch.now.cues ≤ MOST_CUES }
    requires cue { HasCue epoch.now place }
    requires room { (size : ℕ) × IsObjectSize script.now.pictures epoch.now place size
        × (size ≤ UNIT_ROOM) }
    ensures object { OnOk result
        ((object : SegmentValue) × IsObjectOf script.now.pictures epoch.now place object
        × IsWritable page object × (field.new.items ≡ field.old.items ++ spelled page object)) }
    ensures kept { OnErr result (field.new.items ≡ field.old.items) }
{
    let cue = cue_at(epoch, place);
    let picture = &script.pictures.as_slice()[cue.picture as usize];
    let region = epoch_region(epoch, cue.region);
    // Apart from the segment, whose head has the lengths of both blocks.
    let mut blocks = Vec::new(*field.allocator());
    let lengths = kept.write_fields(
        script.pictures.as_slice(),
        picture,
        cue.picture,
        region.depth,
        &mut blocks,
    )?;
    let (top, bottom) = fields_of(
        picture,
        region.depth,
        blocks.as_slice(),
        lengths.top as usize,
    );
    append_blocks(page, place as u16, cue.see_through, top, bottom, field)
}

/// The blocks of the picture's two fields, which stand one after the other.
fn fields_of<'a>(
    _picture: &Indexed,
    _region: Depth,
    blocks: &'a [u8],
    top: usize,
) -> (&'a [u8], &'a [u8])
    requires { AreBothBlocks _picture.now _region blocks.now top }
    ensures fields { AreFieldBlocks _picture.now _region result.0.now result.1.now }
    ensures drawn { DrawsPicture _picture.now _region result.0.now result.1.now }
    ensures blocks { AreBlocks result.0.now result.1.now }
    ensures top { length result.0.now ≡ top }
    ensures whole { length result.0.now + length result.1.now ≡ length blocks.now }
{
    // The picture and the depth are parameters for the contract, which says what the blocks are of.
    blocks.split_at(top)
}

/// Appends an object of that number with the blocks of its two fields.
pub fn append_blocks(
    page: u16,
    object: u16,
    see_through: bool,
    top: &[u8],
    bottom: &[u8],
    field: &mut Vec<u8>,
) -> Result<(), NoMemory>
    requires blocks { AreBlocks top.now bottom.now }
    requires short { object_size (length top.now) (length bottom.now) ≤ UNIT_ROOM }
    ensures fits { IsWritable page (object_segment object see_through top.now bottom.now) }
    ensures bytes { OnOk result
        (field.new.items ≡ field.old.items
        ++ spelled page (object_segment object see_through top.now bottom.now)) }
    ensures kept { OnErr result (field.new.items ≡ field.old.items) }
{
    let object = ObjectSeg {
        object,
        version: 0,
        see_through,
        top,
        bottom,
    };
    write_segment(page, &SegmentOut::Object(object), field)
}
