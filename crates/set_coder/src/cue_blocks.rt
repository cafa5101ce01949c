ghost use Rattle.std.specs.Prelude.{◌≡◌, ◌+◌, ◌≤◌, ◌^◌, length, IfOk};
ghost use Rattle.stream_syntax.specs.PixelBlocks.{IsNoDeeper};
ghost use Rattle.stream_syntax.specs.FieldBlocks.{AreFieldBlocks, DrawsPicture};
ghost use Rattle.stream_syntax.specs.SegmentTests.{AreBlocks};
ghost use Rattle.page_epoch.specs.Sendable.{HasCue};
ghost use Rattle.set_coder.specs.KeptBlocks.{AreCoded};
ghost use Rattle.set_coder.specs.Private.BothBlocks.{AreBothBlocks};
ghost use Rattle.set_coder.specs.SetParts.{bytes_in};
ghost use Rattle.set_coder.specs.SetSegments.{depth_of_cue, picture_of_cue};
ghost use Rattle.set_coder.specs.Usable.{AreDrawable};

use crate::coded_picture::KeptBlocks;
use crate::named::{cue_at, epoch_region};
use cue_list::{Epoch, Script};
use indexed_picture::Indexed;
use picture_fields::{FieldLengths, write_fields};
use std::alloc::Global;
use std::marker::Model;
use sub_base::{Depth, NoMemory};

/// The pixel data blocks of the two fields of a cue's picture, for the depth of its region.
#[derive(Drop)]
pub struct CueBlocks<'a> {
    /// Where the top block ends.
    top: usize,
    bytes: BlockBytes<'a>,
}

/// The bytes of the blocks, one behind the other.
#[derive(Drop)]
pub enum BlockBytes<'a> {
    /// Blocks that are kept.
    Kept(&'a [u8]),
    /// Blocks of more bytes than are kept.
    Coded(Vec<u8>),
}

impl<'a> Model for CueBlocks<'a> {
    ghost use Rattle.std.specs.Prelude.{drop, take};
    ghost use Rattle.set_coder.specs.SetParts.{AreCueBlocks, TwoBlocks, bytes_in};

    ghost Value = { TwoBlocks };

    ghost view = { λ s. record {
      top = take s.top (bytes_in s.bytes);
      bottom = drop s.top (bytes_in s.bytes);
    } };

    ghost invariant = { λ s. AreCueBlocks s.top (bytes_in s.bytes) };
}

impl<'a> CueBlocks<'a> {
    /// The blocks of the top and of the bottom field; the bottom one has no bytes where the fields
    /// are equal.
    pub fn fields(&self) -> (&[u8], &[u8])
        ensures top { result.0.now ≡ self.now.top }
        ensures bottom { result.1.now ≡ self.now.bottom }
        ensures blocks { AreBlocks result.0.now result.1.now }
        ensures top_short { length result.0.now ≤ 2 ^ 32 }
        ensures bottom_short { length result.1.now ≤ 2 ^ 32 }
    {
        self.bytes.as_slice().split_at(self.top)
    }
}

impl<'a> BlockBytes<'a> {
    fn as_slice(&self) -> &[u8]
        ensures { result.now ≡ bytes_in self.now }
    {
        match self {
            BlockBytes::Kept(bytes) => bytes,
            BlockBytes::Coded(bytes) => bytes.as_slice(),
        }
    }
}

impl KeptBlocks {
    /// The blocks of the picture of a cue of an epoch: those that are kept, and coded anew where
    /// they have too many bytes to be kept.
    pub fn blocks_of(
        &self,
        script: &Script,
        epoch: &Epoch,
        place: u32,
    ) -> Result<CueBlocks<'_>, NoMemory>
        requires kept { AreCoded script.now.pictures self.now.coded.items }
        requires drawable { AreDrawable script.now.pictures epoch.now }
        requires cue { HasCue epoch.now place }
        ensures blocks { IfOk result
            (λ blocks. AreFieldBlocks (picture_of_cue script.now.pictures epoch.now place)
            (depth_of_cue epoch.now place) blocks.top blocks.bottom) }
        ensures drawn { IfOk result
            (λ blocks. DrawsPicture (picture_of_cue script.now.pictures epoch.now place)
            (depth_of_cue epoch.now place) blocks.top blocks.bottom) }
    {
        let cue = cue_at(epoch, place);
        let pictures = script.pictures.as_slice();
        let picture = &pictures[cue.picture as usize];
        let region = epoch_region(epoch, cue.region);
        match self
            .lookup()
            .find(pictures, picture, cue.picture, region.depth)
        {
            Some(coded) => Ok(both_blocks(
                picture,
                region.depth,
                coded.lengths,
                BlockBytes::Kept(coded.blocks.as_slice()),
            )),
            None => coded_blocks(*self.coded.allocator(), picture, region.depth),
        }
    }
}

/// Codes the blocks of a picture for a region of a depth.
fn coded_blocks<'a>(
    alloc: Global,
    picture: &Indexed,
    region: Depth,
) -> Result<CueBlocks<'a>, NoMemory>
    requires { IsNoDeeper picture.now.depth region }
    ensures blocks { IfOk result
        (λ blocks. AreFieldBlocks picture.now region blocks.top blocks.bottom) }
    ensures drawn { IfOk result
        (λ blocks. DrawsPicture picture.now region blocks.top blocks.bottom) }
{
    let mut blocks = Vec::new(alloc);
    let lengths = write_fields(picture, region, &mut blocks)?;
    Ok(both_blocks(picture, region, lengths, BlockBytes::Coded(blocks)))
}

/// The blocks of the picture's two fields, which stand one after the other. Picture and depth are
/// parameters for the contract, which says what the blocks are of.
fn both_blocks<'a>(
    _picture: &Indexed,
    _region: Depth,
    lengths: FieldLengths,
    bytes: BlockBytes<'a>,
) -> CueBlocks<'a>
    requires blocks { AreBothBlocks _picture.now _region (bytes_in bytes) lengths.top }
    requires whole { length (bytes_in bytes) ≡ lengths.top + lengths.bottom }
    ensures blocks { AreFieldBlocks _picture.now _region result.top result.bottom }
    ensures drawn { DrawsPicture _picture.now _region result.top result.bottom }
{
    CueBlocks {
        top: lengths.top as usize,
        bytes,
    }
}
