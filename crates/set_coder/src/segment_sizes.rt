ghost use Rattle.std.specs.Prelude.{◌≡◌, ℕ, ◌≤◌, [], List, length, IfSome, IfNone, option_to_list};
ghost use Rattle.cue_records.specs.declared.limits.TheConstants.{MOST_COLOURS, MOST_CUES};
ghost use Rattle.pes_packets.specs.Units.{IsSegmentLength};
ghost use Rattle.page_epoch.specs.Sendable.{HasCue, IsOfItsEpoch};
ghost use Rattle.set_coder.specs.KeptBlocks.{AreCoded};
ghost use Rattle.set_coder.specs.SetSizes.{display_sizes, region_size, clut_size, IsObjectSize, AreSegmentSizes};
ghost use Rattle.set_coder.specs.Private.SizesLeft.{AreSizesLeft, IsMeasurable, IsNextSize, segments_left};
ghost use Rattle.set_coder.specs.Usable.{AreDrawable};

use crate::coded_picture::BlockLookup;
use crate::named::{cue_at, epoch_of, epoch_region};
use cue_list::{Epoch, Script};
use page_epoch::{PlannedSet, SentClut, SentRegion, State};
use segments::{DISPLAY_SIZE, END_SIZE};

/// The segments of a set that are not measured yet. None is written: the blocks of objects are
/// measured as they would be.
#[derive(Drop)]
pub(crate) struct SegmentSizes<'a> {
    script: &'a Script,
    kept: &'a BlockLookup<'a>,
    epoch: &'a Epoch,
    /// The bytes of the display definition, where there is one and it is left.
    display: Option<u32>,
    page: Option<u32>,
    regions: &'a [SentRegion],
    cluts: &'a [SentClut],
    cues: &'a [u32],
    end: Option<u32>,
}

impl<'a> SegmentSizes<'a> {
    /// All segments of a set.
    pub(crate) fn of_set(
        script: &'a Script,
        kept: &'a BlockLookup<'a>,
        set: &'a PlannedSet,
    ) -> SegmentSizes<'a>
        requires kept { AreCoded script.now.pictures kept.now.coded.now }
        requires set { IsOfItsEpoch script.now set.now }
        ensures measurable { IsMeasurable result }
        ensures all { (sizes : List ℕ) → AreSizesLeft result sizes
            → AreSegmentSizes script.now set.now sizes }
        ensures few { segments_left result ≤ 5000 }
    {
        SegmentSizes {
            script,
            kept,
            epoch: epoch_of(script, set),
            display: display_size(set.state),
            page: Some(segments::page_size(set.shown.len()) as u32),
            regions: set.regions.as_slice(),
            cluts: set.cluts.as_slice(),
            cues: set.cues.as_slice(),
            end: Some(END_SIZE as u32),
        }
    }

    /// The bytes of the next segment; none after the last one.
    pub(crate) fn next_size(&mut self) -> Option<u32>
        requires { IsMeasurable self.old }
        ensures next { IfSome result (λ size. IsNextSize self.old self.new size) }
        ensures last { IfNone result (AreSizesLeft self.old []) }
    {
        if let Some(size) = self.display.take() {
            return Some(size);
        }
        if let Some(size) = self.page.take() {
            return Some(size);
        }
        if let Some((sent, rest)) = self.regions.split_first() {
            self.regions = rest;
            return Some(region_size(sent));
        }
        if let Some((sent, rest)) = self.cluts.split_first() {
            self.cluts = rest;
            return Some(clut_size(sent));
        }
        if let Some((place, rest)) = self.cues.split_first() {
            self.cues = rest;
            return Some(object_size(self.script, self.kept, self.epoch, *place));
        }
        self.end.take()
    }
}

/// The bytes of the display definition, which a normal set does not have.
fn display_size(state: State) -> Option<u32>
    ensures size { display_sizes state ≡ option_to_list result }
    ensures fits { IfSome result IsSegmentLength }
{
    match state {
        State::Normal => None,
        State::Acquisition | State::ModeChange => Some(DISPLAY_SIZE as u32),
    }
}

/// The bytes of a region with its listings.
fn region_size(sent: &SentRegion) -> u32
    requires { length sent.now.cues ≤ MOST_CUES }
    ensures { result ≡ region_size sent.now }
{
    segments::region_size(sent.cues.len()) as u32
}

/// The bytes of a CLUT with its entries.
fn clut_size(sent: &SentClut) -> u32
    requires { length sent.now.rows ≤ MOST_COLOURS }
    ensures { result ≡ clut_size sent.now }
{
    segments::clut_size(sent.rows.len()) as u32
}

/// The bytes of the object of a cue.
fn object_size(script: &Script, kept: &BlockLookup<'_>, epoch: &Epoch, place: u32) -> u32
    requires kept { AreCoded script.now.pictures kept.now.coded.now }
    requires drawable { AreDrawable script.now.pictures epoch.now }
    requires cue { HasCue epoch.now place }
    ensures size { IsObjectSize script.now.pictures epoch.now place result }
    ensures fits { IsSegmentLength result }
{
    let cue = cue_at(epoch, place);
    let picture = &script.pictures.as_slice()[cue.picture as usize];
    let region = epoch_region(epoch, cue.region);
    let sizes = kept.field_sizes(
        script.pictures.as_slice(),
        picture,
        cue.picture,
        region.depth,
    );
    segments::object_size(sizes.top as usize, sizes.bottom as usize) as u32
}
