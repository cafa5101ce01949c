ghost use Rattle.std.specs.Prelude.{◌≡◌, ◌≤◌, ◌^◌, All, IfOk, length};
ghost use Rattle.cue_records.specs.declared.limits.TheConstants.{MOST_CUES};
ghost use Rattle.page_epoch.specs.Sendable.{HasCue, IsOfItsEpoch};
ghost use Rattle.set_coder.specs.KeptBlocks.{AreCoded};
ghost use Rattle.set_coder.specs.Usable.{AreDrawable};
ghost use Rattle.stream_syntax.specs.SegmentTests.{AreBlocks};
ghost use Rattle.page_pair.specs.Private.Objects.{AreAt, IsAt, IsReady};

use cue_list::{Epoch, Script};
use page_epoch::PlannedSet;
use set_coder::{CueBlocks, KeptBlocks, epoch_of};
use std::alloc::Global;
use std::marker::Model;
use sub_base::NoMemory;

/// The object of a cue of a set.
#[derive(Drop)]
pub(crate) struct SetObject<'a> {
    /// The place of the cue in its epoch.
    pub(crate) cue: u16,
    pub(crate) see_through: bool,
    blocks: CueBlocks<'a>,
}

impl<'a> Model for SetObject<'a> {
    ghost use Rattle.page_pair.specs.PairSets.{CueObject};

    ghost Value = { CueObject };

    ghost view = { λ s. record {
      cue = s.cue;
      see_through = s.see_through;
      top = s.blocks.top;
      bottom = s.blocks.bottom;
    } };
}

impl<'a> SetObject<'a> {
    /// The blocks of the top and of the bottom field.
    pub(crate) fn fields(&self) -> (&[u8], &[u8])
        ensures top { result.0.now ≡ self.now.top }
        ensures bottom { result.1.now ≡ self.now.bottom }
        ensures blocks { AreBlocks result.0.now result.1.now }
        ensures short { length result.0.now ≤ 2 ^ 32 }
        ensures short_bottom { length result.1.now ≤ 2 ^ 32 }
    {
        self.blocks.fields()
    }
}

/// One language of a pair: a set of its plan, with the set's epoch and its objects.
#[derive(Drop)]
pub(crate) struct Language<'a> {
    pub(crate) script: &'a Script,
    pub(crate) set: &'a PlannedSet,
    pub(crate) epoch: &'a Epoch,
    pub(crate) objects: Vec<SetObject<'a>>,
}

impl<'a> Model for Language<'a> {
    ghost use Rattle.page_pair.specs.PairSets.{Side};

    ghost Value = { Side };

    ghost view = { λ s. record {
      script = s.script.now;
      set = s.set.now;
      epoch = s.epoch.now;
      objects = s.objects.items;
    } };
}

impl<'a> Language<'a> {
    /// A set of a script, with the blocks that are kept of its pictures.
    #[tactic(auto, using(crate::proofs::ObjectLaws::side_ready))]
    pub(crate) fn of(
        alloc: Global,
        script: &'a Script,
        kept: &'a KeptBlocks,
        set: &'a PlannedSet,
    ) -> Result<Language<'a>, NoMemory>
        requires kept { AreCoded script.now.pictures kept.now.coded.items }
        requires sendable { IsOfItsEpoch script.now set.now }
        ensures ready { IfOk result IsReady }
        ensures script { IfOk result (λ side. side.script ≡ script.now) }
        ensures set { IfOk result (λ side. side.set ≡ set.now) }
    {
        let epoch = epoch_of(script, set);
        let objects = objects_of(alloc, script, kept, epoch, set.cues.as_slice())?;
        Ok(Language {
            script,
            set,
            epoch,
            objects,
        })
    }
}

/// The objects of cues.
#[tactic(auto, using(crate::proofs::ObjectLaws::at_more, crate::proofs::ObjectLaws::at_all))]
fn objects_of<'a>(
    alloc: Global,
    script: &Script,
    kept: &'a KeptBlocks,
    epoch: &Epoch,
    cues: &[u32],
) -> Result<Vec<SetObject<'a>>, NoMemory>
    requires kept { AreCoded script.now.pictures kept.now.coded.items }
    requires drawable { AreDrawable script.now.pictures epoch.now }
    requires few { length epoch.now.cues ≤ MOST_CUES }
    requires each { All (HasCue epoch.now) cues.now }
    ensures { IfOk result
        (λ objects. AreAt script.now.pictures epoch.now cues.now objects.items) }
{
    let mut objects = Vec::with_capacity(alloc, cues.len())?;
    for place in cues {
        objects.push(object_of(script, kept, epoch, *place)?)?;
    }
    Ok(objects)
}

/// The object of a cue.
fn object_of<'a>(
    script: &Script,
    kept: &'a KeptBlocks,
    epoch: &Epoch,
    place: u32,
) -> Result<SetObject<'a>, NoMemory>
    requires kept { AreCoded script.now.pictures kept.now.coded.items }
    requires drawable { AreDrawable script.now.pictures epoch.now }
    requires few { length epoch.now.cues ≤ MOST_CUES }
    requires cue { HasCue epoch.now place }
    ensures { IfOk result (IsAt script.now.pictures epoch.now place) }
{
    let see_through = epoch.cues.as_slice()[place as usize].see_through;
    let blocks = kept.blocks_of(script, epoch, place)?;
    Ok(SetObject {
        // An epoch has at most 4,096 cues.
        cue: place as u16,
        see_through,
        blocks,
    })
}
