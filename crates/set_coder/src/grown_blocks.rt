ghost use Rattle.std.specs.Prelude.{◌≡◌, ◌++◌, [], List, length, take, IfOk, OnErr, OnOk};
ghost use Rattle.sub_base.specs.Picture.{Picture};
ghost use Rattle.set_coder.specs.GrownBlocks.{AreBlocksOf, IsGrownFrom};
ghost use Rattle.set_coder.specs.KeptBlocks.{AreKept};
ghost use Rattle.set_coder.specs.Private.Keeping.{HasGrown, StaysInFront};

use crate::coded_picture::{KeptBlocks, Slots};
use cue_list::Script;
use std::alloc::Global;
use sub_base::NoMemory;

/// How much was kept before further pictures were.
#[derive(Clone, Copy, Debug, PartialEq, Eq)]
pub struct BlocksBefore {
    /// The pictures that had slots.
    pictures: usize,
    /// What was coded, a picture once for each depth of the regions that show it.
    blocks: usize,
}

impl KeptBlocks {
    /// Of no picture. Takes no memory.
    pub fn none(alloc: Global) -> KeptBlocks
        ensures { AreBlocksOf [] result }
    {
        KeptBlocks {
            slots: Vec::new(alloc),
            coded: Vec::new(alloc),
        }
    }

    /// Codes the pictures that the cues of a script show and of which no blocks are kept yet. The
    /// script goes on from one whose pictures' blocks these are: its first pictures are those.
    /// Answers the way back; after want of memory what was kept stands. As with `of_script`, no
    /// blocks are kept of more bytes than the largest coded data buffer has.
    pub fn grow(&mut self, script: &Script) -> Result<BlocksBefore, NoMemory>
        requires goes_on { (pictures : List Picture) × (more : List Picture)
            × AreBlocksOf pictures self.old × (script.now.pictures ≡ pictures ++ more) }
        ensures blocks { OnOk result (AreBlocksOf script.now.pictures self.new) }
        ensures kept { OnOk result (AreKept script.now self.new.coded.items) }
        ensures back { IfOk result (λ before. (pictures more : List Picture)
            → AreBlocksOf pictures self.old → script.now.pictures ≡ pictures ++ more
            → IsGrownFrom pictures self.new before) }
        ensures front { IfOk result (λ before.
            take before.blocks self.new.coded.items ≡ self.old.coded.items) }
        ensures same { OnErr result ((pictures : List Picture)
            → AreBlocksOf pictures self.old → AreBlocksOf pictures self.new) }
        ensures unchanged { OnErr result (self.new.coded.items ≡ self.old.coded.items) }
    {
        let before = self.counts();
        match self.keep_more(script) {
            Ok(()) => Ok(before),
            Err(NoMemory) => {
                self.cut(before);
                Err(NoMemory)
            }
        }
    }

    /// Goes back to what was kept before. Takes no memory.
    pub fn go_back(&mut self, before: BlocksBefore)
        ensures { (pictures : List Picture) → IsGrownFrom pictures self.old before
            → AreBlocksOf pictures self.new }
    {
        self.cut(before);
    }

    /// How much is kept.
    fn counts(&self) -> BlocksBefore
        ensures pictures { result.pictures ≡ length self.now.slots.items }
        ensures blocks { result.blocks ≡ length self.now.coded.items }
    {
        BlocksBefore {
            pictures: self.slots.len(),
            blocks: self.coded.len(),
        }
    }

    /// Leaves as much as was kept before.
    fn cut(&mut self, before: BlocksBefore)
        ensures coded { self.new.coded.items ≡ take before.blocks self.old.coded.items }
        ensures slots { self.new.slots.items ≡ take before.pictures self.old.slots.items }
    {
        self.coded.truncate(before.blocks);
        // Slots that are left may lead to blocks that are gone: they are a hint.
        self.slots.truncate(before.pictures);
    }

    /// Gives the script's further pictures their slots, and codes what is not kept yet. After want
    /// of memory a part of it is kept.
    fn keep_more(&mut self, script: &Script) -> Result<(), NoMemory>
        requires goes_on { (pictures : List Picture) × (more : List Picture)
            × AreBlocksOf pictures self.old × (script.now.pictures ≡ pictures ++ more) }
        ensures blocks { OnOk result (AreBlocksOf script.now.pictures self.new) }
        ensures kept { OnOk result (AreKept script.now self.new.coded.items) }
        ensures grown { HasGrown self.old self.new }
    {
        self.slots.resize(script.pictures.len(), Slots::none())?;
        self.keep_epochs(script)
    }

    /// Keeps the blocks of the pictures that the cues of all epochs show. After want of memory some
    /// of them are kept.
    #[tactic(auto, using(crate::proofs::GrownBlockLaws::stays_here))]
    fn keep_epochs(&mut self, script: &Script) -> Result<(), NoMemory>
        requires { AreBlocksOf script.now.pictures self.old }
        ensures blocks { AreBlocksOf script.now.pictures self.new }
        ensures kept { OnOk result (AreKept script.now self.new.coded.items) }
        ensures front { StaysInFront self.old.coded.items self.new.coded.items }
    {
        for epoch in script.epochs.as_slice() {
            self.keep_epoch(script.pictures.as_slice(), epoch)?;
        }
        Ok(())
    }
}
