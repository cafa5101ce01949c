ghost use Rattle.std.specs.Prelude.{◌≡◌, List, true, is_some, IfOk, OnErr};
ghost use Rattle.bitmap_font.specs.Font.{FontValue};
ghost use Rattle.cue_list.specs.Past.{with_last};
ghost use Rattle.cue_list.specs.Private.State.{IsReader};
ghost use Rattle.cue_list.specs.Private.Taken.{kept_of};
ghost use Rattle.cue_list.specs.SeenReaders.{lent_seen, script_in, seen_of};
ghost use Rattle.cue_records.specs.Rows.{Row};
ghost use Rattle.cue_list.specs.TakenRows.{IsScriptOf, StandsFor, numbered};

use crate::copies::{epoch_copy, epochs_copy};
use crate::epoch::Epoch;
use crate::kept_rows::{LentScript, ScriptReader};
use crate::reader::Reader;
use crate::script::{Pictures, Script};
use std::alloc::Global;
use std::mem;
use sub_base::{Items, NoMemory, SECOND};

impl ScriptReader {
    /// Lends the script of the records so far, in which an epoch was started. After want of memory
    /// the reader is as before.
    pub fn lend(&mut self, alloc: Global) -> Result<LentScript, NoMemory>
        requires epoch { is_some (seen_of self.old).past.epoch ≡ true }
        requires stands { ∥ ((font : FontValue) × (rows : List Row)
            × StandsFor font rows (seen_of self.old)) ∥₁ }
        ensures script { IfOk result (λ lent. (font : FontValue) (rows : List Row)
            → StandsFor font rows (seen_of self.old)
            → IsScriptOf font (numbered rows) (script_in lent)) }
        ensures lent { IfOk result (λ lent. lent_seen lent ≡ seen_of self.old) }
        ensures kept { OnErr result (seen_of self.new ≡ seen_of self.old) }
    {
        let epochs = all_epochs(alloc, &self.kept)?;
        let kept = mem::replace(&mut self.kept, Reader::new(alloc));
        Ok(lent_of(alloc, kept, epochs))
    }
}

/// The script of what a reader keeps, whose epochs are these.
fn lent_of(alloc: Global, kept: Reader, epochs: Vec<Epoch>) -> LentScript
    requires reader { IsReader kept }
    requires epoch { is_some kept.epoch ≡ true }
    requires stands { ∥ ((font : FontValue) × (rows : List Row)
        × StandsFor font rows (kept_of kept)) ∥₁ }
    requires epochs { epochs.items ≡ with_last kept.ended.items kept.epoch }
    ensures script { (font : FontValue) (rows : List Row) → StandsFor font rows (kept_of kept)
        → IsScriptOf font (numbered rows) (script_in result) }
    ensures lent { lent_seen result ≡ kept_of kept }
{
    let mut kept = kept;
    let pictures = mem::replace(&mut kept.pictures, Vec::new(alloc));
    let script = Script {
        origin: kept.origin,
        width: kept.width,
        height: kept.height,
        refresh: SECOND * kept.seconds,
        epochs: Items::new(alloc, epochs),
        pictures: Pictures::new(alloc, pictures),
    };
    LentScript { script, kept }
}

/// The epochs that a reader keeps, with the last one, in memory of their own.
fn all_epochs(alloc: Global, kept: &Reader) -> Result<Vec<Epoch>, NoMemory>
    ensures { IfOk result (λ epochs. epochs.items ≡ with_last kept.now.ended.items kept.now.epoch) }
{
    let mut epochs = epochs_copy(alloc, kept.ended.as_slice())?;
    if let Some(epoch) = &kept.epoch {
        epochs.push(epoch_copy(alloc, epoch)?)?;
    }
    Ok(epochs)
}

impl LentScript {
    /// The script.
    pub fn script(&self) -> &Script
        ensures { result.now ≡ script_in self.now }
    {
        &self.script
    }

    /// The reader that lent it.
    pub fn give_back(self) -> ScriptReader
        ensures { seen_of result ≡ lent_seen self }
    {
        let mut kept = self.kept;
        kept.pictures = self.script.pictures.into_vec();
        ScriptReader { kept }
    }
}
