ghost use Rattle.std.specs.Prelude.{◌≡◌, ◌≢◌, ◌+◌, ◌<◌, ◌^◌, ℕ, List, [], true, is_some, IfOk, IfErr, MatchResult};
ghost use Rattle.cue_list.specs.Private.HasRead.{HasRead};
ghost use Rattle.cue_list.specs.ScriptRows.{AnswersScriptFault, IsScriptFault, HasValues, IsScript};
ghost use Rattle.sub_base.specs.Picture.{Picture};
ghost use Rattle.std.specs.Prelude.{Err, None};
ghost use Rattle.cue_records.specs.declared.fault.ScriptKind.TheVariants.{Order};
ghost use Rattle.cue_list.specs.declared.fault.ScriptFault.TheVariants.{Memory, Refused};
ghost use Rattle.cue_list.specs.Past.{with_last};
ghost use Rattle.cue_list.specs.Sound.{IsSoundScript};

use crate::epoch::Epoch;
use crate::fault::ScriptFault;
use crate::reader::Reader;
use crate::script::{Pictures, Script};
use bitmap_font::Font;
use csv::ByteRecord;
use cue_records::{RecordFault, ScriptKind, next_row, reader_of};
use std::alloc::Global;
use sub_base::{Items, NoMemory, SECOND};

impl Script {
    /// Reads a cue script: CSV without a header, in records that are tested one after another, each
    /// by those before it. The texts of cues are set in `font`. The first faulty record is refused,
    /// by the first of its tests that fails; a script in which no epoch starts is refused at the
    /// record after its last.
    pub fn read(alloc: Global, bytes: &[u8], font: &Font) -> Result<Script, ScriptFault>
        ensures script { IfOk result
            (λ script. IsScript bytes.now font.now script.origin script.width script.height
            script.refresh script.epochs script.pictures) }
        ensures sound { IfOk result
            (λ script. IsSoundScript script.origin script.width script.height script.refresh
            script.epochs
            script.pictures) }
        ensures refused { IfErr result (IsScriptFault bytes.now font.now) }

        // But for want of memory each script is read, with its one list of values, and each faulty
        // file is refused, for its one fault.
        ensures every_script { (origin width height refresh : ℕ) (epochs : List Epoch)
            (pictures : List Picture)
            → IsScript bytes.now font.now origin width height refresh epochs pictures
            → MatchResult result (HasValues origin width height refresh epochs pictures)
            (λ fault. fault ≡ Memory) }
        ensures every_fault { (fault : ScriptFault) → IsScriptFault bytes.now font.now fault
            → fault ≢ Memory → AnswersScriptFault fault result }
    {
        script_of(alloc, bytes, font)
    }
}

/// The same, of all its records.
fn script_of(alloc: Global, bytes: &[u8], font: &Font) -> Result<Script, ScriptFault>
    ensures script { IfOk result
        (λ script. IsScript bytes.now font.now script.origin script.width script.height
        script.refresh script.epochs script.pictures) }
    ensures sound { IfOk result
        (λ script. IsSoundScript script.origin script.width script.height script.refresh
        script.epochs
        script.pictures) }
    ensures refused { IfErr result (IsScriptFault bytes.now font.now) }
{
    let reader = read_records(alloc, bytes, font)?;
    let refresh = SECOND * reader.seconds;
    let epochs = epochs_of(reader.ended, reader.epoch)?;
    Ok(Script {
        origin: reader.origin,
        width: reader.width,
        height: reader.height,
        refresh,
        epochs: Items::new(alloc, epochs),
        pictures: Pictures::new(alloc, reader.pictures),
    })
}

/// The epochs, with the last one.
fn epochs_of(ended: Vec<Epoch>, last: Option<Epoch>) -> Result<Vec<Epoch>, ScriptFault>
    ensures epochs { IfOk result (λ epochs. epochs.items ≡ with_last ended.items last) }
    ensures memory { IfErr result (λ fault. fault ≡ Memory) }
{
    let mut epochs = ended;
    if let Some(epoch) = last {
        match epochs.push(epoch) {
            Ok(()) => {}
            Err(_) => return Err(ScriptFault::Memory),
        }
    }
    Ok(epochs)
}

/// Reads the records of a script one after another, up to the first faulty one.
pub(crate) fn read_records(alloc: Global, bytes: &[u8], font: &Font) -> Result<Reader, ScriptFault>
    ensures read { IfOk result (HasRead bytes.now font.now []) }
    ensures epoch { IfOk result (λ reader. is_some reader.epoch ≡ true) }
    ensures refused { IfErr result (IsScriptFault bytes.now font.now) }
{
    let mut rows = reader_of(alloc, bytes);
    let mut row = ByteRecord::new(alloc);
    let mut reader = Reader::new(alloc);
    loop {
        match next_row(&mut rows, &mut row) {
            Err(NoMemory) => return Err(ScriptFault::Memory),
            Ok(false) => return whole(reader),
            Ok(true) => {}
        }
        // A record that is refused is not counted.
        let before = reader.rows;
        match reader.take(alloc, font, &row) {
            Err(RecordFault::Memory) => return Err(ScriptFault::Memory),
            Err(RecordFault::Wrong(kind)) => return refusal(before, kind),
            Ok(()) => {}
        }
    }
}

/// The reader, where an epoch was started.
fn whole(reader: Reader) -> Result<Reader, ScriptFault>
    requires { reader.rows + 1 < 2 ^ 64 }
    ensures read { IfOk result (λ whole. whole ≡ reader) }
    ensures epoch { IfOk result (λ whole. is_some whole.epoch ≡ true) }
    ensures none { IfErr result
        (λ fault. (reader.epoch ≡ None) × (fault ≡ Refused (reader.rows + 1) Order)) }
{
    if reader.epoch.is_none() {
        return Err(ScriptFault::Refused {
            row: reader.rows + 1,
            kind: ScriptKind::Order,
        });
    }
    Ok(reader)
}

/// The refusal of the record after that many.
fn refusal(before: u64, kind: ScriptKind) -> Result<Reader, ScriptFault>
    requires { before + 1 < 2 ^ 64 }
    ensures { result ≡ Err (Refused (before + 1) kind) }
{
    Err(ScriptFault::Refused {
        row: before + 1,
        kind,
    })
}
