ghost use Rattle.cue_list.specs.Private.Standing.{IsBefore, IsLent};
ghost use Rattle.cue_list.specs.Private.State.{IsReader};

use crate::reader::Reader;
use crate::script::Script;

/// A reader that takes the records of a script one after another, as they come.
#[derive(Drop)]
pub struct ScriptReader {
    pub(crate) kept: Reader,
    /// What is true of each reader.
    pub(crate) ghost valid: { IsReader kept },
}

/// Where a reader stood before a record.
#[derive(Drop)]
pub struct RowBefore {
    /// What was kept, but for the pictures.
    pub(crate) kept: Reader,
    /// How many pictures there were.
    pub(crate) count: usize,
    /// What is true of it.
    pub(crate) ghost valid: { IsBefore kept count },
}

/// The script of the records that a reader took, lent out of it: no picture is copied.
#[derive(Drop)]
pub struct LentScript {
    pub(crate) script: Script,
    /// What the reader keeps, but for the pictures.
    pub(crate) kept: Reader,
    /// What is true of it.
    pub(crate) ghost valid: { IsLent kept script.pictures },
}
