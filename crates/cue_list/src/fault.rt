use cue_records::ScriptKind;
use thiserror::Error;

/// Why a script was not read.
#[derive(Clone, Copy, Debug, PartialEq, Eq, Error)]
pub enum ScriptFault {
    /// No memory was found.
    #[error("out of memory")]
    Memory,
    /// The first faulty record, counted from 1, and the first of its tests that fails.
    #[error("record {row} of the script is refused: {kind}")]
    Refused { row: u64, kind: ScriptKind },
}
