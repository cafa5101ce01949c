ghost use Rattle.std.specs.Prelude.{◌≡◌};
ghost use Rattle.cue_records.specs.declared.record_fault.RecordFault.TheVariants.{Memory, Wrong};

use crate::fault::ScriptKind;
use std::alloc::{AllocError, AllocFailed};
use sub_base::NoMemory;
use thiserror::Error;

/// Why a record was not taken.
#[derive(Clone, Copy, Debug, PartialEq, Eq, Error)]
pub enum RecordFault {
    /// No memory was found.
    #[error("out of memory")]
    Memory,
    /// The first of its tests that fails.
    #[error("{0}")]
    Wrong(ScriptKind),
}

impl From<ScriptKind> for RecordFault {
    ghost from_gives = { λ kind fault. fault ≡ Wrong kind };

    fn from(kind: ScriptKind) -> RecordFault {
        RecordFault::Wrong(kind)
    }
}

impl From<AllocError> for RecordFault {
    ghost from_gives = { λ _ fault. fault ≡ Memory };

    fn from(_error: AllocError) -> RecordFault {
        RecordFault::Memory
    }
}

impl<T: Drop> From<AllocFailed<T>> for RecordFault {
    ghost from_gives = { λ _ fault. fault ≡ Memory };

    fn from(_error: AllocFailed<T>) -> RecordFault {
        RecordFault::Memory
    }
}

impl From<NoMemory> for RecordFault {
    ghost from_gives = { λ _ fault. fault ≡ Memory };

    fn from(_error: NoMemory) -> RecordFault {
        RecordFault::Memory
    }
}
