ghost use Rattle.std.specs.Prelude.{◌≡◌};
ghost use Rattle.sub_base.specs.declared.faults.ReadAllFault.TheVariants.{Memory};

use std::alloc::{AllocError, AllocFailed};
use thiserror::Error;

/// No memory was found: the one answer without a cause that a caller can know.
#[derive(Clone, Copy, Debug, PartialEq, Eq, Error)]
#[error("out of memory")]
pub struct NoMemory;

impl From<AllocError> for NoMemory {
    fn from(_error: AllocError) -> NoMemory {
        NoMemory
    }
}

impl<T: Drop> From<AllocFailed<T>> for NoMemory {
    fn from(_error: AllocFailed<T>) -> NoMemory {
        NoMemory
    }
}

/// A source could not be read. Its count of faults tells so.
#[derive(Clone, Copy, Debug, PartialEq, Eq, Error)]
#[error("the source could not be read")]
pub struct ReadFailed;

/// A sink could not be written. Its count of faults tells so.
#[derive(Clone, Copy, Debug, PartialEq, Eq, Error)]
#[error("the sink could not be written")]
pub struct WriteFailed;

/// Why a source was not read whole.
#[derive(Clone, Copy, Debug, PartialEq, Eq, Error)]
pub enum ReadAllFault {
    /// No memory was found for the bytes.
    #[error("out of memory")]
    Memory,
    /// A read failed. The count of faults of the source rose.
    #[error("the source could not be read")]
    Read,
    /// The source gave more bytes than the limit.
    #[error("the source has more bytes than its limit")]
    TooLong,
}

impl From<AllocError> for ReadAllFault {
    ghost from_gives = { λ _ fault. fault ≡ Memory };

    fn from(_error: AllocError) -> ReadAllFault {
        ReadAllFault::Memory
    }
}
