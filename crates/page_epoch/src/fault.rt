ghost use Rattle.std.specs.Prelude.{◌≡◌};
ghost use Rattle.page_epoch.specs.declared.fault.PlanFault.TheVariants.{Memory};

use std::alloc::{AllocError, AllocFailed};
use thiserror::Error;

/// Why a script has no plan for a receiver.
#[derive(Clone, Copy, Debug, PartialEq, Eq, Error)]
pub enum PlanFault {
    /// No memory was found.
    #[error("out of memory")]
    Memory,
    /// A side of the display is larger than the receiver's.
    #[error("the display of record {row} is larger than the profile's")]
    DisplayTooLarge { row: u64 },
    /// The regions of the set's epoch need more bytes of pixels than the receiver has.
    #[error("the set of record {row} needs {need} bytes of pixels, more than the receiver has")]
    PixelFull { row: u64, need: u64 },
    /// The set needs more nodes of composition memory than the receiver has.
    #[error("the set of record {row} needs {need} nodes, more than the receiver has")]
    CompositionFull { row: u64, need: u64 },
}

impl From<AllocError> for PlanFault {
    ghost from_gives = { λ _ fault. fault ≡ Memory };

    fn from(_error: AllocError) -> PlanFault {
        PlanFault::Memory
    }
}

impl<T: Drop> From<AllocFailed<T>> for PlanFault {
    ghost from_gives = { λ _ fault. fault ≡ Memory };

    fn from(_error: AllocFailed<T>) -> PlanFault {
        PlanFault::Memory
    }
}
