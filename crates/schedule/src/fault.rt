ghost use Rattle.std.specs.Prelude.{◌≡◌};
ghost use Rattle.schedule.specs.declared.fault.ScheduleFault.TheVariants.{Memory};

use std::alloc::{AllocError, AllocFailed};
use thiserror::Error;

/// Why display sets have no schedule. Sets are counted from 0.
#[derive(Clone, Copy, Debug, PartialEq, Eq, Error)]
pub enum ScheduleFault {
    /// No memory was found for the slots.
    #[error("out of memory")]
    Memory,
    /// The set has more bytes than the coded data buffer.
    #[error("set {set} has {size} bytes, more than the coded data buffer holds")]
    CodedFull { set: u64, size: u64 },
    /// The set is done after its presentation time, both in ticks of 90 kHz.
    #[error("set {set} is done at {done}, after it is to be shown at {pts}")]
    Late { set: u64, done: u64, pts: u64 },
    /// The set has a segment that is too long for a PES packet.
    #[error("set {set} has a segment of {longest} bytes, more than a PES packet has room for")]
    SegmentFull { set: u64, longest: u64 },
}

impl From<AllocError> for ScheduleFault {
    ghost from_gives = { λ _ fault. fault ≡ Memory };

    fn from(_error: AllocError) -> ScheduleFault {
        ScheduleFault::Memory
    }
}

impl<T: Drop> From<AllocFailed<T>> for ScheduleFault {
    ghost from_gives = { λ _ fault. fault ≡ Memory };

    fn from(_error: AllocFailed<T>) -> ScheduleFault {
        ScheduleFault::Memory
    }
}
