ghost use Rattle.std.specs.Prelude.{◌≡◌, ◌≤◌, length};
ghost use Rattle.service_mux.specs.TakeOutcome.{take_fault_name};

use sub_base::FaultName;
use thiserror::Error;

/// Why no service is taken out of a stream.
#[derive(Clone, Copy, Debug, PartialEq, Eq, Error)]
pub enum TakeFault {
    /// The packet of that number, counted from 0, is the first that does not begin with the sync
    /// byte.
    #[error("packet {packet} has no sync byte")]
    NoSync {
        /// The number of the packet in the stream.
        packet: u64,
    },
    /// The stream's tables name no subtitles of the service.
    #[error("no subtitles of the service {number}")]
    NoService {
        /// The number of the service.
        number: u16,
    },
}

impl FaultName for TakeFault {
    ghost name_of = { λ fault. take_fault_name fault };

    fn name(&self) -> &'static str {
        match self {
            TakeFault::NoSync { .. } => "NoSync",
            TakeFault::NoService { .. } => "NoService",
        }
    }
}
