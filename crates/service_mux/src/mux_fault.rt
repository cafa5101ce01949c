ghost use Rattle.service_mux.specs.MuxOutcome.{mux_fault_name};

use sub_base::FaultName;
use thiserror::Error;

/// Why the streams of two services are not joined: the packet of that number, counted from 0, is
/// the first of a stream that does not begin with the sync byte. In one frame the first stream
/// comes first.
#[derive(Clone, Copy, Debug, PartialEq, Eq, Error)]
pub enum MuxFault {
    /// A packet of the first stream.
    #[error("packet {packet} of the first stream has no sync byte")]
    FirstNoSync { packet: u64 },
    /// A packet of the second stream.
    #[error("packet {packet} of the second stream has no sync byte")]
    SecondNoSync { packet: u64 },
}

impl FaultName for MuxFault {
    ghost name_of = { mux_fault_name };

    fn name(&self) -> &'static str {
        match self {
            MuxFault::FirstNoSync { .. } => "FirstNoSync",
            MuxFault::SecondNoSync { .. } => "SecondNoSync",
        }
    }
}
