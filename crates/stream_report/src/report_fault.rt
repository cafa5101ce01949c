ghost use Rattle.stream_report.specs.ReportOutcome.{report_fault_name};

use stream_syntax::PacketFault;
use sub_base::FaultName;
use thiserror::Error;

/// Why no more is told of a stream.
#[derive(Clone, Copy, Debug, PartialEq, Eq, Error)]
pub enum ReportFault {
    /// The packet of that number, counted from 0, is the first that is refused.
    #[error("packet {packet} is refused: {fault}")]
    Stream {
        /// The number of the packet in the stream.
        packet: u64,
        /// The first test that it fails.
        fault: PacketFault,
    },
}

impl FaultName for ReportFault {
    ghost name_of = { report_fault_name };

    fn name(&self) -> &'static str {
        match self {
            ReportFault::Stream { .. } => "Stream",
        }
    }
}
