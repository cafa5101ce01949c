ghost use Rattle.std.specs.Prelude.{◌≡◌};
ghost use Rattle.stream_report.specs.ReportOutcome.{report_status as report_status_of};

use crate::report_fault::ReportFault;
use packet_walk::{Refused, ToldEnd};
use sub_base::{ToolStatus, Which};

/// The status of a tool whose telling of a stream ended so.
pub(crate) fn report_status(end: ToldEnd) -> ToolStatus<ReportFault>
    ensures { result ≡ report_status_of end }
{
    match end {
        ToldEnd::Done { .. } => ToolStatus::Done,
        ToldEnd::Refused(Refused { packet, fault }) => {
            ToolStatus::Refused(ReportFault::Stream { packet, fault })
        }
        ToldEnd::Unread => ToolStatus::ReadFault(Which::First),
        ToldEnd::TooLong => ToolStatus::InputTooLong(Which::First),
        ToldEnd::Unwritten => ToolStatus::WriteFault(Which::Out),
        ToldEnd::Memory => ToolStatus::Memory,
    }
}
