ghost use Rattle.std.specs.Prelude.{◌≡◌, ◌<◌, length};
ghost use Rattle.script_stream.specs.Private.Sending.{IsAmong, IsScheduleRefusal, plan_refusal};
ghost use Rattle.script_stream.specs.Refused.{IsRowAt};

use crate::faults::SendFault;
use page_epoch::{PlanFault, PlannedSet};
use schedule::ScheduleFault;

/// The refusal of a plan as one of sending.
pub fn plan_refused(fault: PlanFault) -> SendFault
    ensures { result ≡ plan_refusal fault }
{
    match fault {
        PlanFault::Memory => SendFault::Memory,
        PlanFault::DisplayTooLarge { row } => SendFault::Plan(PlanFault::DisplayTooLarge { row }),
        PlanFault::PixelFull { row, need } => SendFault::Plan(PlanFault::PixelFull { row, need }),
        PlanFault::CompositionFull { row, need } => {
            SendFault::Plan(PlanFault::CompositionFull { row, need })
        }
    }
}

/// The refusal of a schedule as one of sending, with the record that brings the set.
pub fn schedule_refused(sets: &[PlannedSet], fault: ScheduleFault) -> SendFault
    requires { IsAmong sets.now fault }
    ensures { IsScheduleRefusal sets.now fault result }
{
    match fault {
        ScheduleFault::Memory => SendFault::Memory,
        ScheduleFault::CodedFull { set, size } => SendFault::Schedule {
            row: row_at(sets, set),
            fault: ScheduleFault::CodedFull { set, size },
        },
        ScheduleFault::Late { set, done, pts } => SendFault::Schedule {
            row: row_at(sets, set),
            fault: ScheduleFault::Late { set, done, pts },
        },
        ScheduleFault::SegmentFull { set, longest } => SendFault::Schedule {
            row: row_at(sets, set),
            fault: ScheduleFault::SegmentFull { set, longest },
        },
    }
}

/// The record of the script that brings the set at a place.
fn row_at(sets: &[PlannedSet], set: u64) -> u64
    requires { set < length sets.now }
    ensures { IsRowAt sets.now set result }
{
    sets[set as usize].row
}
