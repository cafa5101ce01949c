ghost use Rattle.page_pair.specs.PairOutcome.{pair_fault_name};

use cue_list::ScriptFault;
use page_epoch::PlanFault;
use schedule::ScheduleFault;
use stream_syntax::PacketFault;
use sub_base::FaultName;
use thiserror::Error;

/// Why two scripts are not sent on one PID, or why the packets of such a stream are not gone
/// through. The faults within are never want of memory. Sets are counted from 0.
#[derive(Clone, Copy, Debug, PartialEq, Eq, Error)]
pub enum PairFault {
    /// The first script is refused.
    #[error("the first script: {0}")]
    FirstScript(ScriptFault),
    /// The second script is refused.
    #[error("the second script: {0}")]
    SecondScript(ScriptFault),
    /// The records of this number, of the first three, differ: origin, display or refresh.
    #[error("record {row} differs in the two scripts")]
    Heads { row: u8 },
    /// The first script has no plan.
    #[error("the first script: {0}")]
    FirstPlan(PlanFault),
    /// The second script has no plan.
    #[error("the second script: {0}")]
    SecondPlan(PlanFault),
    /// The plans have not both a set of one time and one state at this place.
    #[error("the two plans have not both a set {set}, or not of one time and state")]
    Uneven { set: u64 },
    /// The segments of the set of both at this place have no room in one PES packet; the size is
    /// that of the PES packet, in bytes.
    #[error("set {set} of both together needs a PES packet of {size} bytes")]
    TooLong { set: u64, size: u64 },
    /// The set that this record of the first script brings has no slots.
    #[error("the set of record {row} is refused: {fault}")]
    Schedule { row: u64, fault: ScheduleFault },
    /// A packet of a stream is refused.
    #[error("packet {packet} is refused: {fault}")]
    Stream { packet: u64, fault: PacketFault },
}

impl FaultName for PairFault {
    ghost name_of = { pair_fault_name };

    fn name(&self) -> &'static str {
        match self {
            PairFault::FirstScript(_) => "FirstScript",
            PairFault::SecondScript(_) => "SecondScript",
            PairFault::Heads { .. } => "Heads",
            PairFault::FirstPlan(_) => "FirstPlan",
            PairFault::SecondPlan(_) => "SecondPlan",
            PairFault::Uneven { .. } => "Uneven",
            PairFault::TooLong { .. } => "TooLong",
            PairFault::Schedule { .. } => "Schedule",
            PairFault::Stream { .. } => "Stream",
        }
    }
}
