use page_epoch::PlanFault;
use schedule::ScheduleFault;
use thiserror::Error;

/// Why a script has no stream.
#[derive(Clone, Copy, Debug, PartialEq, Eq, Drop, Error)]
pub enum SendFault {
    /// No memory was found.
    #[error("out of memory")]
    Memory,
    /// The script has no plan for the profile; the fault is never want of memory.
    #[error("{0}")]
    Plan(PlanFault),
    /// The set that this record brings, counted from 1, has no slots; the fault is never want of
    /// memory.
    #[error("the set of record {row} is refused: {fault}")]
    Schedule { row: u64, fault: ScheduleFault },
}

/// Why the packets of a script were not all written.
#[derive(Clone, Copy, Debug, PartialEq, Eq, Drop, Error)]
pub enum CompileFault {
    /// The script has no stream, or memory is wanting; nothing was written.
    #[error("{0}")]
    Send(SendFault),
    /// The sink could not be written; it has a prefix of the packets.
    #[error("the sink could not be written")]
    Write,
}
