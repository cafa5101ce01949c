ghost use Rattle.live_plan.specs.FaultNames.{live_fault_name, row_fault_name};

use bitmap_font::FontFault;
use cue_list::ScriptKind;
use page_epoch::PlanFault;
use schedule::ScheduleFault;
use sub_base::FaultName;
use thiserror::Error;

/// Why a record that comes while the stream is sent is refused. The kinds are tested in this order;
/// want of memory may come at any time.
#[derive(Clone, Copy, Debug, PartialEq, Eq, Error)]
pub enum RowFault {
    /// No memory was found.
    #[error("out of memory")]
    Memory,
    /// The piece has not exactly one record; the count is that of its records.
    #[error("{count} records where one is wanted")]
    Records { count: u64 },
    /// The record is faulty behind those that were accepted.
    #[error("{0}")]
    Script(ScriptKind),
    /// The record names a tick of 90 kHz that is not above the horizon: packets that are due for
    /// the last tick could depend on it.
    #[error("no tick above the horizon {horizon}")]
    Early { horizon: u64 },
    /// The records have no plan with this one; the fault is never want of memory.
    #[error("{0}")]
    Plan(PlanFault),
    /// The sets of the records cannot be sent in time with this one; the fault is never want of
    /// memory.
    #[error("{0}")]
    Schedule(ScheduleFault),
}

impl FaultName for RowFault {
    ghost name_of = { row_fault_name };

    fn name(&self) -> &'static str {
        match self {
            RowFault::Memory => "Memory",
            RowFault::Records { .. } => "Records",
            RowFault::Script(_) => "Script",
            RowFault::Early { .. } => "Early",
            RowFault::Plan(_) => "Plan",
            RowFault::Schedule(_) => "Schedule",
        }
    }
}

/// Why a script that comes record by record has no stream.
#[derive(Clone, Copy, Debug, PartialEq, Eq, Error)]
pub enum LiveFault {
    /// The font is none.
    #[error("the font is refused: {0}")]
    Font(FontFault),
    /// The script ended, and no epoch's record was accepted.
    #[error("the script has ended, and no epoch was accepted")]
    NoEpoch,
}

impl FaultName for LiveFault {
    ghost name_of = { live_fault_name };

    fn name(&self) -> &'static str {
        match self {
            LiveFault::Font(_) => "Font",
            LiveFault::NoEpoch => "NoEpoch",
        }
    }
}
