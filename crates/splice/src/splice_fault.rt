ghost use Rattle.splice.specs.SpliceOutcome.{splice_fault_name};

use schedule::ScheduleFault;
use stream_syntax::PacketFault;
use sub_base::FaultName;
use thiserror::Error;

/// Why two streams are not joined. The kinds are tested in this order, and the first three of the
/// first stream before the second; packets and sets are counted from 0.
#[derive(Clone, Copy, Debug, PartialEq, Eq, Error)]
pub enum SpliceFault {
    /// The packet is the first of its stream that cannot be taken.
    #[error("packet {packet} of the {} stream is refused: {fault}", ordinal(*.second))]
    Packet {
        second: bool,
        packet: u64,
        fault: PacketFault,
    },
    /// The packet is the first of its stream with which something is lost.
    #[error("something is lost at packet {packet} of the {} stream", ordinal(*.second))]
    Lost {
        second: bool,
        packet: u64,
    },
    /// The set, counted among all sets of its stream, is the first that is not shown: in the first
    /// stream among those that are not kept or lie before the cut.
    #[error("set {set} of the {} stream is not shown", ordinal(*.second))]
    NotShown {
        second: bool,
        set: u64,
    },
    /// The second stream has no set, or its first one is an acquisition point and no mode change.
    #[error("the second stream does not begin with a mode change")]
    NoModeChange,
    /// The first stream's last set before the cut, at this tick of 90 kHz, lies 3,600 ticks or less
    /// before it.
    #[error("the last set before the cut, at {last}, lies 3600 ticks or less before it")]
    CutTooClose {
        last: u64,
    },
    /// The first stream's last set before the cut, at this tick of 90 kHz, lies 2^32 ticks or more
    /// before it.
    #[error("the last set before the cut, at {last}, lies 2^32 ticks or more before it")]
    CutTooFar {
        last: u64,
    },
    /// The sets of the joined streams cannot be sent in time; the fault is never want of memory.
    #[error("{0}")]
    Schedule(ScheduleFault),
}

/// Which stream it is, in words.
fn ordinal(second: bool) -> &'static str {
    if second { "second" } else { "first" }
}

impl FaultName for SpliceFault {
    ghost name_of = { splice_fault_name };

    fn name(&self) -> &'static str {
        match self {
            SpliceFault::Packet { .. } => "Packet",
            SpliceFault::Lost { .. } => "Lost",
            SpliceFault::NotShown { .. } => "NotShown",
            SpliceFault::NoModeChange => "NoModeChange",
            SpliceFault::CutTooClose { .. } => "CutTooClose",
            SpliceFault::CutTooFar { .. } => "CutTooFar",
            SpliceFault::Schedule(_) => "Schedule",
        }
    }
}
