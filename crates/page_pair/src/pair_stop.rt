ghost use Rattle.std.specs.Prelude.{◌≡◌};
ghost use Rattle.page_pair.specs.Private.Sending.{first_refusal, second_refusal, slots_refusal, units_refusal};

use crate::pair_fault::PairFault;
use crate::planned::PlanStop;
use crate::slots::SlotStop;
use crate::units::UnitsStop;

/// Why two scripts that were read are not sent.
#[derive(Clone, Copy, Debug, PartialEq, Eq)]
pub(crate) enum PairStop {
    /// No memory was found.
    Memory,
    /// They are refused; the fault within is never want of memory.
    Refused(PairFault),
}

/// The first script has no plan.
pub(crate) fn first_refused(stop: PlanStop) -> PairStop
    ensures { result ≡ first_refusal stop }
{
    match stop {
        PlanStop::Memory => PairStop::Memory,
        PlanStop::Refused(fault) => PairStop::Refused(PairFault::FirstPlan(fault)),
    }
}

/// The second script has no plan.
pub(crate) fn second_refused(stop: PlanStop) -> PairStop
    ensures { result ≡ second_refusal stop }
{
    match stop {
        PlanStop::Memory => PairStop::Memory,
        PlanStop::Refused(fault) => PairStop::Refused(PairFault::SecondPlan(fault)),
    }
}

/// The sets have no PES packets.
pub(crate) fn units_refused(stop: UnitsStop) -> PairStop
    ensures { result ≡ units_refusal stop }
{
    match stop {
        UnitsStop::Memory => PairStop::Memory,
        UnitsStop::TooLong { set, size } => PairStop::Refused(PairFault::TooLong { set, size }),
    }
}

/// The sets have no slots.
pub(crate) fn slots_refused(stop: SlotStop) -> PairStop
    ensures { result ≡ slots_refusal stop }
{
    match stop {
        SlotStop::Memory => PairStop::Memory,
        SlotStop::Refused { row, fault } => PairStop::Refused(PairFault::Schedule { row, fault }),
    }
}
