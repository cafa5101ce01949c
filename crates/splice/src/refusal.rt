//! Why two streams are not joined, by what was found of each.

ghost use Rattle.std.specs.Prelude.{◌≡◌, Some};
ghost use Rattle.splice.specs.SplicedSets.{Streams};
ghost use Rattle.splice.specs.Private.Refusals.{AreSurveyed, IsRefusalOf};
ghost use Rattle.splice.specs.Private.Refusals.{fault_of_distance as distance_fault};
ghost use Rattle.splice.specs.Private.Refusals.{fault_of_findings as findings_fault};
ghost use Rattle.splice.specs.Private.Refusals.{fault_of_last as last_fault, fault_of_seam as seam_fault};
ghost use Rattle.splice.specs.Private.Refusals.{fault_of_surveys as surveys_fault};
ghost use Rattle.splice.specs.declared.found.Finding.TheVariants.{Good, Unshown};
ghost use Rattle.splice.specs.declared.joined.Joined.{Joined};

use crate::found::{Finding, Survey};
use crate::limits::{TOO_CLOSE, TOO_FAR};
use crate::splice_fault::SpliceFault;
use crate::splice_words::Splicing;

/// Why two streams that were gone through are not joined, if they are not (but for their schedule);
/// the kind of fault goes before the stream. The last set of the first stream that is sent is at
/// that tick, where there is one.
pub(crate) fn refusal_of(
    splicing: Splicing,
    first: Survey,
    second: Survey,
    last: Option<u64>,
) -> Option<SpliceFault>
    ensures { (streams : Streams) (joined : Joined)
        → AreSurveyed splicing streams first second last joined
        → IsRefusalOf splicing streams joined result }
{
    fault_of_surveys(splicing.cut, first, second, last)
}

/// The first of all tests that fails.
fn fault_of_surveys(
    cut: u64,
    first: Survey,
    second: Survey,
    last: Option<u64>,
) -> Option<SpliceFault>
    ensures { result ≡ surveys_fault cut first second last }
{
    let one = match first {
        Survey::Refused { packet, fault } => {
            return Some(SpliceFault::Packet {
                second: false,
                packet,
                fault,
            });
        }
        Survey::Whole(found) => found,
    };
    let other = match second {
        Survey::Refused { packet, fault } => {
            return Some(SpliceFault::Packet {
                second: true,
                packet,
                fault,
            });
        }
        Survey::Whole(found) => found,
    };
    fault_of_findings(one.finding, other.finding).or(fault_of_seam(cut, other.anew, last))
}

/// Something is lost in either stream, or else a set is not shown.
fn fault_of_findings(first: Finding, second: Finding) -> Option<SpliceFault>
    ensures { result ≡ findings_fault first second }
{
    match first {
        Finding::Lost(packet) => Some(SpliceFault::Lost {
            second: false,
            packet,
        }),
        Finding::Unshown(set) => Some(fault_beside_unshown(set, second)),
        Finding::Good => fault_beside_good(second),
    }
}

/// Why, where that set of the first stream is not shown.
fn fault_beside_unshown(set: u64, second: Finding) -> SpliceFault
    ensures { Some result ≡ findings_fault (Unshown set) second }
{
    match second {
        Finding::Lost(packet) => SpliceFault::Lost {
            second: true,
            packet,
        },
        Finding::Unshown(_) => SpliceFault::NotShown { second: false, set },
        Finding::Good => SpliceFault::NotShown { second: false, set },
    }
}

/// Why, where nothing is found in the first stream.
fn fault_beside_good(second: Finding) -> Option<SpliceFault>
    ensures { result ≡ findings_fault Good second }
{
    match second {
        Finding::Lost(packet) => Some(SpliceFault::Lost {
            second: true,
            packet,
        }),
        Finding::Unshown(set) => Some(SpliceFault::NotShown { second: true, set }),
        Finding::Good => None,
    }
}

/// The second stream does not begin with a mode change, or else the cut has not its distance.
fn fault_of_seam(cut: u64, anew: bool, last: Option<u64>) -> Option<SpliceFault>
    ensures { result ≡ seam_fault cut anew last }
{
    if anew {
        fault_of_last(cut, last)
    } else {
        Some(SpliceFault::NoModeChange)
    }
}

/// The cut has not its distance from the last set before it, where there is one.
fn fault_of_last(cut: u64, last: Option<u64>) -> Option<SpliceFault>
    ensures { result ≡ last_fault cut last }
{
    fault_of_distance(cut, last?)
}

/// The cut is too close to a set at that tick, or too far from it.
fn fault_of_distance(cut: u64, last: u64) -> Option<SpliceFault>
    ensures { result ≡ distance_fault cut last }
{
    let distance = cut.saturating_sub(last);
    if distance <= TOO_CLOSE {
        Some(SpliceFault::CutTooClose { last })
    } else if distance >= TOO_FAR {
        Some(SpliceFault::CutTooFar { last })
    } else {
        None
    }
}
