ghost use Rattle.std.specs.Prelude.{◌↔◌, IsTrue};
ghost use Rattle.page_pair.specs.PairStream.{IsEven};
ghost use Rattle.page_pair.specs.Private.Timing.{AreHeads, ArePlansEven};

use cue_list::Script;
use page_epoch::PlannedSet;

/// The first of the first three records of two scripts in which numbers differ: origin, display or
/// refresh.
pub(crate) fn other_head(first: &Script, second: &Script) -> Option<u8>
    ensures { AreHeads first.now second.now result }
{
    if first.origin != second.origin {
        Some(1)
    } else if first.width != second.width || first.height != second.height {
        Some(2)
    } else if first.refresh != second.refresh {
        Some(3)
    } else {
        None
    }
}

/// The first place at which two plans have not both a set of one time and one state.
#[tactic(auto, using(crate::proofs::TimingLaws::all_even))]
pub(crate) fn first_uneven(one: &[PlannedSet], two: &[PlannedSet]) -> Option<u64>
    ensures { ArePlansEven one.now two.now result }
{
    let both = one.len().min(two.len());
    for place in 0..both {
        if !is_even(&one[place], &two[place]) {
            return Some(place as u64);
        }
    }
    if one.len() == two.len() {
        None
    } else {
        Some(both as u64)
    }
}

/// Whether two sets have one time and one state.
fn is_even(one: &PlannedSet, two: &PlannedSet) -> bool
    ensures { IsTrue result ↔ IsEven one.now two.now }
{
    one.pts == two.pts && one.state == two.state
}
