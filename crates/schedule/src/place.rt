ghost use Rattle.std.specs.Prelude.{◌≡◌, ℕ, ◌+◌, ◌^◌, ◌<◌, ◌≤◌, max, length, All};
ghost use Rattle.schedule.specs.Packets.{sum_below, size_of};
ghost use Rattle.sub_base.specs.Pace.{tick_of, IsSound};
ghost use Rattle.sub_base.specs.declared.profile.TheConstants.{LONGEST_STEP};
ghost use Rattle.schedule.specs.Slots.{left_of, IsLoad};
ghost use Rattle.schedule.specs.Private.Safe.{AreDone, AreOrdered};
ghost use Rattle.stream_syntax.specs.declared.wire.TheConstants.{PAYLOAD_LENGTH};

use sub_base::{Pace, WriteLoad};

/// Where the search for slots stands: the first slot that is still free, the bytes in the coded
/// data buffer there, and how many sets have left it.
#[derive(Clone, Copy, Debug)]
pub struct Search {
    /// The first slot that is still free.
    pub slot: u64,
    /// The bytes that were sent so far and whose sets have not left the buffer.
    pub level: u64,
    /// How many sets have left the buffer.
    pub gone: usize,
}

/// Finds the first slot, from that of the search on, in which a packet with that payload can stand.
///
/// A set leaves the buffer where it is done by the slot, or where the packet has no room before it
/// leaves; then the packet stands no earlier than the slot at which the set is done.
pub fn place(pace: &Pace, loads: &[WriteLoad], dones: &[u64], from: Search, payload: u64) -> Search
    requires pace { IsSound pace.now }
    requires loads { All IsLoad loads.now }
    requires sets { length dones.now ≤ length loads.now }
    requires ordered { AreOrdered dones.now }
    requires gone { AreDone dones.now from.gone (tick_of pace.now from.slot) }
    requires near { tick_of pace.now from.slot < 2 ^ 63 }
    requires own { from.level + payload + sum_below (size_of loads.now) from.gone
        ≤ sum_below (size_of loads.now) (length dones.now) + pace.now.coded }
    requires some { sum_below (size_of loads.now) (length dones.now)
        ≤ from.level + sum_below (size_of loads.now) from.gone }
    requires level { from.level ≤ pace.now.coded }
    requires payload { payload ≤ PAYLOAD_LENGTH }
    ensures total { result.level + sum_below (size_of loads.now) result.gone
        ≡ from.level + payload + sum_below (size_of loads.now) from.gone }
    ensures level { result.level ≤ pace.now.coded }
    ensures gone { AreDone dones.now result.gone (tick_of pace.now result.slot) }
    ensures after { from.slot ≤ result.slot }
    ensures near { tick_of pace.now result.slot
        ≤ max (tick_of pace.now from.slot) (2 ^ 62 + LONGEST_STEP) }
    ensures room { from.level + payload + sum_below (size_of loads.now) from.gone
        ≤ pace.now.coded
        + sum_below (left_of loads.now dones.now (tick_of pace.now result.slot))
        (length dones.now) }
    ensures least { (slot : ℕ) → from.slot ≤ slot
        → from.level + payload + sum_below (size_of loads.now) from.gone
        ≤ pace.now.coded
        + sum_below (left_of loads.now dones.now (tick_of pace.now slot)) (length dones.now)
        → result.slot ≤ slot }
{
    let mut slot = from.slot;
    let mut level = from.level;
    let mut gone = from.gone;
    while gone < dones.len() && (dones[gone] <= pace.tick(slot) || level + payload > pace.coded) {
        // Sets are done in their order, so the next to leave is the first that is still there.
        slot = slot.max(pace.first_slot_at(dones[gone]));
        level -= loads[gone].load.size;
        gone += 1;
    }
    Search {
        slot,
        level: level + payload,
        gone,
    }
}
