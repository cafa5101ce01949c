ghost use Rattle.std.specs.Prelude.{◌≡◌, ℕ, ◌+◌, ◌*◌, ◌^◌, ◌<◌, ◌≤◌, length, slice_index, IfOk, All};
ghost use Rattle.std.specs.List.Sorted.{IsStrictlyIncreasing};
ghost use Rattle.schedule.specs.Packets.{size_of, packets_of, payload_of, payload_in};
ghost use Rattle.sub_base.specs.Pace.{tick_of, IsSound};
ghost use Rattle.sub_base.specs.declared.profile.TheConstants.{LONGEST_STEP};
ghost use Rattle.schedule.specs.Private.Safe.{AreOrdered};
ghost use Rattle.schedule.specs.Private.Search.{IsBetween, IsWithin, HaveStood, sent_of};
ghost use Rattle.schedule.specs.Slots.{IsLoad};
ghost use Rattle.stream_syntax.specs.TransportPackets.{packet_count as packet_count_of};

use crate::limits::SEND_WINDOW;
use crate::place::{Search, place};
use std::alloc::AllocError;
use stream_syntax::PAYLOAD_LENGTH;
use sub_base::{Pace, WriteLoad};

/// The bytes that a packet carries, as sizes are counted.
const PAYLOAD: u64 = PAYLOAD_LENGTH as u64;

/// Finds the slots of all packets of the next set, the one after those whose done ticks are given.
pub fn send_set(
    pace: &Pace,
    loads: &[WriteLoad],
    dones: &[u64],
    from: Search,
    slots: &mut Vec<u64>,
) -> Result<Search, AllocError>
    requires pace { IsSound pace.now }
    requires loads { All IsLoad loads.now }
    requires next { length dones.now < length loads.now }
    requires fits { size_of loads.now (length dones.now) ≤ pace.now.coded }
    requires ordered { AreOrdered dones.now }
    requires rise { IsStrictlyIncreasing slots.old.items }
    requires between { IsBetween loads.now pace.now slots.old.items dones.now (length dones.now)
        from }
    requires near { tick_of pace.now from.slot ≤ 2 ^ 62 + LONGEST_STEP }
    ensures rise { IfOk result (λ _. IsStrictlyIncreasing slots.new.items) }
    ensures between { IfOk result
        (λ search. IsBetween loads.now pace.now slots.new.items dones.now (length dones.now + 1)
        search) }
    ensures near { IfOk result (λ search. tick_of pace.now search.slot ≤ 2 ^ 62 + 200000000) }
    ensures kept { IfOk result
        (λ _. (n : ℕ) → n < length slots.old.items
        → slice_index slots.new.items n ≡ slice_index slots.old.items n) }
    ensures stood { IfOk result
        (λ _. HaveStood loads.now pace.now slots.new.items dones.now (length dones.now)
        (packets_of loads.now (length dones.now))) }
{
    let write = &loads[dones.len()];
    // Early in a programme the window reaches back before tick 0: slots begin at the origin all the
    // same.
    let window = pace.first_slot_at(write.load.pts.saturating_sub(SEND_WINDOW));
    let mut search = Search {
        slot: from.slot.max(window),
        ..from
    };
    for size in write.units.as_slice() {
        search = send_unit(pace, loads, dones, search, u64::from(*size), slots)?;
    }
    Ok(search)
}

/// Finds the slots of the packets of the next unit, one of that many bytes, of the set that is
/// being sent.
fn send_unit(
    pace: &Pace,
    loads: &[WriteLoad],
    dones: &[u64],
    from: Search,
    size: u64,
    slots: &mut Vec<u64>,
) -> Result<Search, AllocError>
    requires pace { IsSound pace.now }
    requires loads { All IsLoad loads.now }
    requires next { length dones.now < length loads.now }
    requires fits { size_of loads.now (length dones.now) ≤ pace.now.coded }
    requires ordered { AreOrdered dones.now }
    requires within { IsWithin loads.now pace.now slots.old.items dones.now
        (sent_of loads.now slots.old.items dones.now) from }
    requires among { sent_of loads.now slots.old.items dones.now + packet_count_of size
        ≤ packets_of loads.now (length dones.now) }
    requires unit { (k : ℕ) → k < packet_count_of size
        → payload_of loads.now (length dones.now)
        (sent_of loads.now slots.old.items dones.now + k)
        ≡ payload_in size k }
    requires small { size < 2 ^ 32 }
    ensures within { IfOk result
        (IsWithin loads.now pace.now slots.new.items dones.now
        (sent_of loads.now slots.old.items dones.now + packet_count_of size)) }
    ensures kept { IfOk result
        (λ _. (n : ℕ) → n < length slots.old.items
        → slice_index slots.new.items n ≡ slice_index slots.old.items n) }
{
    let mut search = from;
    for packet in 0..packet_count(size) {
        let payload = PAYLOAD.min(size - PAYLOAD * packet);
        search = place(pace, loads, dones, search, payload);
        slots.push(search.slot)?;
        search.slot += 1;
    }
    Ok(search)
}

/// How many packets a unit of that many bytes takes.
fn packet_count(size: u64) -> u64
    requires { size < 2 ^ 32 }
    ensures { result ≡ packet_count_of size }
{
    (size + (PAYLOAD - 1)) / PAYLOAD
}
