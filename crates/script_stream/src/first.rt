ghost use Rattle.std.specs.Prelude.{ℕ, ◌≤◌, length};
ghost use Rattle.schedule.specs.Packets.{first_packet};
ghost use Rattle.script_stream.specs.Private.Timing.{AreFirst, AreSlotted};

use schedule::Schedule;
use sub_base::WriteLoad;

/// The first sets of a schedule: how many, and how many packets they have.
#[derive(Clone, Copy, Debug, PartialEq, Eq)]
pub struct FirstSets {
    pub sets: usize,
    pub packets: usize,
}

/// The first sets, as many as have at most that many packets together.
pub fn first_sets(schedule: &Schedule, loads: &[WriteLoad], most: usize) -> FirstSets
    requires { AreSlotted loads.now schedule.now }
    ensures first { AreFirst loads.now result.sets result.packets }
    ensures few { result.packets ≤ most }
    ensures largest { (sets : ℕ) → sets ≤ length loads.now → first_packet loads.now sets ≤ most
        → sets ≤ result.sets }
{
    let mut packets = 0;
    for set in 0..loads.len() {
        let with = packets + schedule.slots_of(set).len();
        if with > most {
            return FirstSets { sets: set, packets };
        }
        packets = with;
    }
    FirstSets {
        sets: loads.len(),
        packets,
    }
}
