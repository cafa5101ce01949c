ghost use Rattle.std.specs.Prelude.{◌≡◌, length};
ghost use Rattle.dvbsub_cmd.specs.Private.Entries.{HasEntry, are_all_from, is_entry as is_entry_set};

use page_epoch::{PlannedSet, is_entry_state};
use schedule::Schedule;

/// The set with which a receiver enters that gets the packets of a plan behind so many: the first
/// of which it gets all packets, and at which a receiver can begin.
pub fn entry_of(sets: &[PlannedSet], schedule: &Schedule, missed: u64) -> Option<usize>
    requires { length schedule.now.dones ≡ length sets.now }
    ensures { HasEntry missed schedule.now sets.now result }
{
    for number in 0..sets.len() {
        if is_entry(&sets[number], schedule.slots_of(number), missed) {
            return Some(number);
        }
    }
    None
}

/// Whether a receiver can enter with the set, which has these slots.
fn is_entry(set: &PlannedSet, slots: &[u64], missed: u64) -> bool
    ensures { result ≡ is_entry_set missed set.now slots.now }
{
    is_entry_state(set.state) && are_from(slots, missed)
}

/// Whether none of the slots lies before that one.
fn are_from(slots: &[u64], least: u64) -> bool
    ensures { result ≡ are_all_from least slots.now }
{
    slots.iter().all(|slot| least <= *slot)
}
