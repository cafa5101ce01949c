ghost use Rattle.std.specs.Prelude.{◌≡◌, ◌≢◌, ◌^◌, ◌<◌, length, slice_index, IfOk, IfErr, MatchResult, All};
ghost use Rattle.std.specs.List.Sorted.{IsStrictlyIncreasing};
ghost use Rattle.sub_base.specs.Pace.{pace_of, IsSending};
ghost use Rattle.schedule.specs.Slots.{slots_of as slots_of_set, Timetable, IsSchedule, IsOnTime, IsLoad};
ghost use Rattle.schedule.specs.Arrivals.{IsArrival, IsEarliest, IsHopeless};
ghost use Rattle.schedule.specs.Refusals.{IsScheduleCause, AnswersScheduleFault};
ghost use Rattle.schedule.specs.declared.fault.ScheduleFault.TheVariants.{Memory};

use crate::fault::ScheduleFault;
use crate::place::Search;
use crate::send::send_set;
use std::alloc::Global;
use std::marker::Model;
use sub_base::{Pace, Profile, UNIT_ROOM, WriteLoad};

/// The slots of the packets of display sets, and the ticks at which the sets are done.
#[derive(Drop)]
pub struct Schedule {
    slots: Vec<u64>,
    /// Where the slots of each set end.
    ends: Vec<usize>,
    dones: Vec<u64>,
}

impl Model for Schedule {
    ghost use Rattle.schedule.specs.Slots.{Timetable, IsTable};

    ghost Value = { Timetable };

    ghost view = { λ s. record { slots = s.slots.items; ends = s.ends.items; dones = s.dones.items } };

    ghost invariant = { λ s. IsTable s.slots.items s.ends.items s.dones.items };
}

impl Schedule {
    /// The earliest schedule of these sets from the origin on, a tick of 90 kHz, in a profile with
    /// a step.
    ///
    /// The sets are tested in order: a set must fit the coded data buffer, each of its segments a
    /// PES packet, and it must be done by its presentation time.
    #[tactic(auto, using(crate::proofs::AnswerLaws::made_arrival, crate::proofs::AnswerLaws::made_earliest, crate::proofs::AnswerLaws::every_fault))]
    pub fn make(
        alloc: Global,
        loads: &[WriteLoad],
        origin: u64,
        profile: &Profile,
    ) -> Result<Schedule, ScheduleFault>
        requires profile { IsSending profile.now }
        requires origin { origin < 2 ^ 62 }
        requires loads { All IsLoad loads.now }
        ensures schedule { IfOk result
            (IsSchedule loads.now (length loads.now) (pace_of origin profile.now)) }
        ensures on_time { IfOk result
            (IsOnTime loads.now (length loads.now) (pace_of origin profile.now)) }
        ensures cause { IfErr result (IsScheduleCause loads.now (pace_of origin profile.now)) }

        // The buffer never overflows, and no other arrival of the same packets has a packet or a
        // set earlier.
        ensures arrival { IfOk result
            (λ table. IsArrival loads.now (length loads.now) (pace_of origin profile.now)
            table.slots table.dones) }
        ensures earliest { IfOk result
            (IsEarliest loads.now (length loads.now) (pace_of origin profile.now)) }
        ensures hopeless { IfErr result (IsHopeless loads.now (pace_of origin profile.now)) }

        // What callers count with.
        ensures rise { IfOk result (λ table. IsStrictlyIncreasing table.slots) }
        ensures small { IfOk result (λ table. All (λ slot. slot < 2 ^ 56) table.slots) }

        // But for want of memory sets that can be on time are scheduled, in their one schedule,
        // and others are refused, for their one fault.
        ensures every_schedule { (table : Timetable)
            → IsSchedule loads.now (length loads.now) (pace_of origin profile.now) table
            → IsOnTime loads.now (length loads.now) (pace_of origin profile.now) table
            → MatchResult result (λ made. made ≡ table) (λ fault. fault ≡ Memory) }
        ensures every_fault { (fault : ScheduleFault)
            → IsScheduleCause loads.now (pace_of origin profile.now) fault → fault ≢ Memory
            → AnswersScheduleFault fault result }
    {
        Schedule::search(alloc, loads, origin, profile)
    }

    /// The same: the slots are looked for, set after set.
    fn search(
        alloc: Global,
        loads: &[WriteLoad],
        origin: u64,
        profile: &Profile,
    ) -> Result<Schedule, ScheduleFault>
        requires profile { IsSending profile.now }
        requires origin { origin < 2 ^ 62 }
        requires loads { All IsLoad loads.now }
        ensures schedule { IfOk result
            (IsSchedule loads.now (length loads.now) (pace_of origin profile.now)) }
        ensures on_time { IfOk result
            (IsOnTime loads.now (length loads.now) (pace_of origin profile.now)) }
        ensures cause { IfErr result (IsScheduleCause loads.now (pace_of origin profile.now)) }
        ensures rise { IfOk result (λ table. IsStrictlyIncreasing table.slots) }
        ensures small { IfOk result (λ table. All (λ slot. slot < 2 ^ 56) table.slots) }
    {
        let pace = Pace::of(origin, profile);
        let mut slots = Vec::new(alloc);
        let mut ends = Vec::new(alloc);
        let mut dones = Vec::new(alloc);
        let mut shown = 0;
        let mut search = Search {
            slot: 0,
            level: 0,
            gone: 0,
        };
        for (set, write) in loads.iter().enumerate() {
            let load = write.load;
            // Before its slots are looked for: in an empty buffer its last packets would still have
            // no room.
            if load.size > pace.coded {
                return Err(ScheduleFault::CodedFull {
                    set: set as u64,
                    size: load.size,
                });
            }
            if write.longest > UNIT_ROOM {
                return Err(ScheduleFault::SegmentFull {
                    set: set as u64,
                    longest: write.longest,
                });
            }
            search = send_set(&pace, loads, &dones, search, &mut slots)?;
            // The search stands one slot behind the set's last packet.
            let done = load.done(pace.tick(search.slot - 1), shown);
            if done > load.pts {
                return Err(ScheduleFault::Late {
                    set: set as u64,
                    done,
                    pts: load.pts,
                });
            }
            ends.push(slots.len())?;
            dones.push(done)?;
            shown = load.pts;
        }
        Ok(Schedule { slots, ends, dones })
    }

    /// The slots of all packets, in order. They rise.
    pub fn all_slots(&self) -> &[u64]
        ensures { result.now ≡ self.now.slots }
    {
        self.slots.as_slice()
    }

    /// The slots of the packets of a set, in order.
    pub fn slots_of(&self, set: usize) -> &[u64]
        requires { set < length self.now.dones }
        ensures { result.now ≡ slots_of_set self.now set }
    {
        let start = if set == 0 { 0 } else { self.ends[set - 1] };
        &self.slots[start..self.ends[set]]
    }

    /// The tick at which a set is done.
    pub fn done(&self, set: usize) -> u64
        requires { set < length self.now.dones }
        ensures { result ≡ slice_index self.now.dones set }
    {
        self.dones[set]
    }
}
