ghost use Rattle.std.specs.Prelude.{◌<◌, ◌≡◌, ◌≤◌, ◌+◌, ◌++◌, All, List, length, ℕ};
ghost use Rattle.sub_base.specs.Pace.{tick_of};
ghost use Rattle.sub_base.specs.declared.load.WriteLoad.{WriteLoad};
ghost use Rattle.sub_base.specs.declared.pace.Pace.{Pace};
ghost use Rattle.schedule.specs.Fronts.{front_of};
ghost use Rattle.schedule.specs.Packets.{load_of, packets_of};
ghost use Rattle.schedule.specs.Slots.{slot_of, Timetable, IsLoad, IsSchedule};
ghost use Rattle.schedule.specs.declared.limits.TheConstants.{SEND_WINDOW};

/// In a schedule the first sets stand as if there were no others: their slots and done ticks are
/// those of a schedule of these sets alone.
pub fn front_is_schedule()
    ensures { (pace : Pace) (front rest : List WriteLoad) (table : Timetable)
        → All IsLoad front → IsSchedule (front ++ rest) (length (front ++ rest)) pace table
        → IsSchedule front (length front) pace (front_of front table) }
{}

/// Schedules of sets that begin alike begin alike: whatever sets come behind them, the first ones
/// have the same slots and are done at the same ticks.
pub fn slots_stay()
    ensures { (pace : Pace) (front rest others : List WriteLoad) (before now : Timetable)
        → All IsLoad front
        → IsSchedule (front ++ rest) (length (front ++ rest)) pace before
        → IsSchedule (front ++ others) (length (front ++ others)) pace now
        → front_of front before ≡ front_of front now }
{}

/// A packet that is sent by a tick is of a set that is shown at most five seconds later.
pub fn packets_are_of_near_sets()
    ensures { (loads : List WriteLoad) (n : ℕ) (pace : Pace) (table : Timetable)
        (set packet tick : ℕ)
        → IsSchedule loads n pace table → set < n → packet < packets_of loads set
        → tick_of pace (slot_of loads table.slots set packet) ≤ tick
        → (load_of loads set).pts ≤ tick + SEND_WINDOW }
{}
