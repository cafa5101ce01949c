//! Laws on levels and done ticks, for each list of calls.

ghost use Rattle.std.specs.Prelude.{◌≡◌, ◌≤◌, List, None, ℕ};
ghost use Rattle.buffer_model.specs.Calls.{Call, first_breach_of, greatest};
ghost use Rattle.buffer_model.specs.Within.{AllHeard, AreWithin, later_by, moved};
ghost use Rattle.sub_base.specs.declared.pace.Pace.{Pace};

/// Where every level is within the coded data buffer, and every display set is done by its
/// presentation time, there is no breach, and the peak is within the buffer.
pub fn no_breach()
    ensures { (pace : Pace) (past : List Call) → AreWithin pace past
        → (first_breach_of pace past ≡ None) × (greatest pace past ≤ pace.coded) }
{}

/// Packets that are told from a later slot on, with an origin that is so many slots later, are
/// within buffer and times where they are so in their own slots. So whoever takes a later slot for
/// the first one sees no more breaches.
pub fn moved_within()
    ensures { (pace : Pace) (by : ℕ) (past : List Call) → AllHeard past
        → AreWithin pace (moved by past) → AreWithin (later_by by pace) past }
{}
