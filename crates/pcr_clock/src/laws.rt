//! Laws on the ticks of packets between samples.

ghost use Rattle.std.specs.Prelude.{◌≡◌, ◌+◌, ◌<◌, ◌≤◌, ℕ, List, ◌∷◌, ◌++◌, Option, Some, None, replicate};
ghost use Rattle.pcr_clock.specs.Arrivals.{IsBehind, last_tick, tick_between, tick_of_time, ticks_behind, ticks_of_run};
ghost use Rattle.pcr_clock.specs.declared.arrival.NextSample.{NextSample};
ghost use Rattle.pcr_clock.specs.declared.arrival.TheConstants.{MOST_BETWEEN};

/// A packet between two samples arrives no earlier than the first, nor than one ahead of it, and no
/// later than the second.
pub fn ticks_rise()
    ensures first { (last : Option ℕ) (since : ℕ) (next : Option NextSample) → IsBehind last next
        → last_tick last ≤ tick_between last since next }
    ensures next { (last : Option ℕ) (since : ℕ) (next : Option NextSample) → IsBehind last next
        → tick_between last since next ≤ tick_between last (since + 1) next }
    ensures last { (last : Option ℕ) (since : ℕ) (next : NextSample) → IsBehind last (Some next)
        → since ≤ next.behind → tick_between last since (Some next) ≤ tick_of_time next.time }
{}

/// Where a packet with a sample comes behind some without one, the ticks of all of these are known.
pub fn ticks_up_to_a_sample()
    ensures { (last : Option ℕ) (since held time : ℕ) (times : List (Option ℕ))
        → ticks_behind last since (replicate held None ++ Some time ∷ times)
        ≡ ticks_of_run last since held (Some (record { behind = since + held; time = time }))
        ++ tick_of_time time ∷ ticks_behind (Some time) 1 times }
{}

/// Where packets without a sample are so many that the next one is too far whenever it comes, the
/// ticks of all of these are known.
pub fn ticks_where_the_next_is_far()
    ensures { (last : Option ℕ) (since held : ℕ) (times : List (Option ℕ))
        → MOST_BETWEEN < since + held
        → ticks_behind last since (replicate held None ++ times)
        ≡ ticks_of_run last since held None ++ ticks_behind last (since + held) times }
{}

/// Where the stream ends behind packets without a sample, their ticks are that of the last one.
pub fn ticks_up_to_the_end()
    ensures { (last : Option ℕ) (since held : ℕ)
        → ticks_behind last since (replicate held None) ≡ ticks_of_run last since held None }
{}
