ghost use Rattle.std.specs.Prelude.{◌≡◌, ℕ, ◌+◌, ◌*◌, ◌^◌, ◌<◌, ◌≤◌, max};
ghost use Rattle.sub_base.specs.Pace.{tick_of, pace_of, IsSending, IsSound};

use crate::profile::Profile;

/// The ticks of 90 kHz in a second.
pub const SECOND: u64 = 90_000;

/// How packets are sent to a receiver: slot 0 is at the origin, a tick of 90 kHz, and each further
/// slot a step later. The receiver's coded data buffer has that many bytes.
#[derive(Clone, Copy, Debug)]
pub struct Pace {
    /// The tick of slot 0.
    pub origin: u64,
    /// The ticks from one slot to the next, at least 1 where packets are sent.
    pub step: u64,
    /// The bytes of the coded data buffer.
    pub coded: u64,
}

impl Pace {
    /// How a profile with a step sends from the origin on.
    pub fn of(origin: u64, profile: &Profile) -> Pace
        requires profile { IsSending profile.now }
        requires origin { origin < 2 ^ 62 }
        ensures value { result ≡ pace_of origin profile.now }
        ensures sound { IsSound result }
    {
        Pace {
            origin,
            step: profile.step.unwrap(),
            coded: profile.coded,
        }
    }

    /// The tick of a slot.
    pub fn tick(&self, slot: u64) -> u64
        requires { tick_of self.now slot < 2 ^ 64 }
        ensures { result ≡ tick_of self.now slot }
    {
        self.origin + slot * self.step
    }

    /// The first slot whose tick is not before that tick.
    pub fn first_slot_at(&self, tick: u64) -> u64
        requires { 0 < self.now.step }
        ensures reached { tick ≤ tick_of self.now result }
        ensures least { (slot : ℕ) → tick ≤ tick_of self.now slot → result ≤ slot }
        ensures near { tick_of self.now result ≤ max self.now.origin (tick + self.now.step) }
    {
        // A tick before the origin is reached by slot 0.
        tick.saturating_sub(self.origin).div_ceil(self.step)
    }
}
