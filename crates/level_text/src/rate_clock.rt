ghost use Rattle.std.specs.Prelude.{◌≡◌, ◌<◌, ◌≤◌, ◌^◌};
ghost use Rattle.level_text.specs.RateClock.{arrival_tick};

use std::marker::Model;
use stream_syntax::PACKET_LENGTH;
use sub_base::SECOND;

/// The least rate of a stream that is asked for, in bits a second.
pub const LEAST_RATE: u64 = 1_000;

/// The greatest rate of a stream that is asked for, in bits a second.
pub const GREATEST_RATE: u64 = 1_000_000_000;

/// The clock of a stream that is sent at an even rate, from tick 0 of 90 kHz on.
#[derive(Clone, Copy, Debug)]
pub struct RateClock {
    /// Bits a second.
    pub rate: u64,
}

impl RateClock {
    /// The tick at which the packet of that place arrives, counted from 0.
    pub fn tick(&self, place: u64) -> u64
        requires least { LEAST_RATE ≤ self.now.rate }
        requires most { self.now.rate ≤ GREATEST_RATE }
        requires place { place < 2 ^ 40 }
        ensures tick { result ≡ arrival_tick self.now.rate place }
        ensures small { result < 2 ^ 60 }
    {
        let bits = u128::from(place) * (8 * PACKET_LENGTH as u128);
        (bits * u128::from(SECOND)).div_ceil(u128::from(self.rate)) as u64
    }
}
