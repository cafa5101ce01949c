ghost use Rattle.std.specs.Prelude.{◌≡◌, ◌<◌, ◌^◌};
ghost use Rattle.sub_base.specs.Pace.{done_tick};

use crate::items::Items;

/// The most bytes of segments that one PES packet has room for.
pub const UNIT_ROOM: u64 = 65_524;

/// What a display set asks of a receiver: when it is shown, how many bytes it has, and how long it
/// is painted.
#[derive(Clone, Copy, Debug, PartialEq, Eq)]
pub struct SetLoad {
    /// The presentation time, in ticks of 90 kHz.
    pub pts: u64,
    /// The bytes of its PES packets.
    pub size: u64,
    /// The time that painting its regions takes, in ticks of 90 kHz.
    pub painted: u64,
}

impl SetLoad {
    /// The tick at which the set is done, where its last packet is there at `last_arrival` and the
    /// set before is shown at
    /// `shown_before`: a tick for each byte, and the ticks of its painting, from the later of these two on.
    pub fn done(&self, last_arrival: u64, shown_before: u64) -> u64
        requires { done_tick last_arrival shown_before self.now < 2 ^ 64 }
        ensures { result ≡ done_tick last_arrival shown_before self.now }
    {
        last_arrival.max(shown_before) + self.size + self.painted
    }
}

/// What sending a display set takes: its load, and the PES packets that it is sent in.
#[derive(Drop)]
pub struct WriteLoad {
    /// What the set asks of a receiver.
    pub load: SetLoad,
    /// The bytes of its longest segment.
    pub longest: u64,
    /// The bytes of each of its PES packets, in order.
    pub units: Items<u32>,
}
