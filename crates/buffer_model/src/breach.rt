/// What a receiver of a profile cannot do.
#[derive(Clone, Copy, Debug, PartialEq, Eq)]
pub enum Breach {
    /// At that slot the coded data buffer would hold that many bytes, more than it has.
    Coded { slot: u64, level: u64 },
    /// A set is done after its presentation time, both in ticks of 90 kHz.
    Late { done: u64, pts: u64 },
}
