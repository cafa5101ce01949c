/// How many bytes each of two streams has at the most that are joined.
pub const SPLICE_LIMIT: u64 = 67_108_864;

/// How many ticks of 90 kHz a set lies before the cut at the most to be too close to it: 40 ms.
pub const TOO_CLOSE: u64 = 3_600;

/// How many it lies before it at the least to be too far from it: half a round of a presentation
/// time.
pub const TOO_FAR: u64 = 4_294_967_296;
