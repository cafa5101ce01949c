/// The greatest origin of a script, in ticks of 90 kHz: the last time of 33 bits.
pub const LATEST_ORIGIN: u64 = 8_589_934_591;

/// How many ticks after the origin a tick may lie: ten hours.
pub const LONGEST_SCRIPT: u64 = 3_240_000_000;

/// Two ticks of a script lie more ticks apart than these, where they differ; and so does a refresh
/// and the next tick that a record names.
pub const CLOSE_TICKS: u64 = 3_600;

/// How many ticks a place or a cue lasts at the most: ten minutes.
pub const LONGEST_CUE: u64 = 54_000_000;

/// How many columns a display, a region and a picture have at the most.
pub const MOST_WIDTH: u16 = 1_920;

/// How many rows a display, a region and a picture have at the most.
pub const MOST_HEIGHT: u16 = 1_080;

/// How many digits a number has at the most.
pub const MOST_DIGITS: usize = 11;

/// How many epochs a script has at the most.
pub const MOST_EPOCHS: usize = 512;

/// How many regions an epoch has at the most.
pub const MOST_REGIONS: usize = 64;

/// How many colours a script has at the most.
pub const MOST_COLOURS: u32 = 8_192;

/// How many pictures with a name a script has at the most.
pub const MOST_PICTURES: u32 = 4_096;

/// How many places and cues a script has at the most.
pub const MOST_CUES: u32 = 4_096;

/// How many codes the pictures of a script have at the most, the set texts with them.
pub const MOST_CODES: u64 = 268_435_456;

/// How many pixels a run of a picture has at the most: those of the largest picture.
pub const LONGEST_RUN: u32 = 2_073_600;

/// How many bytes the name of a picture has at the most.
pub const LONGEST_NAME: usize = 64;
