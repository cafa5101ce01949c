/// How many bytes a stream has at the most.
pub const STREAM_LIMIT: u64 = 1 << 40;
