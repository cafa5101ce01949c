/// How long before its set is shown a packet is sent at the earliest, in ticks of 90 kHz.
pub const SEND_WINDOW: u64 = 450_000;
