/// How far the horizon lies ahead of the last tick, in ticks of 90 kHz: packets come at most
/// 450,000 ticks before their set is shown, and a refresh lies at least 3,600 ticks before the next
/// set.
pub const AHEAD: u64 = 453_600;
