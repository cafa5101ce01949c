use crate::same::same;
use pcr_clock::{sample_of, spread_tick, tick_of_time, time_behind};

/// A packet of PID 256 with an adaptation field of 7 bytes, or of so many, that has those flags and
/// a sample of 90,000 times 300 and 5 units.
fn packet_of(length: u8, flags: u8) -> [u8; 188] {
    let mut packet = [0xFF; 188];
    packet[..12].copy_from_slice(&[
        0x47, 0x01, 0x00, 0x30, length, flags, 0x00, 0x00, 0xAF, 0xC8, 0x7E, 0x05,
    ]);
    packet
}

/// A second and five units of 27 MHz; no sample without the flag, without its bytes, or of another
/// PID.
#[test]
fn samples_of_packets(rt: HostRuntime) {
    same(&rt, sample_of(256, &packet_of(7, 0x10)), Some(27_000_005));
    same(&rt, sample_of(256, &packet_of(183, 0x50)), Some(27_000_005));
    same(&rt, sample_of(256, &packet_of(7, 0xEF)), None);
    same(&rt, sample_of(256, &packet_of(6, 0x10)), None);
    same(&rt, sample_of(257, &packet_of(7, 0x10)), None);
}

/// The clock goes round, and packets arrive evenly between two samples, rounded up.
#[test]
fn ticks_of_samples(rt: HostRuntime) {
    same(&rt, time_behind(None, 27_000_005), 27_000_005);
    same(
        &rt,
        time_behind(Some(2_576_980_377_599), 0),
        2_576_980_377_600,
    );
    same(&rt, time_behind(Some(27_000_005), 27_000_005), 27_000_005);
    same(&rt, tick_of_time(27_000_005), 90_001);
    same(&rt, spread_tick(27_000_000, 27_003_001, 3, 10), 90_004);
    same(&rt, spread_tick(27_000_000, 27_003_001, 10, 10), 90_011);
}
