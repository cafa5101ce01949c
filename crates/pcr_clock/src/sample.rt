ghost use Rattle.std.specs.Prelude.{◌≡◌, ◌<◌, ◌≤◌, IfSome};
ghost use Rattle.pcr_clock.specs.Samples.{base_of, extension_of, has_clock as has_clock_in, sample_of as sample_in, time_behind as time_behind_of};

use stream_syntax::SYNC_BYTE;

/// How many units of 27 MHz the clock counts until it goes round: 2^33 times 300.
pub const CLOCK_ROUND: u64 = 2_576_980_377_600;

/// Times stay below this, 2^62 units of 27 MHz, some 5,400 years.
pub const CLOCK_LIMIT: u64 = 1 << 62;

/// The sample of the clock that a packet of that PID carries, in units of 27 MHz (ISO/IEC 13818-1,
/// 2.4.3.4, `program_clock_reference_base` and `program_clock_reference_extension`).
pub fn sample_of(pid: u16, packet: &[u8; 188]) -> Option<u64>
    ensures sample { result ≡ sample_in pid packet.now }
    ensures small { IfSome result (λ sample. sample < CLOCK_LIMIT) }
{
    let own = u16::from(packet[1] % 32) * 256 + u16::from(packet[2]);
    if packet[0] != SYNC_BYTE || own != pid || packet[1] / 128 == 1 || !has_clock(packet) {
        return None;
    }
    Some(clock_base(packet) * 300 + clock_extension(packet))
}

/// Whether a packet has an adaptation field with a sample.
fn has_clock(packet: &[u8; 188]) -> bool
    ensures { result ≡ has_clock_in packet.now }
{
    packet[3] / 16 % 4 >= 2 && packet[4] >= 7 && packet[5] / 16 % 2 == 1
}

/// The sample's 33 bits in units of 90 kHz.
fn clock_base(packet: &[u8; 188]) -> u64
    ensures base { result ≡ base_of packet.now }
    ensures small { result < 8589934592 }
{
    u64::from(packet[6]) * 33_554_432
        + u64::from(packet[7]) * 131_072
        + u64::from(packet[8]) * 512
        + u64::from(packet[9]) * 2
        + u64::from(packet[10] / 128)
}

/// What the sample has beside them, in units of 27 MHz.
fn clock_extension(packet: &[u8; 188]) -> u64
    ensures extension { result ≡ extension_of packet.now }
    ensures small { result < 512 }
{
    u64::from(packet[10] % 2) * 256 + u64::from(packet[11])
}

/// The time of a sample behind the time of the last one. It does not fall.
pub fn time_behind(last: Option<u64>, sample: u64) -> u64
    requires last { IfSome last (λ time. time < CLOCK_LIMIT) }
    requires sample { sample < CLOCK_LIMIT }
    ensures time { result ≡ time_behind_of last sample }
    ensures small { result < CLOCK_LIMIT }
    ensures later { IfSome last (λ time. time ≤ result) }
{
    match last {
        None => sample,
        Some(last) => {
            let time = last + (sample + (CLOCK_ROUND - last % CLOCK_ROUND)) % CLOCK_ROUND;
            if time < CLOCK_LIMIT { time } else { last }
        }
    }
}
