//! Where the PES packets of a PID may begin.

ghost use Rattle.std.specs.Prelude.{◌≡◌, ◌<◌};
ghost use Rattle.stream_syntax.specs.TransportPackets.{payload_of, pid_of};
ghost use Rattle.pid_text.specs.PidUnits.{begins_private as may_begin, begins_so as may_begin_so};

use stream_syntax::PRIVATE_STREAM_1;

/// The first bytes of a PES packet of private stream 1 (ISO/IEC 13818-1, 2.4.3.6).
const START: [u8; 4] = [0, 0, 1, PRIVATE_STREAM_1];

/// The PID of a packet.
#[inline(always)]
pub(crate) fn pid_in(packet: &[u8; 188]) -> u16
    ensures pid { result ≡ pid_of packet.now }
    ensures range { result < 8192 }
{
    u16::from(packet[1] % 32) * 256 + u16::from(packet[2])
}

/// Whether a PES packet of private stream 1 may begin with the packet.
#[inline(always)]
pub(crate) fn begins_private(packet: &[u8; 188]) -> bool
    ensures { result ≡ may_begin packet.now }
{
    packet[1] >> 7 == 0
        && packet[1] >> 6 & 1 == 1
        && packet[3] >> 4 & 1 == 1
        && begins_so(payload_bytes(packet))
}

/// Whether the bytes begin as such a PES packet does, as far as they go.
fn begins_so(bytes: &[u8]) -> bool
    ensures { result ≡ may_begin_so bytes.now }
{
    bytes
        .iter()
        .zip(&START)
        .all(|(byte, wanted)| byte == wanted)
}

/// What stands in a packet behind its head and its adaptation field.
fn payload_bytes(packet: &[u8; 188]) -> &[u8]
    ensures { result.now ≡ payload_of packet.now }
{
    let place = if packet[3] / 16 % 4 == 3 {
        5 + usize::from(packet[4])
    } else {
        4
    };
    packet.get(place..).unwrap_or(&[])
}
