ghost use Rattle.std.specs.Prelude.{◌≡◌, ◌<◌, ◌≤◌, ◌==◌, ◌↔◌, false, length, drop, IsTrue, MatchResult, None, Some};
ghost use Rattle.stream_syntax.specs.TransportPackets.{packet_fault, payload_of, pid_of, counter_of, has_start_flag};
ghost use Rattle.stream_syntax.specs.declared.wire.TheConstants.{PAYLOAD_LENGTH};
ghost use Rattle.ts_packets.specs.Kinds.{IsKind};

use crate::packetiser::HEAD_LENGTH;
use byteorder::{BigEndian, ByteOrder};
use stream_syntax::{PacketFault, SYNC_BYTE};

/// What a packet is for the units of a PID.
#[derive(Clone, Copy)]
pub enum Kind<'a> {
    /// It has another PID.
    Other,
    /// It is marked as damaged (transport_error_indicator).
    Damaged,
    /// It has no payload (adaptation_field_control 10).
    Empty,
    /// It has bytes of a unit.
    Payload(Payload<'a>),
}

/// The payload of a packet, with the packet's counter, and whether it has the start flag.
#[derive(Clone, Copy)]
pub struct Payload<'a> {
    /// The continuity counter, 0 to 15 (continuity_counter).
    pub counter: u8,
    /// Whether a unit begins with these bytes, or a section in them (payload_unit_start_indicator).
    pub start: bool,
    /// The bytes of the payload.
    pub bytes: &'a [u8],
}

/// Whether a packet begins with the sync byte and has another PID.
#[inline(always)]
pub fn is_other(pid: u16, packet: &[u8; 188]) -> bool
    ensures { IsTrue result
        ↔ (packet_fault pid packet.now ≡ None) × ((pid_of packet.now == pid) ≡ false) }
{
    packet[0] == SYNC_BYTE && !is_of_pid(pid, packet)
}

/// Whether the packet has that PID.
#[inline(always)]
pub fn is_of_pid(pid: u16, packet: &[u8; 188]) -> bool
    ensures { result ≡ (pid_of packet.now == pid) }
{
    BigEndian::read_u16(&packet[1..3]) & 0x1FFF == pid
}

/// Reads what a packet is for a PID, with the first of its faults. A packet of another PID costs
/// two comparisons.
#[inline(always)]
pub fn kind_of(pid: u16, packet: &[u8; 188]) -> Result<Kind<'_>, PacketFault>
    ensures { MatchResult result
        (λ kind. (packet_fault pid packet.now ≡ None) × IsKind pid packet.now kind)
        (λ fault. packet_fault pid packet.now ≡ Some fault) }
{
    if packet[0] != SYNC_BYTE {
        return Err(PacketFault::NoSync);
    }
    if !is_of_pid(pid, packet) {
        return Ok(Kind::Other);
    }
    // Nothing that follows in a damaged packet can be trusted, so that it is tested no further.
    if packet[1] >> 7 == 1 {
        return Ok(Kind::Damaged);
    }
    if packet[3] >> 6 != 0 {
        return Err(PacketFault::Scrambled);
    }
    match packet[3] >> 4 & 3 {
        0 => Err(PacketFault::ReservedControl),
        1 => Ok(Kind::Payload(payload_from(packet, HEAD_LENGTH))),
        2 if packet[4] > 183 => Err(PacketFault::BadAdaptation),
        2 => Ok(Kind::Empty),
        _ if packet[4] > 182 => Err(PacketFault::BadAdaptation),
        _ => Ok(Kind::Payload(payload_from(packet, HEAD_LENGTH + 1 + usize::from(packet[4])))),
    }
}

/// The payload from a place on, with the packet's counter and start flag.
pub fn payload_from(packet: &[u8; 188], place: usize) -> Payload<'_>
    requires low { 4 ≤ place }
    requires high { place < 188 }
    ensures counter { result.counter ≡ counter_of packet.now }
    ensures start { result.start ≡ has_start_flag packet.now }
    ensures bytes { result.bytes.now ≡ drop place packet.now }
{
    Payload {
        counter: packet[3] & 15,
        start: packet[1] >> 6 & 1 == 1,
        bytes: &packet[place..],
    }
}

/// What stands in a packet behind its head and its adaptation field.
pub fn payload_bytes(packet: &[u8; 188]) -> &[u8]
    ensures payload { result.now ≡ payload_of packet.now }
    ensures short { length result.now ≤ PAYLOAD_LENGTH }
{
    let start = if packet[3] / 16 % 4 == 3 {
        HEAD_LENGTH + 1 + usize::from(packet[4])
    } else {
        HEAD_LENGTH
    };
    packet.get(start..).unwrap_or(&[])
}
