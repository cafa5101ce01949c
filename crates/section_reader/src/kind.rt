ghost use Rattle.section_reader.specs.Private.Kinds.{IsKind};

use ts_packets::{HEAD_LENGTH, Payload, is_of_pid, payload_from};

/// What a packet is for the sections of a PID.
#[derive(Clone, Copy)]
pub enum Kind<'a> {
    /// It has another PID.
    Other,
    /// It is marked as damaged, or its control or adaptation field is faulty.
    Broken,
    /// It has no payload.
    Empty,
    /// It has bytes of sections.
    Payload(Payload<'a>),
}

/// What a packet is for the sections of a PID.
pub fn kind_of(pid: u16, packet: &[u8; 188]) -> Kind<'_>
    ensures { IsKind pid packet.now result }
{
    if !is_of_pid(pid, packet) {
        return Kind::Other;
    }
    if packet[1] >> 7 == 1 {
        return Kind::Broken;
    }
    match packet[3] >> 4 & 3 {
        0 => Kind::Broken,
        1 => Kind::Payload(payload_from(packet, HEAD_LENGTH)),
        2 if packet[4] > 183 => Kind::Broken,
        2 => Kind::Empty,
        _ if packet[4] > 182 => Kind::Broken,
        _ => Kind::Payload(payload_from(packet, HEAD_LENGTH + 1 + usize::from(packet[4]))),
    }
}
