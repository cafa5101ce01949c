ghost use Rattle.std.specs.Prelude.{◌≡◌, ◌+◌, ◌-◌, ◌*◌, ◌/◌, ◌%◌, ◌^◌, ◌<◌, ◌≤◌, [], ◌∷◌, ◌++◌, length, take, drop, OnOk, IfOk};
ghost use Rattle.stream_syntax.specs.Pes.{written_header, written_pes};

use std::alloc::Global;
use sub_base::NoMemory;

/// A packet that begins with this head and ends with these bytes, with FF between. Where both have
/// no room, the head's last bytes are not there.
pub fn packet_of(head: &[u8], bytes: &[u8]) -> [u8; 188]
    ensures begins { length head.now + length bytes.now ≤ 188
        → take (length head.now) result ≡ head.now }
    ensures ends { length bytes.now ≤ 188 → drop (188 - length bytes.now) result ≡ bytes.now }
{
    let mut packet = [0xFF; 188];
    let begun = head.len().min(188);
    packet[..begun].copy_from_slice(&head[..begun]);
    let ended = bytes.len().min(188);
    let (_, end) = packet.split_at_mut(188 - ended);
    end.copy_from_slice(&bytes[bytes.len() - ended..]);
    packet
}

/// The bytes of two packets, and so many further bytes.
pub fn stream_of(
    alloc: Global,
    first: [u8; 188],
    second: [u8; 188],
    further: &[u8],
) -> Result<Vec<u8>, NoMemory>
    ensures { IfOk result (λ stream. stream.items ≡ first ++ second ++ further.now) }
{
    let mut stream = Vec::from_slice(alloc, &first)?;
    stream.extend_from_slice(&second)?;
    stream.extend_from_slice(further)?;
    Ok(stream)
}

/// A packet of PID 256 with a piece of a unit at its end, behind an adaptation field where there is
/// room for one.
pub fn piece_packet(starts: bool, counter: u8, piece: &[u8]) -> [u8; 188]
    requires { length piece.now ≤ 184 }
    ensures { drop (188 - length piece.now) result ≡ piece.now }
{
    let pid_high = if starts { 0x41 } else { 0x01 };
    let control: u8 = if piece.len() < 184 { 0x30 } else { 0x10 };
    let field = 183usize.saturating_sub(piece.len()) as u8;
    let control_byte = (counter % 16).wrapping_add(control);
    let head = [0x47, pid_high, 0x00, control_byte, field, 0x00];
    packet_of(&head, piece)
}

/// Packets of PID 256 behind one another.
#[derive(Drop)]
pub struct Sent {
    pub stream: Vec<u8>,
    counter: u8,
}

impl Sent {
    /// No packet. Those that come are put behind these bytes.
    pub fn new(stream: Vec<u8>) -> Sent
        ensures { result.stream.items ≡ stream.items }
    {
        Sent { stream, counter: 0 }
    }

    /// Sends a unit, in as many packets as it has pieces of 184 bytes.
    pub fn push(&mut self, unit: &[u8]) -> Result<(), NoMemory>
        ensures { OnOk result (length self.new.stream.items
            ≡ length self.old.stream.items + 188 * ((length unit.now + 183) / 184)) }
    {
        let mut starts = true;
        for piece in unit.chunks(184) {
            let packet = piece_packet(starts, self.counter, piece);
            self.stream.extend_from_slice(&packet)?;
            self.counter = self.counter.wrapping_add(1);
            starts = false;
        }
        Ok(())
    }
}

/// The bytes of a presentation time, by the syntax of ISO/IEC 13818-1, table 2-21. They end the
/// bytes of a PES packet before its data field.
pub fn time_bytes(pts: u64) -> [u8; 5]
    requires { pts < 2 ^ 33 }
    ensures { result ≡ drop 9 (written_header pts 0) }
{
    [
        (0x21 + (pts >> 30) % 8 * 2) as u8,
        ((pts >> 22) % 256) as u8,
        ((pts >> 15) % 128 * 2 + 1) as u8,
        ((pts >> 7) % 256) as u8,
        (pts % 128 * 2 + 1) as u8,
    ]
}

/// A packet of PID 256 with a whole PES packet of these segments at its end, of 17 bytes more.
pub fn set_packet(counter: u8, pts: u32, segments: &[u8]) -> [u8; 188]
    requires { length segments.now ≤ 160 }
    ensures begins { take 3 result ≡ 0x47 ∷ 0x41 ∷ 0x00 ∷ [] }
    ensures ends { drop (171 - length segments.now) result
        ≡ written_pes pts (0x20 ∷ 0x00 ∷ (segments.now ++ 0xFF ∷ [])) }
{
    let head = [
        0x47,
        0x41,
        0x00,
        0x30 + counter % 16,
        166 - segments.len() as u8,
        0x00,
    ];
    let unit = short_unit(pts, segments);
    packet_of(&head, &unit[..17 + segments.len()])
}

/// A PES packet of these segments, with FF behind it.
fn short_unit(pts: u32, segments: &[u8]) -> [u8; 177]
    requires { length segments.now ≤ 160 }
    ensures { take (17 + length segments.now) result
        ≡ written_pes pts (0x20 ∷ 0x00 ∷ (segments.now ++ 0xFF ∷ [])) }
{
    let mut unit = [0xFF; 177];
    put_at(&mut unit, 0, &unit_begin(pts, segments.len() as u8));
    put_at(&mut unit, 16, segments);
    put_at(&mut unit, 16 + segments.len(), &[0xFF]);
    unit
}

/// Puts bytes at a place, behind those that stand before it.
fn put_at(unit: &mut [u8; 177], place: usize, bytes: &[u8])
    requires { place + length bytes.now ≤ 177 }
    ensures { take (place + length bytes.now) unit.new ≡ take place unit.old ++ bytes.now }
{
    unit[place..place + bytes.len()].copy_from_slice(bytes);
}

/// The bytes of such a packet before its segments.
fn unit_begin(pts: u32, length: u8) -> [u8; 16]
    requires { length ≤ 160 }
    ensures { result ≡ written_header pts (length + 11) ++ 0x20 ∷ 0x00 ∷ [] }
{
    let [a, b, c, d, e] = time_bytes(u64::from(pts));
    [
        0,
        0,
        1,
        0xBD,
        0,
        length + 11,
        0x84,
        0x80,
        5,
        a,
        b,
        c,
        d,
        e,
        0x20,
        0,
    ]
}

/// A PES packet of these segments alone, put into `unit`: 17 bytes and theirs.
pub fn put_unit(unit: &mut Vec<u8>, pts: u64, segments: &[u8]) -> Result<(), NoMemory>
    requires time { pts < 2 ^ 33 }
    requires fits { length segments.now ≤ 65524 }
    ensures { OnOk result
        (unit.new.items ≡ written_pes pts (0x20 ∷ 0x00 ∷ (segments.now ++ 0xFF ∷ []))) }
{
    let length = segments.len() + 11;
    let [high, low] = [(length / 256) as u8, (length % 256) as u8];
    unit.clear();
    unit.extend_from_slice(&[0x00, 0x00, 0x01, 0xBD, high, low, 0x84, 0x80, 0x05])?;
    unit.extend_from_slice(&time_bytes(pts))?;
    unit.extend_from_slice(&[0x20, 0x00])?;
    unit.extend_from_slice(segments)?;
    unit.push(0xFF)?;
    Ok(())
}

/// A unit as a usual encoder makes it, with a stuffing segment.
#[rattlefmt::skip]
pub const ENCODER_UNIT: [u8; 84] = [
    0x00, 0x00, 0x01, 0xBD, 0x00, 0x4E, 0x84, 0x80, 0x05, 0x21, 0x00, 0x05, 0xBF, 0x21, 0x20, 0x00,
    0x0F, 0x10, 0x00, 0x01, 0x00, 0x08, 0x0A, 0x08, 0x01, 0x00, 0x00, 0x00, 0x00, 0x00, 0x0F, 0x11,
    0x00, 0x01, 0x00, 0x10, 0x01, 0x08, 0x00, 0x02, 0x00, 0x01, 0x24, 0x00, 0x00, 0x00, 0x00, 0x05,
    0x00, 0x00, 0x00, 0x00, 0x0F, 0xFF, 0x00, 0x01, 0x00, 0x02, 0xAA, 0xAA, 0x0F, 0x13, 0x00, 0x01,
    0x00, 0x0B, 0x00, 0x05, 0x00, 0x00, 0x04, 0x00, 0x00, 0x10, 0x70, 0x00, 0xF0, 0x0F, 0x80, 0x00,
    0x01, 0x00, 0x00, 0xFF,
];

/// The lines of its segments.
pub const ENCODER_LINES: &str = "segment 2 10 1 8\n\
     segment 16 11 1 16\n\
     segment 38 FF 1 2\n\
     segment 46 13 1 11\n\
     segment 63 80 1 0\n";

/// Its segments.
pub fn encoder_segments() -> &'static [u8]
    ensures { result.now ≡ take 67 (drop 16 ENCODER_UNIT) }
{
    ENCODER_UNIT.get(16..83).unwrap_or(&[])
}
