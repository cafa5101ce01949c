ghost use Rattle.std.specs.Prelude.{◌≡◌, ℕ, ◌+◌, ◌-◌, ◌*◌, ◌%◌, ◌^◌, ◌<◌, ◌≤◌, [], ◌∷◌, ◌++◌, length, take, drop, OnOk, OnErr, Ok};
ghost use Rattle.stream_syntax.specs.Cutting.{IsUnit};
ghost use Rattle.stream_syntax.specs.Pes.{IsPes, pes_of, written_header, written_pes};

use byteorder::{BigEndian, ByteOrder};
use stream_syntax::{DATA_IDENTIFIER, END_OF_FIELD, PRIVATE_STREAM_1, SUBTITLE_STREAM};
use sub_base::{NoMemory, UNIT_ROOM};

/// The bytes before the data field.
const HEADER_LENGTH: usize = 14;

/// The data field begins with the data identifier of subtitles and the number of their stream.
const FIELD_START: [u8; 2] = [DATA_IDENTIFIER, SUBTITLE_STREAM];

/// The bytes behind the length field and before the data field.
const LENGTH_BEFORE_FIELD: usize = 8;

/// Appends one PES packet with this presentation time, in ticks of 90 kHz, and this data field,
/// which begins with data identifier 20 and subtitle stream id 00.
pub fn write_pes(pts: u64, field: &[u8], out: &mut Vec<u8>) -> Result<(), NoMemory>
    requires time { pts < 2 ^ 33 }
    requires fits { length field.now ≤ 65527 }
    requires subtitles { take 2 field.now ≡ DATA_IDENTIFIER ∷ SUBTITLE_STREAM ∷ [] }

    ensures bytes { OnOk result (out.new.items ≡ out.old.items ++ written_pes pts field.now) }
    ensures kept { OnErr result (out.new.items ≡ out.old.items) }

    // The bytes are a PES packet of this time, which holds what follows the field's first two
    // bytes.
    ensures packet { IsPes (written_pes pts field.now) pts (drop 2 field.now) }
    ensures read_again { pes_of (written_pes pts field.now) ≡ Ok (pts, drop 2 field.now) }

    // It is a unit that a demultiplexer of that size or more hands out whole.
    ensures unit { (size : ℕ) → 14 + length field.now ≤ size
        → IsUnit size (written_pes pts field.now) }
    ensures size { length (written_pes pts field.now) ≡ 14 + length field.now }
{
    // All memory first: nothing behind this can fail, and `out` is as before where this does.
    out.reserve(HEADER_LENGTH + field.len())?;
    let header = header(pts, (LENGTH_BEFORE_FIELD + field.len()) as u16);
    out.extend_from_slice(&header).unwrap();
    out.extend_from_slice(field).unwrap();
    Ok(())
}

/// Appends the PES packet of a unit of a display set: with this presentation time, in ticks of 90
/// kHz, and a data field of these segments between data identifier 20, subtitle stream id 00, and
/// the end marker (EN 300 743, 7.1).
pub fn write_unit(pts: u64, segments: &[u8], out: &mut Vec<u8>) -> Result<(), NoMemory>
    requires time { pts < 2 ^ 33 }
    requires fits { length segments.now ≤ UNIT_ROOM }
    ensures bytes { OnOk result
        (out.new.items ≡ out.old.items
        ++ written_pes pts
        (DATA_IDENTIFIER ∷ SUBTITLE_STREAM ∷ (segments.now ++ END_OF_FIELD ∷ []))) }
    ensures kept { OnErr result (out.new.items ≡ out.old.items) }
{
    let field_length = FIELD_START.len() + segments.len() + 1;
    out.reserve(HEADER_LENGTH + field_length)?;
    let header = header(pts, (LENGTH_BEFORE_FIELD + field_length) as u16);
    out.extend_from_slice(&header).unwrap();
    out.extend_from_slice(&FIELD_START).unwrap();
    out.extend_from_slice(segments).unwrap();
    out.push_reserved(END_OF_FIELD);
    Ok(())
}

/// The bytes before the data field.
fn header(pts: u64, packet_length: u16) -> [u8; HEADER_LENGTH]
    requires { pts < 2 ^ 33 }
    ensures { result ≡ written_header pts packet_length }
{
    // 84 says that nothing is scrambled and that the data field begins with a segment
    // (data_alignment_indicator), 80 that there is a presentation time and no decoding time, and 5
    // is the length of that.
    let mut bytes = [
        0,
        0,
        1,
        PRIVATE_STREAM_1,
        0,
        0,
        0x84,
        0x80,
        5,
        0,
        0,
        0,
        0,
        0,
    ];
    BigEndian::write_u16(&mut bytes[4..6], packet_length);
    // 0010, the highest three bits of the time, and a marker bit.
    bytes[9] = 0x21 + 2 * (pts >> 30) as u8;
    BigEndian::write_u16(&mut bytes[10..12], time_part(pts >> 15));
    BigEndian::write_u16(&mut bytes[12..14], time_part(pts));
    bytes
}

/// The low 15 bits of a time and a marker bit behind them.
fn time_part(time: u64) -> u16
    ensures { result ≡ time % 2 ^ 15 * 2 + 1 }
{
    (time % (1 << 15) * 2 + 1) as u16
}
