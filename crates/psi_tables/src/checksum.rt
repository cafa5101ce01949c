//! The CRC of tables (ISO/IEC 13818-1, annex A).

ghost use Rattle.std.specs.Prelude.{◌≡◌, ◌<◌, ◌%◌, ◌/◌, ◌^◌};
ghost use Rattle.stream_syntax.specs.PixelCodes.{bits};
ghost use Rattle.psi_tables.specs.Crc.{crc_behind, crc_of, crc_step};

/// The polynomial, without its highest power.
const POLYNOMIAL: u32 = 0x04C1_1DB7;

/// The CRC of bytes (ISO/IEC 13818-1, annex A): it starts with all ones, goes from the highest bit
/// of each byte, and is not inverted. That of a whole section with its own CRC is 0.
#[tactic(auto, using(crate::proofs::CrcLaws::crc_next, crate::proofs::CrcLaws::crc_end))]
pub fn crc(bytes: &[u8]) -> u32
    ensures { result ≡ crc_of bytes.now }
{
    let mut register = u32::MAX;
    for &byte in bytes {
        register = shift_byte(register, byte);
    }
    register
}

/// The register after a byte more.
#[tactic(auto, using(crate::proofs::CrcLaws::crc_eight))]
fn shift_byte(register: u32, byte: u8) -> u32
    ensures { result ≡ crc_behind register (bits 8 byte) }
{
    let register = shift_bit(register, byte >> 7);
    let register = shift_bit(register, (byte >> 6) % 2);
    let register = shift_bit(register, (byte >> 5) % 2);
    let register = shift_bit(register, (byte >> 4) % 2);
    let register = shift_bit(register, (byte >> 3) % 2);
    let register = shift_bit(register, (byte >> 2) % 2);
    let register = shift_bit(register, (byte >> 1) % 2);
    shift_bit(register, byte % 2)
}

/// The register after a bit more.
fn shift_bit(register: u32, bit: u8) -> u32
    ensures { result ≡ crc_step register bit }
{
    if register >> 31 == u32::from(bit) {
        register << 1
    } else {
        register << 1 ^ POLYNOMIAL
    }
}
