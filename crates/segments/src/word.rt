ghost use Rattle.std.specs.Prelude.{◌≡◌, ◌==◌, ◌+◌, ◌/◌, ◌%◌, ◌^◌, ◌<◌, ◌≤◌, length};
ghost use Rattle.stream_syntax.specs.Tests.{word_at};

use byteorder::{BigEndian, ByteOrder};

/// The number of 16 bits at a place.
pub(crate) fn read_word(bytes: &[u8], place: usize) -> u16
    requires { place + 2 ≤ length bytes.now }
    ensures { result ≡ word_at place bytes.now }
{
    BigEndian::read_u16(&bytes[place..])
}

/// The number of so many bits of a byte, above its lowest ones.
pub(crate) fn bits(byte: u8, low: u32, width: u32) -> u8
    requires low { low < 8 }
    requires width { width < 8 }
    ensures { result ≡ byte / 2 ^ low % 2 ^ width }
{
    (byte >> low) % (1 << width)
}

/// Whether a bit of a byte is set, that above so many lowest ones.
pub(crate) fn is_set(byte: u8, low: u32) -> bool
    requires { low < 8 }
    ensures { result ≡ (byte / 2 ^ low % 2 == 1) }
{
    bits(byte, low, 1) == 1
}
