ghost use Rattle.std.specs.Prelude.{◌≡◌, ◌+◌, ◌≤◌, length};
ghost use Rattle.stream_syntax.specs.Tests.{word_at};
ghost use Rattle.psi_tables.specs.Loops.{thirteen_at, twelve_at};

use byteorder::{BigEndian, ByteOrder};

/// The number of 16 bits at a place.
pub(crate) fn word_at(bytes: &[u8], place: usize) -> u16
    requires { place + 2 ≤ length bytes.now }
    ensures { result ≡ word_at place bytes.now }
{
    BigEndian::read_u16(&bytes[place..])
}

/// The number in the low 12 bits of the two bytes at a place.
pub(crate) fn twelve_at(bytes: &[u8], place: usize) -> usize
    requires { place + 2 ≤ length bytes.now }
    ensures { result ≡ twelve_at place bytes.now }
{
    usize::from(word_at(bytes, place) % (1 << 12))
}

/// The number in the low 13 bits of the two bytes at a place.
pub(crate) fn thirteen_at(bytes: &[u8], place: usize) -> u16
    requires { place + 2 ≤ length bytes.now }
    ensures { result ≡ thirteen_at place bytes.now }
{
    word_at(bytes, place) % (1 << 13)
}
