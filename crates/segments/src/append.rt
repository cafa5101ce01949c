ghost use Rattle.std.specs.Prelude.{◌≡◌, ◌+◌, ◌≤◌, ◌++◌, length, vec_len};
ghost use Rattle.std.specs.Vec.{vec_capacity};
ghost use Rattle.segments.specs.Writing.{word_bytes};

use byteorder::{BigEndian, ByteOrder};

/// Appends bytes for which there is room.
pub(crate) fn append(out: &mut Vec<u8>, bytes: &[u8])
    requires { vec_len out.old + length bytes.now ≤ vec_capacity out.old }
    ensures items { out.new.items ≡ out.old.items ++ bytes.now }
    ensures len { vec_len out.new ≡ vec_len out.old + length bytes.now }
    ensures capacity { vec_capacity out.old ≤ vec_capacity out.new }
{
    // Room was reserved, so that this takes no memory.
    out.extend_from_slice(bytes).unwrap();
}

/// A number of 16 bits as bytes.
pub(crate) fn word(number: u16) -> [u8; 2]
    ensures { result ≡ word_bytes number }
{
    let mut bytes = [0; 2];
    BigEndian::write_u16(&mut bytes, number);
    bytes
}
