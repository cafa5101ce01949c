//! Rows of packed codes turned into colours, byte by byte, through a table of a CLUT.

ghost use Rattle.std.specs.Prelude.{◌≡◌, ◌+◌, ◌*◌, ◌/◌, ◌<◌, ◌≤◌, length};
ghost use Rattle.sub_base.specs.Depth.{code_count, packed_length};
ghost use Rattle.sub_base.specs.declared.depth.Depth.TheVariants.{Two, Four, Eight};
ghost use Rattle.pixel_store.specs.Codes.{codes_in_byte, packed_code};
ghost use Rattle.page_core.specs.Coloured.{AreColouredTo, AreColoured, IsByteColoured};

use sub_base::{Colour, Depth};

/// Gives each place of a row the colour of the code there, by the colours of a CLUT for codes of
/// that depth.
pub(crate) fn colours_into(packed: &[u8], depth: Depth, colours: &[Colour], row: &mut [Colour])
    requires colours { length colours.now ≡ code_count depth }
    requires codes { packed_length depth (length row.old) ≤ length packed.now }
    ensures { AreColoured depth packed.now colours.now row.new }
{
    let whole = match depth {
        Depth::Two => two_bit_bytes(packed, colours, row),
        Depth::Four => four_bit_bytes(packed, colours, row),
        Depth::Eight => 0,
    };
    codes_from(packed, depth, colours, row, whole);
}

/// Gives the places of whole bytes of two bit codes their colours, and tells how many these are.
fn two_bit_bytes(packed: &[u8], colours: &[Colour], row: &mut [Colour]) -> usize
    requires colours { length colours.now ≡ 4 }
    requires codes { packed_length Two (length row.old) ≤ length packed.now }
    ensures within { result ≤ length row.old }
    ensures coloured { AreColouredTo result Two packed.now colours.now row.new }
{
    let whole = row.len() / 4;
    for i in 0..whole {
        two_bit_byte(packed[i], colours, row, 4 * i);
    }
    4 * whole
}

/// Gives four places of a row the colours of the codes of a byte.
#[inline(always)]
fn two_bit_byte(byte: u8, colours: &[Colour], row: &mut [Colour], place: usize)
    requires colours { length colours.now ≡ 4 }
    requires place { place + 4 ≤ length row.old }
    ensures { IsByteColoured Two byte place colours.now row.old row.new }
{
    row[place] = colours[usize::from(byte >> 6)];
    row[place + 1] = colours[usize::from((byte >> 4) % 4)];
    row[place + 2] = colours[usize::from((byte >> 2) % 4)];
    row[place + 3] = colours[usize::from(byte % 4)];
}

/// Gives the places of whole bytes of four bit codes their colours, and tells how many these are.
fn four_bit_bytes(packed: &[u8], colours: &[Colour], row: &mut [Colour]) -> usize
    requires colours { length colours.now ≡ 16 }
    requires codes { packed_length Four (length row.old) ≤ length packed.now }
    ensures within { result ≤ length row.old }
    ensures coloured { AreColouredTo result Four packed.now colours.now row.new }
{
    let whole = row.len() / 2;
    for i in 0..whole {
        four_bit_byte(packed[i], colours, row, 2 * i);
    }
    2 * whole
}

/// Gives two places of a row the colours of the codes of a byte.
#[inline(always)]
fn four_bit_byte(byte: u8, colours: &[Colour], row: &mut [Colour], place: usize)
    requires colours { length colours.now ≡ 16 }
    requires place { place + 2 ≤ length row.old }
    ensures { IsByteColoured Four byte place colours.now row.old row.new }
{
    row[place] = colours[usize::from(byte >> 4)];
    row[place + 1] = colours[usize::from(byte % 16)];
}

/// Gives the places from one on the colours of the codes there, one by one.
fn codes_from(packed: &[u8], depth: Depth, colours: &[Colour], row: &mut [Colour], from: usize)
    requires colours { length colours.now ≡ code_count depth }
    requires codes { packed_length depth (length row.old) ≤ length packed.now }
    requires from { from ≤ length row.old }
    requires before { AreColouredTo from depth packed.now colours.now row.old }
    ensures { AreColoured depth packed.now colours.now row.new }
{
    for x in from..row.len() {
        row[x] = colours[usize::from(code_at(packed, depth, x))];
    }
}

/// The code at a place of a packed row.
#[inline(always)]
fn code_at(packed: &[u8], depth: Depth, x: usize) -> u8
    requires { x / codes_in_byte depth < length packed.now }
    ensures code { result ≡ packed_code depth packed.now x }
    ensures depth { result < code_count depth }
{
    match depth {
        Depth::Two => (packed[x / 4] >> (6 - 2 * (x % 4) as u32)) % 4,
        Depth::Four => (packed[x / 2] >> (4 - 4 * (x % 2) as u32)) % 16,
        Depth::Eight => packed[x],
    }
}
