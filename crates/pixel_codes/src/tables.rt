ghost use Rattle.std.specs.Prelude.{◌≡◌, ◌<◌, length};
ghost use Rattle.sub_base.specs.Depth.{code_count};
ghost use Rattle.stream_syntax.specs.PixelBlocks.{table_size};
ghost use Rattle.pixel_codes.specs.Private.Walk.{half_of};

use std::marker::Model;
use stream_syntax::MapTable;
use sub_base::Depth;

// The default contents of the map tables (EN 300 743, clause 10). The first one has two entries in
// a byte.
static TWO_TO_FOUR: [u8; 2] = [0x07, 0x8F];

static TWO_TO_EIGHT: [u8; 4] = [0x00, 0x77, 0x88, 0xFF];

static FOUR_TO_EIGHT: [u8; 16] = [
    0x00, 0x11, 0x22, 0x33, 0x44, 0x55, 0x66, 0x77, 0x88, 0x99, 0xAA, 0xBB, 0xCC, 0xDD, 0xEE, 0xFF,
];

/// The map tables that hold at a place of a block (EN 300 743, map table data): the default ones,
/// or bytes of the block. They are seen as their bytes.
#[derive(Drop)]
pub struct Tables<'a> {
    two_to_four: &'a [u8],
    two_to_eight: &'a [u8],
    four_to_eight: &'a [u8],
}

impl<'a> Model for Tables<'a> {
    ghost use Rattle.std.specs.Prelude.{◌≡◌, length};
    ghost use Rattle.pixel_codes.specs.Maps.{Maps};

    ghost Value = { Maps };

    ghost view = { λ t. record {
      two_to_four = t.two_to_four.now;
      two_to_eight = t.two_to_eight.now;
      four_to_eight = t.four_to_eight.now;
    } };

    ghost invariant = { λ t. (length t.two_to_four.now ≡ 2) × (length t.two_to_eight.now ≡ 4)
        × (length t.four_to_eight.now ≡ 16) };
}

impl<'a> Tables<'a> {
    ghost use Rattle.std.specs.Prelude.{◌≡◌, IfSome, length};
    ghost use Rattle.pixel_codes.specs.Maps.{default_maps, kind_between, table_between, with_table};
    ghost use Rattle.pixel_codes.specs.Private.Walk.{mapped_by};

    /// The tables at the start of a block (EN 300 743, clause 10).
    pub fn default_tables() -> Tables<'a>
        ensures { result ≡ default_maps }
    {
        Tables {
            two_to_four: &TWO_TO_FOUR,
            two_to_eight: &TWO_TO_EIGHT,
            four_to_eight: &FOUR_TO_EIGHT,
        }
    }

    /// Puts the bytes of a table in the place of the one of its kind.
    pub fn set(&mut self, kind: MapTable, table: &'a [u8])
        requires { length table.now ≡ table_size kind }
        ensures { self.new ≡ with_table kind table.now self.old }
    {
        match kind {
            MapTable::TwoToFour => self.two_to_four = table,
            MapTable::TwoToEight => self.two_to_eight = table,
            MapTable::FourToEight => self.four_to_eight = table,
        }
    }

    /// The bytes of the table that maps codes of a string to those of a region; none where the
    /// depths are the same, or the string is deeper.
    pub fn between(&self, string: Depth, region: Depth) -> &'a [u8]
        ensures table { result.now ≡ table_between string region self.now }
        ensures size { IfSome (kind_between string region)
            (λ kind. length result.now ≡ table_size kind) }
    {
        match (string, region) {
            (Depth::Two, Depth::Four) => self.two_to_four,
            (Depth::Two, Depth::Eight) => self.two_to_eight,
            (Depth::Four, Depth::Eight) => self.four_to_eight,
            _ => &[],
        }
    }

    /// The region's code for a code of a string.
    pub(crate) fn mapped(&self, depth: Depth, region: Depth, code: u8) -> u8
        requires { code < code_count depth }
        ensures { result ≡ mapped_by depth region self.now code }
    {
        let at = code as usize;
        match (depth, region) {
            (Depth::Two, Depth::Four) => half(self.two_to_four[at / 2], code),
            (Depth::Two, Depth::Eight) => self.two_to_eight[at],
            (Depth::Four, Depth::Eight) => self.four_to_eight[at],
            _ => code,
        }
    }
}

/// The half of a byte for a code, the high one for an even code.
fn half(byte: u8, code: u8) -> u8
    ensures { result ≡ half_of byte code }
{
    if code % 2 == 0 { byte / 16 } else { byte % 16 }
}
