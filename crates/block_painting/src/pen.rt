ghost use Rattle.std.specs.Prelude.{◌≡◌, ◌+◌, ◌*◌, ◌≤◌, length, drop};
ghost use Rattle.stream_syntax.specs.PixelBlocks.{table_size};
ghost use Rattle.pixel_codes.specs.Maps.{default_maps, with_table};

use crate::place::FieldPlace;
use pixel_codes::Tables;
use stream_syntax::MapTable;

/// Where the pen stands in a region and in a pixel data block, and the map tables there.
#[derive(Drop)]
pub(crate) struct Pen<'a> {
    /// The column of the region, which may lie behind its last one.
    pub(crate) x: u32,
    /// The row of the region, which may lie below its last one.
    pub(crate) row: u32,
    /// The sub-blocks that are left.
    pub(crate) rest: &'a [u8],
    pub(crate) tables: Tables<'a>,
    // A code of a string, of at least one bit, moves the pen by at most 284 columns, and an end of
    // line by two rows.
    ghost short: { length rest.now ≤ 65535 },
    ghost columns: { x + 284 * (8 * length rest.now) ≤ 148961055 },
    ghost rows: { row + 2 * length rest.now ≤ 196606 },
}

impl<'a> Pen<'a> {
    ghost use Rattle.block_painting.specs.Private.Pens.{stand_of};

    /// The pen at the beginning of a block.
    pub(crate) fn start(place: FieldPlace, bytes: &'a [u8]) -> Pen<'a>
        requires short { length bytes.now ≤ 65535 }
        requires row { place.first_row ≤ 1 }
        ensures { stand_of result ≡ record {
          x = place.listing.x;
          row = place.listing.y + place.first_row;
          rest = bytes.now;
          maps = default_maps;
        } }
    {
        Pen {
            x: u32::from(place.listing.x),
            row: u32::from(place.listing.y) + place.first_row,
            rest: bytes,
            tables: Tables::default_tables(),
        }
    }

    /// Goes to the beginning of the next line, behind an end of line.
    pub(crate) fn end_line(&mut self, place: FieldPlace, after: &'a [u8])
        requires { length self.old.rest.now ≡ length after.now + 1 }
        ensures { stand_of self.new ≡ record {
          x = place.listing.x;
          row = self.old.row + 2;
          rest = after.now;
          maps = self.old.tables;
        } }
    {
        self.rest = after;
        self.x = u32::from(place.listing.x);
        self.row += 2;
    }

    /// Takes a map table and moves on behind it.
    pub(crate) fn pass_table(&mut self, kind: MapTable, table: &'a [u8], after: &'a [u8])
        requires table { length table.now ≡ table_size kind }
        requires after { length after.now ≤ length self.old.rest.now }
        ensures { stand_of self.new ≡ record {
          x = self.old.x;
          row = self.old.row;
          rest = after.now;
          maps = with_table kind table.now self.old.tables;
        } }
    {
        self.rest = after;
        self.tables.set(kind, table);
    }

    /// Moves on behind a string of so many bytes, to the column behind its last pixel.
    pub(crate) fn pass_string(&mut self, body: &'a [u8], size: usize, x: u32)
        requires body { length body.now ≤ length self.old.rest.now }
        requires size { size ≤ length body.now }
        requires column { x ≤ self.old.x + 284 * (8 * size) }
        ensures { stand_of self.new ≡ record {
          x = x;
          row = self.old.row;
          rest = drop size body.now;
          maps = self.old.tables;
        } }
    {
        let (_, after) = body.split_at(size);
        self.rest = after;
        self.x = x;
    }
}
