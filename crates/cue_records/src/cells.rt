ghost use Rattle.std.specs.Prelude.{◌≡◌};
ghost use Rattle.std.specs.Str.{bytes_eq};
ghost use Rattle.csv.specs.Records.{fields_of};
ghost use Rattle.cue_records.specs.Cells.{cell_at};

use csv::ByteRecord;

/// The cell at that place, empty where the record is shorter.
pub fn cell(row: &ByteRecord, place: usize) -> &[u8]
    ensures { result.now ≡ cell_at (fields_of row.now) place }
{
    match row.get(place) {
        Some(cell) => cell,
        None => &[],
    }
}

/// Whether the cell is that text.
pub fn is_text(cell: &[u8], text: &str) -> bool
    ensures { result ≡ bytes_eq cell.now text.now }
{
    cell == text.as_bytes()
}
