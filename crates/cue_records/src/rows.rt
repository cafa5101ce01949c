ghost use Rattle.std.specs.Prelude.{◌≡◌, ◌∷◌, [], if◌then◌else◌, IfOk, true};
ghost use Rattle.csv.specs.Records.{fields_of};
ghost use Rattle.cue_records.specs.Rows.{IsReadable, rows_left, rows_of, unread};

use csv::{ByteRecord, Reader, ReaderBuilder};
use std::alloc::Global;
use sub_base::NoMemory;

/// A reader over the records of a script: no header, records of any number of cells.
pub fn reader_of(alloc: Global, text: &[u8]) -> Reader<&[u8]>
    ensures readable { IsReadable unread result }
    ensures rows { rows_left unread result ≡ rows_of text.now }
{
    ReaderBuilder::new()
        .has_headers(false)
        .flexible(true)
        .from_reader(alloc, text)
}

/// Reads the next record, and answers whether there was one. Want of memory is the one error: the
/// text is in memory, and a record may have any number of cells of any bytes.
pub fn next_row(reader: &mut Reader<&[u8]>, row: &mut ByteRecord) -> Result<bool, NoMemory>
    requires { IsReadable unread reader.old }
    ensures readable { IfOk result (λ found. found ≡ true → IsReadable unread reader.new) }
    ensures row { IfOk result
        (λ found. rows_left unread reader.old
        ≡ (if found then fields_of row.new ∷ rows_left unread reader.new else [])) }
{
    let found = match reader.read_byte_record(row) {
        Ok(found) => found,
        Err(_) => return Err(NoMemory),
    };
    Ok(found)
}
