ghost use Rattle.std.specs.Prelude.{◌≡◌, ◌<◌, ◌^◌, length, IfOk};
ghost use Rattle.cue_list.specs.OnlyRow.{IsOnlyRow};
ghost use Rattle.cue_records.specs.Rows.{IsReadable, rows_left, unread};

use csv::{ByteRecord, Reader};
use cue_records::{next_row, reader_of};
use std::alloc::Global;
use sub_base::NoMemory;

/// The records of a text of which one is wanted.
#[derive(Drop)]
pub enum OnlyRow {
    /// There is this one.
    Row(ByteRecord),
    /// There are so many, which is not one.
    Many { count: u64 },
}

/// The one record of a text, or how many there are.
pub fn only_row(alloc: Global, text: &[u8]) -> Result<OnlyRow, NoMemory>
    ensures { IfOk result (IsOnlyRow text.now) }
{
    let mut rows = reader_of(alloc, text);
    let mut row = ByteRecord::new(alloc);
    match next_row(&mut rows, &mut row) {
        Err(NoMemory) => return Err(NoMemory),
        Ok(false) => return Ok(OnlyRow::Many { count: 0 }),
        Ok(true) => {}
    }
    let more = count_rows(alloc, &mut rows)?;
    if more > 0 {
        return Ok(OnlyRow::Many { count: more + 1 });
    }
    Ok(OnlyRow::Row(row))
}

/// How many records a reader has left.
fn count_rows(alloc: Global, rows: &mut Reader<&[u8]>) -> Result<u64, NoMemory>
    requires readable { IsReadable unread rows.old }
    requires few { length (rows_left unread rows.old) < 2 ^ 64 }
    ensures { IfOk result (λ count. count ≡ length (rows_left unread rows.old)) }
{
    let mut row = ByteRecord::new(alloc);
    let mut count = 0;
    while next_row(rows, &mut row)? {
        count += 1;
    }
    Ok(count)
}
