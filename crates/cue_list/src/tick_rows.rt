ghost use Rattle.std.specs.Prelude.{◌≡◌, ◌<◌, ◌^◌, ℕ, None, IfOk};
ghost use Rattle.csv.specs.Records.{fields_of};
ghost use Rattle.cue_records.specs.CellFaults.{fault_in, value_at};
ghost use Rattle.cue_records.specs.Cells.{cell_at};
ghost use Rattle.bitmap_font.specs.Font.{FontValue};
ghost use Rattle.cue_list.specs.Private.FirstTicks.{tick_in as tick_in_of, tick_read as tick_read_of};
ghost use Rattle.cue_records.specs.Records.{kind_of, record_of};
ghost use Rattle.cue_list.specs.RowFaults.{fault_with};
ghost use Rattle.cue_list.specs.SeenReaders.{seen_of};
ghost use Rattle.cue_list.specs.TickRows.{first_tick as first_tick_of, is_not_above as is_not_above_of, is_tick_row as is_tick_row_of, tick_row_fault};

use crate::kept_rows::ScriptReader;
use csv::ByteRecord;
use cue_records::{MOST_DIGITS, RowKind, ScriptKind, cell, is_text, is_text_row, tick_cell};
use sub_base::decimal_number;

/// Whether a record is a tick, which is none of a script's own.
pub fn is_tick_row(row: &ByteRecord) -> bool
    ensures { result ≡ is_tick_row_of (fields_of row.now) }
{
    is_text(cell(row, 0), "tick")
}

impl ScriptReader {
    /// The tick of a tick record that comes behind the records so far and the last tick, or the
    /// first of its tests that fails.
    pub fn tick(&self, row: &ByteRecord, last: Option<u64>) -> Result<u64, ScriptKind>
        ensures fault { fault_in result
            ≡ tick_row_fault (seen_of self.now).past last (fields_of row.now) }
        ensures tick { IfOk result (λ tick. tick ≡ value_at (fields_of row.now) 1) }
        ensures small { IfOk result (λ tick. tick < 2 ^ 40) }
    {
        if !is_text_row(row) {
            return Err(ScriptKind::NotUtf8);
        }
        if row.len() != 2 {
            return Err(ScriptKind::Count);
        }
        if self.is_empty() {
            return Err(ScriptKind::Order);
        }
        let tick = self.tick_in_range(row)?;
        if is_not_above(last, tick) {
            return Err(ScriptKind::Order);
        }
        Ok(tick)
    }

    /// The first tick that a valid record has a part in: its own, and for a region the start of its
    /// epoch. Heads and pictures have none.
    pub fn first_tick(&self, row: &ByteRecord) -> Option<u64>
        ensures { (font : FontValue) (number : ℕ)
            → fault_with font (seen_of self.now).past (record_of number (fields_of row.now)) ≡ None
            → result ≡ first_tick_of (seen_of self.now).past
            (kind_of (cell_at (fields_of row.now) 0))
            (fields_of row.now) }
    {
        self.tick_read(row)
    }

    /// The same, as it is read.
    fn tick_read(&self, row: &ByteRecord) -> Option<u64>
        ensures { result
            ≡ tick_read_of (seen_of self.now).past (kind_of (cell_at (fields_of row.now) 0))
            (fields_of row.now) }
    {
        match RowKind::of(cell(row, 0)) {
            RowKind::Epoch | RowKind::Place | RowKind::Cue | RowKind::Colour => tick_in(row),
            RowKind::Region => self.epoch_start(),
            RowKind::Origin
            | RowKind::Display
            | RowKind::Refresh
            | RowKind::Picture
            | RowKind::Other => None,
        }
    }
}

/// Whether a tick is not above the last one.
fn is_not_above(last: Option<u64>, tick: u64) -> bool
    ensures { result ≡ is_not_above_of last tick }
{
    match last {
        None => false,
        Some(last) => tick <= last,
    }
}

/// The tick in a record's second cell.
fn tick_in(row: &ByteRecord) -> Option<u64>
    ensures { result ≡ tick_in_of (fields_of row.now) }
{
    decimal_number(cell(row, 1), MOST_DIGITS)
}
