ghost use Rattle.std.specs.Prelude.{◌≡◌, ◌<◌, ◌^◌, ◌==◌, List, [], is_some, option_map, IfErr, IfOk, OnErr};
ghost use Rattle.csv.specs.Records.{fields_of};
ghost use Rattle.bitmap_font.specs.Font.{FontValue};
ghost use Rattle.cue_records.specs.CellFaults.{fault_in, tick_fault, value_at, IsRecordFault};
ghost use Rattle.cue_records.specs.Cells.{cell_at};
ghost use Rattle.cue_records.specs.Rows.{Row};
ghost use Rattle.cue_list.specs.TakenRows.{CanGoBack, StandsFor, TakesRow, next_fault};
ghost use Rattle.cue_list.specs.SeenReaders.{mark_of, seen_of};

use crate::kept_rows::{RowBefore, ScriptReader};
use crate::reader::Reader;
use bitmap_font::Font;
use csv::ByteRecord;
use cue_records::{RecordFault, ScriptKind, cell, tick_cell};
use std::alloc::Global;
use std::mem;
use sub_base::NoMemory;

/// More records than that are not counted.
const MOST_ROWS: u64 = u64::MAX - 1;

impl ScriptReader {
    /// Before the first record.
    pub fn new(alloc: Global) -> ScriptReader
        ensures { (font : FontValue) → StandsFor font [] (seen_of result) }
    {
        ScriptReader {
            kept: Reader::new(alloc),
        }
    }

    /// Takes the next record, and answers the way back; or says which of its tests is the first
    /// that fails, and is as before.
    pub fn take(
        &mut self,
        alloc: Global,
        font: &Font,
        row: &ByteRecord,
    ) -> Result<RowBefore, RecordFault>
        ensures taken { IfOk result (λ before. (rows : List Row)
            → StandsFor font.now rows (seen_of self.old)
            → TakesRow font.now rows (fields_of row.now) (seen_of self.new) (mark_of before)) }
        ensures refused { IfErr result (λ fault. (rows : List Row)
            → StandsFor font.now rows (seen_of self.old)
            → IsRecordFault (next_fault font.now rows (fields_of row.now)) fault) }
        ensures kept { OnErr result (seen_of self.new ≡ seen_of self.old) }
    {
        // No memory has room for so many records.
        if self.kept.rows >= MOST_ROWS {
            return Err(RecordFault::Memory);
        }
        let count = self.kept.pictures.len();
        // The record is tried on a copy that has the pictures.
        let mut next = match self.kept.copy(alloc) {
            Ok(next) => next,
            Err(NoMemory) => return Err(RecordFault::Memory),
        };
        match next.take(alloc, font, row) {
            Ok(()) => {
                let kept = mem::replace(&mut self.kept, next);
                Ok(RowBefore { kept, count })
            }
            Err(fault) => {
                mem::swap(&mut self.kept.pictures, &mut next.pictures);
                Err(fault)
            }
        }
    }

    /// Goes back to where the reader stood before the record that was taken last.
    pub fn go_back(&mut self, before: RowBefore)
        ensures { (font : FontValue) (rows : List Row)
            → CanGoBack font rows (seen_of self.old) (mark_of before)
            → StandsFor font rows (seen_of self.new) }
    {
        let mut kept = before.kept;
        mem::swap(&mut self.kept.pictures, &mut kept.pictures);
        kept.pictures.truncate(before.count);
        self.kept = kept;
    }

    /// Whether an epoch was started.
    pub fn has_epoch(&self) -> bool
        ensures { result ≡ is_some (seen_of self.now).past.epoch }
    {
        self.kept.epoch.is_some()
    }

    /// Whether no record was taken.
    pub fn is_empty(&self) -> bool
        ensures { result ≡ ((seen_of self.now).past.rows == 0) }
    {
        self.kept.rows == 0
    }

    /// The tick from which packets are sent, 0 before the first record.
    pub fn origin(&self) -> u64
        ensures { result ≡ (seen_of self.now).past.origin }
    {
        self.kept.origin
    }

    /// The start of the last epoch.
    pub(crate) fn epoch_start(&self) -> Option<u64>
        ensures { result ≡ option_map (λ epoch. epoch.start) (seen_of self.now).past.epoch }
    {
        match &self.kept.epoch {
            None => None,
            Some(epoch) => Some(epoch.start),
        }
    }

    /// The tick in a record's second cell, where it lies from the origin on and not too far after
    /// it.
    pub(crate) fn tick_in_range(&self, row: &ByteRecord) -> Result<u64, ScriptKind>
        ensures fault { fault_in result
            ≡ tick_fault (seen_of self.now).past.origin (cell_at (fields_of row.now) 1) }
        ensures tick { IfOk result (λ tick. tick ≡ value_at (fields_of row.now) 1) }
        ensures small { IfOk result (λ tick. tick < 2 ^ 40) }
    {
        tick_cell(cell(row, 1), self.kept.origin)
    }
}
