ghost use Rattle.std.specs.Prelude.{◌≡◌, ◌+◌, ◌<◌, ◌^◌, true, false, None, OnOk, OnErr, IfErr, IfNone};
ghost use Rattle.csv.specs.Records.{fields_of};
ghost use Rattle.cue_records.specs.CellFaults.{is_text_row as is_text_row_of, IsRecordFault};
ghost use Rattle.cue_list.specs.Drawn.{Brings};
ghost use Rattle.cue_records.specs.Records.{record_of, kind_of};
ghost use Rattle.cue_list.specs.RowFaults.{shape_fault as shape_fault_of, fault_with, is_full as is_full_of, regions_of};
ghost use Rattle.cue_list.specs.Private.State.{IsReader, past_of, IsTaken, content_fault, next_by, next_with};
ghost use Rattle.cue_records.specs.Cells.{cell_at};

use crate::reader::Reader;
use bitmap_font::Font;
use csv::ByteRecord;
use cue_records::{RecordFault, RowKind, ScriptKind, cell, is_text_row};
use std::alloc::Global;

impl Reader {
    /// Takes the next record, or says which of its tests is the first that fails.
    pub(crate) fn take(
        &mut self,
        alloc: Global,
        font: &Font,
        row: &ByteRecord,
    ) -> Result<(), RecordFault>
        requires reader { IsReader self.old }
        requires fits { self.old.rows + 1 < 2 ^ 64 }
        ensures reader { OnOk result (IsReader self.new) }
        ensures valid { OnOk result
            (fault_with font.now (past_of self.old)
            (record_of (self.old.rows + 1) (fields_of row.now)) ≡ None) }
        ensures next { OnOk result
            (past_of self.new
            ≡ next_with font.now (past_of self.old)
            (record_of (self.old.rows + 1) (fields_of row.now))) }
        ensures drawn { OnOk result
            (Brings font.now (regions_of self.old.epoch) (kind_of (cell_at (fields_of row.now) 0))
            (fields_of row.now) self.old.pictures.items self.new.pictures.items) }
        ensures refused { IfErr result
            (IsRecordFault
            (fault_with font.now (past_of self.old)
            (record_of (self.old.rows + 1) (fields_of row.now)))) }
        ensures kept { OnErr result (self.new.pictures.items ≡ self.old.pictures.items) }
    {
        let kind = RowKind::of(cell(row, 0));
        if let Some(fault) = shape_fault(kind, row) {
            return Err(RecordFault::Wrong(fault));
        }
        if self.is_misplaced(kind) {
            return Err(RecordFault::Wrong(ScriptKind::Order));
        }
        if self.is_full(kind) {
            return Err(RecordFault::Wrong(ScriptKind::TooMany));
        }
        let number = self.rows + 1;
        self.take_content(alloc, font, kind, number, row)?;
        self.rows = number;
        Ok(())
    }

    /// Takes a record of that kind that stands in its place.
    fn take_content(
        &mut self,
        alloc: Global,
        font: &Font,
        kind: RowKind,
        number: u64,
        row: &ByteRecord,
    ) -> Result<(), RecordFault>
        requires reader { IsReader self.old }
        requires text { is_text_row_of (fields_of row.now) ≡ true }
        requires room { is_full_of (past_of self.old) kind ≡ false }
        ensures taken { OnOk result
            (IsTaken (content_fault font.now (past_of self.old) kind number (fields_of row.now))
            (next_by font.now (past_of self.old) kind number (fields_of row.now)) self.new) }
        ensures drawn { OnOk result
            (Brings font.now (regions_of self.old.epoch) kind (fields_of row.now)
            self.old.pictures.items self.new.pictures.items) }
        ensures refused { IfErr result
            (IsRecordFault
            (content_fault font.now (past_of self.old) kind number (fields_of row.now))) }
        ensures kept { OnErr result (self.new.pictures.items ≡ self.old.pictures.items) }
    {
        match kind {
            RowKind::Origin => self.take_origin(row),
            RowKind::Display => self.take_display(row),
            RowKind::Refresh => self.take_refresh(row),
            RowKind::Epoch => self.take_epoch(alloc, number, row),
            RowKind::Region => self.take_region(row),
            RowKind::Colour => self.take_colour(number, row),
            RowKind::Picture => self.take_picture(alloc, row),
            RowKind::Place => self.take_place(number, row),
            RowKind::Cue => self.take_cue(font, number, row),
            // Refused as unknown before.
            RowKind::Other => Ok(()),
        }
    }
}

/// What is wrong with a record's text, its first cell or the number of its cells.
#[tactic(auto, unfolding(crate::specs::RowFaults::shape_fault))]
fn shape_fault(kind: RowKind, row: &ByteRecord) -> Option<ScriptKind>
    ensures fault { result ≡ shape_fault_of kind (fields_of row.now) }
    ensures text { IfNone result (is_text_row_of (fields_of row.now) ≡ true) }
{
    if !is_text_row(row) {
        return Some(ScriptKind::NotUtf8);
    }
    if matches!(kind, RowKind::Other) {
        return Some(ScriptKind::Unknown);
    }
    if row.len() != kind.cells() {
        return Some(ScriptKind::Count);
    }
    None
}
