ghost use Rattle.cue_records.specs.declared.limits.TheConstants.{MOST_CODES, MOST_PICTURES};
ghost use Rattle.std.specs.Prelude.{◌≡◌, ◌≤◌, ◌<◌, ◌+◌, ◌∷◌, [], true, None, OnOk, OnErr, IfOk, IfErr};
ghost use Rattle.csv.specs.Records.{fields_of};
ghost use Rattle.cue_records.specs.CellFaults.{first_of, is_text_row, picture_cells as picture_cells_of, IsRecordFault};
ghost use Rattle.cue_records.specs.Cells.{cell_at};
ghost use Rattle.cue_records.specs.RowValues.{area as area_of_head, head_in};
ghost use Rattle.cue_list.specs.RowFaults.{picture_fault as picture_fault_of, is_name as is_name_of};
ghost use Rattle.cue_records.specs.CodeFaults.{pixels_fault};
ghost use Rattle.cue_list.specs.Private.State.{IsReader, past_of, IsTaken, picture_next};
ghost use Rattle.cue_list.specs.Drawn.{IsPictureOf, IsPictureWith};

use crate::reader::Reader;
use csv::ByteRecord;
use cue_records::{
    LONGEST_NAME, PictureHead, RecordFault, ScriptKind, area, cell, picture_cells, read_codes,
    text_cell,
};
use indexed_picture::Indexed;
use std::alloc::Global;

impl Reader {
    /// The picture of a record, or what is wrong with its name, its codes, or their number.
    #[tactic(auto, unfolding(crate::specs::RowFaults::picture_fault))]
    fn picture_in(
        &self,
        alloc: Global,
        head: PictureHead,
        row: &ByteRecord,
    ) -> Result<Indexed, RecordFault>
        requires text { is_text_row (fields_of row.now) ≡ true }
        requires few { self.now.codes ≤ MOST_CODES }
        requires wide { 1 ≤ head.width }
        requires high { 1 ≤ head.height }
        ensures valid { OnOk result
            (picture_fault_of (past_of self.now) head (fields_of row.now) ≡ None) }
        ensures drawn { IfOk result (IsPictureWith head (cell_at (fields_of row.now) 5)) }
        ensures room { OnOk result (self.now.codes + area_of_head head ≤ MOST_CODES) }
        ensures refused { IfErr result
            (IsRecordFault (picture_fault_of (past_of self.now) head (fields_of row.now))) }
    {
        if !is_name(cell(row, 1)) {
            return Err(RecordFault::Wrong(ScriptKind::Range));
        }
        let picture = picture_of(alloc, head, row)?;
        if self.are_too_many(head) {
            return Err(RecordFault::Wrong(ScriptKind::TooMany));
        }
        Ok(picture)
    }

    /// Takes a picture with a name.
    pub(crate) fn take_picture(
        &mut self,
        alloc: Global,
        row: &ByteRecord,
    ) -> Result<(), RecordFault>
        requires reader { IsReader self.old }
        requires text { is_text_row (fields_of row.now) ≡ true }
        requires few { self.old.named < MOST_PICTURES }
        ensures taken { OnOk result
            (IsTaken (first_of
            (picture_cells_of (fields_of row.now)
            ∷ picture_fault_of (past_of self.old) (head_in (fields_of row.now))
            (fields_of row.now)
            ∷ [])) (picture_next (past_of self.old) (fields_of row.now)) self.new) }
        ensures drawn { OnOk result
            (IsPictureOf (fields_of row.now) self.old.pictures.items self.new.pictures.items) }
        ensures refused { IfErr result
            (IsRecordFault
            (first_of
            (picture_cells_of (fields_of row.now)
            ∷ picture_fault_of (past_of self.old) (head_in (fields_of row.now))
            (fields_of row.now)
            ∷ []))) }
        ensures kept { OnErr result (self.new.pictures.items ≡ self.old.pictures.items) }
    {
        let head = picture_cells(row)?;
        let picture = self.picture_in(alloc, head, row)?;
        let place = self.pictures.len() as u32;
        self.names.add(alloc, text_cell(row, 1), place)?;
        self.pictures.push(picture)?;
        self.named += 1;
        self.codes += area(head);
        Ok(())
    }
}

/// The picture of these sides whose codes stand in a record, or what is wrong with them.
fn picture_of(alloc: Global, head: PictureHead, row: &ByteRecord) -> Result<Indexed, RecordFault>
    requires text { is_text_row (fields_of row.now) ≡ true }
    requires wide { 1 ≤ head.width }
    requires high { 1 ≤ head.height }
    ensures valid { OnOk result
        (pixels_fault head (cell_at (fields_of row.now) 5) ≡ None) }
    ensures drawn { IfOk result (IsPictureWith head (cell_at (fields_of row.now) 5)) }
    ensures refused { IfErr result
        (IsRecordFault (pixels_fault head (cell_at (fields_of row.now) 5))) }
{
    let codes = read_codes(alloc, head, row)?;
    Ok(Indexed::of_codes(head.width, head.height, head.depth, codes))
}

/// Whether a cell has as many bytes as a picture's name.
fn is_name(cell: &[u8]) -> bool
    ensures { result ≡ is_name_of cell.now }
{
    1 <= cell.len() && cell.len() <= LONGEST_NAME
}
