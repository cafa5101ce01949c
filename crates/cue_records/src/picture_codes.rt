ghost use Rattle.std.specs.Prelude.{◌≡◌, ◌<◌, ◌*◌, true, None, Some, length, All, OnOk, IfOk, IfErr};
ghost use Rattle.csv.specs.Records.{fields_of};
ghost use Rattle.sub_base.specs.Depth.{code_count};
ghost use Rattle.cue_records.specs.CellFaults.{is_text_row, IsRecordFault};
ghost use Rattle.cue_records.specs.Cells.{cell_at};
ghost use Rattle.cue_records.specs.CodeFaults.{pixels_fault, runs_fault};
ghost use Rattle.cue_records.specs.PixelRuns.{picture_codes, run_codes};
ghost use Rattle.cue_records.specs.RowValues.{area as area_of_head};

use crate::cells::cell;
use crate::codes::put_codes;
use crate::record_fault::RecordFault;
use crate::row_values::{PictureHead, area};
use crate::runs::{is_in_runs, put_runs};
use crate::texts::{codes_fault, digits, text_cell};
use csv::ByteRecord;
use std::alloc::Global;

/// The codes that stand in a record, one for each pixel: as digits, or in runs. A text of as many
/// digits as are wanted is walked once; only one that is refused is walked again, for its fault.
pub fn read_codes(
    alloc: Global,
    head: PictureHead,
    row: &ByteRecord,
) -> Result<Vec<u8>, RecordFault>
    requires { is_text_row (fields_of row.now) ≡ true }
    ensures valid { OnOk result
        (pixels_fault head (cell_at (fields_of row.now) 5) ≡ None) }
    ensures read { IfOk result
        (λ codes. picture_codes head.depth (cell_at (fields_of row.now) 5) ≡ Some codes.items) }
    ensures count { IfOk result (λ codes. length codes.items ≡ head.width * head.height) }
    ensures range { IfOk result
        (λ codes. All (λ code. code < code_count head.depth) codes.items) }
    ensures refused { IfErr result
        (IsRecordFault (pixels_fault head (cell_at (fields_of row.now) 5))) }
{
    let text = cell(row, 5);
    if text.len() as u64 == digits(head.depth) * area(head) {
        let mut codes = vec![in alloc; 0; area(head) as usize]?;
        if put_codes(head.depth, text, codes.as_mut_slice()) {
            return Ok(codes);
        }
    }
    if is_in_runs(text) {
        return read_runs(alloc, head, text);
    }
    match codes_fault(head, text_cell(row, 5)) {
        Some(kind) => Err(RecordFault::Wrong(kind)),
        // As many digits as are wanted, each of that depth, were put in their places above.
        None => unreachable!(),
    }
}

/// The codes of a text of runs, one for each pixel.
fn read_runs(alloc: Global, head: PictureHead, text: &[u8]) -> Result<Vec<u8>, RecordFault>
    ensures valid { OnOk result (runs_fault head.depth (area_of_head head) text.now ≡ None) }
    ensures read { IfOk result (λ codes. run_codes head.depth text.now ≡ Some codes.items) }
    ensures count { IfOk result (λ codes. length codes.items ≡ head.width * head.height) }
    ensures range { IfOk result
        (λ codes. All (λ code. code < code_count head.depth) codes.items) }
    ensures refused { IfErr result
        (IsRecordFault (runs_fault head.depth (area_of_head head) text.now)) }
{
    let mut codes = vec![in alloc; 0; area(head) as usize]?;
    match put_runs(head.depth, text, codes.as_mut_slice()) {
        Ok(()) => Ok(codes),
        Err(kind) => Err(RecordFault::Wrong(kind)),
    }
}
