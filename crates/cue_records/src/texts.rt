ghost use Rattle.std.specs.Prelude.{◌≡◌, ◌≤◌, true, chars, length};
ghost use Rattle.std.specs.List.{list_all, list_any};
ghost use Rattle.std.specs.Str.{is_utf8 as is_utf8_of};
ghost use Rattle.csv.specs.Records.{fields_of};
ghost use Rattle.cue_records.specs.CellFaults.{is_text_row as is_text_row_of};
ghost use Rattle.cue_records.specs.Cells.{cell_at};
ghost use Rattle.cue_records.specs.CodeFaults.{codes_fault as codes_fault_of, is_hex as is_hex_of, is_large as is_large_of, digits_of};

use crate::cells::cell;
use crate::fault::ScriptKind;
use crate::hex::hex_value;
use crate::row_values::{PictureHead, area};
use csv::ByteRecord;
use sub_base::Depth;

/// Whether each cell of a record is text in UTF-8.
pub fn is_text_row(row: &ByteRecord) -> bool
    ensures { result ≡ is_text_row_of (fields_of row.now) }
{
    for place in 0..row.len() {
        if !is_utf8(cell(row, place)) {
            return false;
        }
    }
    true
}

/// Whether a cell is text in UTF-8.
fn is_utf8(cell: &[u8]) -> bool
    ensures { result ≡ is_utf8_of cell.now }
{
    std::str::from_utf8(cell).is_ok()
}

/// The text of a cell.
pub fn text_cell(row: &ByteRecord, place: usize) -> &str
    requires { is_text_row_of (fields_of row.now) ≡ true }
    ensures { result.now ≡ cell_at (fields_of row.now) place }
{
    match std::str::from_utf8(cell(row, place)) {
        Ok(text) => text,
        // All cells of a record are tested before one is read as text.
        Err(_) => unreachable!(),
    }
}

/// What is wrong with the codes of a picture.
#[tactic(auto, unfolding(crate::specs::CodeFaults::codes_fault))]
pub(crate) fn codes_fault(head: PictureHead, text: &str) -> Option<ScriptKind>
    ensures { result ≡ codes_fault_of head (chars text.now) }
{
    // Characters and not bytes, so that one that is no digit counts as one and is found by the next
    // test.
    if character_count(text) != digits(head.depth) * area(head) {
        return Some(ScriptKind::Count);
    }
    if !are_hex(text) {
        return Some(ScriptKind::Number);
    }
    if has_large(head.depth, text) {
        return Some(ScriptKind::CodeRange);
    }
    None
}

fn character_count(text: &str) -> u64
    ensures { result ≡ length (chars text.now) }
{
    text.chars().count() as u64
}

/// Whether all characters are hexadecimal digits.
fn are_hex(text: &str) -> bool
    ensures { result ≡ list_all is_hex_of (chars text.now) }
{
    text.chars().all(is_hex)
}

/// Whether a digit is too large for the depth.
fn has_large(depth: Depth, text: &str) -> bool
    ensures { result ≡ list_any (is_large_of depth) (chars text.now) }
{
    text.chars().any(|character| is_large(depth, character))
}

/// How many digits a code has.
pub(crate) fn digits(depth: Depth) -> u64
    ensures value { result ≡ digits_of depth }
    ensures few { result ≤ 2 }
{
    match depth {
        Depth::Two | Depth::Four => 1,
        Depth::Eight => 2,
    }
}

fn is_hex(character: char) -> bool
    ensures { result ≡ is_hex_of character }
{
    hex_value(character).is_some()
}

fn is_large(depth: Depth, character: char) -> bool
    ensures { result ≡ is_large_of depth character }
{
    match depth {
        Depth::Two => match hex_value(character) {
            Some(value) => value > 3,
            None => false,
        },
        // Any digit is a code of four bits, and any two are one of eight.
        Depth::Four | Depth::Eight => false,
    }
}
