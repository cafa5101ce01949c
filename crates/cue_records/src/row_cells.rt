ghost use Rattle.std.specs.Prelude.{◌≡◌, ◌≤◌, ◌+◌, IfOk, ◌-◌};
ghost use Rattle.csv.specs.Records.{fields_of};
ghost use Rattle.cue_records.specs.declared.limits.TheConstants.{MOST_HEIGHT, MOST_WIDTH};
ghost use Rattle.cue_records.specs.CellFaults.{fault_in, number_fault, depth_fault, mode_fault, value_of, value_at, origin_cells as origin_cells_of, display_cells as display_cells_of, refresh_cells as refresh_cells_of, epoch_cells as epoch_cells_of, region_cells as region_cells_of, colour_cells as colour_cells_of, picture_cells as picture_cells_of, placing_cells as placing_cells_of, place_cells as place_cells_of, cue_cells as cue_cells_of};
ghost use Rattle.cue_records.specs.RowValues.{depth_with, region_in, colour_in, head_in, placing_in, is_through};
ghost use Rattle.std.specs.Str.{bytes_eq};
ghost use Rattle.std.specs.Prelude.{codes};

use crate::cells::{cell, is_text};
use crate::fault::ScriptKind;
use crate::limits::{LATEST_ORIGIN, LONGEST_SCRIPT, MOST_DIGITS, MOST_HEIGHT, MOST_WIDTH};
use crate::region::Region;
use crate::row_values::{ColourRow, DisplayRow, PictureHead, PlaceRow};
use csv::ByteRecord;
use sub_base::{Colour, Depth, decimal_number};

/// A picture with its mode and where and when it is placed.
#[derive(Clone, Copy, Debug)]
pub struct PlaceCells {
    /// Where and when.
    pub placing: PlaceRow,
    /// Whether code 1 lets what lies beneath be seen.
    pub see_through: bool,
}

/// Where and when a text is placed, and its two codes.
#[derive(Clone, Copy, Debug)]
pub struct CueCells {
    /// Where and when.
    pub placing: PlaceRow,
    /// The code of the letters.
    pub ink: u8,
    /// The code of all else.
    pub paper: u8,
}

/// The number in a cell, of one to eleven digits and in its range.
#[tactic(auto, unfolding(crate::specs::CellFaults::number_fault))]
pub fn number_cell(cell: &[u8], least: u64, most: u64) -> Result<u64, ScriptKind>
    ensures fault { fault_in result ≡ number_fault least most cell.now }
    ensures value { IfOk result (λ number. number ≡ value_of cell.now) }
    ensures least { IfOk result (λ number. least ≤ number) }
    ensures most { IfOk result (λ number. number ≤ most) }
{
    let Some(number) = decimal_number(cell, MOST_DIGITS) else {
        return Err(ScriptKind::Number);
    };
    if least <= number && number <= most {
        Ok(number)
    } else {
        Err(ScriptKind::Range)
    }
}

/// The number in a cell, at most 255.
pub fn byte_cell(cell: &[u8]) -> Result<u8, ScriptKind>
    ensures fault { fault_in result ≡ number_fault 0 255 cell.now }
    ensures value { IfOk result (λ number. number ≡ value_of cell.now) }
{
    let number = number_cell(cell, 0, 255)?;
    Ok(number as u8)
}

/// The number in a cell, in a range of 16 bits.
fn short_cell(cell: &[u8], least: u16, most: u16) -> Result<u16, ScriptKind>
    ensures fault { fault_in result ≡ number_fault least most cell.now }
    ensures value { IfOk result (λ number. number ≡ value_of cell.now) }
    ensures least { IfOk result (λ number. least ≤ number) }
    ensures most { IfOk result (λ number. number ≤ most) }
{
    let number = number_cell(cell, u64::from(least), u64::from(most))?;
    Ok(number as u16)
}

/// The tick in a cell.
pub fn tick_cell(cell: &[u8], origin: u64) -> Result<u64, ScriptKind>
    requires { origin ≤ LATEST_ORIGIN }
    ensures fault { fault_in result ≡ number_fault origin (origin + LONGEST_SCRIPT) cell.now }
    ensures value { IfOk result (λ number. number ≡ value_of cell.now) }
    ensures least { IfOk result (λ number. origin ≤ number) }
    ensures most { IfOk result (λ number. number ≤ origin + LONGEST_SCRIPT) }
{
    // The origin has 33 bits, so the sum stays far below 2^64.
    number_cell(cell, origin, origin + LONGEST_SCRIPT)
}

/// The depth that a cell names by its bits.
#[tactic(auto, unfolding(crate::specs::CellFaults::depth_fault))]
fn depth_cell(cell: &[u8]) -> Result<Depth, ScriptKind>
    ensures fault { fault_in result ≡ depth_fault cell.now }
    ensures value { IfOk result (λ depth. depth ≡ depth_with (value_of cell.now)) }
{
    let Some(bits) = decimal_number(cell, MOST_DIGITS) else {
        return Err(ScriptKind::Number);
    };
    if bits == 2 {
        Ok(Depth::Two)
    } else if bits == 4 {
        Ok(Depth::Four)
    } else if bits == 8 {
        Ok(Depth::Eight)
    } else {
        Err(ScriptKind::Range)
    }
}

/// Whether a cell names the mode that lets code 1 be seen through.
#[tactic(auto, unfolding(crate::specs::CellFaults::mode_fault))]
fn mode_cell(cell: &[u8]) -> Result<bool, ScriptKind>
    ensures fault { fault_in result ≡ mode_fault cell.now }
    ensures value { IfOk result (λ through. through ≡ bytes_eq cell.now (codes "through")) }
{
    if is_text(cell, "through") {
        Ok(true)
    } else if is_text(cell, "solid") {
        Ok(false)
    } else {
        Err(ScriptKind::Unknown)
    }
}

/// The tick from which packets are sent.
#[tactic(auto, unfolding(crate::specs::CellFaults::origin_cells))]
pub fn origin_cells(row: &ByteRecord) -> Result<u64, ScriptKind>
    ensures fault { fault_in result ≡ origin_cells_of (fields_of row.now) }
    ensures value { IfOk result (λ origin. origin ≡ value_at (fields_of row.now) 1) }
    ensures early { IfOk result (λ origin. origin ≤ LATEST_ORIGIN) }
{
    number_cell(cell(row, 1), 0, LATEST_ORIGIN)
}

/// The sides of the display.
#[tactic(auto, unfolding(crate::specs::CellFaults::display_cells))]
pub fn display_cells(row: &ByteRecord) -> Result<DisplayRow, ScriptKind>
    ensures fault { fault_in result ≡ display_cells_of (fields_of row.now) }
    ensures width { IfOk result (λ display. display.width ≡ value_at (fields_of row.now) 1) }
    ensures height { IfOk result (λ display. display.height ≡ value_at (fields_of row.now) 2) }
    ensures wide { IfOk result
        (λ display. (1 ≤ display.width) × (display.width ≤ MOST_WIDTH)) }
    ensures high { IfOk result
        (λ display. (1 ≤ display.height) × (display.height ≤ MOST_HEIGHT)) }
{
    let width = short_cell(cell(row, 1), 1, MOST_WIDTH)?;
    let height = short_cell(cell(row, 2), 1, MOST_HEIGHT)?;
    Ok(DisplayRow { width, height })
}

/// The seconds from one refresh to the next.
#[tactic(auto, unfolding(crate::specs::CellFaults::refresh_cells))]
pub fn refresh_cells(row: &ByteRecord) -> Result<u64, ScriptKind>
    ensures fault { fault_in result ≡ refresh_cells_of (fields_of row.now) }
    ensures value { IfOk result (λ seconds. seconds ≡ value_at (fields_of row.now) 1) }
    ensures range { IfOk result (λ seconds. (1 ≤ seconds) × (seconds ≤ 60)) }
{
    number_cell(cell(row, 1), 1, 60)
}

/// The tick at which an epoch starts.
#[tactic(auto, unfolding(crate::specs::CellFaults::epoch_cells))]
pub fn epoch_cells(row: &ByteRecord, origin: u64) -> Result<u64, ScriptKind>
    requires { origin ≤ LATEST_ORIGIN }
    ensures fault { fault_in result ≡ epoch_cells_of origin (fields_of row.now) }
    ensures value { IfOk result (λ start. start ≡ value_at (fields_of row.now) 1) }
    ensures least { IfOk result (λ start. origin ≤ start) }
    ensures most { IfOk result (λ start. start ≤ origin + LONGEST_SCRIPT) }
{
    tick_cell(cell(row, 1), origin)
}

/// A region.
#[tactic(auto, unfolding(crate::specs::CellFaults::region_cells, crate::specs::RowValues::region_in))]
pub fn region_cells(row: &ByteRecord) -> Result<Region, ScriptKind>
    ensures fault { fault_in result ≡ region_cells_of (fields_of row.now) }
    ensures value { IfOk result (λ region. region ≡ region_in (fields_of row.now)) }
    ensures sides { IfOk result (λ region. (1 ≤ region.width) × (1 ≤ region.height)) }
    ensures most { IfOk result
        (λ region. (region.x ≤ MOST_WIDTH - 1) × (region.y ≤ MOST_HEIGHT - 1)
        × (region.width ≤ MOST_WIDTH)
        × (region.height ≤ MOST_HEIGHT)) }
{
    let id = byte_cell(cell(row, 1))?;
    let x = short_cell(cell(row, 2), 0, MOST_WIDTH - 1)?;
    let y = short_cell(cell(row, 3), 0, MOST_HEIGHT - 1)?;
    let width = short_cell(cell(row, 4), 1, MOST_WIDTH)?;
    let height = short_cell(cell(row, 5), 1, MOST_HEIGHT)?;
    let depth = depth_cell(cell(row, 6))?;
    let clut = byte_cell(cell(row, 7))?;
    Ok(Region {
        id,
        x,
        y,
        width,
        height,
        depth,
        clut,
    })
}

/// A colour of a CLUT's entry, as it is shown.
#[tactic(auto, unfolding(crate::specs::CellFaults::colour_cells, crate::specs::RowValues::colour_in))]
pub fn colour_cells(row: &ByteRecord, origin: u64, number: u64) -> Result<ColourRow, ScriptKind>
    requires { origin ≤ LATEST_ORIGIN }
    ensures fault { fault_in result ≡ colour_cells_of origin (fields_of row.now) }
    ensures value { IfOk result (λ colour. colour ≡ colour_in number (fields_of row.now)) }
    ensures least { IfOk result (λ colour. origin ≤ colour.tick) }
    ensures most { IfOk result (λ colour. colour.tick ≤ origin + LONGEST_SCRIPT) }
{
    let tick = tick_cell(cell(row, 1), origin)?;
    let clut = byte_cell(cell(row, 2))?;
    let depth = depth_cell(cell(row, 3))?;
    let entry = byte_cell(cell(row, 4))?;
    let y = byte_cell(cell(row, 5))?;
    let cr = byte_cell(cell(row, 6))?;
    let cb = byte_cell(cell(row, 7))?;
    let t = byte_cell(cell(row, 8))?;
    // A receiver takes a luminance of 0 as clear: kept so, a colour is the same in the script and
    // on the display.
    let colour = Colour { y, cr, cb, t }.shown();
    Ok(ColourRow {
        tick,
        row: number,
        clut,
        depth,
        entry,
        colour,
    })
}

/// The depth and the sides of a picture.
#[tactic(auto, unfolding(crate::specs::CellFaults::picture_cells, crate::specs::RowValues::head_in))]
pub fn picture_cells(row: &ByteRecord) -> Result<PictureHead, ScriptKind>
    ensures fault { fault_in result ≡ picture_cells_of (fields_of row.now) }
    ensures value { IfOk result (λ head. head ≡ head_in (fields_of row.now)) }
    ensures wide { IfOk result (λ head. (1 ≤ head.width) × (head.width ≤ MOST_WIDTH)) }
    ensures high { IfOk result (λ head. (1 ≤ head.height) × (head.height ≤ MOST_HEIGHT)) }
{
    let depth = depth_cell(cell(row, 2))?;
    let width = short_cell(cell(row, 3), 1, MOST_WIDTH)?;
    let height = short_cell(cell(row, 4), 1, MOST_HEIGHT)?;
    Ok(PictureHead {
        depth,
        width,
        height,
    })
}

/// Where and when a picture or a text is placed.
#[tactic(auto, unfolding(crate::specs::CellFaults::placing_cells, crate::specs::RowValues::placing_in))]
fn placing_cells(row: &ByteRecord, origin: u64) -> Result<PlaceRow, ScriptKind>
    requires { origin ≤ LATEST_ORIGIN }
    ensures fault { fault_in result ≡ placing_cells_of origin (fields_of row.now) }
    ensures value { IfOk result (λ placing. placing ≡ placing_in (fields_of row.now)) }
    ensures start { IfOk result
        (λ placing. (origin ≤ placing.start) × (placing.start ≤ origin + LONGEST_SCRIPT)) }
    ensures end { IfOk result
        (λ placing. (origin ≤ placing.end) × (placing.end ≤ origin + LONGEST_SCRIPT)) }
    ensures corner { IfOk result
        (λ placing. (placing.x ≤ MOST_WIDTH - 1) × (placing.y ≤ MOST_HEIGHT - 1)) }
{
    let start = tick_cell(cell(row, 1), origin)?;
    let end = tick_cell(cell(row, 2), origin)?;
    let region = byte_cell(cell(row, 3))?;
    let x = short_cell(cell(row, 4), 0, MOST_WIDTH - 1)?;
    let y = short_cell(cell(row, 5), 0, MOST_HEIGHT - 1)?;
    Ok(PlaceRow {
        start,
        end,
        region,
        x,
        y,
    })
}

/// A place, but for its picture's name.
#[tactic(auto, unfolding(crate::specs::CellFaults::place_cells))]
pub fn place_cells(row: &ByteRecord, origin: u64) -> Result<PlaceCells, ScriptKind>
    requires { origin ≤ LATEST_ORIGIN }
    ensures fault { fault_in result ≡ place_cells_of origin (fields_of row.now) }
    ensures placing { IfOk result (λ place. place.placing ≡ placing_in (fields_of row.now)) }
    ensures mode { IfOk result (λ place. place.see_through ≡ is_through (fields_of row.now)) }
    ensures start { IfOk result
        (λ place. (origin ≤ place.placing.start)
        × (place.placing.start ≤ origin + LONGEST_SCRIPT)) }
    ensures end { IfOk result
        (λ place. (origin ≤ place.placing.end)
        × (place.placing.end ≤ origin + LONGEST_SCRIPT)) }
    ensures corner { IfOk result
        (λ place. (place.placing.x ≤ MOST_WIDTH - 1) × (place.placing.y ≤ MOST_HEIGHT - 1)) }
{
    let placing = placing_cells(row, origin)?;
    let see_through = mode_cell(cell(row, 6))?;
    Ok(PlaceCells {
        placing,
        see_through,
    })
}

/// A cue, but for its text.
#[tactic(auto, unfolding(crate::specs::CellFaults::cue_cells))]
pub fn cue_cells(row: &ByteRecord, origin: u64) -> Result<CueCells, ScriptKind>
    requires { origin ≤ LATEST_ORIGIN }
    ensures fault { fault_in result ≡ cue_cells_of origin (fields_of row.now) }
    ensures placing { IfOk result (λ cue. cue.placing ≡ placing_in (fields_of row.now)) }
    ensures ink { IfOk result (λ cue. cue.ink ≡ value_at (fields_of row.now) 6) }
    ensures paper { IfOk result (λ cue. cue.paper ≡ value_at (fields_of row.now) 7) }
    ensures start { IfOk result
        (λ cue. (origin ≤ cue.placing.start)
        × (cue.placing.start ≤ origin + LONGEST_SCRIPT)) }
    ensures end { IfOk result
        (λ cue. (origin ≤ cue.placing.end) × (cue.placing.end ≤ origin + LONGEST_SCRIPT)) }
    ensures corner { IfOk result
        (λ cue. (cue.placing.x ≤ MOST_WIDTH - 1) × (cue.placing.y ≤ MOST_HEIGHT - 1)) }
{
    let placing = placing_cells(row, origin)?;
    let ink = byte_cell(cell(row, 6))?;
    let paper = byte_cell(cell(row, 7))?;
    Ok(CueCells {
        placing,
        ink,
        paper,
    })
}
