//! Records of a cue script: rows of CSV, the values of their cells, and the codes of a picture.
//!
//! A record is judged here as far as it stands alone: by its text, its cells, and the codes that it
//! spells. What it means behind the records before it is for `cue_list`.
#![tactic(auto)]

// The limits of scripts, and what is wrong with a record.
mod fault;
mod limits;
mod record_fault;

// Rows out of text, and their cells.
mod cells;
mod row_kind;
mod rows;
mod texts;

// The values of a row's cells.
mod region;
mod row_cells;
mod row_values;

// The codes of a picture, as digits and as runs.
mod codes;
mod hex;
mod picture_codes;
mod runs;

pub use cells::{cell, is_text};
pub use fault::ScriptKind;
pub use limits::{
    CLOSE_TICKS, LATEST_ORIGIN, LONGEST_CUE, LONGEST_NAME, LONGEST_RUN, LONGEST_SCRIPT, MOST_CODES,
    MOST_COLOURS, MOST_CUES, MOST_DIGITS, MOST_EPOCHS, MOST_HEIGHT, MOST_PICTURES, MOST_REGIONS,
    MOST_WIDTH,
};
pub use picture_codes::read_codes;
pub use record_fault::RecordFault;
pub use region::Region;
pub use row_cells::{
    CueCells, PlaceCells, colour_cells, cue_cells, display_cells, epoch_cells, origin_cells,
    picture_cells, place_cells, refresh_cells, region_cells, tick_cell,
};
pub use row_kind::RowKind;
pub use row_values::{ColourRow, DisplayRow, PictureHead, PlaceRow, area};
pub use rows::{next_row, reader_of};
pub use runs::PixelRun;
pub use texts::{is_text_row, text_cell};
