//! Cue scripts: records of CSV that list the epochs, regions, colours, pictures and cues of a
//! programme.
//!
//! `Script::read` reads a whole script. Each record is tested by those before it; the first faulty one is
//! refused by the first of its tests that fails. A `ScriptReader` takes records as they come.
//! `picture_at` draws what a script shows at a tick.
#![tactic(auto)]

// A script's values, and why it is refused.
mod epoch;
mod fault;
mod script;

// What is kept of the records so far.
mod copies;
mod names;
mod reader;
mod ticks;

// The tests of a record by it, and what each kind of record adds.
mod cue_rows;
mod picture_rows;
mod row_steps;
mod row_tests;
mod setting;
mod take;

// Records that come one after another, and the script of those so far.
mod kept_rows;
mod lent_script;
mod script_reader;
mod single_rows;
mod tick_rows;

// The whole script, and what it shows.
mod painting;
mod read;

pub use cue_records::{
    CLOSE_TICKS, ColourRow, LATEST_ORIGIN, LONGEST_CUE, LONGEST_NAME, LONGEST_RUN, LONGEST_SCRIPT,
    MOST_CODES, MOST_COLOURS, MOST_CUES, MOST_DIGITS, MOST_EPOCHS, MOST_HEIGHT, MOST_PICTURES,
    MOST_REGIONS, MOST_WIDTH, RecordFault, Region, ScriptKind,
};
pub use epoch::{Cue, Epoch};
pub use fault::ScriptFault;
pub use kept_rows::{LentScript, RowBefore, ScriptReader};
pub use painting::picture_at;
pub use row_tests::region_with;
pub use script::{Pictures, Script};
pub use single_rows::{OnlyRow, only_row};
pub use tick_rows::is_tick_row;
