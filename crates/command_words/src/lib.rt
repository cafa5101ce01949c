//! The words of commands that both programs have: which words are plain, the profiles of receivers,
//! the ranges of PIDs, pages, bands and ticks, and ticks that rise.
#![tactic(auto)]

// Which words are plain, and what the word at a place is.
mod place;
mod plain;

// What single words are: numbers within their ranges, profiles, fonts.
mod ranges;
mod receivers;

// The ticks at the end of a command.
mod ticks;

pub use place::{InputPlaces, has_word, names_font, no_files};
pub use plain::are_plain;
pub use ranges::{
    GREATEST_PAGE, GREATEST_PID, LATEST_TICK, LEAST_PID, MOST_BANDS, MOST_TICKS, page_in, pid_in,
};
pub use receivers::{reading_profile, sending_profile};
pub use ticks::{has_ticks, ticks_of};
