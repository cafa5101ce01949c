//! The files of a program: the words that name them, its inputs, and its output, which takes the
//! place of what was there whole or not at all.
#![tactic(auto)]

// The words of the command line.
mod words;

// What is told where these words are wrong.
mod table;

// Which file is which, and what a new file is called.
mod identity;
mod names;

// The output: when what was written is kept, and the new file that it goes to.
mod ending;
mod keeping;
mod new_file;
mod output;

pub use ending::tool_ended;
pub use identity::{FileNumbers, is_input, numbers_of, opened, output_name};
pub use keeping::{OutputKind, is_kept};
pub use output::Output;
pub use table::tell_table;
pub use words::{WordsFault, word_at, words_of};
