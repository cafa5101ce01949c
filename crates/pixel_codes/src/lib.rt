//! Pixel code strings and pixel data blocks of DVB subtitles (EN 300 743), both ways: a row of
//! pixel codes is written as the string that is least in bits, and a pixel data block is checked
//! against the grammar and read as the runs that it draws, in place.
#![tactic(auto)]

// Writing a row: the next code of a run, short runs by a table, the bits that wait, and the size.
mod choice;
mod least;
mod maximal;
mod pending;
mod row;
mod run_table;
mod size;

// Reading a block: its sub-blocks and map tables.
mod cursor;
mod part;
mod tables;

// Blocks that were checked, and their runs.
mod block;
mod runs;

// Laws of the grammar.
mod laws;

pub use block::{CodeBlock, check_block};
pub use laws::{every_block_is_read, one_block, one_string};
pub use least::run_bits;
pub use maximal::run_length;
pub use part::{Head, head_of, is_no_deeper, size_of_table};
pub use row::write_row;
pub use runs::Runs;
pub use size::row_size;
pub use stream_syntax::{CodeFault, CodeKind, Run};
pub use tables::Tables;
