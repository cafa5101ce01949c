//! Sentences: words, numbers, and what they quote of a file or of a command line.
#![tactic(auto)]

// A sentence, its parts, and what it quotes.
mod part;
mod quotation;
mod text;

pub use part::Part;
pub use text::Text;
