//! Bitmap fonts in the format BDF 2.1, and text set in them as an indexed picture.
#![tactic(auto)]

// What is wrong with a font, a line of it, or a text.
mod font_fault;
mod line_fault;
mod set_fault;

// Lines, their words, and what these say.
mod bounds;
mod keyword;
mod lines;
mod values;
mod words;

// A font out of its lines.
mod font;
mod glyph;
mod read;
mod reader;

// A text as a picture.
mod drawing;
mod layout;

pub use font::Font;
pub use font_fault::{FontFault, FontKind};
pub use set_fault::SetFault;
