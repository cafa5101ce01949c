//! Sections that are cut over transport packets (ISO/IEC 13818-1, 2.4.4): laws that they come out
//! whole, however they are cut. There is no code.
#![tactic(auto)]

mod laws;

pub use laws::{
    every_cutting_gives_its_section, every_laying_gives_its_sections, written_sections_come,
};
