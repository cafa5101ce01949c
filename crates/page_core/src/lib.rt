//! The page memory of a receiver of EN 300 743 subtitles: what it keeps of the display sets that it
//! is handed (the composition memory, the pixels of regions, the colours of CLUTs), and the picture
//! that it shows. All memory is taken when a core is made. Contracts see a core as a plain record,
//! and say what this has to do with all that the core was handed.
#![tactic(auto)]

mod cluts;
mod colours;
mod composition;
mod counting;
mod edges;
mod epoch;
mod forget;
mod front;
mod inks;
mod judging;
mod laws;
mod lists;
mod marks;
mod memory;
mod node;
mod painted_time;
mod painting;
mod painting_objects;
mod region_taking;
mod region_tests;
mod rows;
mod seen;
mod taking;
mod times;
mod walking;

pub use composition::Entries;
pub use decoder_model::{SetEnd, SetFault};
pub use laws::behind_a_loss;
pub use memory::{Core, Scene};
pub use painted_time::painting_time;
