//! The composition memory of a receiver: a fixed array of nodes that are in doubly linked lists or
//! free.
//!
//! All memory is taken when a pool is made. Putting an item at the end of a list and taking any one
//! out cost the same however long the lists are, and nothing moves.
#![tactic(auto)]

mod fault;
mod links;
mod node;
mod pool;

pub use fault::Full;
pub use node::NodeId;
pub use pool::Pool;
