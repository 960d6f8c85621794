//! Directed graphs, given by their edges: which nodes reach each other.
#![tactic(auto)]

mod chains;
mod edge;
mod numbers;
mod search;
mod spread;

pub use ecd_list::OutOfMemory;
pub use edge::{Edge, add_edge, are_among};
pub use numbers::components;
pub use spread::reached;
