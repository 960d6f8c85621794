//! The first of several faults that are met in any order: the least by its place, and there by its rule.
#![tactic(auto)]

mod first;
mod place;

pub use first::{Broken, First};
pub use place::Place;
