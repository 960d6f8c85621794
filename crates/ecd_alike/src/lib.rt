//! Whether two shapes are equal but for their places in the schema.
#![tactic(auto)]

mod alike;
mod leaf;

pub use alike::is_alike;
pub use ecd_core::Shape;
