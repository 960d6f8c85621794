//! Whether two shapes share no item, by the shapes alone (the test of ecd_apart).
#![tactic(auto)]

mod boxes;
mod counts;
mod ends;
mod keys;
mod map_counts;
mod walk;

pub use ecd_core::Shape;
pub use keys::is_same_key;
pub use walk::apart;
