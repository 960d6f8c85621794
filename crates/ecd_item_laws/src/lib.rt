//! Data items, their deterministic encoding and what may stand against it: RFC 8949, sections 2, 3 and 4.2.1. Definitions and laws.
#![tactic(auto)]

mod fault;
mod item;
pub mod laws;

pub use ecd_list::{Boxed, ByteList};
pub use fault::{Cause, Fault};
pub use item::{Item, ItemList, Pair, PairList};
