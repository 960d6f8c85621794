//! What an emitted file shows of a shape: its structs with their cells, and the cells that a read sets. The layout is this project's own.
#![tactic(auto)]

pub mod laws;
mod layout;

pub use ecd_cast::tree::{CellInfo, CellInfoList, CellKind};
pub use layout::{Layout, StructInfo, StructList};
