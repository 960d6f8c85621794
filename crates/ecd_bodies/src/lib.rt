//! The rules of a schema under their names: bodies, numbers of parameters, and which names are groups.
#![tactic(auto)]

mod kinds;
pub mod laws;
mod numbers;
mod table;

pub use ecd_list::OutOfMemory;
pub use ecd_syntax::{Rule, Tree};
pub use table::RuleTable;
