//! Tables of cases: schemas, bytes, and how many of these the compiled reader takes.
#![tactic(auto)]

mod case;
mod report;
pub mod tables;

pub use case::Case;
pub use ecd_list::OutOfMemory;
pub use report::{Report, check_cases};
