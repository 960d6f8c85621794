//! Trees of the C subset from their parts, and valid programs, made item by item.
#![tactic(auto)]

pub mod build;
pub mod builder;
pub mod chains;
