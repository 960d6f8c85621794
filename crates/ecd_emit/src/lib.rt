//! Words for emitted code: statements and parameters from their parts, parts of blocks, functions among the items of a
//! program, and what code writes.
#![tactic(auto)]

pub mod laws;
pub mod shorthands;
