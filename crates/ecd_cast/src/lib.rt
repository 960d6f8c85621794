//! The C subset: its trees, its rules, its meaning and its spelling.
#![tactic(auto)]

pub mod fault;
pub mod laws;
pub mod tree;
pub mod value;
