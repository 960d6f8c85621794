//! The calculus of runs: how statements, blocks, loops and calls end, what they write, and in how many steps.
#![tactic(auto)]

pub mod laws;
