//! A shape that keeps the rules A1 to A4 and M1 to M5 gives each item at most one value.
#![tactic(auto)]

pub mod laws;
