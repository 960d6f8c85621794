//! What runs of programs keep to, and how deep and how heavy their chains of calls are.
#![tactic(auto)]

pub mod laws;
