//! The calculus with which bodies are proved: one judgement on statements, and a rule for each form of a statement.
#![tactic(auto)]

pub mod laws;
