//! The table of commands has no hole: what every command comes to over the contents of its files.
#![tactic(auto)]

pub mod laws;
