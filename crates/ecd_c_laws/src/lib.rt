//! The definitions of the C subset's phases have no hole: each text spells a valid program, or has a first fault.
#![tactic(auto)]

pub mod laws;
