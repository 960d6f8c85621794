//! The grammar of the C subset: one program for a text, and the first place at which a text is no spelling.
#![tactic(auto)]

pub mod laws;

pub use ecd_cast::tree::Program;
