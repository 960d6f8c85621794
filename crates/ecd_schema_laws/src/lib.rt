//! The definitions of a schema's phases have no hole: each text, each list of tokens, each list of rules and each schema is taken, or has a first fault.
#![tactic(auto)]

pub mod laws;
