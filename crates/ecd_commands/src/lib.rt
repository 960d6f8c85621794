//! The command line of the compiler from CDDL (RFC 8610) to C readers and writers of deterministic CBOR (RFC 8949): its words,
//! what they ask for, and how a call ends.
#![tactic(auto)]

mod answer;
mod cells;
mod cfiles;
mod commands;
mod contents;
pub mod laws;
mod program;
mod schemas;
mod status;
mod words;

pub use answer::{Line, OUT_OF_MEMORY, tell};
pub use program::run;
pub use status::Status;
