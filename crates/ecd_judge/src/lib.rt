//! From a schema's bytes to its names, or to the first broken rule.
#![tactic(auto)]

pub mod laws;
mod names;
mod refusal;
mod schema;

pub use ecd_names::Names;
pub use names::judge;
pub use refusal::Refusal;
