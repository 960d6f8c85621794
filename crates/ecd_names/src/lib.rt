//! The names of a schema: the first of the rules N1 to N5 that is broken, and what each name stands for.
#![tactic(auto)]

mod edges;
mod fault;
mod info;
mod judge;
mod judge_name;
mod judge_site;
pub mod laws;
mod names;
mod parameters;
mod scene;
mod scope;

pub use ecd_list::OutOfMemory;
pub use ecd_syntax::{Rule, Tree};
pub use fault::NameFault;
pub use info::NameInfo;
pub use names::{Names, resolve};
