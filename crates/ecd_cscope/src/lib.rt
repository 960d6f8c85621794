//! What a judge of programs knows round a statement: the structs and functions of the file, the variables, and their kinds.
#![tactic(auto)]

mod by_name;
mod cells;
pub mod directory;
pub mod kind;
pub mod variables;
