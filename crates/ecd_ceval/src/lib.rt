//! An evaluator of the C subset: what a call answers, and what it makes of the memory, is what the program means.
#![tactic(auto)]

mod blocks;
mod calls;
mod context;
mod count;
mod expressions;
mod fitting;
mod functions;
pub mod laws;
mod machine;
mod meter;
mod reason;
mod simple;
mod state;
mod statements;
mod stop;
mod variables;

pub use ecd_cast::value::Cell;
pub use machine::{Arg, Block, BlockList, Halt, Machine};
