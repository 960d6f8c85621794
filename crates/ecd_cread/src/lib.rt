//! The reader of the C subset: from a text to the program that it spells, or to the first place at which it spells none.
#![tactic(auto)]

mod cursor;
mod expressions;
mod fault;
mod items;
mod program;
mod simple;
mod statements;
mod valid;

pub use ecd_cast::fault::CFault;
pub use ecd_cbuild::builder::Valid;
pub use ecd_clex::MOST_BYTES;
pub use valid::read_c;
