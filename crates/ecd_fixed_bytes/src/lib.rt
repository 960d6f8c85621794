//! The fixed functions over bytes: their comparison, the check of UTF-8, the writer of heads and the copier.
#![tactic(auto)]

mod compare;
mod copy;
pub mod laws;
mod utf8;
mod write_head;

pub use compare::comparison;
pub use copy::copier;
pub use utf8::utf8_check;
pub use write_head::head_writer;
