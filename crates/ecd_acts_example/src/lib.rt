//! Emitted functions that are proved by the rules for bodies: the comparison of bytes, which returns from inside its loop; the copy of bytes, whose loop writes; and a generator for comparisons with literals.
#![tactic(auto)]

pub mod laws;
