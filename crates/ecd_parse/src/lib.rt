//! The parser of CDDL schemas: from tokens to the tree that they spell (RFC 8610, Appendix B, in the profile of docs/SCHEMA.md).
#![tactic(auto)]

mod brackets;
mod cursor;
mod fault;
mod key;
mod opening;
mod read;
mod rules;
mod schema;

pub use ecd_syntax::{TokenList, Tree};
pub use fault::ParseFault;
pub use schema::parse;
