//! The lexemes of a CDDL schema (RFC 8610, Appendix B), as a profile that docs/SCHEMA.md states.
#![tactic(auto)]

mod character;
mod found;
mod front;
mod gap;
pub mod laws;
mod name;
mod number;
mod place;
mod sign;
mod string;
mod text;
mod token;

pub use ecd_list::{ByteList, List, OutOfMemory};
pub use place::{MOST_BYTES, line_column};
pub use text::{LexFault, lex};
pub use token::{Bound, Sign, Token, TokenKind, TokenList};
