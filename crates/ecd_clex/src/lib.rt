//! The lexemes of C texts: the tokens of a text up to the first byte that begins none, and what single lexemes are.
#![tactic(auto)]

mod lexeme;
mod text;
mod token;

pub use lexeme::{depth_value, is_name, is_same, literal_value, operator};
pub use text::{MOST_BYTES, lex};
pub use token::{Token, TokenList, lexeme_at};
