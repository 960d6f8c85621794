//! Tokens, and the lexemes that they are.

ghost use Rattle.std.specs.Prelude.{◌≡◌, ◌+◌, ◌<◌, [], ◌∷◌, length, drop, OnSome, MatchOption};
ghost use Rattle.std.specs.Option.{option_copied};
ghost use Rattle.ecd_clex.specs.Tokens.{lexemes, lexeme_of as lexeme_meant};

use ecd_list::List;
use ecd_text::{behind, front};

/// Where a lexeme stands in its text.
#[derive(Clone, Copy, Debug, PartialEq, Eq)]
pub struct Token {
    /// The place of its first byte.
    pub at: u32,
    /// The place behind its last byte.
    pub end: u32,
}

/// Tokens, in the order of the text.
pub type TokenList = List<Token>;

/// The bytes of a token.
#[tactic(auto, unfolding(crate::specs::Tokens::lexeme_of))]
fn lexeme_of(text: &[u8], token: Token) -> &[u8]
    ensures { result.now ≡ lexeme_meant text.now token }
{
    let length = token.end.saturating_sub(token.at);
    front(behind(text, token.at as usize), length as usize)
}

/// The lexeme of that number.
pub fn lexeme_at<'a>(text: &'a [u8], tokens: &[Token], at: usize) -> Option<&'a [u8]>
    ensures lexeme { MatchOption (option_copied result) (drop at (lexemes text.now tokens.now) ≡ []) (λ l. drop at (lexemes text.now tokens.now) ≡ l ∷ drop (at + 1) (lexemes text.now tokens.now)) }
    ensures within { OnSome result (at < length tokens.now) }
{
    match tokens.get(at) {
        Some(token) => Some(lexeme_of(text, *token)),
        None => None,
    }
}
