//! Counting open brackets.

ghost use Rattle.std.specs.Prelude.{◌≡◌, ◌+◌, ◌<◌, ◌≤◌, length, take, MatchOption};
ghost use Rattle.ecd_syntax.specs.Faults.{open_behind as open_meant, open_after, StaysWithin, IsWithin};

use ecd_lex::{Sign, Token, TokenKind};

/// The most brackets that may be open at any time.
pub const MOST_OPEN: u8 = 48;

/// How many brackets are open behind a token, where so many were open before it.
fn open_behind(kind: &TokenKind, before: u8) -> u8
    requires { before < 255 }
    ensures { result ≡ open_meant kind.now before }
{
    match kind {
        TokenKind::Sign(Sign::OpenParen | Sign::OpenBracket | Sign::OpenBrace) => before + 1,
        TokenKind::Sign(Sign::CloseParen | Sign::CloseBracket | Sign::CloseBrace) => {
            before.saturating_sub(1)
        }
        _ => before,
    }
}

/// The number of the token that opens one bracket more than may be open, the first that does.
pub fn one_too_many(tokens: &[Token]) -> Option<usize>
    ensures { MatchOption result (IsWithin tokens.now) (λ at. (at < length tokens.now) × StaysWithin (take at tokens.now) 0 × (open_after (take (at + 1) tokens.now) 0 ≡ 49)) }
{
    let mut opened = 0u8;
    let mut at = 0;
    while at < tokens.len() {
        let behind = open_behind(&tokens[at].kind, opened);
        if behind > MOST_OPEN {
            return Some(at);
        }
        opened = behind;
        at += 1;
    }
    None
}
