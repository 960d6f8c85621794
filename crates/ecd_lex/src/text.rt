ghost use Rattle.std.specs.Prelude.{◌≡◌, ◌↔◌, IsTrue, ◌≤◌, ◌<◌, length, drop, IfOk, IfErr, IfSome, IfNone, List, MatchResult, ℕ};
ghost use Rattle.std.specs.List.{AllByRecursion};
ghost use Rattle.ecd_lex.specs.declared.token.Token.{Token};
ghost use Rattle.ecd_lex.specs.Lexemes.{TokenStands, IsTrailing, FaultStands, Lexemes, FirstFault, IsInside, IfAt, IsAt, IsUnheld};

use crate::found::Flaw;
use crate::front::front_found;
use crate::gap::gap_len;
use crate::place::MOST_BYTES;
use crate::token::{Token, TokenList};
use ecd_list::OutOfMemory;
use ecd_text::behind;
use std::alloc::Global;
use thiserror::Error;

/// Why a text is not white space and lexemes in turn.
#[derive(Clone, Copy, Debug, PartialEq, Eq, Error)]
pub enum LexFault {
    /// The first broken rule, 1 to 6 for X1 to X6, and the place where it is broken.
    #[error("rule X{rule} at byte {place}")]
    At { place: u32, rule: u8 },
    #[error("out of memory")]
    OutOfMemory,
}

impl From<OutOfMemory> for LexFault {
    ghost use Rattle.ecd_lex.specs.declared.text.LexFault.TheVariants.{OutOfMemory as Unheld};

    ghost from_gives = { λ _ e. e ≡ Unheld };

    fn from(_refused: OutOfMemory) -> LexFault {
        LexFault::OutOfMemory
    }
}

/// Whether a token begins where the one before it ends.
fn is_glued(follows: bool, begin: usize, end_before: usize) -> bool
    ensures { IsTrue result ↔ (IsTrue follows × (begin ≡ end_before)) }
{
    follows && begin == end_before
}

/// The next token from a place on, if only white space and comments do not stand there.
fn next_token(
    alloc: Global,
    text: &[u8],
    at: usize,
    follows: bool,
) -> Result<Option<Token>, LexFault>
    requires short { length text.now ≤ MOST_BYTES }
    requires inside { at ≤ length text.now }
    ensures token { IfOk result (λ next. IfSome next (λ token. TokenStands (length text.now) follows (drop at text.now) token (drop token.end text.now))) }
    ensures further { IfOk result (λ next. IfSome next (λ token. at < token.end)) }
    ensures within { IfOk result (λ next. IfSome next (λ token. token.end ≤ length text.now)) }
    ensures end { IfOk result (λ next. IfNone next (IsTrailing (drop at text.now))) }
    ensures fault { IfErr result (λ fault. IfAt fault (FaultStands (length text.now) (drop at text.now))) }
{
    let begin = at + gap_len(behind(text, at));
    let rest = behind(text, begin);
    if rest.is_empty() {
        return Ok(None);
    }
    match front_found(alloc, rest) {
        Ok(found) => Ok(Some(Token {
            at: begin as u32,
            end: (begin + found.end) as u32,
            glued: is_glued(follows, begin, at),
            kind: found.kind,
        })),
        Err(Flaw::At { offset, rule }) => Err(LexFault::At {
            place: (begin + offset) as u32,
            rule,
        }),
        Err(Flaw::OutOfMemory) => Err(LexFault::OutOfMemory),
    }
}

/// The tokens of a text, or its first fault.
fn tokens_of(alloc: Global, text: &[u8]) -> Result<TokenList, LexFault>
    requires { length text.now ≤ MOST_BYTES }
    ensures found { IfOk result (λ tokens. Lexemes text.now tokens) }
    ensures fault { IfErr result (λ fault. IfAt fault (FirstFault text.now)) }
{
    let mut tokens = TokenList::new(alloc);
    let mut at = 0;
    while let Some(token) = next_token(alloc, text, at, !tokens.is_empty())? {
        at = token.end as usize;
        tokens.push(token)?;
    }
    Ok(tokens)
}

/// The lexemes of a schema's text, from left to right (RFC 8610, Appendix B, in the profile of docs/SCHEMA.md).
///
/// # Errors
///
/// `At` with the first broken rule of X1 to X6, and `OutOfMemory`.
pub fn lex(alloc: Global, text: &str) -> Result<TokenList, LexFault>
    requires { length text.now ≤ MOST_BYTES }
    // What is answered are the text's lexemes, and each list of its lexemes is answered.
    ensures found { IfOk result (λ tokens. Lexemes text.now tokens) }
    ensures only { (tokens : List Token) → Lexemes text.now tokens → MatchResult result (λ found. found ≡ tokens) IsUnheld }
    ensures places { IfOk result (λ tokens. AllByRecursion (IsInside (length text.now)) tokens) }

    // The fault is the first one, and each first fault is answered.
    ensures fault { IfErr result (λ fault. IfAt fault (FirstFault text.now)) }
    ensures first { (place rule : ℕ) → FirstFault text.now place rule → MatchResult result (λ _. ⊥) (λ fault. IsAt fault place rule) }
    ensures within { IfErr result (λ fault. IfAt fault (λ place rule. place ≤ length text.now)) }
{
    tokens_of(alloc, text.as_bytes())
}
