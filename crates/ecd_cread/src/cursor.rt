//! Lexemes at a number of their list.

ghost use Rattle.std.specs.Prelude.{◌≡◌, ◌<◌, ◌≤◌, length, drop, IfOk, IfSome};
ghost use Rattle.ecd_cgrammar.specs.Reading.{peek, token, same, begins, name_of, literal_of, depth_of, op_of};
ghost use Rattle.ecd_clex.specs.Tokens.{lexemes};
ghost use Rattle.ecd_cread.specs.Reads.{seen_if, passed, Passes, Gives};
ghost use Rattle.ecd_cread.specs.declared.cursor.Halt.TheVariants.{OutOfMemory as NoMemory};

use ecd_cast::tree::{Name, Op};
use ecd_clex::{Token, depth_value, is_name, is_same, lexeme_at, literal_value, operator};
use ecd_list::{ByteList, OutOfMemory};
use std::alloc::Global;

/// Why reading stopped.
#[derive(Debug, Drop)]
pub enum Halt {
    /// The token of that number, or the end of the tokens, cannot stand there.
    Unexpected(usize),
    /// Want of memory.
    OutOfMemory,
}

impl From<OutOfMemory> for Halt {
    ghost from_gives = { λ _ e. e ≡ NoMemory };

    fn from(_refused: OutOfMemory) -> Halt {
        Halt::OutOfMemory
    }
}

/// The number behind the lexeme, where it stands at that number.
pub fn lexeme_here(text: &[u8], tokens: &[Token], at: usize, lexeme: &[u8]) -> Option<usize>
    ensures found { passed (lexemes text.now tokens.now) result ≡ peek (same lexeme.now) (drop at (lexemes text.now tokens.now)) }
    ensures within { IfSome result (λ end. (end ≤ length tokens.now) × (at < end)) }
{
    match lexeme_at(text, tokens, at) {
        Some(other) if is_same(lexeme, other) => Some(at + 1),
        _ => None,
    }
}

/// Whether the lexeme stands at that number.
pub fn is_here(text: &[u8], tokens: &[Token], at: usize, lexeme: &[u8]) -> bool
    ensures { result ≡ begins (same lexeme.now) (drop at (lexemes text.now tokens.now)) }
{
    lexeme_here(text, tokens, at, lexeme).is_some()
}

/// The number behind the lexeme, which has to stand at that number.
pub fn expect(text: &[u8], tokens: &[Token], at: usize, lexeme: &[u8]) -> Result<usize, Halt>
    ensures gives { Passes (lexemes text.now tokens.now) result (token (same lexeme.now) (drop at (lexemes text.now tokens.now))) }
    ensures within { IfOk result (λ end. (end ≤ length tokens.now) × (at < end)) }
{
    match lexeme_here(text, tokens, at, lexeme) {
        Some(end) => Ok(end),
        None => Err(Halt::Unexpected(at)),
    }
}

/// The name at that number, if one stands there, and the number behind it.
pub fn name_here(
    alloc: Global,
    text: &[u8],
    tokens: &[Token],
    at: usize,
) -> Result<Option<(Name, usize)>, OutOfMemory>
    ensures found { IfOk result (λ found. seen_if (lexemes text.now tokens.now) found ≡ peek name_of (drop at (lexemes text.now tokens.now))) }
    ensures within { IfOk result (λ found. IfSome found (λ x. (x.1 ≤ length tokens.now) × (at < x.1))) }
{
    match lexeme_at(text, tokens, at) {
        Some(lexeme) if is_name(lexeme) => {
            let name = ByteList::from_slice(alloc, lexeme)?;
            Ok(Some((name, at + 1)))
        }
        _ => Ok(None),
    }
}

/// The name at that number, where one has to stand, and the number behind it.
pub fn expect_name(
    alloc: Global,
    text: &[u8],
    tokens: &[Token],
    at: usize,
) -> Result<(Name, usize), Halt>
    ensures gives { Gives (lexemes text.now tokens.now) result (token name_of (drop at (lexemes text.now tokens.now))) }
    ensures within { IfOk result (λ x. (x.1 ≤ length tokens.now) × (at < x.1)) }
{
    match name_here(alloc, text, tokens, at)? {
        Some(found) => Ok(found),
        None => Err(Halt::Unexpected(at)),
    }
}

/// The number that the literal there spells, if one stands there, and the number behind it.
pub fn literal_here(text: &[u8], tokens: &[Token], at: usize) -> Option<(u64, usize)>
    ensures found { seen_if (lexemes text.now tokens.now) result ≡ peek literal_of (drop at (lexemes text.now tokens.now)) }
    ensures within { IfSome result (λ x. (x.1 ≤ length tokens.now) × (at < x.1)) }
{
    let lexeme = lexeme_at(text, tokens, at)?;
    let value = literal_value(lexeme)?;
    Some((value, at + 1))
}

/// The call depth that the digits there spell, which have to stand there, and the number behind them.
pub fn expect_depth(text: &[u8], tokens: &[Token], at: usize) -> Result<(u32, usize), Halt>
    ensures gives { Gives (lexemes text.now tokens.now) result (token depth_of (drop at (lexemes text.now tokens.now))) }
    ensures within { IfOk result (λ x. (x.1 ≤ length tokens.now) × (at < x.1)) }
{
    let Some(lexeme) = lexeme_at(text, tokens, at) else {
        return Err(Halt::Unexpected(at));
    };
    match depth_value(lexeme) {
        Some(value) => Ok((value, at + 1)),
        None => Err(Halt::Unexpected(at)),
    }
}

/// The operator there, which has to stand there, and the number behind it.
pub fn expect_operator(text: &[u8], tokens: &[Token], at: usize) -> Result<(Op, usize), Halt>
    ensures gives { Gives (lexemes text.now tokens.now) result (token op_of (drop at (lexemes text.now tokens.now))) }
    ensures within { IfOk result (λ x. (x.1 ≤ length tokens.now) × (at < x.1)) }
{
    let Some(lexeme) = lexeme_at(text, tokens, at) else {
        return Err(Halt::Unexpected(at));
    };
    match operator(lexeme) {
        Some(op) => Ok((op, at + 1)),
        None => Err(Halt::Unexpected(at)),
    }
}
