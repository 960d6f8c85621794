//! Tokens at a place of their list.

ghost use Rattle.std.specs.Prelude.{◌≡◌, ◌+◌, ◌<◌, ◌≤◌, false, [], ◌∷◌, length, drop, take, IfOk, OnSome, MatchOption, IfSome, slice_get};
ghost use Rattle.std.specs.Option.{option_copied};
ghost use Rattle.ecd_lex.specs.declared.token.Sign.{Sign};
ghost use Rattle.ecd_syntax.specs.Marks.{marks, mark_behind, six_after, place, is_sign as sign_test, is_six as six_test, name_of, literal_of, occur_of, hash_of, operator_of, assign_of, sign_of, tag_of, literal_in, operator_in};
ghost use Rattle.ecd_syntax.specs.Reading.{peek, token};
ghost use Rattle.ecd_parse.specs.Reads.{seen_if, passed, Passes, Gives};
ghost use Rattle.ecd_parse.specs.declared.cursor.Halt.TheVariants.{OutOfMemory as NoMemory};

use ecd_lex::{Bound, Sign, Token, TokenKind};
use ecd_list::{ByteList, OutOfMemory};
use ecd_syntax::{Assign, Literal, Name, Occur, OpKind};
use std::alloc::Global;

/// Why reading stopped.
#[derive(Debug, Drop)]
pub enum Halt {
    /// The token of that number, or the end of the tokens, cannot stand there.
    Unexpected(usize),
    /// Want of memory.
    OutOfMemory,
}

impl From<OutOfMemory> for Halt {
    ghost from_gives = { λ _ e. e ≡ NoMemory };

    fn from(_refused: OutOfMemory) -> Halt {
        Halt::OutOfMemory
    }
}

/// The token of that number.
pub fn token_at(tokens: &[Token], at: usize) -> Option<&Token>
    ensures mark { MatchOption (option_copied result) (drop at (marks tokens.now) ≡ []) (λ t. drop at (marks tokens.now) ≡ mark_behind (six_after false (take at tokens.now)) t ∷ drop (at + 1) (marks tokens.now)) }
    ensures within { OnSome result (at < length tokens.now) }
{
    tokens.get(at)
}

/// The place of the token of that number.
pub fn place_at(tokens: &[Token], at: usize) -> u32
    ensures { result ≡ place (drop at (marks tokens.now)) }
{
    match token_at(tokens, at) {
        Some(token) => token.at,
        None => 0,
    }
}

fn is_six(kind: &TokenKind) -> bool
    ensures { result ≡ six_test kind.now }
{
    match kind {
        TokenKind::Hash {
            major: Some(major),
            ..
        } => *major == 6,
        _ => false,
    }
}

fn is_sign(kind: &TokenKind, sign: Sign) -> bool
    ensures { result ≡ sign_test sign kind.now }
{
    match kind {
        TokenKind::Sign(other) => *other == sign,
        _ => false,
    }
}

/// Whether a `#6` is the token before that number.
fn is_behind_six(tokens: &[Token], at: usize) -> bool
    requires { at < length tokens.now }
    ensures { result ≡ six_after false (take at tokens.now) }
{
    at > 0 && is_six(&tokens[at - 1].kind)
}

/// The number behind the sign, where it is the token of that number and opens no tag.
pub fn sign_at(tokens: &[Token], at: usize, sign: Sign) -> Option<usize>
    ensures found { passed (marks tokens.now) result ≡ peek (sign_of sign) (drop at (marks tokens.now)) }
    ensures within { IfSome result (λ end. (end ≤ length tokens.now) × (at < end)) }
{
    let token = token_at(tokens, at)?;
    let tag = token.glued && is_behind_six(tokens, at) && is_sign(&token.kind, Sign::OpenParen);
    if !tag && is_sign(&token.kind, sign) {
        Some(at + 1)
    } else {
        None
    }
}

/// The number behind a `(` that opens a tag, where it is the token of that number.
pub fn tag_at(tokens: &[Token], at: usize) -> Option<usize>
    ensures found { passed (marks tokens.now) result ≡ peek tag_of (drop at (marks tokens.now)) }
    ensures within { IfSome result (λ end. (end ≤ length tokens.now) × (at < end)) }
{
    let token = token_at(tokens, at)?;
    if token.glued && is_behind_six(tokens, at) && is_sign(&token.kind, Sign::OpenParen) {
        Some(at + 1)
    } else {
        None
    }
}

/// The number behind the sign, which has to be the token of that number.
pub fn expect_sign(tokens: &[Token], at: usize, sign: Sign) -> Result<usize, Halt>
    ensures gives { Passes (marks tokens.now) result (token (sign_of sign) (drop at (marks tokens.now))) }
    ensures within { IfOk result (λ end. (end ≤ length tokens.now) × (at < end)) }
{
    match sign_at(tokens, at, sign) {
        Some(end) => Ok(end),
        None => Err(Halt::Unexpected(at)),
    }
}

/// A name, where it is the token of that number, and the number behind it.
pub fn name_at(
    alloc: Global,
    tokens: &[Token],
    at: usize,
) -> Result<Option<(Name, usize)>, OutOfMemory>
    ensures found { IfOk result (λ found. seen_if (marks tokens.now) found ≡ peek name_of (drop at (marks tokens.now))) }
    ensures within { IfOk result (λ found. IfSome found (λ x. (x.1 ≤ length tokens.now) × (at < x.1))) }
{
    let Some(token) = token_at(tokens, at) else {
        return Ok(None);
    };
    match &token.kind {
        TokenKind::Name(text) => {
            let text = ByteList::from_slice(alloc, text.as_slice())?;
            Ok(Some((Name { at: token.at, text }, at + 1)))
        }
        _ => Ok(None),
    }
}

/// A name, which has to be the token of that number, and the number behind it.
pub fn expect_name(alloc: Global, tokens: &[Token], at: usize) -> Result<(Name, usize), Halt>
    ensures gives { Gives (marks tokens.now) result (token name_of (drop at (marks tokens.now))) }
    ensures within { IfOk result (λ x. (x.1 ≤ length tokens.now) × (at < x.1)) }
{
    match name_at(alloc, tokens, at)? {
        Some(found) => Ok(found),
        None => Err(Halt::Unexpected(at)),
    }
}

fn literal_of_kind(alloc: Global, kind: &TokenKind) -> Result<Option<Literal>, OutOfMemory>
    ensures { IfOk result (λ found. found ≡ literal_in kind.now) }
{
    Ok(match kind {
        TokenKind::Int(value) => Some(Literal::Int(*value)),
        TokenKind::Float => Some(Literal::Float),
        TokenKind::Text(text) => Some(Literal::Text(ByteList::from_slice(alloc, text.as_slice())?)),
        TokenKind::Bytes(bytes) => {
            Some(Literal::Bytes(ByteList::from_slice(alloc, bytes.as_slice())?))
        }
        _ => None,
    })
}

/// A value, where it is the token of that number, and the number behind it.
pub fn literal_at(
    alloc: Global,
    tokens: &[Token],
    at: usize,
) -> Result<Option<(Literal, usize)>, OutOfMemory>
    ensures found { IfOk result (λ found. seen_if (marks tokens.now) found ≡ peek literal_of (drop at (marks tokens.now))) }
    ensures within { IfOk result (λ found. IfSome found (λ x. (x.1 ≤ length tokens.now) × (at < x.1))) }
{
    let Some(token) = token_at(tokens, at) else {
        return Ok(None);
    };
    match literal_of_kind(alloc, &token.kind)? {
        Some(literal) => Ok(Some((literal, at + 1))),
        None => Ok(None),
    }
}

/// An occurrence, where it is the token of that number, and the number behind it.
pub fn occur_at(tokens: &[Token], at: usize) -> Option<(Occur, usize)>
    ensures found { seen_if (marks tokens.now) result ≡ peek occur_of (drop at (marks tokens.now)) }
    ensures within { IfSome result (λ x. (x.1 ≤ length tokens.now) × (at < x.1)) }
{
    let token = token_at(tokens, at)?;
    match token.kind {
        TokenKind::Occur { lo, hi } => Some((Occur { lo, hi }, at + 1)),
        _ => None,
    }
}

/// A `#` with its major type and its number, where it is the token of that number, and the number behind it.
pub fn hash_at(tokens: &[Token], at: usize) -> Option<((Option<u8>, Bound), usize)>
    ensures found { seen_if (marks tokens.now) result ≡ peek hash_of (drop at (marks tokens.now)) }
    ensures within { IfSome result (λ x. (x.1 ≤ length tokens.now) × (at < x.1)) }
{
    let token = token_at(tokens, at)?;
    match token.kind {
        TokenKind::Hash { major, arg } => Some(((major, arg), at + 1)),
        _ => None,
    }
}

/// An assignment, where it is the token of that number, and the number behind it.
pub fn assign_at(tokens: &[Token], at: usize) -> Option<(Assign, usize)>
    ensures found { seen_if (marks tokens.now) result ≡ peek assign_of (drop at (marks tokens.now)) }
    ensures within { IfSome result (λ x. (x.1 ≤ length tokens.now) × (at < x.1)) }
{
    let token = token_at(tokens, at)?;
    match token.kind {
        TokenKind::Sign(Sign::Define) => Some((Assign::Define, at + 1)),
        TokenKind::Sign(Sign::TypeMore) => Some((Assign::TypeMore, at + 1)),
        TokenKind::Sign(Sign::GroupMore) => Some((Assign::GroupMore, at + 1)),
        _ => None,
    }
}

fn operator_of_kind(alloc: Global, at: u32, kind: &TokenKind) -> Result<Option<OpKind>, OutOfMemory>
    ensures { IfOk result (λ found. found ≡ operator_in at kind.now) }
{
    Ok(match kind {
        TokenKind::Sign(Sign::RangeClosed) => Some(OpKind::RangeClosed),
        TokenKind::Sign(Sign::RangeHalf) => Some(OpKind::RangeHalf),
        TokenKind::Control(text) => Some(OpKind::Control(Name {
            at,
            text: ByteList::from_slice(alloc, text.as_slice())?,
        })),
        _ => None,
    })
}

/// An operator and its place, where it is the token of that number, and the number behind it.
pub fn operator_at(
    alloc: Global,
    tokens: &[Token],
    at: usize,
) -> Result<Option<((u32, OpKind), usize)>, OutOfMemory>
    ensures found { IfOk result (λ found. seen_if (marks tokens.now) found ≡ peek operator_of (drop at (marks tokens.now))) }
    ensures within { IfOk result (λ found. IfSome found (λ x. (x.1 ≤ length tokens.now) × (at < x.1))) }
{
    let Some(token) = token_at(tokens, at) else {
        return Ok(None);
    };
    match operator_of_kind(alloc, token.at, &token.kind)? {
        Some(kind) => Ok(Some(((token.at, kind), at + 1))),
        None => Ok(None),
    }
}
