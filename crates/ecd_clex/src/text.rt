//! From a text to its lexemes, each the longest at its place (the grammar of docs/C-SUBSET.md).

ghost use Rattle.std.specs.Prelude.{◌≡◌, ◌+◌, ◌≤◌, ◌<◌, length, take, drop, IfOk, IfSome, IfNone, IsTrue};
ghost use Rattle.std.specs.List.{prefix_len};
ghost use Rattle.ecd_cast.specs.Lexemes.{is_blank as blank_meant, is_digit as digit_meant, begins_word as begins_meant, is_word_byte as word_meant, is_one_sign as sign_meant, is_pair_sign as pair_meant};
ghost use Rattle.ecd_text.specs.Bytes.{byte_at as byte_meant};
ghost use Rattle.ecd_clex.specs.Scan.{is_bracket as bracket_meant, blanks_len as blanks_meant, digits_len as digits_meant, is_ull as ull_meant, number_len as number_meant, sign_len as sign_len_meant, front_len as front_meant, IsNext, IsLast};
ghost use Rattle.ecd_clex.specs.Tokens.{AllLexed};

use crate::token::{Token, TokenList};
use ecd_list::OutOfMemory;
use ecd_text::{behind, byte_at};
use std::alloc::Global;

/// The most bytes that a C text has.
pub const MOST_BYTES: usize = 67_108_864;

fn is_blank(byte: u8) -> bool
    ensures { result ≡ blank_meant byte }
{
    byte == b' ' || byte == b'\n'
}

pub fn is_digit(byte: u8) -> bool
    ensures { result ≡ digit_meant byte }
{
    byte.is_ascii_digit()
}

pub fn begins_word(byte: u8) -> bool
    ensures { result ≡ begins_meant byte }
{
    byte.is_ascii_lowercase() || byte == b'_'
}

pub fn is_word_byte(byte: u8) -> bool
    ensures { result ≡ word_meant byte }
{
    begins_word(byte) || is_digit(byte)
}

fn is_bracket(byte: u8) -> bool
    ensures { result ≡ bracket_meant byte }
{
    byte == b'(' || byte == b')' || byte == b'{' || byte == b'}' || byte == b'[' || byte == b']'
}

fn is_one_sign(byte: u8) -> bool
    ensures { result ≡ sign_meant byte }
{
    is_bracket(byte)
        || (byte == b';'
            || byte == b','
            || byte == b'='
            || byte == b'!'
            || byte == b'+'
            || byte == b'-')
        || (byte == b'*' || byte == b'&' || byte == b'|' || byte == b'<' || byte == b'>')
}

fn is_pair_sign(first: u8, second: u8) -> bool
    ensures { result ≡ pair_meant first second }
{
    (second == b'='
        && (first == b'+' || first == b'=' || first == b'!' || first == b'<' || first == b'>'))
        || (second == b'>' && (first == b'-' || first == b'>'))
        || (first == second && (first == b'<' || first == b'&' || first == b'|'))
}

/// How many blanks a text begins with.
#[tactic(auto, unfolding(crate::specs::Scan::blanks_len))]
fn blanks_len(text: &[u8]) -> usize
    ensures value { result ≡ blanks_meant text.now }
    ensures within { result ≤ length text.now }
{
    text.iter().take_while(|byte| is_blank(**byte)).count()
}

fn digits_run(text: &[u8]) -> usize
    ensures value { result ≡ prefix_len digit_meant text.now }
    ensures within { result ≤ length text.now }
{
    text.iter().take_while(|byte| is_digit(**byte)).count()
}

fn word_run(text: &[u8]) -> usize
    ensures value { result ≡ prefix_len word_meant text.now }
    ensures within { result ≤ length text.now }
{
    text.iter().take_while(|byte| is_word_byte(**byte)).count()
}

/// How many digits without a leading 0 a text begins with.
#[tactic(auto, unfolding(crate::specs::Scan::digits_len))]
fn digits_len(text: &[u8]) -> usize
    ensures value { result ≡ digits_meant text.now }
    ensures within { result ≤ length text.now }
{
    if byte_at(text, 0) == b'0' {
        1
    } else {
        digits_run(text)
    }
}

/// Whether a text begins with `ull`.
#[tactic(auto, unfolding(crate::specs::Scan::is_ull))]
fn is_ull(text: &[u8]) -> bool
    ensures value { result ≡ ull_meant text.now }
    ensures within { IsTrue result → 3 ≤ length text.now }
{
    byte_at(text, 0) == b'u' && byte_at(text, 1) == b'l' && byte_at(text, 2) == b'l'
}

/// The length of the digits that a text begins with, and of the `ull` behind them.
#[tactic(auto, unfolding(crate::specs::Scan::number_len))]
fn number_len(text: &[u8]) -> usize
    ensures value { result ≡ number_meant text.now }
    ensures within { result ≤ length text.now }
{
    let digits = digits_len(text);
    if is_ull(behind(text, digits)) {
        digits + 3
    } else {
        digits
    }
}

#[tactic(auto, unfolding(crate::specs::Scan::sign_len))]
fn sign_len(text: &[u8]) -> usize
    ensures value { result ≡ sign_len_meant text.now }
    ensures within { result ≤ length text.now }
{
    if is_pair_sign(byte_at(text, 0), byte_at(text, 1)) {
        2
    } else if is_one_sign(byte_at(text, 0)) {
        1
    } else {
        0
    }
}

/// The length of the longest lexeme that a text begins with, or 0 where it begins with none.
#[tactic(auto, unfolding(crate::specs::Scan::front_len))]
fn front_len(text: &[u8]) -> usize
    ensures value { result ≡ front_meant text.now }
    ensures within { result ≤ length text.now }
{
    let first = byte_at(text, 0);
    if begins_word(first) {
        word_run(text)
    } else if is_digit(first) {
        number_len(text)
    } else {
        sign_len(text)
    }
}

/// The next token from a place on, if a lexeme stands behind the blanks there.
fn next_token(text: &[u8], at: usize) -> Option<Token>
    requires short { length text.now ≤ MOST_BYTES }
    requires inside { at ≤ length text.now }
    ensures token { IfSome result (λ token. IsNext text.now at token) }
    ensures further { IfSome result (λ token. at < token.end) }
    ensures within { IfSome result (λ token. token.end ≤ length text.now) }
    ensures end { IfNone result (IsLast text.now at (at + blanks_meant (drop at text.now))) }
{
    let begin = at + blanks_len(behind(text, at));
    let len = front_len(behind(text, begin));
    if len == 0 {
        return None;
    }
    Some(Token {
        at: begin as u32,
        end: (begin + len) as u32,
    })
}

/// The tokens of a text from a place on, and the place behind them and the blanks: the end of the text, or a byte that
/// begins no lexeme.
pub fn lex(alloc: Global, text: &[u8], from: usize) -> Result<(TokenList, usize), OutOfMemory>
    requires short { length text.now ≤ MOST_BYTES }
    requires inside { from ≤ length text.now }
    ensures { IfOk result (λ x. AllLexed text.now from x.0 x.1) }
{
    let mut tokens = TokenList::new(alloc);
    let mut at = from;
    while let Some(token) = next_token(text, at) {
        at = token.end as usize;
        tokens.push(token)?;
    }
    Ok((tokens, at + blanks_len(behind(text, at))))
}
