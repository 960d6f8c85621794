//! What single lexemes are: names, numbers and operators.

ghost use Rattle.std.specs.Prelude.{◌≡◌, ◌≤◌, ◌<◌, ◌^◌, length, take, IfSome, IfNone, bytes_eq, true};
ghost use Rattle.std.specs.Str.Parse.{digits_value as value_meant};
ghost use Rattle.ecd_cast.specs.Lexemes.{is_name as name_meant, is_word as word_meant, is_reserved as reserved_meant, is_digits as digits_meant, is_digit as digit_meant, is_word_byte as word_byte_meant};
ghost use Rattle.std.specs.List.{list_all};
ghost use Rattle.ecd_cgrammar.specs.Reading.{literal_of, number_below, op_of};

use crate::text::{begins_word, is_digit, is_word_byte};
use ecd_cast::tree::Op;

/// Whether two lexemes are the same.
pub fn is_same(lexeme: &[u8], other: &[u8]) -> bool
    ensures { result ≡ bytes_eq lexeme.now other.now }
{
    lexeme == other
}

fn are_word_bytes(bytes: &[u8]) -> bool
    ensures { result ≡ list_all word_byte_meant bytes.now }
{
    bytes.iter().all(|byte| is_word_byte(*byte))
}

fn are_digits(bytes: &[u8]) -> bool
    ensures { result ≡ list_all digit_meant bytes.now }
{
    bytes.iter().all(|byte| is_digit(*byte))
}

fn is_word(lexeme: &[u8]) -> bool
    ensures { result ≡ word_meant lexeme.now }
{
    match lexeme.split_first() {
        Some((first, rest)) => begins_word(*first) && are_word_bytes(rest),
        None => false,
    }
}

fn is_reserved(lexeme: &[u8]) -> bool
    ensures { result ≡ reserved_meant lexeme.now }
{
    is_same(lexeme, b"if")
        || is_same(lexeme, b"else")
        || is_same(lexeme, b"for")
        || is_same(lexeme, b"return")
        || is_same(lexeme, b"struct")
        || is_same(lexeme, b"const")
        || is_same(lexeme, b"enum")
        || is_same(lexeme, b"uint8_t")
        || is_same(lexeme, b"uint64_t")
        || is_same(lexeme, b"call_depth")
}

/// Whether a lexeme is a name.
pub fn is_name(lexeme: &[u8]) -> bool
    ensures { result ≡ name_meant lexeme.now }
{
    is_word(lexeme) && !is_reserved(lexeme)
}

/// Whether these are digits without a leading 0.
fn is_digits(lexeme: &[u8]) -> bool
    ensures { result ≡ digits_meant lexeme.now }
{
    match lexeme.split_first() {
        Some((first, rest)) => {
            is_digit(*first) && (rest.is_empty() || *first != b'0') && are_digits(rest)
        }
        None => false,
    }
}

/// The number that digits spell, if it has 64 bits.
fn digits_value(digits: &[u8]) -> Option<u64>
    requires { digits_meant digits.now ≡ true }
    ensures some { IfSome result (λ value. value ≡ value_meant 10 digits.now) }
    ensures none { IfNone result (2 ^ 64 ≤ value_meant 10 digits.now) }
{
    let mut value: u64 = 0;
    for digit in digits {
        value = value
            .checked_mul(10)?
            .checked_add(u64::from(*digit - b'0'))?;
    }
    Some(value)
}

/// The number that digits without a leading 0 spell, where the lexeme is such digits and the number has 64 bits.
fn decimal_value(lexeme: &[u8]) -> Option<u64>
    ensures { result ≡ number_below (2 ^ 64) lexeme.now }
{
    if is_digits(lexeme) {
        digits_value(lexeme)
    } else {
        None
    }
}

/// The call depth that a lexeme spells.
pub fn depth_value(lexeme: &[u8]) -> Option<u32>
    ensures { result ≡ number_below (2 ^ 32) lexeme.now }
{
    let value = decimal_value(lexeme)?;
    if value < 1 << 32 {
        Some(value as u32)
    } else {
        None
    }
}

/// The number of a literal: digits, and then `ull`.
pub fn literal_value(lexeme: &[u8]) -> Option<u64>
    ensures { result ≡ literal_of lexeme.now }
{
    let digits = lexeme.strip_suffix(b"ull")?;
    decimal_value(digits)
}

/// The operator that a lexeme is, if it is one.
pub fn operator(lexeme: &[u8]) -> Option<Op>
    ensures { result ≡ op_of lexeme.now }
{
    if is_same(lexeme, b"+") {
        Some(Op::Add)
    } else if is_same(lexeme, b"-") {
        Some(Op::Sub)
    } else if is_same(lexeme, b"*") {
        Some(Op::Mul)
    } else if is_same(lexeme, b"<<") {
        Some(Op::Shl)
    } else if is_same(lexeme, b">>") {
        Some(Op::Shr)
    } else if is_same(lexeme, b"&") {
        Some(Op::BitAnd)
    } else if is_same(lexeme, b"|") {
        Some(Op::BitOr)
    } else if is_same(lexeme, b"==") {
        Some(Op::Eq)
    } else if is_same(lexeme, b"!=") {
        Some(Op::Ne)
    } else if is_same(lexeme, b"<") {
        Some(Op::Lt)
    } else if is_same(lexeme, b"<=") {
        Some(Op::Le)
    } else if is_same(lexeme, b">") {
        Some(Op::Gt)
    } else if is_same(lexeme, b">=") {
        Some(Op::Ge)
    } else if is_same(lexeme, b"&&") {
        Some(Op::And)
    } else if is_same(lexeme, b"||") {
        Some(Op::Or)
    } else {
        None
    }
}
