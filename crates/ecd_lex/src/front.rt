ghost use Rattle.std.specs.Prelude.{◌≡◌, ◌<◌, ◌^◌, length, drop, IfOk};
ghost use Rattle.ecd_lex.specs.Scan.{name_found, quoted, hex_quoted, ended, or_none, dot_found, signed_found, leads_with_zero, is_base64, letter_found, minus_found, occurrence, string_found, opening_of, opening_of_mark, candidate, front_found, Gives};

use crate::character::{is_b, is_decimal, is_h, is_name_byte, is_name_start};
use crate::found::{Flaw, Found};
use crate::name::name_rest;
use crate::number::{hash_found, number_found, star_found};
use crate::sign::{dot_sign, sign_found};
use crate::string::{body_len, decoded, hex_decoded, hex_len};
use crate::token::{Bound, TokenKind};
use ecd_list::{ByteList, OutOfMemory};
use ecd_text::{behind, byte_at, front};
use std::alloc::Global;

/// What a first byte opens.
#[derive(Clone, Copy, Debug, PartialEq, Eq)]
pub enum Opening {
    Letter,
    Digit,
    Minus,
    Quote,
    Apostrophe,
    Question,
    Plus,
    Star,
    Hash,
    Dot,
    Other,
}

#[tactic(auto, unfolding(crate::specs::Scan::opening_of_mark))]
fn opening_of_mark(byte: u8) -> Opening
    ensures { result ≡ opening_of_mark byte }
{
    match byte {
        b'?' => Opening::Question,
        b'+' => Opening::Plus,
        b'*' => Opening::Star,
        b'#' => Opening::Hash,
        b'.' => Opening::Dot,
        _ => Opening::Other,
    }
}

#[tactic(auto, unfolding(crate::specs::Scan::opening_of))]
fn opening_of(byte: u8) -> Opening
    ensures { result ≡ opening_of byte }
{
    if is_name_start(byte) {
        return Opening::Letter;
    }
    if is_decimal(byte) {
        return Opening::Digit;
    }
    match byte {
        b'-' => Opening::Minus,
        b'"' => Opening::Quote,
        b'\'' => Opening::Apostrophe,
        _ => opening_of_mark(byte),
    }
}

/// The name at the front.
#[tactic(auto, unfolding(crate::specs::Scan::name_found))]
fn name_found(alloc: Global, text: &[u8]) -> Result<Found, OutOfMemory>
    requires { length text.now < 2 ^ 62 }
    ensures { IfOk result (λ found. found ≡ name_found text.now) }
{
    let end = 1 + name_rest(behind(text, 1));
    Ok(Found {
        end,
        kind: TokenKind::Name(ByteList::from_slice(alloc, front(text, end))?),
        number: None,
    })
}

/// Where a string ends and what it stands for, behind its quote.
#[tactic(auto, unfolding(crate::specs::Scan::quoted))]
fn quoted(alloc: Global, quote: u8, text: &[u8]) -> Result<(usize, ByteList), Flaw>
    requires { length text.now < 2 ^ 62 }
    ensures { Gives result (quoted quote text.now) }
{
    let Some(len) = body_len(quote, text) else {
        return Err(Flaw::At { offset: 0, rule: 2 });
    };
    let bytes = decoded(alloc, quote, front(text, len))?;
    Ok((len + 2, bytes))
}

/// Where a hexadecimal string ends and what it stands for, behind its quote.
#[tactic(auto, unfolding(crate::specs::Scan::hex_quoted))]
fn hex_quoted(alloc: Global, text: &[u8]) -> Result<(usize, ByteList), Flaw>
    requires { length text.now < 2 ^ 62 }
    ensures { Gives result (hex_quoted text.now) }
{
    let Some(len) = hex_len(text) else {
        return Err(Flaw::At { offset: 1, rule: 2 });
    };
    let bytes = hex_decoded(alloc, front(text, len))?;
    Ok((len + 3, bytes))
}

/// What was found, where the number that it ends in does not go on.
#[tactic(auto, unfolding(crate::specs::Scan::ended))]
fn ended(text: &[u8], found: Found) -> Result<Found, Flaw>
    ensures { Gives result (ended text.now found) }
{
    if let Some(offset) = found.number
        && is_name_byte(byte_at(text, found.end))
    {
        return Err(Flaw::At { offset, rule: 4 });
    }
    Ok(found)
}

fn or_none(found: Option<Found>) -> Result<Found, Flaw>
    ensures { Gives result (or_none found) }
{
    match found {
        None => Err(Flaw::At { offset: 0, rule: 1 }),
        Some(found) => Ok(found),
    }
}

/// A control operator or a sign, behind its dot.
#[tactic(auto, unfolding(crate::specs::Scan::dot_found))]
fn dot_found(alloc: Global, text: &[u8]) -> Result<Found, Flaw>
    requires { length text.now < 2 ^ 62 }
    ensures { Gives result (dot_found text.now) }
{
    if !is_name_start(byte_at(text, 0)) {
        return or_none(dot_sign(text));
    }
    let len = 1 + name_rest(behind(text, 1));
    Ok(Found {
        end: 1 + len,
        kind: TokenKind::Control(ByteList::from_slice(alloc, front(text, len))?),
        number: None,
    })
}

/// Whether a decimal number has a 0 before more digits.
#[tactic(auto, unfolding(crate::specs::Scan::leads_with_zero))]
fn leads_with_zero(text: &[u8]) -> bool
    ensures { result ≡ leads_with_zero text.now }
{
    byte_at(text, 0) == b'0' && is_decimal(byte_at(text, 1))
}

/// A number, or the occurrence indicator that it begins.
#[tactic(auto, unfolding(crate::specs::Scan::signed_found))]
fn signed_found(negative: bool, number: &[u8]) -> Result<Found, Flaw>
    requires { length number.now < 2 ^ 62 }
    ensures { Gives result (signed_found negative number.now) }
{
    if leads_with_zero(number) {
        return Err(Flaw::At { offset: 0, rule: 4 });
    }
    Ok(number_found(negative, number))
}

/// Whether a text begins with `b64'`.
#[tactic(auto, unfolding(crate::specs::Scan::is_base64))]
fn is_base64(text: &[u8]) -> bool
    ensures { result ≡ is_base64 text.now }
{
    is_b(byte_at(text, 0))
        && byte_at(text, 1) == b'6'
        && byte_at(text, 2) == b'4'
        && byte_at(text, 3) == b'\''
}

/// A name, or a string behind its mark.
#[tactic(auto, unfolding(crate::specs::Scan::letter_found))]
fn letter_found(alloc: Global, text: &[u8]) -> Result<Found, Flaw>
    requires { length text.now < 2 ^ 62 }
    ensures { Gives result (letter_found text.now) }
{
    if is_h(byte_at(text, 0)) && byte_at(text, 1) == b'\'' {
        let (end, bytes) = hex_quoted(alloc, behind(text, 2))?;
        return Ok(Found {
            end,
            kind: TokenKind::Bytes(bytes),
            number: None,
        });
    }
    if is_base64(text) {
        return Err(Flaw::At { offset: 0, rule: 6 });
    }
    Ok(name_found(alloc, text)?)
}

/// A text in quotes, behind the first of them.
fn text_found(alloc: Global, text: &[u8]) -> Result<Found, Flaw>
    requires { length text.now < 2 ^ 62 }
    ensures { Gives result (string_found TokenKind.Text (quoted 34 text.now)) }
{
    let (end, chars) = quoted(alloc, b'"', text)?;
    Ok(Found {
        end,
        kind: TokenKind::Text(chars),
        number: None,
    })
}

/// A byte string in plain quotes, behind the first of them.
fn bytes_found(alloc: Global, text: &[u8]) -> Result<Found, Flaw>
    requires { length text.now < 2 ^ 62 }
    ensures { Gives result (string_found TokenKind.Bytes (quoted 39 text.now)) }
{
    let (end, bytes) = quoted(alloc, b'\'', text)?;
    Ok(Found {
        end,
        kind: TokenKind::Bytes(bytes),
        number: None,
    })
}

/// A negative number.
#[tactic(auto, unfolding(crate::specs::Scan::minus_found))]
fn minus_found(text: &[u8]) -> Result<Found, Flaw>
    requires { length text.now < 2 ^ 62 }
    ensures { Gives result (minus_found text.now) }
{
    if is_decimal(byte_at(text, 1)) {
        signed_found(true, behind(text, 1))
    } else {
        Err(Flaw::At { offset: 0, rule: 1 })
    }
}

/// `?` or `+`.
fn occurrence(lo: Bound, hi: Bound) -> Found
    ensures { result ≡ occurrence lo hi }
{
    Found {
        end: 1,
        kind: TokenKind::Occur { lo, hi },
        number: None,
    }
}

/// What stands at the front of a text, were it not for a number that goes on.
#[tactic(auto, unfolding(crate::specs::Scan::candidate))]
fn candidate(alloc: Global, text: &[u8]) -> Result<Found, Flaw>
    requires { length text.now < 2 ^ 62 }
    ensures { Gives result (candidate text.now) }
{
    let first = byte_at(text, 0);
    let behind_first = behind(text, 1);
    match opening_of(first) {
        Opening::Letter => letter_found(alloc, text),
        Opening::Digit => signed_found(false, text),
        Opening::Minus => minus_found(text),
        Opening::Quote => text_found(alloc, behind_first),
        Opening::Apostrophe => bytes_found(alloc, behind_first),
        Opening::Question => Ok(occurrence(Bound::Is(0), Bound::Is(1))),
        Opening::Plus => Ok(occurrence(Bound::Is(1), Bound::Missing)),
        Opening::Star => Ok(star_found(Bound::Missing, 0, behind_first)),
        Opening::Hash => Ok(hash_found(behind_first)),
        Opening::Dot => dot_found(alloc, behind_first),
        Opening::Other => or_none(sign_found(first, behind_first)),
    }
}

/// The lexeme at the front of a text, or the fault there.
#[tactic(auto, unfolding(crate::specs::Scan::front_found))]
pub fn front_found(alloc: Global, text: &[u8]) -> Result<Found, Flaw>
    requires { length text.now < 2 ^ 62 }
    ensures { Gives result (front_found text.now) }
{
    ended(text, candidate(alloc, text)?)
}
