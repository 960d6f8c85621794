ghost use Rattle.std.specs.Prelude.{◌≡◌, ◌+◌, ◌*◌, ◌++◌, ◌∷◌, [], ◌<◌, length, drop, false, IsTrue, IfOk, IfErr, IfSome, IfNone, OnSome, OnOk};
ghost use Rattle.ecd_lex.specs.Forms.{is_character, is_hex_character, escape_of, are_hexadecimal, is_unit, unit_of, decoded, with_front, hex_after, hex_decoded, is_hex_space};
ghost use Rattle.ecd_lex.specs.Scan.{body_len, hex_len, placed, Gives, Faults, hex_digit, DecodesPiece, HexPiece};

use crate::character::{Radix, digit_value, is_blank};
use crate::found::Flaw;
use ecd_list::{ByteList, OutOfMemory};
use ecd_text::byte_at;
use std::alloc::Global;

/// A character that may stand in a string.
#[tactic(auto, unfolding(crate::specs::Forms::is_character))]
fn is_character(byte: u8) -> bool
    ensures { result ≡ is_character byte }
{
    32 <= byte
}

/// A character or white space.
#[tactic(auto, unfolding(crate::specs::Forms::is_hex_character))]
fn is_hex_character(byte: u8) -> bool
    ensures { result ≡ is_hex_character byte }
{
    is_character(byte) || is_blank(byte)
}

/// The length of a string's body, behind its quote. `None` where the string does not close.
pub fn body_len(quote: u8, text: &[u8]) -> Option<usize>
    ensures value { result ≡ body_len quote false text.now }
    ensures within { IfSome result (λ len. len < length text.now) }
{
    let mut escaped = false;
    for (at, byte) in text.iter().enumerate() {
        if !is_character(*byte) {
            return None;
        }
        if escaped {
            escaped = false;
        } else if *byte == quote {
            return Some(at);
        } else {
            escaped = *byte == b'\\';
        }
    }
    None
}

/// The length of a hexadecimal string's body, behind its quote. `None` where the string does not close.
pub fn hex_len(text: &[u8]) -> Option<usize>
    ensures value { result ≡ hex_len false text.now }
    ensures within { IfSome result (λ len. len < length text.now) }
{
    let mut returned = false;
    for (at, byte) in text.iter().enumerate() {
        if returned {
            if *byte != b'\n' {
                return None;
            }
            returned = false;
        } else if *byte == b'\'' {
            return Some(at);
        } else if *byte == b'\r' {
            returned = true;
        } else if !is_hex_character(*byte) {
            return None;
        }
    }
    None
}

/// What a backslash and this character stand for.
#[tactic(auto, unfolding(crate::specs::Forms::escape_of))]
fn escape_of(quote: u8, byte: u8) -> Option<u8>
    ensures { result ≡ escape_of quote byte }
{
    if byte == b'"' || byte == b'\\' || byte == b'/' {
        return Some(byte);
    }
    if byte == b'\'' && quote == b'\'' {
        return Some(byte);
    }
    match byte {
        b'b' => Some(8),
        b'f' => Some(12),
        b'n' => Some(10),
        b'r' => Some(13),
        b't' => Some(9),
        _ => None,
    }
}

fn push_all(bytes: &mut ByteList, more: &[u8]) -> Result<(), OutOfMemory>
    ensures { OnOk result (bytes.new ≡ bytes.old ++ more.now) }
{
    for byte in more {
        bytes.push(*byte)?;
    }
    Ok(())
}

/// The value of a hexadecimal digit.
#[tactic(auto, unfolding(crate::specs::Scan::hex_digit, crate::specs::Characters::is_digit, crate::specs::Characters::is_decimal, crate::specs::Characters::digit_value))]
fn hex_digit(byte: u8) -> Option<u8>
    ensures value { result ≡ hex_digit byte }
    ensures small { IfSome result (λ digit. digit < 16) }
{
    Radix::Hexadecimal
        .is_digit(byte)
        .then_some(digit_value(byte))
}

/// The number of four hexadecimal digits.
#[tactic(auto, unfolding(crate::specs::Forms::are_hexadecimal, crate::specs::Scan::hex_digit, crate::specs::Characters::number_after, crate::specs::Characters::base_of))]
fn unit_of(first: u8, second: u8, third: u8, fourth: u8) -> Option<u32>
    ensures none { IfNone result (are_hexadecimal first second third fourth ≡ false) }
    ensures digits { OnSome result (IsTrue (are_hexadecimal first second third fourth)) }
    ensures value { IfSome result (λ unit. unit ≡ unit_of first second third fourth) }
    ensures small { IfSome result (λ unit. unit < 0x1_0000) }
{
    let first = u32::from(hex_digit(first)?);
    let second = u32::from(hex_digit(second)?);
    let third = u32::from(hex_digit(third)?);
    let fourth = u32::from(hex_digit(fourth)?);
    Some(((first * 16 + second) * 16 + third) * 16 + fourth)
}

/// The character of four hexadecimal digits: no surrogate.
#[tactic(auto, unfolding(crate::specs::Forms::is_unit))]
fn character_of(first: u8, second: u8, third: u8, fourth: u8) -> Option<char>
    ensures none { IfNone result (is_unit first second third fourth ≡ false) }
    ensures unit { OnSome result (IsTrue (is_unit first second third fourth)) }
    ensures value { IfSome result (λ character. character ≡ unit_of first second third fourth) }
{
    char::from_u32(unit_of(first, second, third, fourth)?)
}

/// Adds what the first character or escape from a place on stands for, and answers the place behind it.
fn decode_piece(bytes: &mut ByteList, quote: u8, body: &[u8], at: usize) -> Result<usize, Flaw>
    requires { at < length body.now }
    ensures ok { IfOk result (λ end. DecodesPiece quote body.now at end bytes.old bytes.new) }
    ensures further { IfOk result (λ end. at < end) }
    ensures err { IfErr result (λ flaw. Faults flaw (placed 1 3 (with_front bytes.old at (decoded quote (drop at body.now))))) }
{
    let first = byte_at(body, at);
    if first != b'\\' {
        bytes.push(first)?;
        return Ok(at + 1);
    }
    let second = byte_at(body, at + 1);
    if second == b'u' {
        let Some(character) = character_of(
            byte_at(body, at + 2),
            byte_at(body, at + 3),
            byte_at(body, at + 4),
            byte_at(body, at + 5),
        ) else {
            return Err(Flaw::At {
                offset: 1 + at,
                rule: 3,
            });
        };
        let mut room = [0; 4];
        push_all(bytes, character.encode_utf8(&mut room).as_bytes())?;
        return Ok(at + 6);
    }
    let Some(character) = escape_of(quote, second) else {
        return Err(Flaw::At {
            offset: 1 + at,
            rule: 3,
        });
    };
    bytes.push(character)?;
    Ok(at + 2)
}

/// The bytes that a string's body stands for.
pub fn decoded(alloc: Global, quote: u8, body: &[u8]) -> Result<ByteList, Flaw>
    ensures { Gives result (placed 1 3 (decoded quote body.now)) }
{
    let mut bytes = ByteList::new(alloc);
    let mut at = 0;
    while at < body.len() {
        at = decode_piece(&mut bytes, quote, body, at)?;
    }
    Ok(bytes)
}

/// White space in a hexadecimal string, which has a carriage return before a line feed alone.
#[tactic(auto, unfolding(crate::specs::Forms::is_hex_space))]
fn is_hex_space(byte: u8) -> bool
    ensures { result ≡ is_hex_space byte }
{
    is_blank(byte) || byte == b'\r'
}

/// Adds the byte that the digit at a place ends, and answers the digit where it is the first of its byte.
#[tactic(auto, unfolding(crate::specs::Scan::hex_digit))]
fn hex_piece(
    bytes: &mut ByteList,
    first: Option<u8>,
    body: &[u8],
    at: usize,
) -> Result<Option<u8>, Flaw>
    requires inside { at < length body.now }
    requires small { IfSome first (λ value. value < 16) }
    ensures ok { IfOk result (λ next. HexPiece body.now at first next bytes.old bytes.new) }
    ensures small { IfOk result (λ next. IfSome next (λ value. value < 16)) }
    ensures err { IfErr result (λ flaw. Faults flaw (placed 2 5 (with_front bytes.old at (hex_after first (drop at body.now))))) }
{
    let byte = byte_at(body, at);
    if is_hex_space(byte) {
        return Ok(first);
    }
    let Some(digit) = hex_digit(byte) else {
        return Err(Flaw::At {
            offset: 2 + at,
            rule: 5,
        });
    };
    let Some(value) = first else {
        return Ok(Some(digit));
    };
    bytes.push(16 * value + digit)?;
    Ok(None)
}

/// The bytes that pairs of hexadecimal digits spell, white space passed over.
pub fn hex_decoded(alloc: Global, body: &[u8]) -> Result<ByteList, Flaw>
    ensures { Gives result (placed 2 5 (hex_decoded body.now)) }
{
    let mut bytes = ByteList::new(alloc);
    let mut first = None;
    for at in 0..body.len() {
        first = hex_piece(&mut bytes, first, body, at)?;
    }
    match first {
        None => Ok(bytes),
        Some(_) => Err(Flaw::At {
            offset: 2 + body.len(),
            rule: 5,
        }),
    }
}
