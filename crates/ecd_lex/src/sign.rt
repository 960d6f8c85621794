ghost use Rattle.std.specs.Prelude.{◌≡◌};
ghost use Rattle.ecd_lex.specs.Scan.{sign_found, define_sign, slash_sign, dot_sign, lone_sign, bracket_sign, as_sign};

use crate::found::Found;
use crate::token::{Sign, TokenKind};
use ecd_text::byte_at;

fn as_sign(sign: Sign, end: usize) -> Option<Found>
    ensures { result ≡ as_sign sign end }
{
    Some(Found {
        end,
        kind: TokenKind::Sign(sign),
        number: None,
    })
}

#[tactic(auto, unfolding(crate::specs::Scan::bracket_sign))]
fn bracket_sign(byte: u8) -> Option<Found>
    ensures { result ≡ bracket_sign byte }
{
    match byte {
        b'[' => as_sign(Sign::OpenBracket, 1),
        b']' => as_sign(Sign::CloseBracket, 1),
        b'{' => as_sign(Sign::OpenBrace, 1),
        b'}' => as_sign(Sign::CloseBrace, 1),
        b'~' => as_sign(Sign::Tilde, 1),
        b'&' => as_sign(Sign::Ampersand, 1),
        _ => None,
    }
}

/// A sign that begins no other.
#[tactic(auto, unfolding(crate::specs::Scan::lone_sign))]
fn lone_sign(byte: u8) -> Option<Found>
    ensures { result ≡ lone_sign byte }
{
    match byte {
        b'^' => as_sign(Sign::Caret, 1),
        b':' => as_sign(Sign::Colon, 1),
        b',' => as_sign(Sign::Comma, 1),
        b'<' => as_sign(Sign::Less, 1),
        b'>' => as_sign(Sign::Greater, 1),
        b'(' => as_sign(Sign::OpenParen, 1),
        b')' => as_sign(Sign::CloseParen, 1),
        _ => bracket_sign(byte),
    }
}

/// The sign of which `=` is read.
#[tactic(auto, unfolding(crate::specs::Scan::define_sign))]
fn define_sign(text: &[u8]) -> Option<Found>
    ensures { result ≡ define_sign text.now }
{
    if byte_at(text, 0) == b'>' {
        as_sign(Sign::Arrow, 2)
    } else {
        as_sign(Sign::Define, 1)
    }
}

/// The sign of which `/` is read.
#[tactic(auto, unfolding(crate::specs::Scan::slash_sign))]
fn slash_sign(text: &[u8]) -> Option<Found>
    ensures { result ≡ slash_sign text.now }
{
    if byte_at(text, 0) == b'=' {
        as_sign(Sign::TypeMore, 2)
    } else if byte_at(text, 0) == b'/' {
        if byte_at(text, 1) == b'=' {
            as_sign(Sign::GroupMore, 3)
        } else {
            as_sign(Sign::DoubleSlash, 2)
        }
    } else {
        as_sign(Sign::Slash, 1)
    }
}

/// The sign of which `.` is read.
#[tactic(auto, unfolding(crate::specs::Scan::dot_sign))]
pub fn dot_sign(text: &[u8]) -> Option<Found>
    ensures { result ≡ dot_sign text.now }
{
    if byte_at(text, 0) == b'.' {
        if byte_at(text, 1) == b'.' {
            as_sign(Sign::RangeHalf, 3)
        } else {
            as_sign(Sign::RangeClosed, 2)
        }
    } else {
        None
    }
}

/// The sign that a byte and the text behind it begin with. No dot begins it.
#[tactic(auto, unfolding(crate::specs::Scan::sign_found))]
pub fn sign_found(byte: u8, text: &[u8]) -> Option<Found>
    ensures { result ≡ sign_found byte text.now }
{
    match byte {
        b'=' => define_sign(text),
        b'/' => slash_sign(text),
        _ => lone_sign(byte),
    }
}
