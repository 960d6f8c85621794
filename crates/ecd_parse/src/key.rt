//! What stands beside the type of an entry: its occurrence, its key, and the signs behind it.

ghost use Rattle.std.specs.Prelude.{◌≡◌, ◌<◌, ◌≤◌, Bool, Ok, Option, Some, drop, length, IfOk, IfSome, ℕ};
ghost use Rattle.ecd_syntax.specs.Marks.{marks};
ghost use Rattle.ecd_syntax.specs.Reading.{taken, occur_at, skip_comma, colon_behind, goes_on};
ghost use Rattle.ecd_syntax.specs.declared.tree.Entry.{Entry};
ghost use Rattle.ecd_parse.specs.Openings.{Keyed, Arrows};

use crate::cursor::{Halt, expect_sign, literal_at, name_at, occur_at, place_at, sign_at};
use ecd_lex::{Sign, Token};
use ecd_syntax::{Key, Occur};
use std::alloc::Global;

/// An occurrence, or none, and the number behind it.
#[tactic(auto, unfolding(ecd_syntax::specs::Reading::occur_at))]
pub fn occurrence_at(tokens: &[Token], at: usize) -> (Option<Occur>, usize)
    requires { at ≤ length tokens.now }
    ensures gives { occur_at (drop at (marks tokens.now)) ≡ taken result.0 (drop result.1 (marks tokens.now)) }
    ensures within { (result.1 ≤ length tokens.now) × (at ≤ result.1) }
{
    match occur_at(tokens, at) {
        Some((occur, behind)) => (Some(occur), behind),
        None => (None, at),
    }
}

/// Whether the token behind that number is a `:`.
fn is_before_colon(tokens: &[Token], at: usize) -> bool
    requires { at ≤ length tokens.now }
    ensures { result ≡ colon_behind (drop at (marks tokens.now)) }
{
    sign_at(tokens, at + 1, Sign::Colon).is_some()
}

/// A name or a value before `:`, and the number behind the `:`.
#[tactic(auto, unfolding(ecd_syntax::specs::Reading::body_at, ecd_syntax::specs::Reading::keyed_body))]
pub fn key_at(alloc: Global, tokens: &[Token], at: usize) -> Result<Option<(Key, usize)>, Halt>
    requires { at ≤ length tokens.now }
    ensures leads { Keyed (marks tokens.now) result at }
    ensures within { IfOk result (λ found. IfSome found (λ x. (x.1 ≤ length tokens.now) × (at < x.1))) }
{
    if !is_before_colon(tokens, at) {
        return Ok(None);
    }
    if let Some((name, behind)) = name_at(alloc, tokens, at)? {
        let end = expect_sign(tokens, behind, Sign::Colon)?;
        return Ok(Some((Key::Word(name), end)));
    }
    if let Some((literal, behind)) = literal_at(alloc, tokens, at)? {
        let key = Key::Lit {
            at: place_at(tokens, at),
            of: literal,
        };
        let end = expect_sign(tokens, behind, Sign::Colon)?;
        return Ok(Some((key, end)));
    }
    Ok(None)
}

/// The arrow behind a choice of a type, with a cut before it or not, and the number behind it.
#[tactic(auto, unfolding(ecd_syntax::specs::Reading::behind_choice))]
pub fn arrow_at(tokens: &[Token], at: usize) -> Result<Option<(bool, usize)>, Halt>
    ensures leads { Arrows (marks tokens.now) result at }
    ensures within { IfOk result (λ found. IfSome found (λ x. (x.1 ≤ length tokens.now) × (at < x.1))) }
{
    if let Some(behind) = sign_at(tokens, at, Sign::Caret) {
        let end = expect_sign(tokens, behind, Sign::Arrow)?;
        return Ok(Some((true, end)));
    }
    match sign_at(tokens, at, Sign::Arrow) {
        Some(end) => Ok(Some((false, end))),
        None => Ok(None),
    }
}

/// The number behind the comma of an entry, if there is one.
pub fn behind_comma(tokens: &[Token], at: usize) -> usize
    requires { at ≤ length tokens.now }
    ensures skips { (e : Entry) → skip_comma e (drop at (marks tokens.now)) ≡ taken e (drop result (marks tokens.now)) }
    ensures within { (result ≤ length tokens.now) × (at ≤ result) }
{
    match sign_at(tokens, at, Sign::Comma) {
        Some(end) => end,
        None => at,
    }
}

/// Whether a way goes on: neither `//` nor the closing sign is the token of that number.
pub fn is_in_way(tokens: &[Token], at: usize, close: Sign) -> bool
    ensures { result ≡ goes_on close (drop at (marks tokens.now)) }
{
    sign_at(tokens, at, Sign::DoubleSlash).is_none() && sign_at(tokens, at, close).is_none()
}
