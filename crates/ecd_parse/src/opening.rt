//! What the first tokens of an operand open: what can be said before any choice of a type is read inside it.

ghost use Rattle.std.specs.Prelude.{◌≡◌, ◌<◌, ◌≤◌, Ok, Option, Some, length, IfOk, ℕ};
ghost use Rattle.ecd_syntax.specs.Marks.{marks};
ghost use Rattle.ecd_syntax.specs.Reading.{made, angled, form_at, prefixed_at, behind_ampersand, bracket_at, behind_hash};
ghost use Rattle.ecd_parse.specs.Openings.{Opens, named_form, group_form, close_of};

use crate::cursor::{Halt, expect_name, hash_at, literal_at, name_at, sign_at, tag_at};
use ecd_lex::{Bound, Sign, Token};
use ecd_list::List;
use ecd_syntax::{Form, GroupTree, Name, Type1List};
use std::alloc::Global;

/// What the first tokens of an operand open.
#[derive(Drop)]
pub enum Opening {
    /// Nothing: the form is whole.
    Whole(Form),
    /// Generic arguments, behind their `<`.
    Args { kind: NameKind, name: Name },
    /// A tag's type, behind its parenthesis.
    Tag(Bound),
    /// A group, behind its bracket.
    Group(GroupKind),
}

/// What a name stands behind.
#[derive(Clone, Copy, Debug, PartialEq, Eq)]
pub enum NameKind {
    /// Nothing.
    Plain,
    /// `~`
    Unwrap,
    /// `&`
    Enum,
}

/// The brackets of a group.
#[derive(Clone, Copy, Debug, PartialEq, Eq)]
pub enum GroupKind {
    /// `( )`
    Paren,
    /// `{ }`
    Map,
    /// `[ ]`
    Array,
    /// `&( )`
    Enum,
}

pub fn named_form(kind: NameKind, name: Name, args: Type1List) -> Form
    ensures { result ≡ named_form kind name args }
{
    match kind {
        NameKind::Plain => Form::Named { name, args },
        NameKind::Unwrap => Form::Unwrap { name, args },
        NameKind::Enum => Form::EnumName { name, args },
    }
}

pub fn group_form(kind: GroupKind, group: GroupTree) -> Form
    ensures { result ≡ group_form kind group }
{
    match kind {
        GroupKind::Paren => Form::Paren(group),
        GroupKind::Map => Form::MapOf(group),
        GroupKind::Array => Form::ArrayOf(group),
        GroupKind::Enum => Form::Enum(group),
    }
}

/// The sign that closes a group.
pub fn close_of(kind: GroupKind) -> Sign
    ensures { result ≡ close_of kind }
{
    match kind {
        GroupKind::Paren | GroupKind::Enum => Sign::CloseParen,
        GroupKind::Map => Sign::CloseBrace,
        GroupKind::Array => Sign::CloseBracket,
    }
}

/// What stands behind a name: generic arguments, or nothing that belongs to it.
#[tactic(auto, unfolding(ecd_syntax::specs::Reading::angled))]
fn behind_name(
    alloc: Global,
    tokens: &[Token],
    at: usize,
    kind: NameKind,
    name: Name,
) -> (Opening, usize)
    requires { at ≤ length tokens.now }
    ensures opens { Opens (marks tokens.now) (Ok result) (λ one. made (named_form kind name) (angled one)) at }
    ensures within { (result.1 ≤ length tokens.now) × (at ≤ result.1) }
{
    match sign_at(tokens, at, Sign::Less) {
        Some(behind) => (Opening::Args { kind, name }, behind),
        None => {
            let form = named_form(kind, name, List::new(alloc));
            (Opening::Whole(form), at)
        }
    }
}

/// What stands behind a `#`: a tag's parenthesis, or nothing that belongs to it.
#[tactic(auto, unfolding(ecd_syntax::specs::Reading::behind_hash))]
fn behind_hash(tokens: &[Token], at: usize, hash: (Option<u8>, Bound)) -> (Opening, usize)
    requires { at ≤ length tokens.now }
    ensures opens { Opens (marks tokens.now) (Ok result) (λ one. behind_hash one hash) at }
    ensures within { (result.1 ≤ length tokens.now) × (at ≤ result.1) }
{
    let (major, arg) = hash;
    if major == Some(6) {
        if let Some(behind) = tag_at(tokens, at) {
            return (Opening::Tag(arg), behind);
        }
    }
    (Opening::Whole(Form::Hash { major, arg }), at)
}

/// The bracket of a group.
#[tactic(auto, unfolding(ecd_syntax::specs::Reading::bracket_at))]
fn bracket_at(tokens: &[Token], at: usize) -> Result<(Opening, usize), Halt>
    ensures opens { Opens (marks tokens.now) result bracket_at at }
    ensures within { IfOk result (λ x. (x.1 ≤ length tokens.now) × (at < x.1)) }
{
    if let Some(behind) = sign_at(tokens, at, Sign::OpenParen) {
        return Ok((Opening::Group(GroupKind::Paren), behind));
    }
    if let Some(behind) = sign_at(tokens, at, Sign::OpenBrace) {
        return Ok((Opening::Group(GroupKind::Map), behind));
    }
    if let Some(behind) = sign_at(tokens, at, Sign::OpenBracket) {
        return Ok((Opening::Group(GroupKind::Array), behind));
    }
    Err(Halt::Unexpected(at))
}

/// What stands behind `&`: a group in parentheses, or a name.
#[tactic(auto, unfolding(ecd_syntax::specs::Reading::behind_ampersand, ecd_syntax::specs::Reading::name_and_args))]
fn behind_ampersand(alloc: Global, tokens: &[Token], at: usize) -> Result<(Opening, usize), Halt>
    ensures opens { Opens (marks tokens.now) result behind_ampersand at }
    ensures within { IfOk result (λ x. (x.1 ≤ length tokens.now) × (at < x.1)) }
{
    if let Some(behind) = sign_at(tokens, at, Sign::OpenParen) {
        return Ok((Opening::Group(GroupKind::Enum), behind));
    }
    let (name, behind) = expect_name(alloc, tokens, at)?;
    Ok(behind_name(alloc, tokens, behind, NameKind::Enum, name))
}

/// A form that begins with `~` or `&`, or a group in brackets.
#[tactic(auto, unfolding(ecd_syntax::specs::Reading::prefixed_at, ecd_syntax::specs::Reading::name_and_args))]
fn prefixed_at(alloc: Global, tokens: &[Token], at: usize) -> Result<(Opening, usize), Halt>
    ensures opens { Opens (marks tokens.now) result prefixed_at at }
    ensures within { IfOk result (λ x. (x.1 ≤ length tokens.now) × (at < x.1)) }
{
    if let Some(behind) = sign_at(tokens, at, Sign::Tilde) {
        let (name, behind) = expect_name(alloc, tokens, behind)?;
        return Ok(behind_name(alloc, tokens, behind, NameKind::Unwrap, name));
    }
    if let Some(behind) = sign_at(tokens, at, Sign::Ampersand) {
        return behind_ampersand(alloc, tokens, behind);
    }
    bracket_at(tokens, at)
}

/// What an operand begins with: a value, a name, a `#`, or a sign.
#[tactic(auto, unfolding(ecd_syntax::specs::Reading::form_at))]
pub fn opening_at(alloc: Global, tokens: &[Token], at: usize) -> Result<(Opening, usize), Halt>
    ensures opens { Opens (marks tokens.now) result form_at at }
    ensures within { IfOk result (λ x. (x.1 ≤ length tokens.now) × (at < x.1)) }
{
    if let Some((literal, end)) = literal_at(alloc, tokens, at)? {
        return Ok((Opening::Whole(Form::Lit(literal)), end));
    }
    if let Some((name, behind)) = name_at(alloc, tokens, at)? {
        return Ok(behind_name(alloc, tokens, behind, NameKind::Plain, name));
    }
    if let Some((hash, behind)) = hash_at(tokens, at) {
        return Ok(behind_hash(tokens, behind, hash));
    }
    prefixed_at(alloc, tokens, at)
}
