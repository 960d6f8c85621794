//! Reading types, entries and groups (RFC 8610, Appendix B), each from the token of a number on.
//!
//! A choice of a type is read inside others up to a number of levels, behind which there is want of memory: the stack
//! is memory. What can be read before or behind the parts that lead back here stands in `opening` and `key`.

ghost use Rattle.std.specs.Prelude.{◌≡◌, ◌<◌, ◌≤◌, length, drop, IfOk};
ghost use Rattle.ecd_syntax.specs.Marks.{marks};
ghost use Rattle.ecd_syntax.specs.Reading.{choice_at, operand_at, group_at, each, goes_on, entry_in_way, entry_at, body_at, type_at, more_listed};
ghost use Rattle.ecd_parse.specs.Reads.{Gives};
ghost use Rattle.ecd_parse.specs.Openings.{arguments};

use crate::cursor::{Halt, expect_sign, operator_at, place_at, sign_at};
use crate::key::{arrow_at, behind_comma, is_in_way, key_at, occurrence_at};
use crate::opening::{Opening, close_of, group_form, named_form, opening_at};
use ecd_lex::{Sign, Token};
use ecd_list::List;
use ecd_syntax::{
    Alts, Entry, EntryList, Form, GroupTree, Key, Operation, Type1, Type1List, Type2, WayTree,
};
use std::alloc::Global;

/// A choice of a type: an operand, and an operation on it or none.
#[cycle(reading)]
#[tactic(auto, unfolding(ecd_syntax::specs::Reading::choice_at, ecd_syntax::specs::Reading::choice_layer, ecd_syntax::specs::Reading::operation_at))]
fn read_choice(
    alloc: Global,
    tokens: &[Token],
    at: usize,
    levels: u32,
) -> Result<(Type1, usize), Halt>
    requires { at ≤ length tokens.now }
    ensures gives { Gives (marks tokens.now) result (choice_at levels (drop at (marks tokens.now))) }
    ensures within { IfOk result (λ x. x.1 ≤ length tokens.now) }
    ensures after { IfOk result (λ x. at < x.1) }
{
    if levels == 0 {
        return Err(Halt::OutOfMemory);
    }
    let place = place_at(tokens, at);
    let (left, behind) = read_operand(alloc, tokens, at, levels - 1)?;
    let Some(((sign, kind), next)) = operator_at(alloc, tokens, behind)? else {
        let choice = Type1 {
            at: place,
            left,
            op: None,
        };
        return Ok((choice, behind));
    };
    let (right, end) = read_operand(alloc, tokens, next, levels - 1)?;
    let op = Operation {
        at: sign,
        kind,
        right,
    };
    let choice = Type1 {
        at: place,
        left,
        op: Some(op),
    };
    Ok((choice, end))
}

/// An operand.
#[cycle(reading)]
fn read_operand(
    alloc: Global,
    tokens: &[Token],
    at: usize,
    levels: u32,
) -> Result<(Type2, usize), Halt>
    requires { at ≤ length tokens.now }
    ensures gives { Gives (marks tokens.now) result (operand_at (choice_at levels) (drop at (marks tokens.now))) }
    ensures within { IfOk result (λ x. x.1 ≤ length tokens.now) }
    ensures after { IfOk result (λ x. at < x.1) }
{
    let place = place_at(tokens, at);
    let (opening, behind) = opening_at(alloc, tokens, at)?;
    match opening {
        Opening::Whole(form) => Ok((Type2 { at: place, form }, behind)),
        Opening::Args { kind, name } => {
            let (args, end) = read_args(alloc, tokens, behind, levels)?;
            let form = named_form(kind, name, args);
            Ok((Type2 { at: place, form }, end))
        }
        Opening::Tag(number) => {
            let (body, behind) = read_type(alloc, tokens, behind, levels)?;
            let end = expect_sign(tokens, behind, Sign::CloseParen)?;
            let form = Form::Tagged { number, body };
            Ok((Type2 { at: place, form }, end))
        }
        Opening::Group(kind) => {
            let (group, end) = read_group(alloc, tokens, behind, levels, close_of(kind))?;
            let form = group_form(kind, group);
            Ok((Type2 { at: place, form }, end))
        }
    }
}

/// Generic arguments behind their `<`, and the `>`.
#[cycle(reading)]
fn read_args(
    alloc: Global,
    tokens: &[Token],
    at: usize,
    levels: u32,
) -> Result<(Type1List, usize), Halt>
    requires { at ≤ length tokens.now }
    ensures gives { Gives (marks tokens.now) result (arguments (choice_at levels) (drop at (marks tokens.now))) }
    ensures within { IfOk result (λ x. x.1 ≤ length tokens.now) }
    ensures after { IfOk result (λ x. at < x.1) }
{
    let (first, behind) = read_choice(alloc, tokens, at, levels)?;
    let (args, behind) = read_more(alloc, tokens, behind, levels, Sign::Comma, first)?;
    let end = expect_sign(tokens, behind, Sign::Greater)?;
    Ok((args, end))
}

/// The choices of a type behind the first, with that sign before each.
#[cycle(reading)]
fn read_more(
    alloc: Global,
    tokens: &[Token],
    at: usize,
    levels: u32,
    sign: Sign,
    first: Type1,
) -> Result<(Type1List, usize), Halt>
    requires { at ≤ length tokens.now }
    ensures gives { Gives (marks tokens.now) result (more_listed sign (choice_at levels) first (drop at (marks tokens.now))) }
    ensures within { IfOk result (λ x. x.1 ≤ length tokens.now) }
    ensures after { IfOk result (λ x. at ≤ x.1) }
{
    let mut choices = List::new(alloc);
    choices.push(first)?;
    let mut here = at;
    while let Some(next) = sign_at(tokens, here, sign) {
        let (choice, end) = read_choice(alloc, tokens, next, levels)?;
        choices.push(choice)?;
        here = end;
    }
    Ok((choices, here))
}

/// A type: one choice or more.
#[cycle(reading)]
#[tactic(auto, unfolding(ecd_syntax::specs::Reading::type_at))]
pub fn read_type(
    alloc: Global,
    tokens: &[Token],
    at: usize,
    levels: u32,
) -> Result<(Alts, usize), Halt>
    requires { at ≤ length tokens.now }
    ensures gives { Gives (marks tokens.now) result (type_at (choice_at levels) (drop at (marks tokens.now))) }
    ensures within { IfOk result (λ x. x.1 ≤ length tokens.now) }
    ensures after { IfOk result (λ x. at < x.1) }
{
    let place = place_at(tokens, at);
    let (first, behind) = read_choice(alloc, tokens, at, levels)?;
    let (choices, end) = read_more(alloc, tokens, behind, levels, Sign::Slash, first)?;
    Ok((Alts { at: place, choices }, end))
}

/// The key and the type of an entry.
#[cycle(reading)]
fn read_body(
    alloc: Global,
    tokens: &[Token],
    at: usize,
    levels: u32,
) -> Result<((Key, Alts), usize), Halt>
    requires { at ≤ length tokens.now }
    ensures gives { Gives (marks tokens.now) result (body_at (choice_at levels) (drop at (marks tokens.now))) }
    ensures within { IfOk result (λ x. x.1 ≤ length tokens.now) }
    ensures after { IfOk result (λ x. at < x.1) }
{
    if let Some((key, behind)) = key_at(alloc, tokens, at)? {
        let (body, end) = read_type(alloc, tokens, behind, levels)?;
        return Ok(((key, body), end));
    }
    let place = place_at(tokens, at);
    let (first, behind) = read_choice(alloc, tokens, at, levels)?;
    if let Some((cut, next)) = arrow_at(tokens, behind)? {
        let (body, end) = read_type(alloc, tokens, next, levels)?;
        return Ok(((Key::Arrow { of: first, cut }, body), end));
    }
    let (choices, end) = read_more(alloc, tokens, behind, levels, Sign::Slash, first)?;
    Ok(((Key::Missing, Alts { at: place, choices }), end))
}

/// An entry of a group.
#[cycle(reading)]
#[tactic(auto, unfolding(ecd_syntax::specs::Reading::entry_at))]
pub fn read_entry(
    alloc: Global,
    tokens: &[Token],
    at: usize,
    levels: u32,
) -> Result<(Entry, usize), Halt>
    requires { at ≤ length tokens.now }
    ensures gives { Gives (marks tokens.now) result (entry_at (choice_at levels) (drop at (marks tokens.now))) }
    ensures within { IfOk result (λ x. x.1 ≤ length tokens.now) }
    ensures after { IfOk result (λ x. at < x.1) }
{
    let place = place_at(tokens, at);
    let (occur, behind) = occurrence_at(tokens, at);
    let ((key, body), end) = read_body(alloc, tokens, behind, levels)?;
    let entry = Entry {
        at: place,
        occur,
        key,
        body,
    };
    Ok((entry, end))
}

/// The entries of a way, up to `//` or the closing sign.
#[cycle(reading)]
fn read_entries(
    alloc: Global,
    tokens: &[Token],
    at: usize,
    levels: u32,
    close: Sign,
) -> Result<(EntryList, usize), Halt>
    requires { at ≤ length tokens.now }
    ensures gives { Gives (marks tokens.now) result (each (goes_on close) (entry_in_way (choice_at levels)) (drop at (marks tokens.now))) }
    ensures within { IfOk result (λ x. x.1 ≤ length tokens.now) }
    ensures after { IfOk result (λ x. at ≤ x.1) }
{
    let mut entries = List::new(alloc);
    let mut here = at;
    while is_in_way(tokens, here, close) {
        let (entry, behind) = read_entry(alloc, tokens, here, levels)?;
        entries.push(entry)?;
        here = behind_comma(tokens, behind);
    }
    Ok((entries, here))
}

/// A group and the sign that closes it.
#[cycle(reading)]
fn read_group(
    alloc: Global,
    tokens: &[Token],
    at: usize,
    levels: u32,
    close: Sign,
) -> Result<(GroupTree, usize), Halt>
    requires { at ≤ length tokens.now }
    ensures gives { Gives (marks tokens.now) result (group_at (choice_at levels) close (drop at (marks tokens.now))) }
    ensures within { IfOk result (λ x. x.1 ≤ length tokens.now) }
    ensures after { IfOk result (λ x. at < x.1) }
{
    let mut ways = List::new(alloc);
    let place = place_at(tokens, at);
    let (entries, behind) = read_entries(alloc, tokens, at, levels, close)?;
    ways.push(WayTree { at: place, entries })?;
    let mut here = behind;
    while let Some(next) = sign_at(tokens, here, Sign::DoubleSlash) {
        let start = place_at(tokens, next);
        let (entries, behind) = read_entries(alloc, tokens, next, levels, close)?;
        ways.push(WayTree { at: start, entries })?;
        here = behind;
    }
    let end = expect_sign(tokens, here, close)?;
    Ok((GroupTree { at: place, ways }, end))
}
