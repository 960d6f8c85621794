//! Reading expressions, each from the lexeme of a number on.
//!
//! An expression is read inside others and inside statements up to a number of levels, behind which there is want of
//! memory: the stack is memory.

ghost use Rattle.std.specs.Prelude.{◌≡◌, ◌<◌, ◌≤◌, suc, length, drop, IfOk};
ghost use Rattle.ecd_cgrammar.specs.Reading.{expr_at, behind_open as open_meant, load_at as load_meant, not_at as not_meant, binary_at as binary_meant, behind_name as behind_meant, listed, separated};
ghost use Rattle.ecd_clex.specs.Tokens.{lexemes};
ghost use Rattle.ecd_cread.specs.Reads.{Gives};

use crate::cursor::{
    Halt, expect, expect_name, expect_operator, lexeme_here, literal_here, name_here,
};
use ecd_cast::tree::{Expr, ExprList, Name};
use ecd_clex::Token;
use ecd_list::{Boxed, List};
use std::alloc::Global;

/// An expression.
#[cycle(expressions)]
#[tactic(auto, unfolding(ecd_cgrammar::specs::Reading::expr_at, ecd_cgrammar::specs::Reading::expr_layer, ecd_cgrammar::specs::Reading::on, ecd_cgrammar::specs::Reading::expect))]
pub fn read_expr(
    alloc: Global,
    text: &[u8],
    tokens: &[Token],
    at: usize,
    levels: u32,
) -> Result<(Expr, usize), Halt>
    requires { at ≤ length tokens.now }
    ensures gives { Gives (lexemes text.now tokens.now) result (expr_at levels (drop at (lexemes text.now tokens.now))) }
    ensures within { IfOk result (λ x. x.1 ≤ length tokens.now) }
    ensures after { IfOk result (λ x. at < x.1) }
{
    if levels == 0 {
        return Err(Halt::OutOfMemory);
    }
    if let Some((name, behind)) = name_here(alloc, text, tokens, at)? {
        return read_behind_name(alloc, text, tokens, behind, name);
    }
    if let Some((number, end)) = literal_here(text, tokens, at) {
        return Ok((Expr::Number(number), end));
    }
    let behind = expect(text, tokens, at, b"(")?;
    read_behind_open(alloc, text, tokens, behind, levels - 1)
}

/// The expression that begins with a name: a variable or a cell.
#[tactic(auto, unfolding(ecd_cgrammar::specs::Reading::behind_name, ecd_cgrammar::specs::Reading::when, ecd_cgrammar::specs::Reading::named))]
pub fn read_behind_name(
    alloc: Global,
    text: &[u8],
    tokens: &[Token],
    at: usize,
    name: Name,
) -> Result<(Expr, usize), Halt>
    requires { at ≤ length tokens.now }
    ensures gives { Gives (lexemes text.now tokens.now) result (behind_meant name (drop at (lexemes text.now tokens.now))) }
    ensures within { IfOk result (λ x. x.1 ≤ length tokens.now) }
    ensures after { IfOk result (λ x. at ≤ x.1) }
{
    let Some(behind) = lexeme_here(text, tokens, at, b"->") else {
        return Ok((Expr::Var(name), at));
    };
    let (cell, end) = expect_name(alloc, text, tokens, behind)?;
    Ok((Expr::Cell(name, cell), end))
}

/// What stands behind `(`.
#[cycle(expressions)]
#[tactic(auto, unfolding(ecd_cgrammar::specs::Reading::behind_open, ecd_cgrammar::specs::Reading::when))]
fn read_behind_open(
    alloc: Global,
    text: &[u8],
    tokens: &[Token],
    at: usize,
    levels: u32,
) -> Result<(Expr, usize), Halt>
    requires { at ≤ length tokens.now }
    ensures gives { Gives (lexemes text.now tokens.now) result (open_meant (expr_at levels) (drop at (lexemes text.now tokens.now))) }
    ensures within { IfOk result (λ x. x.1 ≤ length tokens.now) }
    ensures after { IfOk result (λ x. at < x.1) }
{
    if let Some(behind) = lexeme_here(text, tokens, at, b"uint64_t") {
        return read_load(alloc, text, tokens, behind, levels);
    }
    if let Some(behind) = lexeme_here(text, tokens, at, b"!") {
        return read_not(alloc, text, tokens, behind, levels);
    }
    read_binary(alloc, text, tokens, at, levels)
}

/// A load, behind `(uint64_t`.
#[cycle(expressions)]
#[tactic(auto, unfolding(ecd_cgrammar::specs::Reading::load_at, ecd_cgrammar::specs::Reading::expect, ecd_cgrammar::specs::Reading::named, ecd_cgrammar::specs::Reading::after))]
fn read_load(
    alloc: Global,
    text: &[u8],
    tokens: &[Token],
    at: usize,
    levels: u32,
) -> Result<(Expr, usize), Halt>
    requires { at ≤ length tokens.now }
    ensures gives { Gives (lexemes text.now tokens.now) result (load_meant (expr_at levels) (drop at (lexemes text.now tokens.now))) }
    ensures within { IfOk result (λ x. x.1 ≤ length tokens.now) }
    ensures after { IfOk result (λ x. at < x.1) }
{
    let behind = expect(text, tokens, at, b")")?;
    let (name, behind) = expect_name(alloc, text, tokens, behind)?;
    let behind = expect(text, tokens, behind, b"[")?;
    let (index, behind) = read_expr(alloc, text, tokens, behind, levels)?;
    let end = expect(text, tokens, behind, b"]")?;
    Ok((Expr::Load(name, Boxed::new(alloc, index)?), end))
}

/// A negation, behind `(!`.
#[cycle(expressions)]
#[tactic(auto, unfolding(ecd_cgrammar::specs::Reading::not_at, ecd_cgrammar::specs::Reading::expect, ecd_cgrammar::specs::Reading::after))]
fn read_not(
    alloc: Global,
    text: &[u8],
    tokens: &[Token],
    at: usize,
    levels: u32,
) -> Result<(Expr, usize), Halt>
    requires { at ≤ length tokens.now }
    ensures gives { Gives (lexemes text.now tokens.now) result (not_meant (expr_at levels) (drop at (lexemes text.now tokens.now))) }
    ensures within { IfOk result (λ x. x.1 ≤ length tokens.now) }
    ensures after { IfOk result (λ x. at < x.1) }
{
    let (operand, behind) = read_expr(alloc, text, tokens, at, levels)?;
    let end = expect(text, tokens, behind, b")")?;
    Ok((Expr::Not(Boxed::new(alloc, operand)?), end))
}

/// Two operands and the operator between them, behind `(`.
#[cycle(expressions)]
#[tactic(auto, unfolding(ecd_cgrammar::specs::Reading::binary_at, ecd_cgrammar::specs::Reading::expect, ecd_cgrammar::specs::Reading::after))]
fn read_binary(
    alloc: Global,
    text: &[u8],
    tokens: &[Token],
    at: usize,
    levels: u32,
) -> Result<(Expr, usize), Halt>
    requires { at ≤ length tokens.now }
    ensures gives { Gives (lexemes text.now tokens.now) result (binary_meant (expr_at levels) (drop at (lexemes text.now tokens.now))) }
    ensures within { IfOk result (λ x. x.1 ≤ length tokens.now) }
    ensures after { IfOk result (λ x. at < x.1) }
{
    let (left, behind) = read_expr(alloc, text, tokens, at, levels)?;
    let (op, behind) = expect_operator(text, tokens, behind)?;
    let (right, behind) = read_expr(alloc, text, tokens, behind, levels)?;
    let end = expect(text, tokens, behind, b")")?;
    let (left, right) = (Boxed::new(alloc, left)?, Boxed::new(alloc, right)?);
    Ok((Expr::Binary(op, left, right), end))
}

/// Arguments, up to `)`.
#[tactic(auto, unfolding(ecd_cgrammar::specs::Reading::listed, ecd_cgrammar::specs::Reading::after, ecd_cgrammar::specs::Reading::expect))]
pub fn read_args(
    alloc: Global,
    text: &[u8],
    tokens: &[Token],
    at: usize,
    levels: u32,
) -> Result<(ExprList, usize), Halt>
    requires { at ≤ length tokens.now }
    ensures gives { Gives (lexemes text.now tokens.now) result (listed (expr_at levels) (suc (length tokens.now)) (drop at (lexemes text.now tokens.now))) }
    ensures within { IfOk result (λ x. x.1 ≤ length tokens.now) }
    ensures after { IfOk result (λ x. at < x.1) }
{
    let (args, behind) = read_separated(alloc, text, tokens, at, levels)?;
    let end = expect(text, tokens, behind, b")")?;
    Ok((args, end))
}

/// Arguments with commas between them.
fn read_separated(
    alloc: Global,
    text: &[u8],
    tokens: &[Token],
    at: usize,
    levels: u32,
) -> Result<(ExprList, usize), Halt>
    requires { at ≤ length tokens.now }
    ensures gives { Gives (lexemes text.now tokens.now) result (separated (expr_at levels) (suc (length tokens.now)) (drop at (lexemes text.now tokens.now))) }
    ensures within { IfOk result (λ x. x.1 ≤ length tokens.now) }
    ensures after { IfOk result (λ x. at < x.1) }
{
    let mut args = List::new(alloc);
    let (first, behind) = read_expr(alloc, text, tokens, at, levels)?;
    args.push(first)?;
    let mut here = behind;
    while let Some(next) = lexeme_here(text, tokens, here, b",") {
        let (argument, behind) = read_expr(alloc, text, tokens, next, levels)?;
        args.push(argument)?;
        here = behind;
    }
    Ok((args, here))
}
