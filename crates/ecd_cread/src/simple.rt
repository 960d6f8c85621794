//! Reading statements without a block in them, and what numbers are taken from.

ghost use Rattle.std.specs.Prelude.{◌≡◌, ◌<◌, ◌≤◌, suc, length, drop, IfOk};
ghost use Rattle.ecd_cgrammar.specs.Reading.{expr_at, source_behind as behind_meant, source_at as source_meant, number_at as number_meant, pointer_at as pointer_meant, assign_at as assign_meant, store_at as store_meant, set_cell_at as set_cell_meant, behind_target as target_meant, return_at as return_meant};
ghost use Rattle.ecd_clex.specs.Tokens.{lexemes};
ghost use Rattle.ecd_cread.specs.Reads.{Gives};

use crate::cursor::{Halt, expect, expect_name, lexeme_here, name_here};
use crate::expressions::{read_args, read_behind_name, read_expr};
use ecd_cast::tree::{Name, Source, Stmt};
use ecd_clex::Token;
use std::alloc::Global;

/// What a number is taken from: an expression or a call.
#[tactic(auto, unfolding(ecd_cgrammar::specs::Reading::source_at, ecd_cgrammar::specs::Reading::on, ecd_cgrammar::specs::Reading::after))]
fn read_source(
    alloc: Global,
    text: &[u8],
    tokens: &[Token],
    at: usize,
    levels: u32,
) -> Result<(Source, usize), Halt>
    requires { at ≤ length tokens.now }
    ensures gives { Gives (lexemes text.now tokens.now) result (source_meant (suc (length tokens.now)) (expr_at levels) (drop at (lexemes text.now tokens.now))) }
    ensures within { IfOk result (λ x. x.1 ≤ length tokens.now) }
    ensures after { IfOk result (λ x. at < x.1) }
{
    if let Some((name, behind)) = name_here(alloc, text, tokens, at)? {
        return read_source_behind(alloc, text, tokens, behind, levels, name);
    }
    let (value, end) = read_expr(alloc, text, tokens, at, levels)?;
    Ok((Source::Value(value), end))
}

/// What stands behind a name: the arguments of a call, a cell, or nothing.
#[tactic(auto, unfolding(ecd_cgrammar::specs::Reading::source_behind, ecd_cgrammar::specs::Reading::when, ecd_cgrammar::specs::Reading::after))]
fn read_source_behind(
    alloc: Global,
    text: &[u8],
    tokens: &[Token],
    at: usize,
    levels: u32,
    name: Name,
) -> Result<(Source, usize), Halt>
    requires { at ≤ length tokens.now }
    ensures gives { Gives (lexemes text.now tokens.now) result (behind_meant (suc (length tokens.now)) (expr_at levels) name (drop at (lexemes text.now tokens.now))) }
    ensures within { IfOk result (λ x. x.1 ≤ length tokens.now) }
    ensures after { IfOk result (λ x. at ≤ x.1) }
{
    if let Some(behind) = lexeme_here(text, tokens, at, b"(") {
        let (args, end) = read_args(alloc, text, tokens, behind, levels)?;
        return Ok((Source::Call { name, args }, end));
    }
    let (value, end) = read_behind_name(alloc, text, tokens, at, name)?;
    Ok((Source::Value(value), end))
}

/// The declaration of a number, behind `uint64_t`.
#[tactic(auto, unfolding(ecd_cgrammar::specs::Reading::number_at, ecd_cgrammar::specs::Reading::named, ecd_cgrammar::specs::Reading::expect, ecd_cgrammar::specs::Reading::after))]
pub fn read_number(
    alloc: Global,
    text: &[u8],
    tokens: &[Token],
    at: usize,
    levels: u32,
) -> Result<(Stmt, usize), Halt>
    requires { at ≤ length tokens.now }
    ensures gives { Gives (lexemes text.now tokens.now) result (number_meant (suc (length tokens.now)) (expr_at levels) (drop at (lexemes text.now tokens.now))) }
    ensures within { IfOk result (λ x. x.1 ≤ length tokens.now) }
    ensures after { IfOk result (λ x. at < x.1) }
{
    let (name, behind) = expect_name(alloc, text, tokens, at)?;
    let behind = expect(text, tokens, behind, b"=")?;
    let (from, behind) = read_source(alloc, text, tokens, behind, levels)?;
    let end = expect(text, tokens, behind, b";")?;
    Ok((Stmt::Number { name, from }, end))
}

/// The declaration of a pointer, behind `const`.
#[tactic(auto, unfolding(ecd_cgrammar::specs::Reading::pointer_at, ecd_cgrammar::specs::Reading::named, ecd_cgrammar::specs::Reading::expect, ecd_cgrammar::specs::Reading::after))]
pub fn read_pointer(
    alloc: Global,
    text: &[u8],
    tokens: &[Token],
    at: usize,
    levels: u32,
) -> Result<(Stmt, usize), Halt>
    requires { at ≤ length tokens.now }
    ensures gives { Gives (lexemes text.now tokens.now) result (pointer_meant (expr_at levels) (drop at (lexemes text.now tokens.now))) }
    ensures within { IfOk result (λ x. x.1 ≤ length tokens.now) }
    ensures after { IfOk result (λ x. at < x.1) }
{
    let behind = expect(text, tokens, at, b"uint8_t")?;
    let behind = expect(text, tokens, behind, b"*")?;
    let (name, behind) = expect_name(alloc, text, tokens, behind)?;
    let behind = expect(text, tokens, behind, b"=")?;
    let (from, behind) = read_expr(alloc, text, tokens, behind, levels)?;
    let end = expect(text, tokens, behind, b";")?;
    Ok((Stmt::Pointer { name, from }, end))
}

/// What stands behind the name that a statement begins with.
#[tactic(auto, unfolding(ecd_cgrammar::specs::Reading::behind_target, ecd_cgrammar::specs::Reading::when, ecd_cgrammar::specs::Reading::expect))]
pub fn read_behind_target(
    alloc: Global,
    text: &[u8],
    tokens: &[Token],
    at: usize,
    levels: u32,
    name: Name,
) -> Result<(Stmt, usize), Halt>
    requires { at ≤ length tokens.now }
    ensures gives { Gives (lexemes text.now tokens.now) result (target_meant (suc (length tokens.now)) (expr_at levels) name (drop at (lexemes text.now tokens.now))) }
    ensures within { IfOk result (λ x. x.1 ≤ length tokens.now) }
    ensures after { IfOk result (λ x. at < x.1) }
{
    if let Some(behind) = lexeme_here(text, tokens, at, b"=") {
        return read_assign(alloc, text, tokens, behind, levels, name);
    }
    if let Some(behind) = lexeme_here(text, tokens, at, b"[") {
        return read_store(alloc, text, tokens, behind, levels, name);
    }
    let behind = expect(text, tokens, at, b"->")?;
    read_set_cell(alloc, text, tokens, behind, levels, name)
}

/// An assignment, behind `name =`.
#[tactic(auto, unfolding(ecd_cgrammar::specs::Reading::assign_at, ecd_cgrammar::specs::Reading::expect, ecd_cgrammar::specs::Reading::after))]
fn read_assign(
    alloc: Global,
    text: &[u8],
    tokens: &[Token],
    at: usize,
    levels: u32,
    name: Name,
) -> Result<(Stmt, usize), Halt>
    requires { at ≤ length tokens.now }
    ensures gives { Gives (lexemes text.now tokens.now) result (assign_meant (suc (length tokens.now)) (expr_at levels) name (drop at (lexemes text.now tokens.now))) }
    ensures within { IfOk result (λ x. x.1 ≤ length tokens.now) }
    ensures after { IfOk result (λ x. at < x.1) }
{
    let (from, behind) = read_source(alloc, text, tokens, at, levels)?;
    let end = expect(text, tokens, behind, b";")?;
    Ok((Stmt::Assign { name, from }, end))
}

/// A store, behind `name[`.
#[tactic(auto, unfolding(ecd_cgrammar::specs::Reading::store_at, ecd_cgrammar::specs::Reading::expect, ecd_cgrammar::specs::Reading::after))]
fn read_store(
    alloc: Global,
    text: &[u8],
    tokens: &[Token],
    at: usize,
    levels: u32,
    name: Name,
) -> Result<(Stmt, usize), Halt>
    requires { at ≤ length tokens.now }
    ensures gives { Gives (lexemes text.now tokens.now) result (store_meant (expr_at levels) name (drop at (lexemes text.now tokens.now))) }
    ensures within { IfOk result (λ x. x.1 ≤ length tokens.now) }
    ensures after { IfOk result (λ x. at < x.1) }
{
    let (index, behind) = read_expr(alloc, text, tokens, at, levels)?;
    let behind = expect(text, tokens, behind, b"]")?;
    let behind = expect(text, tokens, behind, b"=")?;
    let behind = expect(text, tokens, behind, b"(")?;
    let behind = expect(text, tokens, behind, b"uint8_t")?;
    let behind = expect(text, tokens, behind, b")")?;
    let (from, behind) = read_expr(alloc, text, tokens, behind, levels)?;
    let end = expect(text, tokens, behind, b";")?;
    Ok((Stmt::Store { name, index, from }, end))
}

/// The setting of a cell, behind `name->`.
#[tactic(auto, unfolding(ecd_cgrammar::specs::Reading::set_cell_at, ecd_cgrammar::specs::Reading::named, ecd_cgrammar::specs::Reading::expect, ecd_cgrammar::specs::Reading::after))]
fn read_set_cell(
    alloc: Global,
    text: &[u8],
    tokens: &[Token],
    at: usize,
    levels: u32,
    name: Name,
) -> Result<(Stmt, usize), Halt>
    requires { at ≤ length tokens.now }
    ensures gives { Gives (lexemes text.now tokens.now) result (set_cell_meant (expr_at levels) name (drop at (lexemes text.now tokens.now))) }
    ensures within { IfOk result (λ x. x.1 ≤ length tokens.now) }
    ensures after { IfOk result (λ x. at < x.1) }
{
    let (cell, behind) = expect_name(alloc, text, tokens, at)?;
    let behind = expect(text, tokens, behind, b"=")?;
    let (from, behind) = read_expr(alloc, text, tokens, behind, levels)?;
    let end = expect(text, tokens, behind, b";")?;
    Ok((Stmt::SetCell { name, cell, from }, end))
}

/// What stands behind `return`.
#[tactic(auto, unfolding(ecd_cgrammar::specs::Reading::return_at, ecd_cgrammar::specs::Reading::expect, ecd_cgrammar::specs::Reading::after))]
pub fn read_return(
    alloc: Global,
    text: &[u8],
    tokens: &[Token],
    at: usize,
    levels: u32,
) -> Result<(Stmt, usize), Halt>
    requires { at ≤ length tokens.now }
    ensures gives { Gives (lexemes text.now tokens.now) result (return_meant (expr_at levels) (drop at (lexemes text.now tokens.now))) }
    ensures within { IfOk result (λ x. x.1 ≤ length tokens.now) }
    ensures after { IfOk result (λ x. at < x.1) }
{
    let (from, behind) = read_expr(alloc, text, tokens, at, levels)?;
    let end = expect(text, tokens, behind, b";")?;
    Ok((Stmt::Return(from), end))
}
