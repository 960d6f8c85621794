//! Reading statements, each from the lexeme of a number on.

ghost use Rattle.std.specs.Prelude.{◌≡◌, ◌<◌, ◌≤◌, suc, length, drop, codes, IfOk};
ghost use Rattle.ecd_cgrammar.specs.Reading.{expr_at, stmt_at, block_at as block_meant, if_at as if_meant, bound_at as bound_meant, turn_at as turn_meant, for_at as for_meant, keyword_at, nested_at, deep, many, is_before};
ghost use Rattle.ecd_clex.specs.Tokens.{lexemes};
ghost use Rattle.ecd_cread.specs.Reads.{Gives, Passes};

use crate::cursor::{Halt, expect, expect_name, is_here, lexeme_here, name_here};
use crate::expressions::read_expr;
use crate::simple::{read_behind_target, read_number, read_pointer, read_return};
use ecd_cast::tree::{Name, Stmt, StmtList};
use ecd_clex::Token;
use ecd_list::List;
use std::alloc::Global;

/// A statement.
#[cycle(statements)]
#[tactic(auto, unfolding(ecd_cgrammar::specs::Reading::stmt_at, ecd_cgrammar::specs::Reading::stmt_layer, ecd_cgrammar::specs::Reading::on))]
pub fn read_stmt(
    alloc: Global,
    text: &[u8],
    tokens: &[Token],
    at: usize,
    levels: u32,
) -> Result<(Stmt, usize), Halt>
    requires { at ≤ length tokens.now }
    ensures gives { Gives (lexemes text.now tokens.now) result (stmt_at (suc (length tokens.now)) levels (drop at (lexemes text.now tokens.now))) }
    ensures within { IfOk result (λ x. x.1 ≤ length tokens.now) }
    ensures after { IfOk result (λ x. at < x.1) }
{
    if levels == 0 {
        return Err(Halt::OutOfMemory);
    }
    let inner = levels - 1;
    if let Some((name, behind)) = name_here(alloc, text, tokens, at)? {
        return read_behind_target(alloc, text, tokens, behind, inner, name);
    }
    read_keyword(alloc, text, tokens, at, inner)
}

/// A statement that begins with a keyword.
#[cycle(statements)]
#[tactic(auto, unfolding(ecd_cgrammar::specs::Reading::when, ecd_cgrammar::specs::Reading::expect))]
fn read_keyword(
    alloc: Global,
    text: &[u8],
    tokens: &[Token],
    at: usize,
    levels: u32,
) -> Result<(Stmt, usize), Halt>
    requires { at ≤ length tokens.now }
    ensures gives { Gives (lexemes text.now tokens.now) result (keyword_at (suc (length tokens.now)) (expr_at levels) (stmt_at (suc (length tokens.now)) levels) (drop at (lexemes text.now tokens.now))) }
    ensures within { IfOk result (λ x. x.1 ≤ length tokens.now) }
    ensures after { IfOk result (λ x. at < x.1) }
{
    if let Some(behind) = lexeme_here(text, tokens, at, b"uint64_t") {
        return read_number(alloc, text, tokens, behind, levels);
    }
    if let Some(behind) = lexeme_here(text, tokens, at, b"const") {
        return read_pointer(alloc, text, tokens, behind, levels);
    }
    read_nested(alloc, text, tokens, at, levels)
}

/// A choice, a loop or a return.
#[cycle(statements)]
#[tactic(auto, unfolding(ecd_cgrammar::specs::Reading::when, ecd_cgrammar::specs::Reading::expect))]
fn read_nested(
    alloc: Global,
    text: &[u8],
    tokens: &[Token],
    at: usize,
    levels: u32,
) -> Result<(Stmt, usize), Halt>
    requires { at ≤ length tokens.now }
    ensures gives { Gives (lexemes text.now tokens.now) result (nested_at (suc (length tokens.now)) (expr_at levels) (stmt_at (suc (length tokens.now)) levels) (drop at (lexemes text.now tokens.now))) }
    ensures within { IfOk result (λ x. x.1 ≤ length tokens.now) }
    ensures after { IfOk result (λ x. at < x.1) }
{
    if let Some(behind) = lexeme_here(text, tokens, at, b"if") {
        return read_if(alloc, text, tokens, behind, levels);
    }
    if let Some(behind) = lexeme_here(text, tokens, at, b"for") {
        return read_for(alloc, text, tokens, behind, levels);
    }
    let behind = expect(text, tokens, at, b"return")?;
    read_return(alloc, text, tokens, behind, levels)
}

/// A choice, behind `if`.
#[cycle(statements)]
#[tactic(auto, unfolding(ecd_cgrammar::specs::Reading::if_at, ecd_cgrammar::specs::Reading::expect, ecd_cgrammar::specs::Reading::after))]
fn read_if(
    alloc: Global,
    text: &[u8],
    tokens: &[Token],
    at: usize,
    levels: u32,
) -> Result<(Stmt, usize), Halt>
    requires { at ≤ length tokens.now }
    ensures gives { Gives (lexemes text.now tokens.now) result (if_meant (suc (length tokens.now)) (expr_at levels) (stmt_at (suc (length tokens.now)) levels) (drop at (lexemes text.now tokens.now))) }
    ensures within { IfOk result (λ x. x.1 ≤ length tokens.now) }
    ensures after { IfOk result (λ x. at < x.1) }
{
    let (test, behind) = read_expr(alloc, text, tokens, at, levels)?;
    let (yes, behind) = read_block(alloc, text, tokens, behind, levels)?;
    let behind = expect(text, tokens, behind, b"else")?;
    let (no, end) = read_block(alloc, text, tokens, behind, levels)?;
    Ok((Stmt::If { test, yes, no }, end))
}

/// The bound of a loop and what stands before it, behind the name of its variable.
#[tactic(auto, unfolding(ecd_cgrammar::specs::Reading::bound_at, ecd_cgrammar::specs::Reading::named, ecd_cgrammar::specs::Reading::expect))]
fn read_bound(
    alloc: Global,
    text: &[u8],
    tokens: &[Token],
    at: usize,
    variable: &[u8],
) -> Result<(Name, usize), Halt>
    requires { at ≤ length tokens.now }
    ensures gives { Gives (lexemes text.now tokens.now) result (bound_meant variable.now (drop at (lexemes text.now tokens.now))) }
    ensures within { IfOk result (λ x. x.1 ≤ length tokens.now) }
    ensures after { IfOk result (λ x. at < x.1) }
{
    let behind = expect(text, tokens, at, b"=")?;
    let behind = expect(text, tokens, behind, b"0ull")?;
    let behind = expect(text, tokens, behind, b";")?;
    let behind = expect(text, tokens, behind, variable)?;
    let behind = expect(text, tokens, behind, b"<")?;
    let (bound, end) = expect_name(alloc, text, tokens, behind)?;
    Ok((bound, end))
}

/// The end of a loop's head, behind its bound.
#[tactic(auto, unfolding(ecd_cgrammar::specs::Reading::turn_at, ecd_cgrammar::specs::Reading::expect))]
fn read_turn(text: &[u8], tokens: &[Token], at: usize, name: &[u8]) -> Result<usize, Halt>
    requires { at ≤ length tokens.now }
    ensures gives { Passes (lexemes text.now tokens.now) result (turn_meant name.now (drop at (lexemes text.now tokens.now))) }
    ensures within { IfOk result (λ end. (end ≤ length tokens.now) × (at < end)) }
{
    let behind = expect(text, tokens, at, b";")?;
    let behind = expect(text, tokens, behind, name)?;
    let behind = expect(text, tokens, behind, b"+=")?;
    let behind = expect(text, tokens, behind, b"1ull")?;
    let end = expect(text, tokens, behind, b")")?;
    Ok(end)
}

/// A loop, behind `for`.
#[cycle(statements)]
#[tactic(auto, unfolding(ecd_cgrammar::specs::Reading::for_at, ecd_cgrammar::specs::Reading::named, ecd_cgrammar::specs::Reading::expect, ecd_cgrammar::specs::Reading::after))]
fn read_for(
    alloc: Global,
    text: &[u8],
    tokens: &[Token],
    at: usize,
    levels: u32,
) -> Result<(Stmt, usize), Halt>
    requires { at ≤ length tokens.now }
    ensures gives { Gives (lexemes text.now tokens.now) result (for_meant (suc (length tokens.now)) (stmt_at (suc (length tokens.now)) levels) (drop at (lexemes text.now tokens.now))) }
    ensures within { IfOk result (λ x. x.1 ≤ length tokens.now) }
    ensures after { IfOk result (λ x. at < x.1) }
{
    let behind = expect(text, tokens, at, b"(")?;
    let behind = expect(text, tokens, behind, b"uint64_t")?;
    let (name, behind) = expect_name(alloc, text, tokens, behind)?;
    let (bound, behind) = read_bound(alloc, text, tokens, behind, name.as_slice())?;
    let behind = read_turn(text, tokens, behind, name.as_slice())?;
    let (body, end) = read_block(alloc, text, tokens, behind, levels)?;
    Ok((Stmt::For { name, bound, body }, end))
}

/// A block.
#[cycle(statements)]
#[tactic(auto, unfolding(ecd_cgrammar::specs::Reading::block_at, ecd_cgrammar::specs::Reading::up_to, ecd_cgrammar::specs::Reading::expect, ecd_cgrammar::specs::Reading::after))]
pub fn read_block(
    alloc: Global,
    text: &[u8],
    tokens: &[Token],
    at: usize,
    levels: u32,
) -> Result<(StmtList, usize), Halt>
    requires { at ≤ length tokens.now }
    ensures gives { Gives (lexemes text.now tokens.now) result (block_meant (suc (length tokens.now)) (stmt_at (suc (length tokens.now)) levels) (drop at (lexemes text.now tokens.now))) }
    ensures within { IfOk result (λ x. x.1 ≤ length tokens.now) }
    ensures after { IfOk result (λ x. at < x.1) }
{
    let behind = expect(text, tokens, at, b"{")?;
    let (statements, behind) = read_statements(alloc, text, tokens, behind, levels)?;
    let end = expect(text, tokens, behind, b"}")?;
    Ok((statements, end))
}

/// Statements, up to a `}`.
#[cycle(statements)]
fn read_statements(
    alloc: Global,
    text: &[u8],
    tokens: &[Token],
    at: usize,
    levels: u32,
) -> Result<(StmtList, usize), Halt>
    requires { at ≤ length tokens.now }
    ensures gives { Gives (lexemes text.now tokens.now) result (many (is_before (codes "}")) (stmt_at (suc (length tokens.now)) levels) deep (suc (length tokens.now)) (drop at (lexemes text.now tokens.now))) }
    ensures within { IfOk result (λ x. x.1 ≤ length tokens.now) }
    ensures after { IfOk result (λ x. at ≤ x.1) }
{
    let mut statements = List::new(alloc);
    let mut here = at;
    while !is_here(text, tokens, here, b"}") {
        let (statement, behind) = read_stmt(alloc, text, tokens, here, levels)?;
        statements.push(statement)?;
        here = behind;
    }
    Ok((statements, here))
}
