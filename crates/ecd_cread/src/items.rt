//! Reading structs, functions and whole programs, each from the lexeme of a number on.

ghost use Rattle.std.specs.Prelude.{◌≡◌, ◌<◌, ◌≤◌, suc, length, drop, IfOk};
ghost use Rattle.ecd_cgrammar.specs.Reading.{stmt_at, param_at as param_meant, cell_at as cell_meant, struct_at as struct_meant, function_at as function_meant, item_at as item_meant, depth_at as depth_meant, program_at, listed, deep, many, is_more, separated, cells_at, named, taken, param};
ghost use Rattle.ecd_clex.specs.Tokens.{lexemes};
ghost use Rattle.ecd_cread.specs.Reads.{Gives, GivesAll};

use crate::cursor::{Halt, expect, expect_depth, expect_name, is_here, lexeme_here};
use crate::statements::read_block;
use ecd_cast::tree::{
    CItem, CItemList, CellInfo, CellInfoList, CellKind, Function, Param, ParamKind, ParamList,
    Program, StructDecl,
};
use ecd_clex::Token;
use ecd_list::List;
use std::alloc::Global;

/// A parameter.
#[tactic(auto, unfolding(ecd_cgrammar::specs::Reading::param_at, ecd_cgrammar::specs::Reading::when, ecd_cgrammar::specs::Reading::expect, ecd_cgrammar::specs::Reading::named))]
fn read_param(
    alloc: Global,
    text: &[u8],
    tokens: &[Token],
    at: usize,
) -> Result<(Param, usize), Halt>
    requires { at ≤ length tokens.now }
    ensures gives { Gives (lexemes text.now tokens.now) result (param_meant (drop at (lexemes text.now tokens.now))) }
    ensures within { IfOk result (λ x. x.1 ≤ length tokens.now) }
    ensures after { IfOk result (λ x. at < x.1) }
{
    if let Some(behind) = lexeme_here(text, tokens, at, b"uint64_t") {
        return read_param_name(alloc, text, tokens, behind, ParamKind::Number);
    }
    if let Some(behind) = lexeme_here(text, tokens, at, b"const") {
        let behind = expect(text, tokens, behind, b"uint8_t")?;
        let behind = expect(text, tokens, behind, b"*")?;
        return read_param_name(alloc, text, tokens, behind, ParamKind::ReadPointer);
    }
    if let Some(behind) = lexeme_here(text, tokens, at, b"uint8_t") {
        let behind = expect(text, tokens, behind, b"*")?;
        return read_param_name(alloc, text, tokens, behind, ParamKind::WritePointer);
    }
    let behind = expect(text, tokens, at, b"struct")?;
    let (of, behind) = expect_name(alloc, text, tokens, behind)?;
    let behind = expect(text, tokens, behind, b"*")?;
    read_param_name(alloc, text, tokens, behind, ParamKind::Struct(of))
}

/// A parameter of this kind, behind its type.
#[tactic(auto, unfolding(ecd_cgrammar::specs::Reading::named))]
fn read_param_name(
    alloc: Global,
    text: &[u8],
    tokens: &[Token],
    at: usize,
    kind: ParamKind,
) -> Result<(Param, usize), Halt>
    requires { at ≤ length tokens.now }
    ensures gives { Gives (lexemes text.now tokens.now) result (named (λ x. taken (param x kind)) (drop at (lexemes text.now tokens.now))) }
    ensures within { IfOk result (λ x. x.1 ≤ length tokens.now) }
    ensures after { IfOk result (λ x. at < x.1) }
{
    let (name, end) = expect_name(alloc, text, tokens, at)?;
    Ok((Param { name, kind }, end))
}

/// A cell.
#[tactic(auto, unfolding(ecd_cgrammar::specs::Reading::cell_at, ecd_cgrammar::specs::Reading::when, ecd_cgrammar::specs::Reading::expect, ecd_cgrammar::specs::Reading::named))]
fn read_cell(
    alloc: Global,
    text: &[u8],
    tokens: &[Token],
    at: usize,
) -> Result<(CellInfo, usize), Halt>
    requires { at ≤ length tokens.now }
    ensures gives { Gives (lexemes text.now tokens.now) result (cell_meant (drop at (lexemes text.now tokens.now))) }
    ensures within { IfOk result (λ x. x.1 ≤ length tokens.now) }
    ensures after { IfOk result (λ x. at < x.1) }
{
    let (kind, behind) = match lexeme_here(text, tokens, at, b"uint64_t") {
        Some(behind) => (CellKind::Number, behind),
        None => {
            let behind = expect(text, tokens, at, b"const")?;
            let behind = expect(text, tokens, behind, b"uint8_t")?;
            (CellKind::Pointer, expect(text, tokens, behind, b"*")?)
        }
    };
    let (name, behind) = expect_name(alloc, text, tokens, behind)?;
    let end = expect(text, tokens, behind, b";")?;
    Ok((CellInfo { name, kind }, end))
}

/// A function, behind `uint64_t`.
#[tactic(auto, unfolding(ecd_cgrammar::specs::Reading::function_at, ecd_cgrammar::specs::Reading::named, ecd_cgrammar::specs::Reading::expect, ecd_cgrammar::specs::Reading::after))]
fn read_function(
    alloc: Global,
    text: &[u8],
    tokens: &[Token],
    at: usize,
    levels: u32,
) -> Result<(CItem, usize), Halt>
    requires { at ≤ length tokens.now }
    ensures gives { Gives (lexemes text.now tokens.now) result (function_meant (suc (length tokens.now)) (stmt_at (suc (length tokens.now)) levels) (drop at (lexemes text.now tokens.now))) }
    ensures within { IfOk result (λ x. x.1 ≤ length tokens.now) }
    ensures after { IfOk result (λ x. at < x.1) }
{
    let (name, behind) = expect_name(alloc, text, tokens, at)?;
    let behind = expect(text, tokens, behind, b"(")?;
    let (params, behind) = read_params(alloc, text, tokens, behind)?;
    let (body, end) = read_block(alloc, text, tokens, behind, levels)?;
    let function = Function { name, params, body };
    Ok((CItem::Function(function), end))
}

/// A struct or a function.
#[tactic(auto, unfolding(ecd_cgrammar::specs::Reading::item_at, ecd_cgrammar::specs::Reading::when, ecd_cgrammar::specs::Reading::expect))]
fn read_item(
    alloc: Global,
    text: &[u8],
    tokens: &[Token],
    at: usize,
    levels: u32,
) -> Result<(CItem, usize), Halt>
    requires { at ≤ length tokens.now }
    ensures gives { Gives (lexemes text.now tokens.now) result (item_meant (suc (length tokens.now)) (stmt_at (suc (length tokens.now)) levels) (drop at (lexemes text.now tokens.now))) }
    ensures within { IfOk result (λ x. x.1 ≤ length tokens.now) }
    ensures after { IfOk result (λ x. at < x.1) }
{
    if let Some(behind) = lexeme_here(text, tokens, at, b"struct") {
        return read_struct(alloc, text, tokens, behind);
    }
    let behind = expect(text, tokens, at, b"uint64_t")?;
    read_function(alloc, text, tokens, behind, levels)
}

/// The call depth in front of a program.
#[tactic(auto, unfolding(ecd_cgrammar::specs::Reading::depth_at, ecd_cgrammar::specs::Reading::expect, ecd_cgrammar::specs::Reading::after))]
fn read_depth(text: &[u8], tokens: &[Token], at: usize) -> Result<(u32, usize), Halt>
    ensures gives { Gives (lexemes text.now tokens.now) result (depth_meant (drop at (lexemes text.now tokens.now))) }
    ensures within { IfOk result (λ x. x.1 ≤ length tokens.now) }
{
    let behind = expect(text, tokens, at, b"enum")?;
    let behind = expect(text, tokens, behind, b"{")?;
    let behind = expect(text, tokens, behind, b"call_depth")?;
    let behind = expect(text, tokens, behind, b"=")?;
    let (depth, behind) = expect_depth(text, tokens, behind)?;
    let behind = expect(text, tokens, behind, b"}")?;
    let end = expect(text, tokens, behind, b";")?;
    Ok((depth, end))
}

/// Parameters, up to `)`.
#[tactic(auto, unfolding(ecd_cgrammar::specs::Reading::listed, ecd_cgrammar::specs::Reading::after, ecd_cgrammar::specs::Reading::expect))]
fn read_params(
    alloc: Global,
    text: &[u8],
    tokens: &[Token],
    at: usize,
) -> Result<(ParamList, usize), Halt>
    requires { at ≤ length tokens.now }
    ensures gives { Gives (lexemes text.now tokens.now) result (listed param_meant (suc (length tokens.now)) (drop at (lexemes text.now tokens.now))) }
    ensures within { IfOk result (λ x. x.1 ≤ length tokens.now) }
    ensures after { IfOk result (λ x. at < x.1) }
{
    let (params, behind) = read_separated(alloc, text, tokens, at)?;
    let end = expect(text, tokens, behind, b")")?;
    Ok((params, end))
}

/// Parameters with commas between them.
fn read_separated(
    alloc: Global,
    text: &[u8],
    tokens: &[Token],
    at: usize,
) -> Result<(ParamList, usize), Halt>
    requires { at ≤ length tokens.now }
    ensures gives { Gives (lexemes text.now tokens.now) result (separated param_meant (suc (length tokens.now)) (drop at (lexemes text.now tokens.now))) }
    ensures within { IfOk result (λ x. x.1 ≤ length tokens.now) }
    ensures after { IfOk result (λ x. at < x.1) }
{
    let mut params = List::new(alloc);
    let (first, behind) = read_param(alloc, text, tokens, at)?;
    params.push(first)?;
    let mut here = behind;
    while let Some(next) = lexeme_here(text, tokens, here, b",") {
        let (param, behind) = read_param(alloc, text, tokens, next)?;
        params.push(param)?;
        here = behind;
    }
    Ok((params, here))
}

/// The cells of a struct, up to a `}`.
fn read_cells(
    alloc: Global,
    text: &[u8],
    tokens: &[Token],
    at: usize,
) -> Result<(CellInfoList, usize), Halt>
    requires { at ≤ length tokens.now }
    ensures gives { Gives (lexemes text.now tokens.now) result (cells_at (suc (length tokens.now)) (drop at (lexemes text.now tokens.now))) }
    ensures within { IfOk result (λ x. x.1 ≤ length tokens.now) }
    ensures after { IfOk result (λ x. at < x.1) }
{
    let mut cells = List::new(alloc);
    let (first, behind) = read_cell(alloc, text, tokens, at)?;
    cells.push(first)?;
    let mut here = behind;
    while !is_here(text, tokens, here, b"}") {
        let (cell, behind) = read_cell(alloc, text, tokens, here)?;
        cells.push(cell)?;
        here = behind;
    }
    Ok((cells, here))
}

/// A struct, behind `struct`.
#[tactic(auto, unfolding(ecd_cgrammar::specs::Reading::struct_at, ecd_cgrammar::specs::Reading::named, ecd_cgrammar::specs::Reading::expect, ecd_cgrammar::specs::Reading::after))]
fn read_struct(
    alloc: Global,
    text: &[u8],
    tokens: &[Token],
    at: usize,
) -> Result<(CItem, usize), Halt>
    requires { at ≤ length tokens.now }
    ensures gives { Gives (lexemes text.now tokens.now) result (struct_meant (suc (length tokens.now)) (drop at (lexemes text.now tokens.now))) }
    ensures within { IfOk result (λ x. x.1 ≤ length tokens.now) }
    ensures after { IfOk result (λ x. at < x.1) }
{
    let (name, behind) = expect_name(alloc, text, tokens, at)?;
    let behind = expect(text, tokens, behind, b"{")?;
    let (cells, behind) = read_cells(alloc, text, tokens, behind)?;
    let behind = expect(text, tokens, behind, b"}")?;
    let end = expect(text, tokens, behind, b";")?;
    Ok((CItem::Struct(StructDecl { name, cells }), end))
}

/// The items from a number on, up to the end of the tokens.
fn read_items(
    alloc: Global,
    text: &[u8],
    tokens: &[Token],
    at: usize,
    levels: u32,
) -> Result<CItemList, Halt>
    requires { at ≤ length tokens.now }
    ensures { GivesAll (lexemes text.now tokens.now) result (many is_more (item_meant (suc (length tokens.now)) (stmt_at (suc (length tokens.now)) levels)) deep (suc (length tokens.now)) (drop at (lexemes text.now tokens.now))) }
{
    let mut items = List::new(alloc);
    let mut here = at;
    while here < tokens.len() {
        let (item, behind) = read_item(alloc, text, tokens, here, levels)?;
        items.push(item)?;
        here = behind;
    }
    Ok(items)
}

/// A program, up to the end of the tokens.
#[tactic(auto, unfolding(ecd_cgrammar::specs::Reading::program_at, ecd_cgrammar::specs::Reading::after))]
pub fn read_tokens(
    alloc: Global,
    text: &[u8],
    tokens: &[Token],
    levels: u32,
) -> Result<Program, Halt>
    ensures { GivesAll (lexemes text.now tokens.now) result (program_at (suc (length tokens.now)) levels (lexemes text.now tokens.now)) }
{
    let (depth, behind) = read_depth(text, tokens, 0)?;
    let items = read_items(alloc, text, tokens, behind, levels)?;
    Ok(Program { depth, items })
}
