//! The functions that load big-endian numbers.

ghost use Rattle.std.specs.Prelude.{◌≡◌, IfOk};
ghost use Rattle.ecd_fixed_heads.specs.Heads as trees;

use ecd_cast::tree::{Expr, Function, Op, Stmt, StmtList};
use ecd_cbuild::build::{binary, load, one, var};
use ecd_emit::shorthands::{
    byte_here, function, later_args, let_call, place_args, place_params, plus,
};
use ecd_list::OutOfMemory;
use std::alloc::Global;

/// `((high << bits) + low)`
fn joined(alloc: Global, high: Expr, bits: u64, low: Expr) -> Result<Expr, OutOfMemory>
    ensures { IfOk result (λ e. e ≡ trees.joined high bits low) }
{
    let shifted = binary(alloc, Op::Shl, high, Expr::Number(bits))?;
    binary(alloc, Op::Add, shifted, low)
}

/// The body of a function that joins two halves, each of so many bytes, which the part loads.
fn halves(alloc: Global, part: &[u8], half: u64, bits: u64) -> Result<StmtList, OutOfMemory>
    ensures { IfOk result (λ s. s ≡ trees.halves part.now half bits) }
{
    let mut body = one(alloc, let_call(alloc, b"high", part, place_args(alloc)?)?)?;
    body.push(let_call(alloc, b"low", part, later_args(alloc, half)?)?)?;
    let whole = joined(alloc, var(alloc, b"high")?, bits, var(alloc, b"low")?)?;
    body.push(Stmt::Return(whole))?;
    Ok(body)
}

/// The number in the two bytes at a place.
#[tactic(auto, unfolding(crate::specs::Heads::load_be16))]
pub(crate) fn load_be16(alloc: Global) -> Result<Function, OutOfMemory>
    ensures { IfOk result (λ f. f ≡ trees.load_be16) }
{
    let next = load(alloc, b"buf", plus(alloc, b"at", 1)?)?;
    let whole = joined(alloc, byte_here(alloc)?, 8, next)?;
    let body = one(alloc, Stmt::Return(whole))?;
    function(alloc, b"load_be16", place_params(alloc)?, body)
}

/// The number in the four bytes at a place.
#[tactic(auto, unfolding(crate::specs::Heads::load_be32))]
pub(crate) fn load_be32(alloc: Global) -> Result<Function, OutOfMemory>
    ensures { IfOk result (λ f. f ≡ trees.load_be32) }
{
    let body = halves(alloc, b"load_be16", 2, 16)?;
    function(alloc, b"load_be32", place_params(alloc)?, body)
}

/// The number in the eight bytes at a place.
#[tactic(auto, unfolding(crate::specs::Heads::load_be64))]
pub(crate) fn load_be64(alloc: Global) -> Result<Function, OutOfMemory>
    ensures { IfOk result (λ f. f ≡ trees.load_be64) }
{
    let body = halves(alloc, b"load_be32", 4, 32)?;
    function(alloc, b"load_be64", place_params(alloc)?, body)
}
