//! The functions over the first byte of a head.

ghost use Rattle.std.specs.Prelude.{◌≡◌, IfOk};
ghost use Rattle.ecd_fixed_heads.specs.Heads as trees;

use ecd_cast::tree::{Expr, Function, Op, Stmt, StmtList};
use ecd_cbuild::build::{binary, give, one, var};
use ecd_emit::shorthands::{answer_where, function, let_number, number};
use ecd_list::OutOfMemory;
use std::alloc::Global;

/// `uint64_t info = (first & 31ull);`
pub(crate) fn let_info(alloc: Global) -> Result<Stmt, OutOfMemory>
    ensures { IfOk result (λ s. s ≡ trees.let_info) }
{
    let low = binary(alloc, Op::BitAnd, var(alloc, b"first")?, Expr::Number(31))?;
    let_number(alloc, b"info", low)
}

fn size_body(alloc: Global) -> Result<StmtList, OutOfMemory>
    ensures { IfOk result (λ b. b ≡ trees.size_body) }
{
    let mut body = one(alloc, let_info(alloc)?)?;
    body.push(answer_where(alloc, Op::Lt, b"info", 24, 1)?)?;
    body.push(answer_where(alloc, Op::Eq, b"info", 24, 2)?)?;
    body.push(answer_where(alloc, Op::Gt, b"first", 223, 0)?)?;
    body.push(answer_where(alloc, Op::Eq, b"info", 25, 3)?)?;
    body.push(answer_where(alloc, Op::Eq, b"info", 26, 5)?)?;
    body.push(answer_where(alloc, Op::Eq, b"info", 27, 9)?)?;
    body.push(give(0))?;
    Ok(body)
}

/// How many bytes a head has, by its first one.
#[tactic(auto, unfolding(crate::specs::Heads::head_size))]
pub(crate) fn head_size(alloc: Global) -> Result<Function, OutOfMemory>
    ensures { IfOk result (λ f. f ≡ trees.head_size) }
{
    let params = one(alloc, number(alloc, b"first")?)?;
    function(alloc, b"head_size", params, size_body(alloc)?)
}

fn least_body(alloc: Global) -> Result<StmtList, OutOfMemory>
    ensures { IfOk result (λ b. b ≡ trees.least_body) }
{
    let mut body = one(alloc, let_info(alloc)?)?;
    body.push(answer_where(alloc, Op::Lt, b"info", 24, 0)?)?;
    body.push(answer_where(alloc, Op::Eq, b"first", 0xf8, 32)?)?;
    body.push(answer_where(alloc, Op::Eq, b"info", 24, 24)?)?;
    body.push(answer_where(alloc, Op::Eq, b"info", 25, 0x100)?)?;
    body.push(answer_where(alloc, Op::Eq, b"info", 26, 0x1_0000)?)?;
    body.push(give(0x1_0000_0000))?;
    Ok(body)
}

/// The least argument that a head may carry, by its first byte.
#[tactic(auto, unfolding(crate::specs::Heads::head_least))]
pub(crate) fn head_least(alloc: Global) -> Result<Function, OutOfMemory>
    ensures { IfOk result (λ f. f ≡ trees.head_least) }
{
    let params = one(alloc, number(alloc, b"first")?)?;
    function(alloc, b"head_least", params, least_body(alloc)?)
}
