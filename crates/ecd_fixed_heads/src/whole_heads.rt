//! The functions over whole heads: the argument, and the place behind.

ghost use Rattle.std.specs.Prelude.{◌≡◌, [], ◌∷◌, IfOk};
ghost use Rattle.ecd_cast.specs.declared.tree.Op.TheVariants.{Lt, Gt, Ge, Eq, Ne, Shr};
ghost use Rattle.ecd_cast.specs.declared.tree.Expr.TheVariants.{Number as ANumber, Var as AVar, Load as ALoad, Binary as ABinary};
ghost use Rattle.ecd_emit.specs.Shorthands as spec;
ghost use Rattle.ecd_emit.specs.Variables as v;
ghost use Rattle.ecd_fixed_heads.specs.Heads as trees;

use crate::firsts::let_info;
use ecd_cast::tree::{Expr, Function, Op, ParamList, Stmt, StmtList};
use ecd_cbuild::build::{load, name, one, var};
use ecd_emit::shorthands::{
    byte_here, function, give_variable, later_args, let_argument, let_call, let_number, major_here,
    none_where, none_without, number, of_two, place_params, plus, where_call, where_number,
    window_args, window_params,
};
use ecd_list::OutOfMemory;
use std::alloc::Global;

/// `if (info < 24ull) { return info; } else { }`
fn in_first(alloc: Global) -> Result<Stmt, OutOfMemory>
    ensures { IfOk result (λ s. s ≡ spec.guard Lt (AVar v.info) (ANumber 24) (AVar v.info)) }
{
    where_number(alloc, Op::Lt, b"info", 24, var(alloc, b"info")?)
}

/// `if (info == 24ull) { return (uint64_t)buf[(at + 1ull)]; } else { }`
fn in_next(alloc: Global) -> Result<Stmt, OutOfMemory>
    ensures { IfOk result (λ s. s ≡ spec.guard Eq (AVar v.info) (ANumber 24) (ALoad v.buf (spec.plus v.at 1))) }
{
    let next = load(alloc, b"buf", plus(alloc, b"at", 1)?)?;
    where_number(alloc, Op::Eq, b"info", 24, next)
}

/// `if (info == number) { uint64_t text = part(buf, (at + 1ull)); return text; } else { }`
fn where_wide(alloc: Global, number: u64, text: &[u8], part: &[u8]) -> Result<Stmt, OutOfMemory>
    ensures { IfOk result (λ s. s ≡ trees.where_wide number text.now part.now) }
{
    let args = later_args(alloc, 1)?;
    where_call(alloc, b"info", number, text, name(alloc, part)?, args)
}

/// The narrow forms: the argument stands in the first byte or the next one.
fn narrow_cases(alloc: Global) -> Result<StmtList, OutOfMemory>
    ensures { IfOk result (λ b. b ≡ trees.narrow_cases) }
{
    let mut cases = one(alloc, let_number(alloc, b"first", byte_here(alloc)?)?)?;
    cases.push(let_info(alloc)?)?;
    cases.push(in_first(alloc)?)?;
    cases.push(in_next(alloc)?)?;
    Ok(cases)
}

fn argument_body(alloc: Global) -> Result<StmtList, OutOfMemory>
    ensures { IfOk result (λ b. b ≡ trees.argument_body) }
{
    let mut body = narrow_cases(alloc)?;
    body.push(where_wide(alloc, 25, b"argument16", b"load_be16")?)?;
    body.push(where_wide(alloc, 26, b"argument32", b"load_be32")?)?;
    body.push(let_call(alloc, b"argument64", b"load_be64", later_args(alloc, 1)?)?)?;
    body.push(give_variable(alloc, b"argument64")?)?;
    Ok(body)
}

/// The argument of the head at a place.
#[tactic(auto, unfolding(crate::specs::Heads::head_argument))]
pub(crate) fn head_argument(alloc: Global) -> Result<Function, OutOfMemory>
    ensures { IfOk result (λ f. f ≡ trees.head_argument) }
{
    function(
        alloc,
        b"head_argument",
        place_params(alloc)?,
        argument_body(alloc)?,
    )
}

/// `(at + size)`
fn behind_head(alloc: Global) -> Result<Expr, OutOfMemory>
    ensures { IfOk result (λ e. e ≡ trees.behind_head) }
{
    of_two(alloc, Op::Add, b"at", b"size")
}

/// `uint64_t text = part(first);`
fn let_by_first(alloc: Global, text: &[u8], part: &[u8]) -> Result<Stmt, OutOfMemory>
    ensures { IfOk result (λ s. s ≡ spec.let_call text.now part.now (AVar v.first ∷ [])) }
{
    let_call(alloc, text, part, one(alloc, var(alloc, b"first")?)?)
}

/// `if (left op right) { return 0ull; } else { }`
fn none_by(alloc: Global, op: Op, left: &[u8], right: &[u8]) -> Result<Stmt, OutOfMemory>
    ensures { IfOk result (λ s. s ≡ spec.none_where op (AVar left.now) (AVar right.now)) }
{
    none_where(alloc, op, var(alloc, left)?, var(alloc, right)?)
}

/// `if ((at + size) > len) { return 0ull; } else { }`
fn none_where_cut(alloc: Global) -> Result<Stmt, OutOfMemory>
    ensures { IfOk result (λ s. s ≡ spec.none_where Gt trees.behind_head (AVar v.len)) }
{
    none_where(alloc, Op::Gt, behind_head(alloc)?, var(alloc, b"len")?)
}

fn end_body(alloc: Global) -> Result<StmtList, OutOfMemory>
    ensures { IfOk result (λ b. b ≡ trees.end_body) }
{
    let mut body = one(alloc, none_by(alloc, Op::Ge, b"at", b"len")?)?;
    body.push(let_number(alloc, b"first", byte_here(alloc)?)?)?;
    body.push(let_by_first(alloc, b"size", b"head_size")?)?;
    body.push(none_without(alloc, b"size")?)?;
    body.push(none_where_cut(alloc)?)?;
    body.push(let_argument(alloc)?)?;
    body.push(let_by_first(alloc, b"least", b"head_least")?)?;
    body.push(none_by(alloc, Op::Lt, b"argument", b"least")?)?;
    body.push(Stmt::Return(behind_head(alloc)?))?;
    Ok(body)
}

/// The place behind the head at a place.
#[tactic(auto, unfolding(crate::specs::Heads::head_end))]
pub(crate) fn head_end(alloc: Global) -> Result<Function, OutOfMemory>
    ensures { IfOk result (λ f. f ≡ trees.head_end) }
{
    function(alloc, b"head_end", window_params(alloc)?, end_body(alloc)?)
}

/// `if (((uint64_t)buf[at] >> 5ull) != major) { return 0ull; } else { }`
fn other_major(alloc: Global) -> Result<Stmt, OutOfMemory>
    ensures { IfOk result (λ s. s ≡ spec.none_where Ne (ABinary Shr spec.byte_here (ANumber 5)) (AVar v.major)) }
{
    none_where(alloc, Op::Ne, major_here(alloc)?, var(alloc, b"major")?)
}

fn within_body(alloc: Global) -> Result<StmtList, OutOfMemory>
    ensures { IfOk result (λ b. b ≡ trees.within_body) }
{
    let args = window_args(alloc, b"at")?;
    let mut body = one(alloc, let_call(alloc, b"end", b"head_end", args)?)?;
    body.push(none_without(alloc, b"end")?)?;
    body.push(other_major(alloc)?)?;
    body.push(let_argument(alloc)?)?;
    body.push(none_by(alloc, Op::Lt, b"argument", b"lo")?)?;
    body.push(none_by(alloc, Op::Gt, b"argument", b"hi")?)?;
    body.push(give_variable(alloc, b"end")?)?;
    Ok(body)
}

fn within_params(alloc: Global) -> Result<ParamList, OutOfMemory>
    ensures { IfOk result (λ ps. ps ≡ spec.pointer v.buf ∷ spec.number v.len ∷ spec.number v.at ∷ spec.number v.major ∷ spec.number v.lo ∷ spec.number v.hi ∷ []) }
{
    let mut params = window_params(alloc)?;
    params.push(number(alloc, b"major")?)?;
    params.push(number(alloc, b"lo")?)?;
    params.push(number(alloc, b"hi")?)?;
    Ok(params)
}

/// The place behind the head at a place, where its major type and its argument are as asked.
#[tactic(auto, unfolding(crate::specs::Heads::head_within))]
pub(crate) fn head_within(alloc: Global) -> Result<Function, OutOfMemory>
    ensures { IfOk result (λ f. f ≡ trees.head_within) }
{
    function(
        alloc,
        b"head_within",
        within_params(alloc)?,
        within_body(alloc)?,
    )
}
