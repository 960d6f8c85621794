//! The functions that look into a text, and that read items and pairs one behind the other.

ghost use Rattle.std.specs.Prelude.{◌≡◌, [], ◌∷◌, ◌++◌, IfOk};
ghost use Rattle.ecd_cast.specs.declared.tree.Op.TheVariants.{Sub};
ghost use Rattle.ecd_cast.specs.declared.tree.Expr.TheVariants.{Var as AVar};
ghost use Rattle.ecd_cast.specs.declared.tree.Stmt.TheVariants.{For as AFor};
ghost use Rattle.ecd_emit.specs.Variables as v;
ghost use Rattle.ecd_emit.specs.Shorthands as spec;
ghost use Rattle.ecd_rt.specs.Variables as w;
ghost use Rattle.ecd_rt.specs.Trees as trees;

use crate::names::{any_name, items_name, pairs_name};
use ecd_cast::tree::{Expr, ExprList, Function, Name, Op, ParamList, Source, Stmt, StmtList};
use ecd_cbuild::build::{binary, declare_call, name, one, var};
use ecd_emit::shorthands::{
    assign, function, give_variable, let_argument, let_call, let_number, number, of_two,
    place_params, where_number, window_args, window_params,
};
use ecd_list::OutOfMemory;
use std::alloc::Global;

/// `(buf + place)`
fn buf_from(alloc: Global, place: Expr) -> Result<Expr, OutOfMemory>
    ensures { IfOk result (λ e. e ≡ trees.buf_from place) }
{
    binary(alloc, Op::Add, var(alloc, b"buf")?, place)
}

/// `((buf + (end - argument)), argument)`
fn string_args(alloc: Global) -> Result<ExprList, OutOfMemory>
    ensures { IfOk result (λ es. es ≡ trees.buf_from (spec.of_two Sub v.end v.argument) ∷ AVar v.argument ∷ []) }
{
    let start = of_two(alloc, Op::Sub, b"end", b"argument")?;
    let mut args = one(alloc, buf_from(alloc, start)?)?;
    args.push(var(alloc, b"argument")?)?;
    Ok(args)
}

fn text_body(alloc: Global) -> Result<StmtList, OutOfMemory>
    ensures { IfOk result (λ b. b ≡ trees.text_body) }
{
    let mut body = one(alloc, let_argument(alloc)?)?;
    body.push(let_call(alloc, b"valid", b"utf8_valid", string_args(alloc)?)?)?;
    body.push(where_number(alloc, Op::Eq, b"valid", 0, Expr::Number(0))?)?;
    body.push(give_variable(alloc, b"end")?)?;
    Ok(body)
}

/// The end of a text, where its bytes are UTF-8.
#[tactic(auto, unfolding(crate::specs::Trees::text_end))]
pub(crate) fn text_end(alloc: Global) -> Result<Function, OutOfMemory>
    ensures { IfOk result (λ f. f ≡ trees.text_end) }
{
    let mut params = place_params(alloc)?;
    params.push(number(alloc, b"end")?)?;
    function(alloc, b"text_end", params, text_body(alloc)?)
}

/// `(const uint8_t *buf, uint64_t len, uint64_t at, uint64_t count)`
fn counted_params(alloc: Global) -> Result<ParamList, OutOfMemory>
    ensures { IfOk result (λ ps. ps ≡ trees.counted_params) }
{
    let mut params = window_params(alloc)?;
    params.push(number(alloc, b"count")?)?;
    Ok(params)
}

/// `end = callee(buf, len, place);`
fn end_by(alloc: Global, callee: Name, place: &[u8]) -> Result<Stmt, OutOfMemory>
    ensures { IfOk result (λ s. s ≡ trees.end_by callee place.now) }
{
    Ok(Stmt::Assign {
        name: name(alloc, b"end")?,
        from: Source::Call {
            name: callee,
            args: window_args(alloc, place)?,
        },
    })
}

/// `for (uint64_t i = 0ull; i < count; i += 1ull) { turn }`
fn count_times(alloc: Global, turn: StmtList) -> Result<Stmt, OutOfMemory>
    ensures { IfOk result (λ s. s ≡ AFor v.i v.count turn) }
{
    Ok(Stmt::For {
        name: name(alloc, b"i")?,
        bound: name(alloc, b"count")?,
        body: turn,
    })
}

fn items_turn(alloc: Global, deepest: u8) -> Result<StmtList, OutOfMemory>
    ensures { IfOk result (λ b. b ≡ trees.items_turn deepest) }
{
    let callee = any_name(alloc, deepest)?;
    let mut turn = one(alloc, end_by(alloc, callee, b"end")?)?;
    turn.push(where_number(alloc, Op::Eq, b"end", 0, Expr::Number(0))?)?;
    Ok(turn)
}

fn items_body(alloc: Global, deepest: u8) -> Result<StmtList, OutOfMemory>
    ensures { IfOk result (λ b. b ≡ trees.items_body deepest) }
{
    let mut body = one(alloc, let_number(alloc, b"end", var(alloc, b"at")?)?)?;
    body.push(count_times(alloc, items_turn(alloc, deepest)?)?)?;
    body.push(give_variable(alloc, b"end")?)?;
    Ok(body)
}

/// The place behind so many items of a depth, one behind the other.
#[tactic(auto, unfolding(crate::specs::Trees::items_end))]
pub(crate) fn items_end(alloc: Global, deepest: u8) -> Result<Function, OutOfMemory>
    ensures { IfOk result (λ f. f ≡ trees.items_end deepest) }
{
    Ok(Function {
        name: items_name(alloc, deepest)?,
        params: counted_params(alloc)?,
        body: items_body(alloc, deepest)?,
    })
}

/// `((buf + key), key_size, (buf + end), size)`
fn key_args(alloc: Global) -> Result<ExprList, OutOfMemory>
    ensures { IfOk result (λ es. es ≡ trees.buf_from (AVar w.key) ∷ AVar w.key_size ∷ trees.buf_from (AVar v.end) ∷ AVar v.size ∷ []) }
{
    let mut args = one(alloc, buf_from(alloc, var(alloc, b"key")?)?)?;
    args.push(var(alloc, b"key_size")?)?;
    args.push(buf_from(alloc, var(alloc, b"end")?)?)?;
    args.push(var(alloc, b"size")?)?;
    Ok(args)
}

/// A key, which is greater than the one before.
fn key_turn(alloc: Global, deepest: u8) -> Result<StmtList, OutOfMemory>
    ensures { IfOk result (λ b. b ≡ trees.key_turn deepest) }
{
    let callee = any_name(alloc, deepest)?;
    let args = window_args(alloc, b"end")?;
    let mut turn = one(alloc, declare_call(alloc, b"behind", callee, args)?)?;
    turn.push(where_number(alloc, Op::Eq, b"behind", 0, Expr::Number(0))?)?;
    let size = of_two(alloc, Op::Sub, b"behind", b"end")?;
    turn.push(let_number(alloc, b"size", size)?)?;
    turn.push(let_call(alloc, b"order", b"compare_bytes", key_args(alloc)?)?)?;
    turn.push(where_number(alloc, Op::Gt, b"order", 0, Expr::Number(0))?)?;
    Ok(turn)
}

/// A key, and the value behind it.
fn pair_turn(alloc: Global, deepest: u8) -> Result<StmtList, OutOfMemory>
    ensures { IfOk result (λ b. b ≡ trees.key_turn deepest ++ trees.value_turn deepest) }
{
    let mut turn = key_turn(alloc, deepest)?;
    turn.push(assign(alloc, b"key", var(alloc, b"end")?)?)?;
    turn.push(assign(alloc, b"key_size", var(alloc, b"size")?)?)?;
    let callee = any_name(alloc, deepest)?;
    turn.push(end_by(alloc, callee, b"behind")?)?;
    turn.push(where_number(alloc, Op::Eq, b"end", 0, Expr::Number(0))?)?;
    Ok(turn)
}

fn pairs_body(alloc: Global, deepest: u8) -> Result<StmtList, OutOfMemory>
    ensures { IfOk result (λ b. b ≡ trees.pairs_body deepest) }
{
    let mut body = one(alloc, let_number(alloc, b"end", var(alloc, b"at")?)?)?;
    body.push(let_number(alloc, b"key", var(alloc, b"at")?)?)?;
    body.push(let_number(alloc, b"key_size", Expr::Number(0))?)?;
    body.push(count_times(alloc, pair_turn(alloc, deepest)?)?)?;
    body.push(give_variable(alloc, b"end")?)?;
    Ok(body)
}

/// The place behind so many pairs of a depth, one behind the other, whose keys ascend.
#[tactic(auto, unfolding(crate::specs::Trees::pairs_end))]
pub(crate) fn pairs_end(alloc: Global, deepest: u8) -> Result<Function, OutOfMemory>
    ensures { IfOk result (λ f. f ≡ trees.pairs_end deepest) }
{
    Ok(Function {
        name: pairs_name(alloc, deepest)?,
        params: counted_params(alloc)?,
        body: pairs_body(alloc, deepest)?,
    })
}
