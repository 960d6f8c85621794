//! The functions that read an item of a depth, and all functions with a depth up to one.

ghost use Rattle.std.specs.Prelude.{◌≡◌, ◌≤◌, ◌<◌, [], ◌∷◌, ◌++◌, suc, IfOk, OnOk, codes};
ghost use Rattle.ecd_cast.specs.declared.tree.Op.TheVariants.{Eq};
ghost use Rattle.ecd_cast.specs.declared.tree.Expr.TheVariants.{Number as ANumber, Var as AVar};
ghost use Rattle.ecd_emit.specs.Shorthands as spec;
ghost use Rattle.ecd_emit.specs.Variables as v;
ghost use Rattle.ecd_emit.specs.Among.{AreNew};
ghost use Rattle.ecd_keyorder.specs.declared.Order.{Order};
ghost use Rattle.ecd_rt.specs.Trees as trees;
ghost use Rattle.ecd_rt.specs.Trees.{any_functions, any_names};
ghost use Rattle.ecd_rt.specs.Standing.{FrontIsThere, FrontMeans, LevelIsThere, AnyIsThere, AnyMeans};

use crate::names::{any_name, items_name, pairs_name};
use crate::runs::{items_end, pairs_end, text_end};
use ecd_cast::tree::{CItem, CItemList, Expr, ExprList, Function, Name, Op, Stmt, StmtList};
use ecd_cbuild::build::{declare_call, give, name, one, var};
use ecd_cbuild::builder::Builder;
use ecd_emit::shorthands::{
    give_variable, let_argument, let_call, let_major, place_args, where_call, where_number,
    window_args, window_params,
};
use ecd_list::OutOfMemory;
use std::alloc::Global;

/// `if (major == number) { uint64_t text = callee(args); return text; } else { }`
fn where_major(
    alloc: Global,
    number: u64,
    text: &[u8],
    callee: Name,
    args: ExprList,
) -> Result<Stmt, OutOfMemory>
    ensures { IfOk result (λ s. s ≡ spec.guard_call Eq (AVar v.major) (ANumber number) text.now callee args) }
{
    where_call(alloc, b"major", number, text, callee, args)
}

/// `if (major == 3ull) { uint64_t text = text_end(buf, at, end); return text; } else { }`
fn where_text(alloc: Global) -> Result<Stmt, OutOfMemory>
    ensures { IfOk result (λ s. s ≡ spec.guard_call Eq (AVar v.major) (ANumber 3) v.text (codes "text_end") (AVar v.buf ∷ AVar v.at ∷ AVar v.end ∷ [])) }
{
    let mut args = place_args(alloc)?;
    args.push(var(alloc, b"end")?)?;
    where_major(alloc, 3, b"text", name(alloc, b"text_end")?, args)
}

/// What has no items inside.
fn any_front(alloc: Global) -> Result<StmtList, OutOfMemory>
    ensures { IfOk result (λ b. b ≡ trees.any_front) }
{
    let args = window_args(alloc, b"at")?;
    let mut body = one(alloc, let_call(alloc, b"end", b"own_end", args)?)?;
    body.push(where_number(alloc, Op::Eq, b"end", 0, Expr::Number(0))?)?;
    body.push(let_major(alloc)?)?;
    body.push(where_number(alloc, Op::Lt, b"major", 3, var(alloc, b"end")?)?)?;
    body.push(where_number(alloc, Op::Gt, b"major", 6, var(alloc, b"end")?)?)?;
    body.push(where_text(alloc)?)?;
    Ok(body)
}

fn leaf_body(alloc: Global) -> Result<StmtList, OutOfMemory>
    ensures { IfOk result (λ b. b ≡ trees.any_front ++ trees.any_behind 0) }
{
    let mut body = any_front(alloc)?;
    body.push(give(0))?;
    Ok(body)
}

/// The place behind an item of depth 0.
#[tactic(auto, unfolding(crate::specs::Trees::any_end))]
fn leaf_end(alloc: Global) -> Result<Function, OutOfMemory>
    ensures { IfOk result (λ f. f ≡ trees.any_end 0) }
{
    Ok(Function {
        name: any_name(alloc, 0)?,
        params: window_params(alloc)?,
        body: leaf_body(alloc)?,
    })
}

/// `(buf, len, end, argument)`
fn counted_args(alloc: Global) -> Result<ExprList, OutOfMemory>
    ensures { IfOk result (λ es. es ≡ trees.counted_args) }
{
    let mut args = window_args(alloc, b"end")?;
    args.push(var(alloc, b"argument")?)?;
    Ok(args)
}

fn level_body(alloc: Global, below: u8) -> Result<StmtList, OutOfMemory>
    ensures { IfOk result (λ b. b ≡ trees.any_front ++ trees.any_behind (suc below)) }
{
    let mut body = any_front(alloc)?;
    let content = any_name(alloc, below)?;
    let args = window_args(alloc, b"end")?;
    body.push(where_major(alloc, 6, b"content", content, args)?)?;
    body.push(let_argument(alloc)?)?;
    let pairs = pairs_name(alloc, below)?;
    body.push(where_major(alloc, 5, b"pairs", pairs, counted_args(alloc)?)?)?;
    let items = items_name(alloc, below)?;
    body.push(declare_call(alloc, b"items", items, counted_args(alloc)?)?)?;
    body.push(give_variable(alloc, b"items")?)?;
    Ok(body)
}

/// The place behind an item whose parts are of a depth.
#[tactic(auto, unfolding(crate::specs::Trees::any_end))]
fn level_end(alloc: Global, below: u8) -> Result<Function, OutOfMemory>
    requires { below < 32 }
    ensures { IfOk result (λ f. f ≡ trees.any_end (suc below)) }
{
    Ok(Function {
        name: any_name(alloc, below + 1)?,
        params: window_params(alloc)?,
        body: level_body(alloc, below)?,
    })
}

/// The functions of depth 0, in their order.
fn leaf_items(alloc: Global) -> Result<CItemList, OutOfMemory>
    ensures { IfOk result (λ items. items ≡ any_functions 0) }
{
    let mut items = one(alloc, CItem::Function(text_end(alloc)?))?;
    items.push(CItem::Function(leaf_end(alloc)?))?;
    Ok(items)
}

/// Puts the functions of depth 0 behind the builder's items: `text_end` and `any_0`.
fn put_leaf(alloc: Global, builder: &mut Builder) -> Result<(), OutOfMemory>
    requires there { FrontIsThere builder.old }
    requires new { AreNew (any_names 0) builder.old }
    ensures { OnOk result (builder.new ≡ builder.old ++ any_functions 0) }
{
    builder.extend(leaf_items(alloc)?)?;
    Ok(())
}

/// The functions of one level, in their order.
fn level_items(alloc: Global, below: u8) -> Result<CItemList, OutOfMemory>
    requires { below < 32 }
    ensures { IfOk result (λ items. items ≡ trees.level_functions below) }
{
    let mut items = one(alloc, CItem::Function(items_end(alloc, below)?))?;
    items.push(CItem::Function(pairs_end(alloc, below)?))?;
    items.push(CItem::Function(level_end(alloc, below)?))?;
    Ok(items)
}

/// Puts the functions of one level behind those below: `items_` and `pairs_` of the depth below, and `any_` of the next.
fn put_level(alloc: Global, below: u8, builder: &mut Builder) -> Result<(), OutOfMemory>
    requires deep { below < 32 }
    requires there { LevelIsThere below builder.old }
    requires new { AreNew (trees.level_names below) builder.old }
    ensures { OnOk result (builder.new ≡ builder.old ++ trees.level_functions below) }
{
    builder.extend(level_items(alloc, below)?)?;
    Ok(())
}

/// Puts the functions with a depth up to `depth` behind the builder's items, among which those that they stand on are. They
/// take the order of keys of the comparison that they call.
pub(crate) fn any_chain(alloc: Global, depth: u8, builder: &mut Builder) -> Result<(), OutOfMemory>
    requires deep { depth ≤ 32 }
    requires there { FrontIsThere builder.old }
    requires new { AreNew (any_names depth) builder.old }
    ensures items { OnOk result (builder.new ≡ builder.old ++ any_functions depth) }
    ensures there { OnOk result (AnyIsThere depth builder.new) }
    ensures mean { OnOk result ((order : Order) → FrontMeans order builder.old → AnyMeans order depth builder.new) }
{
    put_leaf(alloc, builder)?;
    for below in 0..depth {
        put_level(alloc, below, builder)?;
    }
    Ok(())
}
