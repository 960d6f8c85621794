//! The functions that find the end of an item.

ghost use Rattle.std.specs.Prelude.{◌≡◌, ◌++◌, IfOk, OnOk};
ghost use Rattle.ecd_cast.specs.declared.tree.Op.TheVariants.{Lt, Sub};
ghost use Rattle.ecd_cast.specs.declared.tree.Expr.TheVariants.{Var as AVar};
ghost use Rattle.ecd_emit.specs.Variables as v;
ghost use Rattle.ecd_emit.specs.Shorthands as spec;
ghost use Rattle.ecd_fixed_heads.specs.Extents as trees;
ghost use Rattle.ecd_fixed_heads.specs.Extents.{extent_functions, extent_names};
ghost use Rattle.ecd_emit.specs.Among.{AreNew};
ghost use Rattle.ecd_fixed_heads.specs.Standing.{HeadsAreThere, HeadsMean};
ghost use Rattle.ecd_fixed_heads.specs.ExtentsStanding.{ExtentsAreThere, ExtentsMean};

use ecd_cast::tree::{CItem, CItemList, Expr, Function, Op, Stmt, StmtList};
use ecd_cbuild::build::{binary, give, name, one, var};
use ecd_cbuild::builder::Builder;
use ecd_emit::shorthands::{
    assign, function, let_argument, let_call, let_major, let_number, none_where, none_without,
    of_two, place_params, where_number, window_args, window_params,
};
use ecd_list::OutOfMemory;
use std::alloc::Global;

/// `if ((len - end) < text) { return 0ull; } else { }`
fn none_where_short(alloc: Global, text: &[u8]) -> Result<Stmt, OutOfMemory>
    ensures { IfOk result (λ s. s ≡ spec.none_where Lt (spec.of_two Sub v.len v.end) (AVar text.now)) }
{
    let left = of_two(alloc, Op::Sub, b"len", b"end")?;
    none_where(alloc, Op::Lt, left, var(alloc, text)?)
}

/// The head: its end, and its major type.
fn own_head(alloc: Global) -> Result<StmtList, OutOfMemory>
    ensures { IfOk result (λ b. b ≡ trees.own_head) }
{
    let args = window_args(alloc, b"at")?;
    let mut body = one(alloc, let_call(alloc, b"end", b"head_end", args)?)?;
    body.push(none_without(alloc, b"end")?)?;
    body.push(let_major(alloc)?)?;
    body.push(where_number(alloc, Op::Lt, b"major", 2, var(alloc, b"end")?)?)?;
    body.push(where_number(alloc, Op::Gt, b"major", 5, var(alloc, b"end")?)?)?;
    Ok(body)
}

fn own_body(alloc: Global) -> Result<StmtList, OutOfMemory>
    ensures { IfOk result (λ b. b ≡ trees.own_body) }
{
    let mut body = own_head(alloc)?;
    body.push(let_argument(alloc)?)?;
    body.push(none_where_short(alloc, b"argument")?)?;
    body.push(where_number(alloc, Op::Gt, b"major", 3, var(alloc, b"end")?)?)?;
    body.push(Stmt::Return(of_two(alloc, Op::Add, b"end", b"argument")?))?;
    Ok(body)
}

/// The place behind the head and the string of the item at a place.
#[tactic(auto, unfolding(crate::specs::Extents::own_end))]
fn own_end(alloc: Global) -> Result<Function, OutOfMemory>
    ensures { IfOk result (λ f. f ≡ trees.own_end) }
{
    function(alloc, b"own_end", window_params(alloc)?, own_body(alloc)?)
}

fn inside_body(alloc: Global) -> Result<StmtList, OutOfMemory>
    ensures { IfOk result (λ b. b ≡ trees.inside_body) }
{
    let mut body = one(alloc, let_major(alloc)?)?;
    body.push(where_number(alloc, Op::Lt, b"major", 4, Expr::Number(0))?)?;
    body.push(where_number(alloc, Op::Gt, b"major", 6, Expr::Number(0))?)?;
    body.push(where_number(alloc, Op::Eq, b"major", 6, Expr::Number(1))?)?;
    body.push(let_argument(alloc)?)?;
    body.push(where_number(alloc, Op::Eq, b"major", 4, var(alloc, b"argument")?)?)?;
    body.push(Stmt::Return(of_two(alloc, Op::Add, b"argument", b"argument")?))?;
    Ok(body)
}

/// How many items stand directly inside the item at a place.
#[tactic(auto, unfolding(crate::specs::Extents::items_inside))]
fn items_inside(alloc: Global) -> Result<Function, OutOfMemory>
    ensures { IfOk result (λ f. f ≡ trees.items_inside) }
{
    function(
        alloc,
        b"items_inside",
        place_params(alloc)?,
        inside_body(alloc)?,
    )
}

/// `owed = ((owed - 1ull) + inside);`
fn owe_inside(alloc: Global) -> Result<Stmt, OutOfMemory>
    ensures { IfOk result (λ s. s ≡ trees.owe_inside) }
{
    let others = binary(alloc, Op::Sub, var(alloc, b"owed")?, Expr::Number(1))?;
    let owed = binary(alloc, Op::Add, others, var(alloc, b"inside")?)?;
    assign(alloc, b"owed", owed)
}

/// `uint64_t inside = items_inside(buf, end);`
fn let_inside(alloc: Global) -> Result<Stmt, OutOfMemory>
    ensures { IfOk result (λ s. s ≡ trees.let_inside) }
{
    let mut args = one(alloc, var(alloc, b"buf")?)?;
    args.push(var(alloc, b"end")?)?;
    let_call(alloc, b"inside", b"items_inside", args)
}

fn turn(alloc: Global) -> Result<StmtList, OutOfMemory>
    ensures { IfOk result (λ b. b ≡ trees.item_turn) }
{
    let args = window_args(alloc, b"end")?;
    let mut body = one(alloc, let_call(alloc, b"next", b"own_end", args)?)?;
    body.push(none_without(alloc, b"next")?)?;
    body.push(let_inside(alloc)?)?;
    body.push(owe_inside(alloc)?)?;
    body.push(assign(alloc, b"end", var(alloc, b"next")?)?)?;
    body.push(where_number(alloc, Op::Eq, b"owed", 0, var(alloc, b"end")?)?)?;
    body.push(none_where_short(alloc, b"owed")?)?;
    Ok(body)
}

fn item_body(alloc: Global) -> Result<StmtList, OutOfMemory>
    ensures { IfOk result (λ b. b ≡ trees.item_body) }
{
    let mut body = one(alloc, let_number(alloc, b"end", var(alloc, b"at")?)?)?;
    body.push(let_number(alloc, b"owed", Expr::Number(1))?)?;
    body.push(Stmt::For {
        name: name(alloc, b"turn")?,
        bound: name(alloc, b"len")?,
        body: turn(alloc)?,
    })?;
    body.push(give(0))?;
    Ok(body)
}

/// The place behind the item at a place.
#[tactic(auto, unfolding(crate::specs::Extents::item_end))]
fn item_end(alloc: Global) -> Result<Function, OutOfMemory>
    ensures { IfOk result (λ f. f ≡ trees.item_end) }
{
    function(alloc, b"item_end", window_params(alloc)?, item_body(alloc)?)
}

/// The functions that find the end of an item, in their order.
fn extent_items(alloc: Global) -> Result<CItemList, OutOfMemory>
    ensures { IfOk result (λ items. items ≡ extent_functions) }
{
    let mut items = one(alloc, CItem::Function(own_end(alloc)?))?;
    items.push(CItem::Function(items_inside(alloc)?))?;
    items.push(CItem::Function(item_end(alloc)?))?;
    Ok(items)
}

/// Puts the functions that find the end of an item behind the builder's items, among which those over heads are:
/// `own_end`, `items_inside` and `item_end`. None of these names is taken before.
///
/// # Errors
///
/// `OutOfMemory` where memory is wanting. The builder may only be dropped then.
pub fn extents(alloc: Global, builder: &mut Builder) -> Result<(), OutOfMemory>
    requires there { HeadsAreThere builder.old }
    requires mean { HeadsMean builder.old }
    requires new { AreNew extent_names builder.old }
    ensures items { OnOk result (builder.new ≡ builder.old ++ extent_functions) }
    ensures there { OnOk result (ExtentsAreThere builder.new) }
    ensures mean { OnOk result (ExtentsMean builder.new) }
{
    builder.extend(extent_items(alloc)?)?;
    Ok(())
}
