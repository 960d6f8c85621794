//! The function that compares bytes, in one of the orders of keys.

ghost use Rattle.std.specs.Prelude.{◌≡◌, [], ◌∷◌, ◌++◌, IfOk, OnOk, codes};
ghost use Rattle.ecd_cast.specs.declared.tree.Op.TheVariants.{Eq};
ghost use Rattle.ecd_cast.specs.declared.tree.Expr.TheVariants.{Number as ANumber, Var as AVar};
ghost use Rattle.ecd_cast.specs.declared.tree.CItem.TheVariants.{Function as AFunction};
ghost use Rattle.ecd_cast.specs.Kept.{IsNew};
ghost use Rattle.ecd_cast.specs.Meaning.{calls_of};
ghost use Rattle.ecd_emit.specs.Shorthands as spec;
ghost use Rattle.ecd_emit.specs.Variables as v;
ghost use Rattle.ecd_fixed_bytes.specs.Compare as trees;
ghost use Rattle.ecd_fixed_bytes.specs.Compare.{ComparesBytes};
ghost use Rattle.ecd_emit.specs.Among.{IsAmong};

use ecd_cast::tree::{CItem, Expr, Function, Op, ParamList, Stmt, StmtList};
use ecd_cbuild::build::{give, load, name, one, var};
use ecd_cbuild::builder::Builder;
use ecd_emit::shorthands::{function, guard, number, pointer};
use ecd_keyorder::Order;
use ecd_list::OutOfMemory;
use std::alloc::Global;

/// `if (at == right_len) { return 2ull; } else { }`
fn right_ends(alloc: Global) -> Result<Stmt, OutOfMemory>
    ensures { IfOk result (λ s. s ≡ spec.guard Eq (AVar v.at) (AVar v.right_len) (ANumber 2)) }
{
    let at = var(alloc, b"at")?;
    guard(
        alloc,
        Op::Eq,
        at,
        var(alloc, b"right_len")?,
        Expr::Number(2),
    )
}

/// `if ((uint64_t)left[at] op (uint64_t)right[at]) { return answer; } else { }`
fn where_bytes(alloc: Global, op: Op, answer: u64) -> Result<Stmt, OutOfMemory>
    ensures { IfOk result (λ s. s ≡ spec.guard op trees.left_byte trees.right_byte (ANumber answer)) }
{
    let left = load(alloc, b"left", var(alloc, b"at")?)?;
    let right = load(alloc, b"right", var(alloc, b"at")?)?;
    guard(alloc, op, left, right, Expr::Number(answer))
}

fn turn(alloc: Global) -> Result<StmtList, OutOfMemory>
    ensures { IfOk result (λ b. b ≡ trees.compare_turn) }
{
    let mut body = one(alloc, right_ends(alloc)?)?;
    body.push(where_bytes(alloc, Op::Lt, 0)?)?;
    body.push(where_bytes(alloc, Op::Gt, 2)?)?;
    Ok(body)
}

/// `if (left_len op right_len) { return answer; } else { }`
fn where_lengths(alloc: Global, op: Op, answer: u64) -> Result<Stmt, OutOfMemory>
    ensures { IfOk result (λ s. s ≡ spec.guard op (AVar v.left_len) (AVar v.right_len) (ANumber answer)) }
{
    let left = var(alloc, b"left_len")?;
    let right = var(alloc, b"right_len")?;
    guard(alloc, op, left, right, Expr::Number(answer))
}

/// What stands in front of the turns: in the length-first order the lengths that differ decide.
fn lengths_first(alloc: Global, order: Order) -> Result<StmtList, OutOfMemory>
    ensures { IfOk result (λ b. b ≡ trees.lengths_first order) }
{
    let mut lengths = StmtList::new(alloc);
    if order == Order::LengthFirst {
        lengths.push(where_lengths(alloc, Op::Lt, 0)?)?;
        lengths.push(where_lengths(alloc, Op::Gt, 2)?)?;
    }
    Ok(lengths)
}

fn body(alloc: Global, order: Order) -> Result<StmtList, OutOfMemory>
    ensures { IfOk result (λ b. b ≡ trees.compare_body order) }
{
    let turns = Stmt::For {
        name: name(alloc, b"at")?,
        bound: name(alloc, b"left_len")?,
        body: turn(alloc)?,
    };
    let mut body = lengths_first(alloc, order)?;
    body.push(turns)?;
    body.push(where_lengths(alloc, Op::Lt, 0)?)?;
    body.push(give(1))?;
    Ok(body)
}

fn params(alloc: Global) -> Result<ParamList, OutOfMemory>
    ensures { IfOk result (λ ps. ps ≡ spec.pointer v.left ∷ spec.number v.left_len ∷ spec.pointer v.right ∷ spec.number v.right_len ∷ []) }
{
    let mut params = one(alloc, pointer(alloc, b"left")?)?;
    params.push(number(alloc, b"left_len")?)?;
    params.push(pointer(alloc, b"right")?)?;
    params.push(number(alloc, b"right_len")?)?;
    Ok(params)
}

#[tactic(auto, unfolding(crate::specs::Compare::compare_bytes))]
fn compare_bytes(alloc: Global, order: Order) -> Result<Function, OutOfMemory>
    ensures { IfOk result (λ f. f ≡ trees.compare_bytes order) }
{
    function(alloc, b"compare_bytes", params(alloc)?, body(alloc, order)?)
}

/// Puts the function `compare_bytes` behind the builder's items, which compares in the order. The name is not taken before,
/// and is the same for both orders.
///
/// # Errors
///
/// `OutOfMemory` where memory is wanting. The builder may only be dropped then.
pub fn comparison(alloc: Global, order: Order, builder: &mut Builder) -> Result<(), OutOfMemory>
    requires { IsNew (codes "compare_bytes") builder.old }
    ensures items { OnOk result (builder.new ≡ builder.old ++ AFunction (trees.compare_bytes order) ∷ []) }
    ensures there { OnOk result (IsAmong (trees.compare_bytes order) builder.new) }
    ensures mean { OnOk result (ComparesBytes order (calls_of builder.new (codes "compare_bytes"))) }
{
    builder.push(CItem::Function(compare_bytes(alloc, order)?))?;
    Ok(())
}
