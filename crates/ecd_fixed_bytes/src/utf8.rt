//! The functions that check UTF-8.

ghost use Rattle.std.specs.Prelude.{◌≡◌, [], ◌∷◌, ◌++◌, IfOk, OnOk, codes};
ghost use Rattle.ecd_cast.specs.declared.tree.Expr.TheVariants.{Var as AVar};
ghost use Rattle.ecd_cast.specs.declared.tree.Stmt.TheVariants.{Assign as AnAssign};
ghost use Rattle.ecd_cast.specs.declared.tree.Source.TheVariants.{Call as FromCall};
ghost use Rattle.ecd_emit.specs.Shorthands as spec;
ghost use Rattle.ecd_emit.specs.Variables as v;
ghost use Rattle.ecd_fixed_bytes.specs.Utf8 as trees;
ghost use Rattle.ecd_emit.specs.Among.{AreNew};
ghost use Rattle.ecd_fixed_bytes.specs.Standing.{Utf8IsThere, Utf8Means};

use ecd_cast::tree::{
    CItem, CItemList, Expr, ExprList, Function, Op, ParamList, Source, Stmt, StmtList,
};
use ecd_cbuild::build::{binary, give, load, name, one, var};
use ecd_cbuild::builder::Builder;
use ecd_emit::shorthands::{
    answer_where, function, guard, let_number, number, pointer, where_call,
};
use ecd_list::OutOfMemory;
use std::alloc::Global;

/// `if (byte op bound) { return answer; } else { }`
fn byte_where(alloc: Global, op: Op, bound: u64, answer: u64) -> Result<Stmt, OutOfMemory>
    ensures { IfOk result (λ s. s ≡ trees.byte_where op bound answer) }
{
    answer_where(alloc, op, b"byte", bound, answer)
}

/// `if (state op bound) { return answer; } else { }`
fn state_where(alloc: Global, op: Op, bound: u64, answer: u64) -> Result<Stmt, OutOfMemory>
    ensures { IfOk result (λ s. s ≡ trees.state_where op bound answer) }
{
    answer_where(alloc, op, b"state", bound, answer)
}

fn begin_body(alloc: Global) -> Result<StmtList, OutOfMemory>
    ensures { IfOk result (λ b. b ≡ trees.begin_body) }
{
    let mut body = one(alloc, byte_where(alloc, Op::Lt, 0x80, 0)?)?;
    body.push(byte_where(alloc, Op::Lt, 0xc2, 8)?)?;
    body.push(byte_where(alloc, Op::Lt, 0xe0, 1)?)?;
    body.push(byte_where(alloc, Op::Eq, 0xe0, 4)?)?;
    body.push(byte_where(alloc, Op::Eq, 0xed, 5)?)?;
    body.push(byte_where(alloc, Op::Lt, 0xf0, 2)?)?;
    body.push(byte_where(alloc, Op::Eq, 0xf0, 6)?)?;
    body.push(byte_where(alloc, Op::Lt, 0xf4, 3)?)?;
    body.push(byte_where(alloc, Op::Eq, 0xf4, 7)?)?;
    body.push(give(8))?;
    Ok(body)
}

/// How far into a character a first byte leads.
#[tactic(auto, unfolding(crate::specs::Utf8::utf8_begin))]
fn utf8_begin(alloc: Global) -> Result<Function, OutOfMemory>
    ensures { IfOk result (λ f. f ≡ trees.utf8_begin) }
{
    let params = one(alloc, number(alloc, b"byte")?)?;
    function(alloc, b"utf8_begin", params, begin_body(alloc)?)
}

/// `if (state == 0ull) { uint64_t begun = utf8_begin(byte); return begun; } else { }`
fn where_between(alloc: Global) -> Result<Stmt, OutOfMemory>
    ensures { IfOk result (λ s. s ≡ trees.where_between) }
{
    let args = one(alloc, var(alloc, b"byte")?)?;
    let callee = name(alloc, b"utf8_begin")?;
    where_call(alloc, b"state", 0, b"begun", callee, args)
}

/// `if ((state == number) && (byte op bound)) { return 8ull; } else { }`
fn narrower(alloc: Global, number: u64, op: Op, bound: u64) -> Result<Stmt, OutOfMemory>
    ensures { IfOk result (λ s. s ≡ trees.narrower number op bound) }
{
    let state = binary(alloc, Op::Eq, var(alloc, b"state")?, Expr::Number(number))?;
    let byte = binary(alloc, op, var(alloc, b"byte")?, Expr::Number(bound))?;
    guard(alloc, Op::And, state, byte, Expr::Number(8))
}

/// The ranges of a further byte.
fn ranges(alloc: Global) -> Result<StmtList, OutOfMemory>
    ensures { IfOk result (λ b. b ≡ trees.ranges) }
{
    let mut body = one(alloc, where_between(alloc)?)?;
    body.push(byte_where(alloc, Op::Lt, 0x80, 8)?)?;
    body.push(byte_where(alloc, Op::Gt, 0xbf, 8)?)?;
    body.push(narrower(alloc, 4, Op::Lt, 0xa0)?)?;
    body.push(narrower(alloc, 5, Op::Gt, 0x9f)?)?;
    body.push(narrower(alloc, 6, Op::Lt, 0x90)?)?;
    body.push(narrower(alloc, 7, Op::Gt, 0x8f)?)?;
    Ok(body)
}

fn next_body(alloc: Global) -> Result<StmtList, OutOfMemory>
    ensures { IfOk result (λ b. b ≡ trees.next_body) }
{
    let mut body = ranges(alloc)?;
    body.push(state_where(alloc, Op::Eq, 1, 0)?)?;
    body.push(state_where(alloc, Op::Eq, 2, 1)?)?;
    body.push(state_where(alloc, Op::Eq, 3, 2)?)?;
    body.push(state_where(alloc, Op::Lt, 6, 1)?)?;
    body.push(give(2))?;
    Ok(body)
}

/// How far into a character a byte leads.
#[tactic(auto, unfolding(crate::specs::Utf8::utf8_next))]
fn utf8_next(alloc: Global) -> Result<Function, OutOfMemory>
    ensures { IfOk result (λ f. f ≡ trees.utf8_next) }
{
    let mut params = one(alloc, number(alloc, b"state")?)?;
    params.push(number(alloc, b"byte")?)?;
    function(alloc, b"utf8_next", params, next_body(alloc)?)
}

/// `(state, byte)`
fn state_args(alloc: Global) -> Result<ExprList, OutOfMemory>
    ensures { IfOk result (λ es. es ≡ AVar v.state ∷ AVar v.byte ∷ []) }
{
    let mut args = one(alloc, var(alloc, b"state")?)?;
    args.push(var(alloc, b"byte")?)?;
    Ok(args)
}

/// `state = utf8_next(state, byte);`
fn step(alloc: Global) -> Result<Stmt, OutOfMemory>
    ensures { IfOk result (λ s. s ≡ AnAssign v.state (FromCall (codes "utf8_next") (AVar v.state ∷ AVar v.byte ∷ []))) }
{
    let from = Source::Call {
        name: name(alloc, b"utf8_next")?,
        args: state_args(alloc)?,
    };
    Ok(Stmt::Assign {
        name: name(alloc, b"state")?,
        from,
    })
}

fn turn(alloc: Global) -> Result<StmtList, OutOfMemory>
    ensures { IfOk result (λ b. b ≡ trees.valid_turn) }
{
    let byte = load(alloc, b"text", var(alloc, b"at")?)?;
    let mut body = one(alloc, let_number(alloc, b"byte", byte)?)?;
    body.push(step(alloc)?)?;
    body.push(state_where(alloc, Op::Eq, 8, 0)?)?;
    Ok(body)
}

fn turns(alloc: Global) -> Result<Stmt, OutOfMemory>
    ensures { IfOk result (λ s. s ≡ trees.valid_turns) }
{
    Ok(Stmt::For {
        name: name(alloc, b"at")?,
        bound: name(alloc, b"len")?,
        body: turn(alloc)?,
    })
}

fn valid_body(alloc: Global) -> Result<StmtList, OutOfMemory>
    ensures { IfOk result (λ b. b ≡ trees.valid_body) }
{
    let mut body = one(alloc, let_number(alloc, b"state", Expr::Number(0))?)?;
    body.push(turns(alloc)?)?;
    body.push(state_where(alloc, Op::Eq, 0, 1)?)?;
    body.push(give(0))?;
    Ok(body)
}

fn valid_params(alloc: Global) -> Result<ParamList, OutOfMemory>
    ensures { IfOk result (λ ps. ps ≡ spec.pointer v.text ∷ spec.number v.len ∷ []) }
{
    let mut params = one(alloc, pointer(alloc, b"text")?)?;
    params.push(number(alloc, b"len")?)?;
    Ok(params)
}

/// Whether the bytes are UTF-8.
#[tactic(auto, unfolding(crate::specs::Utf8::utf8_valid))]
fn utf8_valid(alloc: Global) -> Result<Function, OutOfMemory>
    ensures { IfOk result (λ f. f ≡ trees.utf8_valid) }
{
    function(
        alloc,
        b"utf8_valid",
        valid_params(alloc)?,
        valid_body(alloc)?,
    )
}

/// The functions that check UTF-8, in their order.
fn utf8_items(alloc: Global) -> Result<CItemList, OutOfMemory>
    ensures { IfOk result (λ items. items ≡ trees.utf8_functions) }
{
    let mut items = one(alloc, CItem::Function(utf8_begin(alloc)?))?;
    items.push(CItem::Function(utf8_next(alloc)?))?;
    items.push(CItem::Function(utf8_valid(alloc)?))?;
    Ok(items)
}

/// Puts the functions `utf8_begin`, `utf8_next` and `utf8_valid` behind the builder's items. None of these names is
/// taken before.
///
/// # Errors
///
/// `OutOfMemory` where memory is wanting. The builder may only be dropped then.
pub fn utf8_check(alloc: Global, builder: &mut Builder) -> Result<(), OutOfMemory>
    requires { AreNew trees.utf8_names builder.old }
    ensures items { OnOk result (builder.new ≡ builder.old ++ trees.utf8_functions) }
    ensures there { OnOk result (Utf8IsThere builder.new) }
    ensures mean { OnOk result (Utf8Means builder.new) }
{
    builder.extend(utf8_items(alloc)?)?;
    Ok(())
}
