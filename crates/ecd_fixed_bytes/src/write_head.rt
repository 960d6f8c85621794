//! The functions that write heads.

ghost use Rattle.std.specs.Prelude.{◌≡◌, [], ◌∷◌, ◌++◌, IfOk, OnOk, codes};
ghost use Rattle.ecd_cast.specs.declared.tree.Expr.TheVariants.{Var as AVar};
ghost use Rattle.ecd_cast.specs.declared.tree.Stmt.TheVariants.{Store as AStore};
ghost use Rattle.ecd_emit.specs.Shorthands as spec;
ghost use Rattle.ecd_emit.specs.Variables as v;
ghost use Rattle.ecd_fixed_bytes.specs.HeadWriter as trees;
ghost use Rattle.ecd_emit.specs.Among.{AreNew};
ghost use Rattle.ecd_fixed_bytes.specs.Standing.{HeadWriterIsThere, HeadWriterMeans};

use ecd_cast::tree::{CItem, CItemList, Expr, ExprList, Function, Op, ParamList, Stmt, StmtList};
use ecd_cbuild::build::{binary, give, one, var, when};
use ecd_cbuild::builder::Builder;
use ecd_emit::shorthands::{
    answer_where, function, give_variable, let_call, let_number, number, output, plus, put,
};
use ecd_list::OutOfMemory;
use std::alloc::Global;

/// `if (argument < bound) { return answer; } else { }`
fn length_where(alloc: Global, bound: u64, answer: u64) -> Result<Stmt, OutOfMemory>
    ensures { IfOk result (λ s. s ≡ trees.length_where bound answer) }
{
    answer_where(alloc, Op::Lt, b"argument", bound, answer)
}

fn length_body(alloc: Global) -> Result<StmtList, OutOfMemory>
    ensures { IfOk result (λ b. b ≡ trees.length_body) }
{
    let mut body = one(alloc, length_where(alloc, 24, 1)?)?;
    body.push(length_where(alloc, 0x100, 2)?)?;
    body.push(length_where(alloc, 0x1_0000, 3)?)?;
    body.push(length_where(alloc, 0x1_0000_0000, 5)?)?;
    body.push(give(9))?;
    Ok(body)
}

/// How many bytes the shortest head with an argument has.
#[tactic(auto, unfolding(crate::specs::HeadWriter::head_length))]
fn head_length(alloc: Global) -> Result<Function, OutOfMemory>
    ensures { IfOk result (λ f. f ≡ trees.head_length) }
{
    let params = one(alloc, number(alloc, b"argument")?)?;
    function(alloc, b"head_length", params, length_body(alloc)?)
}

/// `(uint8_t *out, uint64_t at, uint64_t number)`
fn store_params(alloc: Global) -> Result<ParamList, OutOfMemory>
    ensures { IfOk result (λ ps. ps ≡ trees.store_params) }
{
    let mut params = one(alloc, output(alloc, b"out")?)?;
    params.push(number(alloc, b"at")?)?;
    params.push(number(alloc, b"number")?)?;
    Ok(params)
}

/// `(number >> bits)`
fn upper(alloc: Global, bits: u64) -> Result<Expr, OutOfMemory>
    ensures { IfOk result (λ e. e ≡ trees.upper bits) }
{
    binary(alloc, Op::Shr, var(alloc, b"number")?, Expr::Number(bits))
}

/// The number in two bytes, the higher first.
#[tactic(auto, unfolding(crate::specs::HeadWriter::store_be16))]
fn store_be16(alloc: Global) -> Result<Function, OutOfMemory>
    ensures { IfOk result (λ f. f ≡ trees.store_be16) }
{
    let high = put(alloc, var(alloc, b"at")?, upper(alloc, 8)?)?;
    let low = put(alloc, plus(alloc, b"at", 1)?, var(alloc, b"number")?)?;
    let mut body = one(alloc, high)?;
    body.push(low)?;
    body.push(Stmt::Return(plus(alloc, b"at", 2)?))?;
    function(alloc, b"store_be16", store_params(alloc)?, body)
}

/// `(out, text, from)`
fn store_args(alloc: Global, text: &[u8], from: Expr) -> Result<ExprList, OutOfMemory>
    ensures { IfOk result (λ es. es ≡ AVar v.out ∷ AVar text.now ∷ from ∷ []) }
{
    let mut args = one(alloc, var(alloc, b"out")?)?;
    args.push(var(alloc, text)?)?;
    args.push(from)?;
    Ok(args)
}

/// The body of a function that stores two halves, each of so many bits, by the part.
fn store_halves(alloc: Global, part: &[u8], bits: u64) -> Result<StmtList, OutOfMemory>
    ensures { IfOk result (λ b. b ≡ trees.store_halves part.now bits) }
{
    let high = store_args(alloc, b"at", upper(alloc, bits)?)?;
    let low = store_args(alloc, b"middle", var(alloc, b"number")?)?;
    let mut body = one(alloc, let_call(alloc, b"middle", part, high)?)?;
    body.push(let_call(alloc, b"end", part, low)?)?;
    body.push(give_variable(alloc, b"end")?)?;
    Ok(body)
}

/// The number in four bytes, the highest first.
#[tactic(auto, unfolding(crate::specs::HeadWriter::store_be32))]
fn store_be32(alloc: Global) -> Result<Function, OutOfMemory>
    ensures { IfOk result (λ f. f ≡ trees.store_be32) }
{
    let body = store_halves(alloc, b"store_be16", 16)?;
    function(alloc, b"store_be32", store_params(alloc)?, body)
}

/// The number in eight bytes, the highest first.
#[tactic(auto, unfolding(crate::specs::HeadWriter::store_be64))]
fn store_be64(alloc: Global) -> Result<Function, OutOfMemory>
    ensures { IfOk result (λ f. f ≡ trees.store_be64) }
{
    let body = store_halves(alloc, b"store_be32", 32)?;
    function(alloc, b"store_be64", store_params(alloc)?, body)
}

/// `out[at] = (uint8_t)(high + low);`
fn put_first(alloc: Global, low: Expr) -> Result<Stmt, OutOfMemory>
    ensures { IfOk result (λ s. s ≡ trees.put_first low) }
{
    let first = binary(alloc, Op::Add, var(alloc, b"high")?, low)?;
    put(alloc, var(alloc, b"at")?, first)
}

/// A head whose argument stands in its first byte.
fn put_1(alloc: Global) -> Result<StmtList, OutOfMemory>
    ensures { IfOk result (λ b. b ≡ trees.put_1) }
{
    let mut body = one(alloc, put_first(alloc, var(alloc, b"argument")?)?)?;
    body.push(Stmt::Return(plus(alloc, b"at", 1)?))?;
    Ok(body)
}

/// `out[(at + 1ull)] = (uint8_t)argument;`
fn put_next(alloc: Global) -> Result<Stmt, OutOfMemory>
    ensures { IfOk result (λ s. s ≡ AStore v.out (spec.plus v.at 1) (AVar v.argument)) }
{
    let place = plus(alloc, b"at", 1)?;
    put(alloc, place, var(alloc, b"argument")?)
}

/// A head whose argument stands in its second byte.
fn put_2(alloc: Global) -> Result<StmtList, OutOfMemory>
    ensures { IfOk result (λ b. b ≡ trees.put_2) }
{
    let mut body = one(alloc, put_first(alloc, Expr::Number(24))?)?;
    body.push(put_next(alloc)?)?;
    body.push(Stmt::Return(plus(alloc, b"at", 2)?))?;
    Ok(body)
}

/// `(out, (at + 1ull), argument)`
fn wide_args(alloc: Global) -> Result<ExprList, OutOfMemory>
    ensures { IfOk result (λ es. es ≡ AVar v.out ∷ spec.plus v.at 1 ∷ AVar v.argument ∷ []) }
{
    let mut args = one(alloc, var(alloc, b"out")?)?;
    args.push(plus(alloc, b"at", 1)?)?;
    args.push(var(alloc, b"argument")?)?;
    Ok(args)
}

/// A head whose argument stands in the bytes that the part stores.
fn put_wide(alloc: Global, info: u64, text: &[u8], part: &[u8]) -> Result<StmtList, OutOfMemory>
    ensures { IfOk result (λ b. b ≡ trees.put_wide info text.now part.now) }
{
    let mut body = one(alloc, put_first(alloc, Expr::Number(info))?)?;
    body.push(let_call(alloc, text, part, wide_args(alloc)?)?)?;
    body.push(give_variable(alloc, text)?)?;
    Ok(body)
}

/// A head whose argument stands in two bytes.
fn put_in_two(alloc: Global) -> Result<StmtList, OutOfMemory>
    ensures { IfOk result (λ b. b ≡ trees.put_wide 25 v.end16 (codes "store_be16")) }
{
    put_wide(alloc, 25, b"end16", b"store_be16")
}

/// A head whose argument stands in four bytes.
fn put_in_four(alloc: Global) -> Result<StmtList, OutOfMemory>
    ensures { IfOk result (λ b. b ≡ trees.put_wide 26 v.end32 (codes "store_be32")) }
{
    put_wide(alloc, 26, b"end32", b"store_be32")
}

/// `if (argument < bound) { yes } else { }`
fn put_where(alloc: Global, bound: u64, yes: StmtList) -> Result<Stmt, OutOfMemory>
    ensures { IfOk result (λ s. s ≡ trees.put_where bound yes) }
{
    let test = binary(alloc, Op::Lt, var(alloc, b"argument")?, Expr::Number(bound))?;
    Ok(when(alloc, test, yes))
}

/// `uint64_t high = (major << 5ull);`
fn let_high(alloc: Global) -> Result<Stmt, OutOfMemory>
    ensures { IfOk result (λ s. s ≡ trees.let_high) }
{
    let high = binary(alloc, Op::Shl, var(alloc, b"major")?, Expr::Number(5))?;
    let_number(alloc, b"high", high)
}

/// The shorter heads.
fn put_cases(alloc: Global) -> Result<StmtList, OutOfMemory>
    ensures { IfOk result (λ b. b ≡ trees.put_cases) }
{
    let mut body = one(alloc, let_high(alloc)?)?;
    body.push(put_where(alloc, 24, put_1(alloc)?)?)?;
    body.push(put_where(alloc, 0x100, put_2(alloc)?)?)?;
    body.push(put_where(alloc, 0x1_0000, put_in_two(alloc)?)?)?;
    body.push(put_where(alloc, 0x1_0000_0000, put_in_four(alloc)?)?)?;
    Ok(body)
}

fn put_body(alloc: Global) -> Result<StmtList, OutOfMemory>
    ensures { IfOk result (λ b. b ≡ trees.put_body) }
{
    let mut body = put_cases(alloc)?;
    body.push(put_first(alloc, Expr::Number(27))?)?;
    body.push(let_call(alloc, b"end64", b"store_be64", wide_args(alloc)?)?)?;
    body.push(give_variable(alloc, b"end64")?)?;
    Ok(body)
}

fn put_params(alloc: Global) -> Result<ParamList, OutOfMemory>
    ensures { IfOk result (λ ps. ps ≡ spec.output v.out ∷ spec.number v.at ∷ spec.number v.major ∷ spec.number v.argument ∷ []) }
{
    let mut params = one(alloc, output(alloc, b"out")?)?;
    params.push(number(alloc, b"at")?)?;
    params.push(number(alloc, b"major")?)?;
    params.push(number(alloc, b"argument")?)?;
    Ok(params)
}

/// The head of a major type and an argument, at a place.
#[tactic(auto, unfolding(crate::specs::HeadWriter::put_head))]
fn put_head(alloc: Global) -> Result<Function, OutOfMemory>
    ensures { IfOk result (λ f. f ≡ trees.put_head) }
{
    function(alloc, b"put_head", put_params(alloc)?, put_body(alloc)?)
}

/// The functions that write heads, in their order.
fn put_items(alloc: Global) -> Result<CItemList, OutOfMemory>
    ensures { IfOk result (λ items. items ≡ trees.put_functions) }
{
    let mut items = one(alloc, CItem::Function(head_length(alloc)?))?;
    items.push(CItem::Function(store_be16(alloc)?))?;
    items.push(CItem::Function(store_be32(alloc)?))?;
    items.push(CItem::Function(store_be64(alloc)?))?;
    items.push(CItem::Function(put_head(alloc)?))?;
    Ok(items)
}

/// Puts the functions that write heads behind the builder's items: `head_length`, `store_be16`, `store_be32`,
/// `store_be64` and `put_head`. None of these names is taken before.
///
/// # Errors
///
/// `OutOfMemory` where memory is wanting. The builder may only be dropped then.
pub fn head_writer(alloc: Global, builder: &mut Builder) -> Result<(), OutOfMemory>
    requires { AreNew trees.put_names builder.old }
    ensures items { OnOk result (builder.new ≡ builder.old ++ trees.put_functions) }
    ensures there { OnOk result (HeadWriterIsThere builder.new) }
    ensures mean { OnOk result (HeadWriterMeans builder.new) }
{
    builder.extend(put_items(alloc)?)?;
    Ok(())
}
