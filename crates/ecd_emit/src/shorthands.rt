//! Statements and parameters from their parts.

ghost use Rattle.std.specs.Prelude.{◌≡◌, [], ◌∷◌, IfOk};
ghost use Rattle.ecd_cast.specs.declared.tree.Op.TheVariants.{Eq, Shr};
ghost use Rattle.ecd_cast.specs.declared.tree.Stmt.TheVariants.{Return as AReturn, Store as AStore};
ghost use Rattle.ecd_cast.specs.declared.tree.Expr.TheVariants.{Number as ANumber, Var as AVar, Binary as ABinary};
ghost use Rattle.ecd_emit.specs.Shorthands as spec;
ghost use Rattle.ecd_emit.specs.Variables as v;

use ecd_cast::tree::{
    Expr, ExprList, Function, Name, Op, Param, ParamKind, ParamList, Source, Stmt, StmtList,
};
use ecd_cbuild::build::{binary, declare_call, load, name, one, var, when};
use ecd_list::OutOfMemory;
use std::alloc::Global;

/// `if (left op right) { return answer; } else { }`
pub fn guard(
    alloc: Global,
    op: Op,
    left: Expr,
    right: Expr,
    answer: Expr,
) -> Result<Stmt, OutOfMemory>
    ensures { IfOk result (λ s. s ≡ spec.guard op left right answer) }
{
    let test = binary(alloc, op, left, right)?;
    Ok(when(alloc, test, one(alloc, Stmt::Return(answer))?))
}

/// `if (left op right) { return 0ull; } else { }`
pub fn none_where(alloc: Global, op: Op, left: Expr, right: Expr) -> Result<Stmt, OutOfMemory>
    ensures { IfOk result (λ s. s ≡ spec.none_where op left right) }
{
    guard(alloc, op, left, right, Expr::Number(0))
}

/// `uint64_t text = from;`
pub fn let_number(alloc: Global, text: &[u8], from: Expr) -> Result<Stmt, OutOfMemory>
    ensures { IfOk result (λ s. s ≡ spec.let_number text.now from) }
{
    Ok(Stmt::Number {
        name: name(alloc, text)?,
        from: Source::Value(from),
    })
}

/// `uint64_t text = function(args);`
pub fn let_call(
    alloc: Global,
    text: &[u8],
    function: &[u8],
    args: ExprList,
) -> Result<Stmt, OutOfMemory>
    ensures { IfOk result (λ s. s ≡ spec.let_call text.now function.now args) }
{
    declare_call(alloc, text, name(alloc, function)?, args)
}

/// `return text;`
pub fn give_variable(alloc: Global, text: &[u8]) -> Result<Stmt, OutOfMemory>
    ensures { IfOk result (λ s. s ≡ AReturn (AVar text.now)) }
{
    Ok(Stmt::Return(var(alloc, text)?))
}

/// `(text + number)`
pub fn plus(alloc: Global, text: &[u8], number: u64) -> Result<Expr, OutOfMemory>
    ensures { IfOk result (λ e. e ≡ spec.plus text.now number) }
{
    binary(alloc, Op::Add, var(alloc, text)?, Expr::Number(number))
}

/// `((uint64_t)buf[at] >> 5ull)`
pub fn major_here(alloc: Global) -> Result<Expr, OutOfMemory>
    ensures { IfOk result (λ e. e ≡ ABinary Shr spec.byte_here (ANumber 5)) }
{
    binary(alloc, Op::Shr, byte_here(alloc)?, Expr::Number(5))
}

/// `uint64_t major = ((uint64_t)buf[at] >> 5ull);`
pub fn let_major(alloc: Global) -> Result<Stmt, OutOfMemory>
    ensures { IfOk result (λ s. s ≡ spec.let_major) }
{
    let_number(alloc, b"major", major_here(alloc)?)
}

/// `(left op right)` of two variables
pub fn of_two(alloc: Global, op: Op, left: &[u8], right: &[u8]) -> Result<Expr, OutOfMemory>
    ensures { IfOk result (λ e. e ≡ spec.of_two op left.now right.now) }
{
    binary(alloc, op, var(alloc, left)?, var(alloc, right)?)
}

/// `if (text op number) { return answer; } else { }`
pub fn where_number(
    alloc: Global,
    op: Op,
    text: &[u8],
    number: u64,
    answer: Expr,
) -> Result<Stmt, OutOfMemory>
    ensures { IfOk result (λ s. s ≡ spec.guard op (AVar text.now) (ANumber number) answer) }
{
    let left = var(alloc, text)?;
    guard(alloc, op, left, Expr::Number(number), answer)
}

/// `if (text op number) { return answer; } else { }`
pub fn answer_where(
    alloc: Global,
    op: Op,
    text: &[u8],
    number: u64,
    answer: u64,
) -> Result<Stmt, OutOfMemory>
    ensures { IfOk result (λ s. s ≡ spec.guard op (AVar text.now) (ANumber number) (ANumber answer)) }
{
    where_number(alloc, op, text, number, Expr::Number(answer))
}

/// `if (text == 0ull) { return 0ull; } else { }`
pub fn none_without(alloc: Global, text: &[u8]) -> Result<Stmt, OutOfMemory>
    ensures { IfOk result (λ s. s ≡ spec.none_where Eq (AVar text.now) (ANumber 0)) }
{
    answer_where(alloc, Op::Eq, text, 0, 0)
}

/// `if (text == number) { uint64_t answer = callee(args); return answer; } else { }`
pub fn where_call(
    alloc: Global,
    text: &[u8],
    number: u64,
    answer: &[u8],
    callee: Name,
    args: ExprList,
) -> Result<Stmt, OutOfMemory>
    ensures { IfOk result (λ s. s ≡ spec.guard_call Eq (AVar text.now) (ANumber number) answer.now callee args) }
{
    let test = binary(alloc, Op::Eq, var(alloc, text)?, Expr::Number(number))?;
    let mut answers = one(alloc, declare_call(alloc, answer, callee, args)?)?;
    answers.push(give_variable(alloc, answer)?)?;
    Ok(when(alloc, test, answers))
}

/// `(buf, len, text)`
pub fn window_args(alloc: Global, text: &[u8]) -> Result<ExprList, OutOfMemory>
    ensures { IfOk result (λ es. es ≡ AVar v.buf ∷ AVar v.len ∷ AVar text.now ∷ []) }
{
    let mut args = one(alloc, var(alloc, b"buf")?)?;
    args.push(var(alloc, b"len")?)?;
    args.push(var(alloc, text)?)?;
    Ok(args)
}

/// `uint64_t argument = head_argument(buf, at);`
pub fn let_argument(alloc: Global) -> Result<Stmt, OutOfMemory>
    ensures { IfOk result (λ s. s ≡ spec.let_argument) }
{
    let_call(alloc, b"argument", b"head_argument", place_args(alloc)?)
}

/// `text = from;`
pub fn assign(alloc: Global, text: &[u8], from: Expr) -> Result<Stmt, OutOfMemory>
    ensures { IfOk result (λ s. s ≡ spec.assign text.now from) }
{
    Ok(Stmt::Assign {
        name: name(alloc, text)?,
        from: Source::Value(from),
    })
}

/// `out[index] = (uint8_t)from;`
pub fn put(alloc: Global, index: Expr, from: Expr) -> Result<Stmt, OutOfMemory>
    ensures { IfOk result (λ s. s ≡ AStore v.out index from) }
{
    Ok(Stmt::Store {
        name: name(alloc, b"out")?,
        index,
        from,
    })
}

/// `(uint64_t)buf[at]`
pub fn byte_here(alloc: Global) -> Result<Expr, OutOfMemory>
    ensures { IfOk result (λ e. e ≡ spec.byte_here) }
{
    load(alloc, b"buf", var(alloc, b"at")?)
}

/// `(buf, at)`
pub fn place_args(alloc: Global) -> Result<ExprList, OutOfMemory>
    ensures { IfOk result (λ es. es ≡ AVar v.buf ∷ AVar v.at ∷ []) }
{
    let mut args = one(alloc, var(alloc, b"buf")?)?;
    args.push(var(alloc, b"at")?)?;
    Ok(args)
}

/// `(buf, (at + number))`
pub fn later_args(alloc: Global, number: u64) -> Result<ExprList, OutOfMemory>
    ensures { IfOk result (λ es. es ≡ AVar v.buf ∷ spec.plus v.at number ∷ []) }
{
    let mut args = one(alloc, var(alloc, b"buf")?)?;
    args.push(plus(alloc, b"at", number)?)?;
    Ok(args)
}

/// `uint64_t text`
pub fn number(alloc: Global, text: &[u8]) -> Result<Param, OutOfMemory>
    ensures { IfOk result (λ p. p ≡ spec.number text.now) }
{
    Ok(Param {
        name: name(alloc, text)?,
        kind: ParamKind::Number,
    })
}

/// `const uint8_t *text`
pub fn pointer(alloc: Global, text: &[u8]) -> Result<Param, OutOfMemory>
    ensures { IfOk result (λ p. p ≡ spec.pointer text.now) }
{
    Ok(Param {
        name: name(alloc, text)?,
        kind: ParamKind::ReadPointer,
    })
}

/// `uint8_t *text`
pub fn output(alloc: Global, text: &[u8]) -> Result<Param, OutOfMemory>
    ensures { IfOk result (λ p. p ≡ spec.output text.now) }
{
    Ok(Param {
        name: name(alloc, text)?,
        kind: ParamKind::WritePointer,
    })
}

/// `(const uint8_t *buf, uint64_t at)`
pub fn place_params(alloc: Global) -> Result<ParamList, OutOfMemory>
    ensures { IfOk result (λ ps. ps ≡ spec.pointer v.buf ∷ spec.number v.at ∷ []) }
{
    let mut params = one(alloc, pointer(alloc, b"buf")?)?;
    params.push(number(alloc, b"at")?)?;
    Ok(params)
}

/// `(const uint8_t *buf, uint64_t len, uint64_t at)`
pub fn window_params(alloc: Global) -> Result<ParamList, OutOfMemory>
    ensures { IfOk result (λ ps. ps ≡ spec.pointer v.buf ∷ spec.number v.len ∷ spec.number v.at ∷ []) }
{
    let mut params = one(alloc, pointer(alloc, b"buf")?)?;
    params.push(number(alloc, b"len")?)?;
    params.push(number(alloc, b"at")?)?;
    Ok(params)
}

/// The function of this name.
pub fn function(
    alloc: Global,
    text: &[u8],
    params: ParamList,
    body: StmtList,
) -> Result<Function, OutOfMemory>
    ensures { IfOk result (λ f. f ≡ record { name = text.now; params = params; body = body }) }
{
    Ok(Function {
        name: name(alloc, text)?,
        params,
        body,
    })
}
