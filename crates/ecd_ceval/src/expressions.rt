//! The values of expressions.

ghost use Rattle.std.specs.Prelude.{◌≡◌, MatchOption};
ghost use Rattle.ecd_cast.specs.Expressions as meaning;
ghost use Rattle.ecd_cast.specs.Expressions.{Gives};
ghost use Rattle.ecd_ceval.specs.Outcomes.{outcome};
ghost use Rattle.ecd_ceval.specs.Blocks.{memory_of};
ghost use Rattle.ecd_ceval.specs.Operators.{IsDecided, finished};

use crate::blocks::{Held, cell, load, moved};
use crate::reason::{Outcome, Reason};
use crate::variables::Variables;
use ecd_cast::tree::{Expr, Op};
use ecd_cast::value::Value;

fn on_numbers(op: Op, a: u64, b: u64) -> Outcome
    ensures { outcome result ≡ meaning.on_numbers op a b }
{
    match op {
        Op::Add => Ok(Value::Number(a.wrapping_add(b))),
        Op::Sub => Ok(Value::Number(a.wrapping_sub(b))),
        Op::Mul => Ok(Value::Number(a.wrapping_mul(b))),
        Op::Shl if b < 64 => Ok(Value::Number(a << b)),
        Op::Shr if b < 64 => Ok(Value::Number(a >> b)),
        Op::Shl | Op::Shr => Err(Reason::Shift),
        Op::BitAnd => Ok(Value::Number(a & b)),
        Op::BitOr => Ok(Value::Number(a | b)),
        Op::Eq => Ok(Value::Truth(a == b)),
        Op::Ne => Ok(Value::Truth(a != b)),
        Op::Lt => Ok(Value::Truth(a < b)),
        Op::Le => Ok(Value::Truth(a <= b)),
        Op::Gt => Ok(Value::Truth(b < a)),
        Op::Ge => Ok(Value::Truth(b <= a)),
        Op::And | Op::Or => Err(Reason::Rule),
    }
}

fn applied(blocks: &[Held<'_>], op: Op, a: Value, b: Value) -> Outcome
    ensures { outcome result ≡ meaning.applied (memory_of blocks.now) op a b }
{
    match (a, b) {
        (Value::Number(a), Value::Number(b)) => on_numbers(op, a, b),
        (Value::Bytes { block, offset }, Value::Number(by)) => match op {
            Op::Add => moved(blocks, block, offset, by),
            _ => Err(Reason::Rule),
        },
        _ => Err(Reason::Rule),
    }
}

fn must_be_truth(value: Value) -> Outcome
    ensures { outcome result ≡ meaning.must_be_truth value }
{
    match value {
        Value::Truth(truth) => Ok(Value::Truth(truth)),
        _ => Err(Reason::Rule),
    }
}

fn negated(value: Value) -> Outcome
    ensures { outcome result ≡ meaning.negated value }
{
    match value {
        Value::Truth(truth) => Ok(Value::Truth(!truth)),
        _ => Err(Reason::Rule),
    }
}

/// What the left operand alone decides: of `&&` and `||`, where it is no truth or leaves nothing open.
fn decided(op: Op, left: Value) -> Option<Outcome>
    ensures { IsDecided result op left }
{
    match op {
        Op::And => match left {
            Value::Truth(true) => None,
            Value::Truth(false) => Some(Ok(Value::Truth(false))),
            _ => Some(Err(Reason::Rule)),
        },
        Op::Or => match left {
            Value::Truth(true) => Some(Ok(Value::Truth(true))),
            Value::Truth(false) => None,
            _ => Some(Err(Reason::Rule)),
        },
        _ => None,
    }
}

/// The value of an operator whose right operand counts.
fn finish(blocks: &[Held<'_>], op: Op, left: Value, right: Value) -> Outcome
    ensures { outcome result ≡ finished (memory_of blocks.now) op left right }
{
    match op {
        Op::And | Op::Or => must_be_truth(right),
        _ => applied(blocks, op, left, right),
    }
}

/// The value of an expression.
#[tactic(auto, using(ecd_cast::proofs::Layers::layers))]
pub fn value_of(expr: &Expr, variables: &Variables<'_>, blocks: &[Held<'_>]) -> Outcome
    ensures { outcome result ≡ meaning.value_of expr.now variables.now (memory_of blocks.now) }
{
    match expr {
        Expr::Number(number) => Ok(Value::Number(*number)),
        Expr::Var(name) => variables.get(name.as_slice()),
        Expr::Cell(name, c) => cell(blocks, c.as_slice(), variables.get(name.as_slice())?),
        Expr::Load(name, index) => {
            let pointer = variables.get(name.as_slice())?;
            let index = value_of(index.get(), variables, blocks)?;
            load(blocks, pointer, index)
        }
        Expr::Binary(op, left, right) => {
            let left = value_of(left.get(), variables, blocks)?;
            if let Some(outcome) = decided(*op, left) {
                return outcome;
            }
            let right = value_of(right.get(), variables, blocks)?;
            finish(blocks, *op, left, right)
        }
        Expr::Not(operand) => negated(value_of(operand.get(), variables, blocks)?),
    }
}
