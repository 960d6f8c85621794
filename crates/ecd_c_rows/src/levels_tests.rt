//! Trees of many levels, as the judge takes them.

ghost use Rattle.std.specs.Prelude.{IfOk, ◌≡◌};
ghost use Rattle.ecd_cast.specs.declared.tree.Expr.TheVariants.{Number as ANumber};
ghost use Rattle.ecd_cast.specs.declared.tree.Stmt.TheVariants.{Return as AReturn};
ghost use Rattle.ecd_cast.specs.Spelling.{IsName, IsSpelledExpr, IsSpelledStmt, IsSpelledItem, IsSpelledProgram};

use ecd_cast::fault::CFault;
use ecd_cast::tree::{CItem, Expr, Function, Param, ParamKind, ParamList, Program, Source, Stmt};
use ecd_cbuild::build::{name, one};
use ecd_cjudge::validate::validate;
use ecd_list::{Boxed, OutOfMemory};
use std::alloc::Global;
use std::test::Fail;

/// `uint64_t text = from;`
fn declare(alloc: Global, text: &[u8], from: Expr) -> Result<Stmt, OutOfMemory>
    requires name { IsName text.now }
    requires from { IsSpelledExpr from }
    ensures { IfOk result (λ s. IsSpelledStmt s) }
{
    Ok(Stmt::Number {
        name: name(alloc, text)?,
        from: Source::Value(from),
    })
}

/// `for (uint64_t text = 0ull; text < len; text += 1ull) { inside }`
fn repeat(alloc: Global, text: &[u8], inside: Stmt) -> Result<Stmt, OutOfMemory>
    requires name { IsName text.now }
    requires inside { IsSpelledStmt inside }
    ensures { IfOk result (λ s. IsSpelledStmt s) }
{
    let body = one(alloc, inside)?;
    let bound = name(alloc, b"len")?;
    let name = name(alloc, text)?;
    Ok(Stmt::For { name, bound, body })
}

/// `return 1ull;`
fn done() -> Stmt
    ensures { result ≡ AReturn (ANumber 1) }
{
    Stmt::Return(Expr::Number(1))
}

/// `uint64_t text(const uint8_t *buf, uint64_t len) { first second }`
fn function(alloc: Global, text: &[u8], first: Stmt, second: Stmt) -> Result<CItem, OutOfMemory>
    requires name { IsName text.now }
    requires first { IsSpelledStmt first }
    requires second { IsSpelledStmt second }
    ensures { IfOk result (λ i. IsSpelledItem i) }
{
    let mut params = ParamList::new(alloc);
    params.push(Param {
        name: name(alloc, b"buf")?,
        kind: ParamKind::ReadPointer,
    })?;
    params.push(Param {
        name: name(alloc, b"len")?,
        kind: ParamKind::Number,
    })?;
    let mut body = one(alloc, first)?;
    body.push(second)?;
    Ok(CItem::Function(Function {
        name: name(alloc, text)?,
        params,
        body,
    }))
}

/// A program of one function.
fn program(alloc: Global, depth: u32, item: CItem) -> Result<Program, OutOfMemory>
    requires { IsSpelledItem item }
    ensures { IfOk result (λ p. IsSpelledProgram p) }
{
    Ok(Program {
        depth,
        items: one(alloc, item)?,
    })
}

/// The fault of a program of one function with these two statements, whose depth is told to be 1.
fn fault_of(alloc: Global, first: Stmt, second: Stmt) -> Result<Option<CFault>, OutOfMemory>
    requires first { IsSpelledStmt first }
    requires second { IsSpelledStmt second }
{
    let item = function(alloc, b"f", first, second)?;
    match validate(alloc, program(alloc, 1, item)?) {
        Ok(_) => Ok(None),
        Err(fault) => Ok(Some(fault)),
    }
}

/// `(!operand)`
fn negation(alloc: Global, operand: Expr) -> Result<Expr, OutOfMemory>
    requires { IsSpelledExpr operand }
    ensures { IfOk result (λ e. IsSpelledExpr e) }
{
    Ok(Expr::Not(Boxed::new(alloc, operand)?))
}

/// `(!(!( .. 1ull .. )))`
fn negations(alloc: Global, count: u32) -> Result<Expr, OutOfMemory>
    ensures { IfOk result (λ e. IsSpelledExpr e) }
{
    let mut expr = Expr::Number(1);
    for _ in 0..count {
        expr = negation(alloc, expr)?;
    }
    Ok(expr)
}

#[test]
fn expressions_beyond_the_most_levels_are_too_deep(rt: HostRuntime) -> Result<(), Fail> {
    let alloc = rt.alloc();
    let deep = fault_of(alloc, declare(alloc, b"n", negations(alloc, 250)?)?, done())?;
    assert!(rt; deep == Some(CFault::OutOfMemory));
    let flat = fault_of(alloc, declare(alloc, b"n", negations(alloc, 249)?)?, done())?;
    assert!(rt;
        flat == Some(CFault::Rule {
            rule: 2,
            item: 0,
            statement: 1
        })
    );
    Ok(())
}

/// `for (uint64_t i = 0ull; i < len; i += 1ull) { for .. }`
fn nested(alloc: Global, count: u32) -> Result<Stmt, OutOfMemory>
    ensures { IfOk result (λ s. IsSpelledStmt s) }
{
    let mut stmt = done();
    for _ in 0..count {
        stmt = repeat(alloc, b"i", stmt)?;
    }
    Ok(stmt)
}

#[test]
fn statements_beyond_the_most_levels_are_too_deep(rt: HostRuntime) -> Result<(), Fail> {
    let alloc = rt.alloc();
    let deep = fault_of(alloc, nested(alloc, 250)?, done())?;
    assert!(rt; deep == Some(CFault::OutOfMemory));
    let flat = fault_of(alloc, nested(alloc, 249)?, done())?;
    assert!(rt;
        flat == Some(CFault::Rule {
            rule: 6,
            item: 0,
            statement: 2
        })
    );
    Ok(())
}
