//! Statements and expressions from their parts.

ghost use Rattle.std.specs.Prelude.{◌≡◌, [], ◌∷◌, ◌++◌, IfOk};
ghost use Rattle.ecd_cast.specs.declared.tree.Expr.TheVariants.{Number as ANumber, Var as AVar, Load as ALoad, Binary as ABinary};
ghost use Rattle.ecd_cast.specs.declared.tree.Stmt.TheVariants.{If as AnIf, Return as AReturn, SetCell as ASetCell, Number as ADeclaration};
ghost use Rattle.ecd_cast.specs.declared.tree.Source.TheVariants.{Call as FromCall};

use ecd_cast::tree::{Expr, ExprList, Name, Op, Source, Stmt, StmtList};
use ecd_list::{Boxed, List, OutOfMemory};
use std::alloc::Global;

/// A name of these bytes.
pub fn name(alloc: Global, text: &[u8]) -> Result<Name, OutOfMemory>
    ensures { IfOk result (λ x. x ≡ text.now) }
{
    List::from_slice(alloc, text)
}

/// The variable of this name.
pub fn var(alloc: Global, text: &[u8]) -> Result<Expr, OutOfMemory>
    ensures { IfOk result (λ e. e ≡ AVar text.now) }
{
    Ok(Expr::Var(name(alloc, text)?))
}

/// `(uint64_t)text[index]`
pub fn load(alloc: Global, text: &[u8], index: Expr) -> Result<Expr, OutOfMemory>
    ensures { IfOk result (λ e. e ≡ ALoad text.now index) }
{
    Ok(Expr::Load(name(alloc, text)?, Boxed::new(alloc, index)?))
}

/// `(left op right)`
pub fn binary(alloc: Global, op: Op, left: Expr, right: Expr) -> Result<Expr, OutOfMemory>
    ensures { IfOk result (λ e. e ≡ ABinary op left right) }
{
    Ok(Expr::Binary(op, Boxed::new(alloc, left)?, Boxed::new(alloc, right)?))
}

/// A list of one.
pub fn one<T: Drop>(alloc: Global, only: T) -> Result<List<T>, OutOfMemory>
    ensures { IfOk result (λ l. l ≡ only ∷ []) }
{
    let mut list = List::new(alloc);
    list.push(only)?;
    Ok(list)
}

/// `text->cell = from;`
pub fn set_cell(alloc: Global, text: &[u8], cell: &[u8], from: Expr) -> Result<Stmt, OutOfMemory>
    ensures { IfOk result (λ s. s ≡ ASetCell text.now cell.now from) }
{
    Ok(Stmt::SetCell {
        name: name(alloc, text)?,
        cell: name(alloc, cell)?,
        from,
    })
}

/// `return NUMBER;`
pub fn give(number: u64) -> Stmt
    ensures { result ≡ AReturn (ANumber number) }
{
    Stmt::Return(Expr::Number(number))
}

/// `if test { yes } else { }`
pub fn when(alloc: Global, test: Expr, yes: StmtList) -> Stmt
    ensures { result ≡ AnIf test yes [] }
{
    Stmt::If {
        test,
        yes,
        no: List::new(alloc),
    }
}

/// `uint64_t text = function(args);`
pub fn declare_call(
    alloc: Global,
    text: &[u8],
    function: Name,
    args: ExprList,
) -> Result<Stmt, OutOfMemory>
    ensures { IfOk result (λ s. s ≡ ADeclaration text.now (FromCall function args)) }
{
    Ok(Stmt::Number {
        name: name(alloc, text)?,
        from: Source::Call {
            name: function,
            args,
        },
    })
}
