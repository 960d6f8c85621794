//! How functions end.

ghost use Rattle.std.specs.Prelude.{◌≡◌, IfOk};
ghost use Rattle.ecd_cast.specs.Validity.{block_returns, returns};

use ecd_cast::tree::Stmt;
use ecd_list::OutOfMemory;

/// Whether the last statement is a return, or an `if` whose two blocks end so.
#[cycle(ends)]
pub(crate) fn block_returns(stmts: &[Stmt], levels: u32) -> Result<bool, OutOfMemory>
    ensures { IfOk result (λ b. b ≡ block_returns stmts.now) }
{
    let deeper = levels.checked_sub(1).ok_or(OutOfMemory)?;
    match stmts.last() {
        Some(last) => {
            let ends = stmt_returns(last, deeper)?;
            Ok(ends)
        }
        None => Ok(false),
    }
}

#[cycle(ends)]
fn stmt_returns(stmt: &Stmt, levels: u32) -> Result<bool, OutOfMemory>
    ensures { IfOk result (λ b. b ≡ returns stmt.now) }
{
    match stmt {
        Stmt::Return(_) => Ok(true),
        Stmt::If { yes, no, .. } => {
            let first = block_returns(yes.as_slice(), levels)?;
            let second = block_returns(no.as_slice(), levels)?;
            Ok(first & second)
        }
        Stmt::Number { .. } | Stmt::Pointer { .. } | Stmt::Assign { .. } => Ok(false),
        Stmt::Store { .. } | Stmt::SetCell { .. } | Stmt::For { .. } => Ok(false),
    }
}
