//! How many statements there are.

ghost use Rattle.std.specs.Prelude.{◌≡◌, IfSome};
ghost use Rattle.ecd_cast.specs.Meaning as meaning;
ghost use Rattle.ecd_cast.specs.Meaning.{count_all as all_of};

use ecd_cast::tree::Stmt;

/// How many statements a statement is, those inside counted, where a `u32` holds it.
#[cycle(counting)]
pub fn count_of(statement: &Stmt) -> Option<u32>
    ensures { IfSome result (λ n. n ≡ meaning.count_of statement.now) }
{
    match statement {
        Stmt::If { yes, no, .. } => {
            let yes = count_all(yes.as_slice())?;
            let no = count_all(no.as_slice())?;
            let inside = yes.checked_add(no)?;
            let count = inside.checked_add(1)?;
            Some(count)
        }
        Stmt::For { body, .. } => {
            let inside = count_all(body.as_slice())?;
            let count = inside.checked_add(1)?;
            Some(count)
        }
        _ => Some(1),
    }
}

/// How many statements a list is.
#[cycle(counting)]
pub fn count_all(statements: &[Stmt]) -> Option<u32>
    ensures { IfSome result (λ n. n ≡ all_of statements.now) }
{
    let mut count = 0u32;
    for statement in statements {
        let more = count_of(statement)?;
        count = count.checked_add(more)?;
    }
    Some(count)
}
