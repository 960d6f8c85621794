//! Expressions as text.

ghost use Rattle.std.specs.Prelude.{◌≡◌, [], ◌∷◌, ◌++◌, OnOk, IfOk};
ghost use Rattle.ecd_cprint.specs.Layout.{Grows};
ghost use Rattle.ecd_cast.specs.Spelling.{expr_lexemes, literal, sign};

use crate::layout::{Gap, Layout};
use ecd_cast::tree::{Expr, Op};
use ecd_list::OutOfMemory;
use std::alloc::Global;

fn sign_of(op: Op) -> &'static [u8]
    ensures { result.now ≡ sign op }
{
    match op {
        Op::Add => b"+",
        Op::Sub => b"-",
        Op::Mul => b"*",
        Op::Shl => b"<<",
        Op::Shr => b">>",
        Op::BitAnd => b"&",
        Op::BitOr => b"|",
        Op::Eq => b"==",
        Op::Ne => b"!=",
        Op::Lt => b"<",
        Op::Le => b"<=",
        Op::Gt => b">",
        Op::Ge => b">=",
        Op::And => b"&&",
        Op::Or => b"||",
    }
}

fn print_number(alloc: Global, out: &mut Layout, gap: Gap, number: u64) -> Result<(), OutOfMemory>
    ensures { OnOk result (Grows out.old.text.items out.new.text.items (literal number ∷ [])) }
{
    let text = format!(in alloc; "{number}ull")?;
    out.put(gap, text.as_bytes())
}

/// Puts an expression behind the text.
pub fn print_expr(alloc: Global, out: &mut Layout, gap: Gap, expr: &Expr) -> Result<(), OutOfMemory>
    ensures { OnOk result (Grows out.old.text.items out.new.text.items (expr_lexemes expr.now)) }
{
    match expr {
        Expr::Number(number) => {
            print_number(alloc, out, gap, *number)?;
            Ok(())
        }
        Expr::Var(name) => {
            out.put(gap, name.as_slice())?;
            Ok(())
        }
        Expr::Cell(name, cell) => {
            out.put(gap, name.as_slice())?;
            out.put_before(Gap::Tight, b"->")?;
            out.put(Gap::Tight, cell.as_slice())?;
            Ok(())
        }
        Expr::Load(name, index) => {
            out.put_before(gap, b"(")?;
            out.put(Gap::Tight, b"uint64_t")?;
            out.put_before(Gap::Tight, b")")?;
            out.put(Gap::Tight, name.as_slice())?;
            out.put_before(Gap::Tight, b"[")?;
            print_expr(alloc, out, Gap::Tight, index.get())?;
            out.put(Gap::Tight, b"]")?;
            Ok(())
        }
        Expr::Binary(op, left, right) => {
            out.put_before(gap, b"(")?;
            print_expr(alloc, out, Gap::Tight, left.get())?;
            out.put(Gap::Space, sign_of(*op))?;
            print_expr(alloc, out, Gap::Space, right.get())?;
            out.put(Gap::Tight, b")")?;
            Ok(())
        }
        Expr::Not(operand) => {
            out.put_before(gap, b"(")?;
            out.put_before(Gap::Tight, b"!")?;
            print_expr(alloc, out, Gap::Tight, operand.get())?;
            out.put(Gap::Tight, b")")?;
            Ok(())
        }
    }
}
