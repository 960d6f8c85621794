//! Statements as text.

ghost use Rattle.std.specs.Prelude.{◌≡◌, [], ◌∷◌, ◌++◌, OnOk, List, codes};
ghost use Rattle.ecd_cprint.specs.Layout.{Grows};
ghost use Rattle.ecd_cast.specs.Spelling.{expr_lexemes, source_lexemes, stmt_lexemes, stmts_lexemes, with_commas};

use crate::expressions::print_expr;
use crate::layout::{Gap, Layout};
use ecd_cast::tree::{Expr, Source, Stmt};
use ecd_list::OutOfMemory;
use std::alloc::Global;

/// Puts the arguments of a call behind the text, with commas between them.
fn print_args(alloc: Global, out: &mut Layout, args: &[Expr]) -> Result<(), OutOfMemory>
    ensures { OnOk result (Grows out.old.text.items out.new.text.items (with_commas expr_lexemes args.now)) }
{
    let [first, rest @ ..] = args else {
        return Ok(());
    };
    print_expr(alloc, out, Gap::Tight, first)?;
    for arg in rest {
        out.put(Gap::Tight, b",")?;
        print_expr(alloc, out, Gap::Space, arg)?;
    }
    Ok(())
}

fn print_source(alloc: Global, out: &mut Layout, from: &Source) -> Result<(), OutOfMemory>
    ensures { OnOk result (Grows out.old.text.items out.new.text.items (source_lexemes from.now)) }
{
    match from {
        Source::Value(value) => {
            print_expr(alloc, out, Gap::Space, value)?;
            Ok(())
        }
        Source::Call { name, args } => {
            out.put(Gap::Space, name.as_slice())?;
            out.put_before(Gap::Tight, b"(")?;
            print_args(alloc, out, args.as_slice())?;
            out.put(Gap::Tight, b")")?;
            Ok(())
        }
    }
}

/// `name = ` and where the value comes from, to the semicolon.
fn print_assigned(
    alloc: Global,
    out: &mut Layout,
    gap: Gap,
    name: &[u8],
    from: &Source,
) -> Result<(), OutOfMemory>
    ensures { OnOk result (Grows out.old.text.items out.new.text.items (name.now ∷ codes "=" ∷ (source_lexemes from.now ++ codes ";" ∷ []))) }
{
    out.put(gap, name)?;
    out.put(Gap::Space, b"=")?;
    print_source(alloc, out, from)?;
    out.put(Gap::Tight, b";")?;
    Ok(())
}

/// `= ` and an expression, to the semicolon.
fn print_value(alloc: Global, out: &mut Layout, from: &Expr) -> Result<(), OutOfMemory>
    ensures { OnOk result (Grows out.old.text.items out.new.text.items (codes "=" ∷ (expr_lexemes from.now ++ codes ";" ∷ []))) }
{
    out.put(Gap::Space, b"=")?;
    print_expr(alloc, out, Gap::Space, from)?;
    out.put(Gap::Tight, b";")?;
    Ok(())
}

/// `const uint8_t *name`
pub fn print_read_pointer(out: &mut Layout, gap: Gap, name: &[u8]) -> Result<(), OutOfMemory>
    ensures { OnOk result (Grows out.old.text.items out.new.text.items (codes "const" ∷ codes "uint8_t" ∷ codes "*" ∷ name.now ∷ [])) }
{
    out.put(gap, b"const")?;
    out.put(Gap::Space, b"uint8_t")?;
    out.put_before(Gap::Space, b"*")?;
    out.put(Gap::Tight, name)?;
    Ok(())
}

/// `name[index] = (uint8_t)from;`
fn print_store(
    alloc: Global,
    out: &mut Layout,
    name: &[u8],
    index: &Expr,
    from: &Expr,
) -> Result<(), OutOfMemory>
    ensures { OnOk result (Grows out.old.text.items out.new.text.items (name.now ∷ codes "[" ∷ (expr_lexemes index.now ++ codes "]" ∷ codes "=" ∷ codes "(" ∷ codes "uint8_t" ∷ codes ")" ∷ (expr_lexemes from.now ++ codes ";" ∷ [])))) }
{
    out.put(Gap::Line, name)?;
    out.put_before(Gap::Tight, b"[")?;
    print_expr(alloc, out, Gap::Tight, index)?;
    out.put(Gap::Tight, b"]")?;
    out.put(Gap::Space, b"=")?;
    out.put_before(Gap::Space, b"(")?;
    out.put(Gap::Tight, b"uint8_t")?;
    out.put_before(Gap::Tight, b")")?;
    print_expr(alloc, out, Gap::Tight, from)?;
    out.put(Gap::Tight, b";")?;
    Ok(())
}

/// `for (uint64_t name = 0ull; name < bound; name += 1ull)`
fn print_loop_head(out: &mut Layout, name: &[u8], bound: &[u8]) -> Result<(), OutOfMemory>
    ensures { OnOk result (Grows out.old.text.items out.new.text.items (codes "for" ∷ codes "(" ∷ codes "uint64_t" ∷ name.now ∷ codes "=" ∷ codes "0ull" ∷ codes ";" ∷ name.now ∷ codes "<" ∷ bound.now ∷ codes ";" ∷ name.now ∷ codes "+=" ∷ codes "1ull" ∷ codes ")" ∷ [])) }
{
    print_loop_start(out, name)?;
    print_loop_end(out, name, bound)?;
    Ok(())
}

fn print_loop_start(out: &mut Layout, name: &[u8]) -> Result<(), OutOfMemory>
    ensures { OnOk result (Grows out.old.text.items out.new.text.items (codes "for" ∷ codes "(" ∷ codes "uint64_t" ∷ name.now ∷ codes "=" ∷ codes "0ull" ∷ codes ";" ∷ [])) }
{
    out.put(Gap::Line, b"for")?;
    out.put_before(Gap::Space, b"(")?;
    out.put(Gap::Tight, b"uint64_t")?;
    out.put(Gap::Space, name)?;
    out.put(Gap::Space, b"=")?;
    out.put(Gap::Space, b"0ull")?;
    out.put(Gap::Tight, b";")?;
    Ok(())
}

fn print_loop_end(out: &mut Layout, name: &[u8], bound: &[u8]) -> Result<(), OutOfMemory>
    ensures { OnOk result (Grows out.old.text.items out.new.text.items (name.now ∷ codes "<" ∷ bound.now ∷ codes ";" ∷ name.now ∷ codes "+=" ∷ codes "1ull" ∷ codes ")" ∷ [])) }
{
    out.put(Gap::Space, name)?;
    out.put(Gap::Space, b"<")?;
    out.put(Gap::Space, bound)?;
    out.put(Gap::Tight, b";")?;
    out.put(Gap::Space, name)?;
    out.put(Gap::Space, b"+=")?;
    out.put(Gap::Space, b"1ull")?;
    out.put(Gap::Tight, b")")?;
    Ok(())
}

/// Puts the statements of a block behind the text, each on a line of its own.
#[cycle(statements)]
pub fn print_stmts(alloc: Global, out: &mut Layout, stmts: &[Stmt]) -> Result<(), OutOfMemory>
    ensures { OnOk result (Grows out.old.text.items out.new.text.items (stmts_lexemes stmts.now)) }
{
    for stmt in stmts {
        print_stmt(alloc, out, stmt)?;
    }
    Ok(())
}

/// `{`, the statements, `}`
#[cycle(statements)]
pub fn print_block(alloc: Global, out: &mut Layout, stmts: &[Stmt]) -> Result<(), OutOfMemory>
    ensures { OnOk result (Grows out.old.text.items out.new.text.items (codes "{" ∷ (stmts_lexemes stmts.now ++ codes "}" ∷ []))) }
{
    out.open()?;
    print_stmts(alloc, out, stmts)?;
    out.close(stmts.is_empty())?;
    Ok(())
}

#[cycle(statements)]
fn print_stmt(alloc: Global, out: &mut Layout, stmt: &Stmt) -> Result<(), OutOfMemory>
    ensures { OnOk result (Grows out.old.text.items out.new.text.items (stmt_lexemes stmt.now)) }
{
    match stmt {
        Stmt::Number { name, from } => {
            out.put(Gap::Line, b"uint64_t")?;
            print_assigned(alloc, out, Gap::Space, name.as_slice(), from)?;
            Ok(())
        }
        Stmt::Pointer { name, from } => {
            print_read_pointer(out, Gap::Line, name.as_slice())?;
            print_value(alloc, out, from)?;
            Ok(())
        }
        Stmt::Assign { name, from } => {
            print_assigned(alloc, out, Gap::Line, name.as_slice(), from)?;
            Ok(())
        }
        Stmt::Store { name, index, from } => {
            print_store(alloc, out, name.as_slice(), index, from)?;
            Ok(())
        }
        Stmt::SetCell { name, cell, from } => {
            out.put(Gap::Line, name.as_slice())?;
            out.put_before(Gap::Tight, b"->")?;
            out.put(Gap::Tight, cell.as_slice())?;
            print_value(alloc, out, from)?;
            Ok(())
        }
        Stmt::If { test, yes, no } => {
            out.put(Gap::Line, b"if")?;
            print_expr(alloc, out, Gap::Space, test)?;
            print_block(alloc, out, yes.as_slice())?;
            out.put(Gap::Space, b"else")?;
            print_block(alloc, out, no.as_slice())?;
            Ok(())
        }
        Stmt::For { name, bound, body } => {
            print_loop_head(out, name.as_slice(), bound.as_slice())?;
            print_block(alloc, out, body.as_slice())?;
            Ok(())
        }
        Stmt::Return(from) => {
            out.put(Gap::Line, b"return")?;
            print_expr(alloc, out, Gap::Space, from)?;
            out.put(Gap::Tight, b";")?;
            Ok(())
        }
    }
}
