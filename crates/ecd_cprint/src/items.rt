//! Structs, functions and whole files as text.

ghost use Rattle.std.specs.Prelude.{◌≡◌, [], ◌∷◌, ◌++◌, OnOk, codes, decimal, flat_map};
ghost use Rattle.ecd_cprint.specs.Layout.{Grows};
ghost use Rattle.ecd_cast.specs.declared.tree.CItem.TheVariants.{Function as AFunction};
ghost use Rattle.ecd_cast.specs.Spelling.{param_lexemes, cell_lexemes, item_lexemes, program_lexemes, with_commas};

use crate::layout::{Gap, Layout};
use crate::statements::{print_block, print_read_pointer};
use ecd_cast::tree::{CItem, CellInfo, CellKind, Function, Param, ParamKind, Program, StructDecl};
use ecd_list::OutOfMemory;
use std::alloc::Global;

fn print_cell(out: &mut Layout, cell: &CellInfo) -> Result<(), OutOfMemory>
    ensures { OnOk result (Grows out.old.text.items out.new.text.items (cell_lexemes cell.now)) }
{
    match cell.kind {
        CellKind::Number => {
            out.put(Gap::Line, b"uint64_t")?;
            out.put(Gap::Space, cell.name.as_slice())?;
            out.put(Gap::Tight, b";")?;
            Ok(())
        }
        CellKind::Pointer => {
            print_read_pointer(out, Gap::Line, cell.name.as_slice())?;
            out.put(Gap::Tight, b";")?;
            Ok(())
        }
    }
}

fn print_cells(out: &mut Layout, cells: &[CellInfo]) -> Result<(), OutOfMemory>
    ensures { OnOk result (Grows out.old.text.items out.new.text.items (flat_map cell_lexemes cells.now)) }
{
    for cell in cells {
        print_cell(out, cell)?;
    }
    Ok(())
}

fn print_struct(out: &mut Layout, declaration: &StructDecl) -> Result<(), OutOfMemory>
    ensures { OnOk result (Grows out.old.text.items out.new.text.items (codes "struct" ∷ declaration.now.name ∷ codes "{" ∷ (flat_map cell_lexemes declaration.now.cells ++ codes "}" ∷ codes ";" ∷ []))) }
{
    out.put(Gap::Line, b"struct")?;
    out.put(Gap::Space, declaration.name.as_slice())?;
    out.open()?;
    print_cells(out, declaration.cells.as_slice())?;
    out.close(false)?;
    out.put(Gap::Tight, b";")?;
    Ok(())
}

/// `type *name`
fn print_pointer(out: &mut Layout, gap: Gap, name: &[u8]) -> Result<(), OutOfMemory>
    ensures { OnOk result (Grows out.old.text.items out.new.text.items (codes "*" ∷ name.now ∷ [])) }
{
    out.put_before(gap, b"*")?;
    out.put(Gap::Tight, name)?;
    Ok(())
}

fn print_param(out: &mut Layout, gap: Gap, param: &Param) -> Result<(), OutOfMemory>
    ensures { OnOk result (Grows out.old.text.items out.new.text.items (param_lexemes param.now)) }
{
    let name = param.name.as_slice();
    match &param.kind {
        ParamKind::Number => {
            out.put(gap, b"uint64_t")?;
            out.put(Gap::Space, name)?;
            Ok(())
        }
        ParamKind::ReadPointer => {
            print_read_pointer(out, gap, name)?;
            Ok(())
        }
        ParamKind::WritePointer => {
            out.put(gap, b"uint8_t")?;
            print_pointer(out, Gap::Space, name)?;
            Ok(())
        }
        ParamKind::Struct(declaration) => {
            out.put(gap, b"struct")?;
            out.put(Gap::Space, declaration.as_slice())?;
            print_pointer(out, Gap::Space, name)?;
            Ok(())
        }
    }
}

fn print_params(out: &mut Layout, params: &[Param]) -> Result<(), OutOfMemory>
    ensures { OnOk result (Grows out.old.text.items out.new.text.items (with_commas param_lexemes params.now)) }
{
    let [first, rest @ ..] = params else {
        return Ok(());
    };
    print_param(out, Gap::Tight, first)?;
    for param in rest {
        out.put(Gap::Tight, b",")?;
        print_param(out, Gap::Space, param)?;
    }
    Ok(())
}

fn print_function(alloc: Global, out: &mut Layout, function: &Function) -> Result<(), OutOfMemory>
    ensures { OnOk result (Grows out.old.text.items out.new.text.items (item_lexemes (AFunction function.now))) }
{
    out.put(Gap::Line, b"uint64_t")?;
    out.put(Gap::Space, function.name.as_slice())?;
    out.put_before(Gap::Tight, b"(")?;
    print_params(out, function.params.as_slice())?;
    out.put(Gap::Tight, b")")?;
    print_block(alloc, out, function.body.as_slice())?;
    Ok(())
}

fn print_item(alloc: Global, out: &mut Layout, item: &CItem) -> Result<(), OutOfMemory>
    ensures { OnOk result (Grows out.old.text.items out.new.text.items (item_lexemes item.now)) }
{
    match item {
        CItem::Struct(declaration) => {
            print_struct(out, declaration)?;
            Ok(())
        }
        CItem::Function(function) => {
            print_function(alloc, out, function)?;
            Ok(())
        }
    }
}

fn print_items(alloc: Global, out: &mut Layout, items: &[CItem]) -> Result<(), OutOfMemory>
    ensures { OnOk result (Grows out.old.text.items out.new.text.items (flat_map item_lexemes items.now)) }
{
    for item in items {
        print_item(alloc, out, item)?;
    }
    Ok(())
}

fn print_count(alloc: Global, out: &mut Layout, count: u32) -> Result<(), OutOfMemory>
    ensures { OnOk result (Grows out.old.text.items out.new.text.items (decimal count ∷ [])) }
{
    let text = format!(in alloc; "{count}")?;
    out.put(Gap::Space, text.as_bytes())
}

/// `enum { call_depth = DEPTH };`
fn print_depth(alloc: Global, out: &mut Layout, depth: u32) -> Result<(), OutOfMemory>
    ensures { OnOk result (Grows out.old.text.items out.new.text.items (codes "enum" ∷ codes "{" ∷ codes "call_depth" ∷ codes "=" ∷ decimal depth ∷ codes "}" ∷ codes ";" ∷ [])) }
{
    out.put(Gap::Tight, b"enum")?;
    out.put(Gap::Space, b"{")?;
    out.put(Gap::Space, b"call_depth")?;
    out.put(Gap::Space, b"=")?;
    print_count(alloc, out, depth)?;
    out.put(Gap::Space, b"}")?;
    out.put(Gap::Tight, b";")?;
    Ok(())
}

/// Puts a file behind its first line.
pub fn print_program(alloc: Global, out: &mut Layout, program: &Program) -> Result<(), OutOfMemory>
    ensures { OnOk result (Grows out.old.text.items out.new.text.items (program_lexemes program.now)) }
{
    print_depth(alloc, out, program.depth)?;
    print_items(alloc, out, program.items.as_slice())?;
    Ok(())
}
