//! What a C function answered and the cells of its struct, as text.

ghost use Rattle.std.specs.Prelude.{◌≡◌, ◌++◌, flat_map, OnOk, IfOk};
ghost use Rattle.ecd_ceval.specs.Blocks.{named};
ghost use Rattle.ecd_commands.specs.Calls.{cell_line, result_text as text_meant};

use ecd_cast::tree::CellInfo;
use ecd_cast::value::Cell;
use ecd_list::{ByteList, OutOfMemory};
use itoa::Buffer;
use std::alloc::Global;

/// Appends `NAME = VALUE` or `NAME unset`.
fn push_line(text: &mut Vec<u8>, name: &[u8], cell: Cell) -> Result<(), OutOfMemory>
    ensures { OnOk result (text.new.items ≡ text.old.items ++ cell_line (name.now, cell)) }
{
    text.extend_from_slice(name)?;
    match cell {
        Cell::Unset => text.extend_from_slice(b" unset\n")?,
        Cell::Number(number) => {
            text.extend_from_slice(b" = ")?;
            text.extend_from_slice(Buffer::new().format(number).as_bytes())?;
            text.extend_from_slice(b"\n")?;
        }
        Cell::Bytes { offset, .. } => {
            text.extend_from_slice(b" = data+")?;
            text.extend_from_slice(Buffer::new().format(offset).as_bytes())?;
            text.extend_from_slice(b"\n")?;
        }
    }
    Ok(())
}

/// Appends a line for each cell.
fn push_cells(
    text: &mut Vec<u8>,
    mut infos: &[CellInfo],
    mut cells: &[Cell],
) -> Result<(), OutOfMemory>
    ensures { OnOk result (text.new.items ≡ text.old.items ++ flat_map cell_line (named infos.entry.now cells.entry.now)) }
{
    while let [info, others @ ..] = infos {
        let [cell, more @ ..] = cells else {
            return Ok(());
        };
        push_line(text, info.name.as_slice(), *cell)?;
        infos = others;
        cells = more;
    }
    Ok(())
}

/// `result N`, and then a line for each cell in order.
pub fn result_text(
    alloc: Global,
    number: u64,
    infos: &[CellInfo],
    cells: &[Cell],
) -> Result<ByteList, OutOfMemory>
    ensures { IfOk result (λ text. text ≡ text_meant number (named infos.now cells.now)) }
{
    let mut text = Vec::new(alloc);
    text.extend_from_slice(b"result ")?;
    text.extend_from_slice(Buffer::new().format(number).as_bytes())?;
    text.extend_from_slice(b"\n")?;
    push_cells(&mut text, infos, cells)?;
    Ok(ByteList::from_vec(text))
}
