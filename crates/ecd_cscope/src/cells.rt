//! The cells of structs by their names.

ghost use Rattle.std.specs.Prelude.{◌≡◌, IfOk};
ghost use Rattle.ecd_cast.specs.Memory.{Name};
ghost use Rattle.ecd_cast.specs.ByName.{under};
ghost use Rattle.ecd_cast.specs.Kinds.{cell_among};
ghost use Rattle.ecd_cscope.specs.Surroundings.{cell_if, cells_in, struct_in, HasCells};

use crate::by_name::put_first;
use ecd_cast::tree::{CItem, CellInfo, CellKind};
use ecd_list::OutOfMemory;
use std::alloc::Global;
use std::collections::BTreeMap;

/// What the first cell of each name holds.
pub(crate) type Cells = BTreeMap<Vec<u8>, CellKind>;

/// The cells of one struct.
fn cells_by_name(alloc: Global, cells: &[CellInfo]) -> Result<Cells, OutOfMemory>
    ensures { IfOk result (λ m. (c : Name) → cell_if (under m c) ≡ cell_among cells.now c) }
{
    let mut by_name = BTreeMap::new(alloc);
    for cell in cells {
        put_first(alloc, &mut by_name, cell.name.as_slice(), cell.kind)?;
    }
    Ok(by_name)
}

/// The cells of one item: those of a function are none.
fn cells_of_item(alloc: Global, item: &CItem) -> Result<Cells, OutOfMemory>
    ensures { IfOk result (λ m. (c : Name) → cell_if (under m c) ≡ cells_in (struct_in (Some item.now)) c) }
{
    match item {
        CItem::Struct(declaration) => cells_by_name(alloc, declaration.cells.as_slice()),
        CItem::Function(_) => Ok(BTreeMap::new(alloc)),
    }
}

/// The cells of each item.
pub(crate) fn cells_by_item(alloc: Global, items: &[CItem]) -> Result<Vec<Cells>, OutOfMemory>
    ensures { IfOk result (λ maps. HasCells items.now maps.items) }
{
    let mut maps = Vec::new(alloc);
    for item in items {
        maps.push(cells_of_item(alloc, item)?)?;
    }
    Ok(maps)
}
