//! The functions and structs of a program by their names.

ghost use Rattle.std.specs.Prelude.{◌≡◌, ◌<◌, ◌^◌, [], ◌∷◌, ◌++◌, IfOk, OnOk, if◌then◌else◌, bytes_eq, length, take, slice_get, Some, None};
ghost use Rattle.std.specs.Option.{option_copied};
ghost use Rattle.ecd_cast.specs.Memory.{Name};
ghost use Rattle.ecd_cast.specs.Kinds.{cell_of};
ghost use Rattle.ecd_cast.specs.Validity.{is_among, struct_names, function_names};
ghost use Rattle.ecd_cast.specs.ByName.{under};
ghost use Rattle.ecd_cscope.specs.Surroundings.{Directs, HasCells, Surrounds, structs_before, IsFound, function_in};
ghost use Rattle.ecd_cscope.specs.Variables.{kind_if};

use crate::by_name::put_first;
use crate::cells::{Cells, cells_by_item};
use crate::kind::Kind;
use ecd_cast::tree::{CItem, Function};
use ecd_list::OutOfMemory;
use std::alloc::Global;
use std::collections::BTreeMap;

/// Item numbers under names.
type Numbers = BTreeMap<Vec<u8>, u32>;

/// The number of the first function, and of the first struct, of each name; and the cells of each item.
#[derive(Debug, Drop)]
pub struct Directory {
    functions: Numbers,
    structs: Numbers,
    cells: Vec<Cells>,
}

/// What stands round the item that is judged.
#[derive(Clone, Copy)]
pub struct Surroundings<'a> {
    pub alloc: Global,
    pub items: &'a [CItem],
    pub directory: &'a Directory,
    /// The item's number.
    pub at_: u32,
}

/// A function that is called, and whether it stands before the one that calls.
#[derive(Clone, Copy)]
pub struct Found<'a> {
    pub function: &'a Function,
    pub is_earlier: bool,
}

impl Directory {
    /// The directory of these items.
    pub fn of(alloc: Global, items: &[CItem]) -> Result<Directory, OutOfMemory>
        requires { length items.now < 2 ^ 32 }
        ensures directs { IfOk result (λ d. Directs items.now d) }
        ensures cells { IfOk result (λ d. HasCells items.now d.cells.items) }
    {
        let mut directory = Directory {
            functions: BTreeMap::new(alloc),
            structs: BTreeMap::new(alloc),
            cells: cells_by_item(alloc, items)?,
        };
        let mut at = 0u32;
        for item in items {
            match item {
                CItem::Struct(declaration) => {
                    put_first(
                        alloc,
                        &mut directory.structs,
                        declaration.name.as_slice(),
                        at,
                    )?;
                }
                CItem::Function(function) => {
                    put_first(
                        alloc,
                        &mut directory.functions,
                        function.name.as_slice(),
                        at,
                    )?;
                }
            }
            at += 1;
        }
        Ok(directory)
    }
}

impl<'a> Surroundings<'a> {
    /// Whether a struct of this name stands before the item.
    pub fn knows_struct(&self, name: &[u8]) -> bool
        requires { Surrounds self.now }
        ensures { result ≡ is_among (struct_names (take self.now.at_ self.now.items.now)) name.now }
    {
        match self.directory.structs.get(name) {
            Some(number) => *number < self.at_,
            None => false,
        }
    }

    /// Whether a function of this name stands before the item.
    pub fn knows_function(&self, name: &[u8]) -> bool
        requires { Surrounds self.now }
        ensures { result ≡ is_among (function_names (take self.now.at_ self.now.items.now)) name.now }
    {
        match self.directory.functions.get(name) {
            Some(number) => *number < self.at_,
            None => false,
        }
    }

    /// The kind of the cell of a struct that stands before the item.
    pub fn cell(&self, name: &[u8], cell: &[u8]) -> Option<Kind<'a>>
        requires { Surrounds self.now }
        ensures { kind_if result ≡ cell_of (structs_before self.now) name.now cell.now }
    {
        let number = *self.directory.structs.get(name)?;
        if number >= self.at_ {
            return None;
        }
        let cells = cells_numbered(self.directory.cells.as_slice(), number)?;
        let kind = cells.get(cell)?;
        Some(Kind::of_cell(*kind))
    }

    /// The function of this name in the whole file.
    pub fn function(&self, name: &[u8]) -> Option<Found<'a>>
        requires { Surrounds self.now }
        ensures { IsFound self.now name.now result }
    {
        let number = *self.directory.functions.get(name)?;
        let function = function_numbered(self.items, number)?;
        Some(Found {
            function,
            is_earlier: number < self.at_,
        })
    }
}

/// The cells of the item of this number.
fn cells_numbered<'a>(cells: &'a [Cells], number: u32) -> Option<&'a Cells>
    ensures { option_copied result ≡ slice_get cells.now number }
{
    cells.get(number as usize)
}

/// The function of this item number.
fn function_numbered<'a>(items: &'a [CItem], number: u32) -> Option<&'a Function>
    ensures { option_copied result ≡ function_in (slice_get items.now number) }
{
    match items.get(number as usize) {
        Some(CItem::Function(function)) => Some(function),
        Some(CItem::Struct(_)) | None => None,
    }
}
