//! Machines: a program, its memory, and calls.

ghost use Rattle.std.specs.Prelude.{◌≡◌, ◌↔◌, IsTrue, IfOk, Some, slice_get, map, length, replicate};
ghost use Rattle.ecd_cast.specs.declared.value.Cell.TheVariants.{Unset};
ghost use Rattle.ecd_cast.specs.Validity.{structs_of};
ghost use Rattle.ecd_cast.specs.Fitting.{Fits, IsWellKinded, Output};
ghost use Rattle.ecd_cast.specs.Memory.{Bytes};
ghost use Rattle.ecd_ceval.specs.Machines.{IsNumbered, IsHeldAs, AreNumbered, kind_given, block_given, value_of_arg, meaning, Answers, Stays, IsOfCells, cells_in, AreNamed, MaySet, set_in, CanView, viewed};

use crate::blocks::{Held, set_cell};
use crate::calls::run;
use crate::fitting::{item_takes, struct_at};
use crate::meter::Meter;
use crate::state::State;
use ecd_cast::tree::{CItem, StructDecl};
use ecd_cast::value::Cell;
use ecd_cbuild::builder::Valid;
use ecd_list::{ByteList, List, OutOfMemory};
use std::alloc::Global;
use std::marker::Model;
use thiserror::Error;

/// A block of memory, as a machine is given it.
#[derive(Debug, Drop)]
pub enum Block<'a> {
    /// Bytes that a program reads.
    Fixed(&'a [u8]),
    /// Bytes that a program may write, too.
    Output(ByteList),
    /// The cells of the struct of this number, counted among the structs of the program in text order, all unset.
    Cells(u32),
}

/// The blocks of a machine, numbered from 0.
pub type BlockList<'a> = List<Block<'a>>;

/// An argument of a call.
#[derive(Clone, Copy, Debug, PartialEq, Eq)]
pub enum Arg {
    Number(u64),
    /// A pointer: the number of a block of bytes, and an offset from 0 to its length.
    Bytes { block: u32, offset: u64 },
    /// The number of a block of cells.
    Struct { block: u32 },
}

/// Why a call returned no number.
#[derive(Clone, Copy, Debug, PartialEq, Eq, Error)]
pub enum Halt {
    /// The statement does what has no meaning: the reason's number, its item, its number in its function.
    #[error("stuck {reason} item {item} statement {statement}")]
    Stuck {
        reason: u8,
        item: u32,
        statement: u32,
    },
    /// The limit is reached: the steps that were taken.
    #[error("spent {steps}")]
    Spent {
        steps: u64,
    },
    /// Want of memory behind so many steps, or behind more than 2^64 - 1.
    #[error("out of memory")]
    OutOfMemory {
        steps: u64,
    },
}

/// A program with a memory of its own.
#[derive(Debug, Drop)]
pub struct Machine<'a> {
    alloc: Global,
    program: &'a Valid,
    state: State<'a>,
}

impl<'a> Model for Machine<'a> {
    ghost use Rattle.std.specs.Prelude.{map};
    ghost use Rattle.ecd_ceval.specs.Machines.{Seen};
    ghost use Rattle.ecd_cast.specs.contracts.tree.Program as file;
    ghost use Rattle.std.specs.Coded.{codes};

    ghost Value = { Seen };

    ghost coded = { Prim.hlevel (codes, file.the_row.coded) };

    ghost use Rattle.ecd_ceval.specs.Blocks.{memory_of, kind_of};
    ghost use Rattle.ecd_ceval.specs.Blocks.{AreAllHeld};
    ghost use Rattle.ecd_cast.specs.Validity.{structs_of};

    ghost view = { λ m. record { program = m.program.now; kinds = map kind_of m.state.blocks.items; memory = memory_of m.state.blocks.items } };

    ghost invariant = { λ m. AreAllHeld (structs_of m.program.now.items) m.state.blocks.items };
}

/// The cells of a struct, all unset.
fn unset_cells(alloc: Global, declaration: &StructDecl) -> Result<Vec<Cell>, OutOfMemory>
    ensures { IfOk result (λ cells. cells.items ≡ replicate (length declaration.now.cells) Unset) }
{
    let cells = vec![in alloc; Cell::Unset; declaration.cells.len()]?;
    Ok(cells)
}

/// A block, as the machine holds it.
fn hold<'a>(alloc: Global, items: &'a [CItem], block: Block<'a>) -> Result<Held<'a>, OutOfMemory>
    requires { IsNumbered (structs_of items.now) block }
    ensures { IfOk result (λ held. IsHeldAs (structs_of items.entry.now) block.entry held) }
{
    match block {
        Block::Fixed(bytes) => Ok(Held::Fixed(bytes)),
        Block::Output(bytes) => Ok(Held::Output(bytes.into_vec())),
        Block::Cells(number) => match struct_at(items, number) {
            Some(declaration) => {
                let cells = unset_cells(alloc, declaration)?;
                Ok(Held::Cells {
                    number,
                    declaration,
                    cells,
                })
            }
            None => unreachable!(),
        },
    }
}

impl<'a> Machine<'a> {
    /// A machine for a program, with these blocks.
    ///
    /// Each `Cells` names a struct of the program.
    pub fn prepare(
        alloc: Global,
        program: &'a Valid,
        blocks: BlockList<'a>,
    ) -> Result<Machine<'a>, OutOfMemory>
        requires { AreNumbered (structs_of program.now.items) blocks }
        ensures { IfOk result (λ m. m ≡ record { program = program.entry.now; kinds = map kind_given blocks.entry; memory = map (block_given (structs_of program.entry.now.items)) blocks.entry }) }
    {
        let items = program.program().items.as_slice();
        let mut held = Vec::new(alloc);
        for block in blocks.into_vec() {
            held.push(hold(alloc, items, block)?)?;
        }
        Ok(Machine {
            alloc,
            program,
            state: State {
                blocks: held,
                meter: Meter::Taken(0),
            },
        })
    }

    /// The program that it was prepared with.
    pub fn program(&self) -> &'a Valid
        ensures same { result.now ≡ self.now.program }
        ensures kinded { IsWellKinded self.now.program.items self.now.kinds self.now.memory }
    {
        self.program
    }

    /// Whether an item is a function that takes these arguments: as many as its parameters, each of its parameter's kind.
    pub fn fits(&self, function: u32, args: &[Arg]) -> bool
        ensures fits { IsTrue result ↔ Fits self.now.program.items self.now.kinds self.now.memory function (map value_of_arg args.now) }
        ensures kinded { IsWellKinded self.now.program.items self.now.kinds self.now.memory }
    {
        let items = self.program.program().items.as_slice();
        item_takes(items, &self.state.blocks, function, args)
    }

    /// Calls a function, with a limit on its steps.
    ///
    /// It fits. Behind a `Halt` the memory is what the program made of it by then, and calls may follow.
    ///
    /// # Errors
    ///
    /// `Stuck` exactly where the function is stuck there within the limit, `Spent` exactly where it takes more steps
    /// than the limit; want of memory may stand in place of any answer.
    pub fn call(&mut self, function: u32, args: &[Arg], limit: Option<u64>) -> Result<u64, Halt>
        requires { Fits self.old.program.items self.old.kinds self.old.memory function (map value_of_arg args.now) }
        ensures answers { Answers (meaning self.old.program.items function (map value_of_arg args.now) self.old.memory) limit result self.old.memory self.new.memory }
        ensures stays { Stays self.old self.new }
        ensures kinded { IsWellKinded self.new.program.items self.new.kinds self.new.memory }
    {
        let items = self.program.program().items.as_slice();
        run(self.alloc, items, function, args, limit, &mut self.state)
    }

    /// What the cells of a block hold, in the order of their struct.
    ///
    /// The block holds cells.
    pub fn cells(&self, block: u32) -> &[Cell]
        requires { IsOfCells (slice_get self.now.kinds block) }
        ensures cells { result.now ≡ cells_in (slice_get self.now.memory block) }
        ensures named { AreNamed (structs_of self.now.program.items) (slice_get self.now.kinds block) result.now (slice_get self.now.memory block) }
        ensures kinded { IsWellKinded self.now.program.items self.now.kinds self.now.memory }
    {
        match self.state.blocks.get(block as usize) {
            Some(Held::Cells { cells, .. }) => cells.as_slice(),
            _ => unreachable!(),
        }
    }

    /// Sets a cell.
    ///
    /// The block holds cells, and this is one of them; a number is for a number's cell, and a pointer for a pointer's,
    /// into a block of bytes that is there, at most to its end.
    pub fn set(&mut self, block: u32, cell: u32, to: Cell)
        requires { MaySet (structs_of self.old.program.items) self.old.memory (slice_get self.old.kinds block) cell to }
        ensures { self.new ≡ record self.old { memory = set_in (slice_get self.old.memory block) cell to self.old.memory block } }
    {
        set_cell(&mut self.state.blocks, block, cell, to);
    }

    /// So many bytes where a cell points to. They are the buffer's own.
    ///
    /// The block holds cells, and the cell points into a `Fixed` block, with so many bytes left.
    pub fn view(&self, block: u32, cell: u32, length: u64) -> &'a [u8]
        requires cells { IsOfCells (slice_get self.now.kinds block) }
        requires bytes { CanView self.now.kinds self.now.memory (slice_get (cells_in (slice_get self.now.memory block)) cell) length }
        ensures { result.now ≡ viewed self.now.memory (slice_get (cells_in (slice_get self.now.memory block)) cell) length }
    {
        match self.cells(block).get(cell as usize) {
            Some(Cell::Bytes { block, offset }) => {
                match self.state.blocks.get(*block as usize) {
                    Some(Held::Fixed(bytes)) => {
                        let start = *offset as usize;
                        &bytes[start..start + length as usize]
                    }
                    _ => unreachable!(),
                }
            }
            _ => unreachable!(),
        }
    }

    /// The bytes of an `Output` block.
    pub fn output(&self, block: u32) -> &[u8]
        requires { slice_get self.now.kinds block ≡ Some Output }
        ensures { slice_get self.now.memory block ≡ Some (Bytes result.now) }
    {
        match self.state.blocks.get(block as usize) {
            Some(Held::Output(bytes)) => bytes.as_slice(),
            _ => unreachable!(),
        }
    }
}
