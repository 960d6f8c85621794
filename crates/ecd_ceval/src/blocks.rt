//! The blocks of a machine's memory, read and written.

ghost use Rattle.std.specs.Prelude.{◌≡◌, ◌+◌, List, slice_get, nat_le, if◌then◌else◌, map, length, MatchOption, MatchBool, IfSome};
ghost use Rattle.ecd_cast.specs.declared.tree.StructDecl.{StructDecl as Declaration};
ghost use Rattle.ecd_cast.specs.Expressions as meaning;
ghost use Rattle.ecd_cast.specs.Fitting as fitting;
ghost use Rattle.ecd_cast.specs.declared.value.Value.TheVariants.{Bytes as Ptr};
ghost use Rattle.ecd_cast.specs.Expressions.{Gives, Fails};
ghost use Rattle.ecd_ceval.specs.Outcomes.{outcome};
ghost use Rattle.ecd_cast.specs.Memory.{WritesByte, WritesCell};
ghost use Rattle.ecd_ceval.specs.Blocks.{memory_of, kind_of, named, AreAllHeld};
ghost use Rattle.ecd_ceval.specs.Writes.{IsNoCell, IsFirstCell, byte_outcome, stored, IsWritten, MayWrite, HasCell, CellHolds};
ghost use Rattle.ecd_ceval.specs.Machines.{set_in};

use crate::reason::{Outcome, Reason};
use ecd_cast::tree::{CellInfo, CellKind, StructDecl};
use ecd_cast::value::{Cell, Value};

/// A block of a machine.
#[derive(Debug, Drop)]
pub enum Held<'a> {
    /// Bytes of someone else, which no program writes.
    Fixed(&'a [u8]),
    /// Bytes that a program may write.
    Output(Vec<u8>),
    /// The cells of the struct of this number.
    Cells {
        number: u32,
        declaration: &'a StructDecl,
        cells: Vec<Cell>,
    },
}

fn byte_at(bytes: &[u8], offset: u64, index: u64) -> Outcome
    ensures { outcome result ≡ meaning.given_byte (slice_get bytes.now (offset + index)) }
{
    let Some(place) = offset.checked_add(index) else {
        return Err(Reason::Read);
    };
    match bytes.get(place as usize) {
        Some(byte) => Ok(Value::Number(*byte as u64)),
        None => Err(Reason::Read),
    }
}

/// The byte that a pointer and an index name.
pub fn load(blocks: &[Held<'_>], pointer: Value, index: Value) -> Outcome
    ensures { outcome result ≡ meaning.load (memory_of blocks.now) pointer index }
{
    match (pointer, index) {
        (Value::Bytes { block, offset }, Value::Number(i)) => match blocks.get(block as usize) {
            Some(Held::Fixed(bytes)) => byte_at(bytes, offset, i),
            Some(Held::Output(bytes)) => byte_at(bytes.as_slice(), offset, i),
            _ => Err(Reason::Rule),
        },
        _ => Err(Reason::Rule),
    }
}

fn end_within(length: usize, block: u32, offset: u64, by: u64) -> Outcome
    ensures { outcome result ≡ (if nat_le (offset + by) length then Gives (Ptr block (offset + by)) else Fails 3) }
{
    match offset.checked_add(by) {
        Some(end) if end <= length as u64 => Ok(Value::Bytes { block, offset: end }),
        _ => Err(Reason::Move),
    }
}

/// A pointer moved forward.
pub fn moved(blocks: &[Held<'_>], block: u32, offset: u64, by: u64) -> Outcome
    ensures { outcome result ≡ meaning.moved (slice_get (memory_of blocks.now) block) block offset by }
{
    match blocks.get(block as usize) {
        Some(Held::Fixed(bytes)) => end_within(bytes.len(), block, offset, by),
        Some(Held::Output(bytes)) => end_within(bytes.len(), block, offset, by),
        _ => Err(Reason::Rule),
    }
}

fn cell_value(cell: Cell) -> Outcome
    ensures { outcome result ≡ meaning.held cell }
{
    match cell {
        Cell::Unset => Err(Reason::Unset),
        Cell::Number(number) => Ok(Value::Number(number)),
        Cell::Bytes { block, offset } => Ok(Value::Bytes { block, offset }),
    }
}

/// The place of the first cell of a name.
fn place_of(infos: &[CellInfo], name: &[u8]) -> Option<usize>
    ensures { MatchOption result (IsNoCell name.now infos.now) (λ at. IsFirstCell name.now infos.now at) }
{
    for (at, info) in infos.iter().enumerate() {
        if info.name.as_slice() == name {
            return Some(at);
        }
    }
    None
}

fn cell_named(infos: &[CellInfo], cells: &[Cell], name: &[u8]) -> Outcome
    ensures { outcome result ≡ meaning.cell_named (named infos.now cells.now) name.now }
{
    match place_of(infos, name) {
        Some(at) => match cells.get(at) {
            Some(cell) => cell_value(*cell),
            None => Err(Reason::Rule),
        },
        None => Err(Reason::Rule),
    }
}

/// What the cell of a name of a struct holds.
pub fn cell(blocks: &[Held<'_>], name: &[u8], owner: Value) -> Outcome
    ensures { outcome result ≡ meaning.cell (memory_of blocks.now) name.now owner }
{
    match owner {
        Value::Struct { block } => match blocks.get(block as usize) {
            Some(
                Held::Cells {
                    declaration,
                    cells,
                    ..
                },
            ) => { cell_named(declaration.cells.as_slice(), cells.as_slice(), name) }
            _ => Err(Reason::Rule),
        },
        _ => Err(Reason::Rule),
    }
}

/// A byte to be written.
#[derive(Clone, Copy, Debug)]
pub struct ByteWrite {
    pub block: u32,
    pub at: u64,
    pub byte: u8,
}

/// The write of a value through a pointer at an index: its low 8 bits.
pub fn byte_write(
    blocks: &[Held<'_>],
    pointer: Value,
    index: Value,
    value: Value,
) -> Result<ByteWrite, Reason>
    ensures { byte_outcome result ≡ stored (memory_of blocks.now) pointer index value }
{
    let (Value::Bytes { block, offset }, Value::Number(index), Value::Number(value)) = (
        pointer, index, value,
    ) else {
        return Err(Reason::Rule);
    };
    let length = match blocks.get(block as usize) {
        Some(Held::Fixed(bytes)) => bytes.len(),
        Some(Held::Output(bytes)) => bytes.len(),
        _ => return Err(Reason::Rule),
    };
    match offset.checked_add(index) {
        Some(at) if at < length as u64 => Ok(ByteWrite {
            block,
            at,
            byte: (value % 256) as u8,
        }),
        _ => Err(Reason::Write),
    }
}

/// Writes a byte, or answers that it is none of an output's.
pub fn write_byte(blocks: &mut [Held<'_>], write: ByteWrite) -> bool
    ensures { MatchBool result (IsWritten (WritesByte write.block write.at write.byte) blocks.old blocks.new) (blocks.new ≡ blocks.old) }
{
    let block = write.block as usize;
    if block >= blocks.len() {
        return false;
    }
    match &mut blocks[block] {
        Held::Output(bytes) => {
            let at = write.at as usize;
            if at >= bytes.len() {
                return false;
            }
            bytes[at] = write.byte;
            true
        }
        _ => false,
    }
}

/// Whether a pointer may point there: into a block of bytes, at most to its end.
pub fn is_place(blocks: &[Held<'_>], block: u32, offset: u64) -> bool
    ensures { result ≡ fitting.is_place (memory_of blocks.now) block offset }
{
    match blocks.get(block as usize) {
        Some(Held::Fixed(bytes)) => offset <= bytes.len() as u64,
        Some(Held::Output(bytes)) => offset <= bytes.len() as u64,
        _ => false,
    }
}

/// Whether a cell of a kind may hold this.
pub fn may_hold(blocks: &[Held<'_>], kind: CellKind, cell: Cell) -> bool
    ensures { result ≡ fitting.may_hold (memory_of blocks.now) kind cell }
{
    match cell {
        Cell::Unset => true,
        Cell::Number(_) => match kind {
            CellKind::Number => true,
            CellKind::Pointer => false,
        },
        Cell::Bytes { block, offset } => match kind {
            CellKind::Number => false,
            CellKind::Pointer => is_place(blocks, block, offset),
        },
    }
}

/// The place of the cell of a name in a block, where the cell may hold this.
fn cell_to_write(blocks: &[Held<'_>], block: u32, name: &[u8], to: Cell) -> Option<usize>
    ensures { IfSome result (λ at. MayWrite blocks.now block name.now to at) }
{
    match blocks.get(block as usize) {
        Some(Held::Cells { declaration, .. }) => {
            let infos = declaration.cells.as_slice();
            let at = place_of(infos, name)?;
            match infos.get(at) {
                Some(info) if may_hold(blocks, info.kind, to) => Some(at),
                _ => None,
            }
        }
        _ => None,
    }
}

/// Writes a cell, or answers that the block has none of that name which may hold this.
pub fn write_cell(blocks: &mut [Held<'_>], block: u32, name: &[u8], to: Cell) -> bool
    ensures { MatchBool result (IsWritten (WritesCell block name.now to) blocks.old blocks.new) (blocks.new ≡ blocks.old) }
{
    let Some(at) = cell_to_write(blocks, block, name, to) else {
        return false;
    };
    let block = block as usize;
    if block >= blocks.len() {
        return false;
    }
    match &mut blocks[block] {
        Held::Cells { cells, .. } => {
            if at >= cells.len() {
                return false;
            }
            cells[at] = to;
            true
        }
        _ => false,
    }
}

/// Sets the cell of a number, where the block has one.
pub fn set_cell(blocks: &mut Vec<Held<'_>>, block: u32, cell: u32, to: Cell)
    requires { HasCell blocks.old.items block cell }
    ensures memory { memory_of blocks.new.items ≡ set_in (slice_get (memory_of blocks.old.items) block) cell to (memory_of blocks.old.items) block }
    ensures kinds { map kind_of blocks.new.items ≡ map kind_of blocks.old.items }
    ensures kept { (structs : List Declaration) → CellHolds blocks.old.items block cell to → AreAllHeld structs blocks.old.items → AreAllHeld structs blocks.new.items }
{
    match &mut blocks[block as usize] {
        Held::Cells { cells, .. } => cells[cell as usize] = to,
        _ => unreachable!(),
    }
}
