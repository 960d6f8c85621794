//! Statements that enter no block and no function.

ghost use Rattle.std.specs.Prelude.{◌≡◌};
ghost use Rattle.ecd_cast.specs.declared.tree.Stmt.TheVariants.{Pointer as DeclPointer, Assign as AnAssign, Store as AStore, SetCell as ASetCell, Return as AReturn};
ghost use Rattle.ecd_cast.specs.declared.tree.Source.TheVariants.{Value as FromValue};
ghost use Rattle.ecd_cast.specs.Meaning.{Calls};
ghost use Rattle.ecd_ceval.specs.Following.{Follows, begun, memory_in};
ghost use Rattle.ecd_ceval.specs.Places.{place_in};
ghost use Rattle.ecd_ceval.specs.Targets.{cell_outcome, cell_stored, byte_stored};
ghost use Rattle.ecd_ceval.specs.Writes.{byte_outcome};
ghost use Rattle.ecd_ceval.specs.Blocks.{memory_of};

use crate::blocks::{ByteWrite, Held, byte_write, write_byte, write_cell};
use crate::context::Context;
use crate::expressions::value_of;
use crate::reason::Reason;
use crate::state::State;
use crate::stop::{Flow, Stop, stuck};
use crate::variables::Variables;
use ecd_cast::tree::Expr;
use ecd_cast::value::{Cell, Value};

/// Declares a variable with the value of an expression.
pub fn declare<'a>(
    context: Context<'a>,
    name: &'a [u8],
    from: &Expr,
    number: u32,
    variables: &mut Variables<'a>,
    state: &mut State<'a>,
) -> Result<Flow, Stop>
    ensures { (calls : Calls) → Follows (begun calls (DeclPointer name.entry.now from.now) (place_in context.entry number) variables.old (memory_in state.old)) result variables.new state.old state.new }
{
    state.tick()?;
    match value_of(from, variables, &state.blocks) {
        Ok(value) => {
            variables.declare(name, value)?;
            Ok(Flow::Falls)
        }
        Err(reason) => Err(stuck(context.item, number, reason)),
    }
}

/// Gives a variable the value of an expression.
pub fn assign<'a>(
    context: Context<'a>,
    name: &'a [u8],
    from: &Expr,
    number: u32,
    variables: &mut Variables<'a>,
    state: &mut State<'a>,
) -> Result<Flow, Stop>
    ensures { (calls : Calls) → Follows (begun calls (AnAssign name.entry.now (FromValue from.now)) (place_in context.entry number) variables.old (memory_in state.old)) result variables.new state.old state.new }
{
    state.tick()?;
    match value_of(from, variables, &state.blocks) {
        Ok(value) => {
            variables.assign(name, value);
            Ok(Flow::Falls)
        }
        Err(reason) => Err(stuck(context.item, number, reason)),
    }
}

/// Returns the value of an expression.
pub fn give<'a>(
    context: Context<'a>,
    from: &Expr,
    number: u32,
    variables: &Variables<'a>,
    state: &mut State<'a>,
) -> Result<Flow, Stop>
    ensures { (calls : Calls) → Follows (begun calls (AReturn from.now) (place_in context.entry number) variables.now (memory_in state.old)) result variables.now state.old state.new }
{
    state.tick()?;
    match value_of(from, variables, &state.blocks) {
        Ok(Value::Number(given)) => Ok(Flow::Returns(given)),
        Ok(_) => Err(stuck(context.item, number, Reason::Rule)),
        Err(reason) => Err(stuck(context.item, number, reason)),
    }
}

/// The byte that a store writes.
fn byte_to_store(
    name: &[u8],
    index: &Expr,
    from: &Expr,
    variables: &Variables<'_>,
    blocks: &[Held<'_>],
) -> Result<ByteWrite, Reason>
    ensures { byte_outcome result ≡ byte_stored name.now index.now from.now variables.now (memory_of blocks.now) }
{
    let pointer = variables.get(name)?;
    let index = value_of(index, variables, blocks)?;
    let value = value_of(from, variables, blocks)?;
    byte_write(blocks, pointer, index, value)
}

/// Stores a byte. A byte of a fixed block, which a valid program never stores, wants memory.
pub fn store<'a>(
    context: Context<'a>,
    name: &[u8],
    index: &Expr,
    from: &Expr,
    number: u32,
    variables: &Variables<'a>,
    state: &mut State<'a>,
) -> Result<Flow, Stop>
    ensures { (calls : Calls) → Follows (begun calls (AStore name.now index.now from.now) (place_in context.entry number) variables.now (memory_in state.old)) result variables.now state.old state.new }
{
    let Some(meter) = state.meter.step() else {
        return Err(Stop::Spent);
    };
    match byte_to_store(name, index, from, variables, &state.blocks) {
        Ok(write) => {
            if !write_byte(&mut state.blocks, write) {
                return Err(Stop::OutOfMemory);
            }
            state.meter = meter;
            Ok(Flow::Falls)
        }
        Err(reason) => {
            state.meter = meter;
            Err(stuck(context.item, number, reason))
        }
    }
}

/// The struct's block and the cell's new content.
fn cell_to_set(
    name: &[u8],
    from: &Expr,
    variables: &Variables<'_>,
    blocks: &[Held<'_>],
) -> Result<(u32, Cell), Reason>
    ensures { cell_outcome result ≡ cell_stored name.now from.now variables.now (memory_of blocks.now) }
{
    let owner = variables.get(name)?;
    let value = value_of(from, variables, blocks)?;
    match (owner, value) {
        (Value::Struct { block: owner }, Value::Number(number)) => Ok((
            owner,
            Cell::Number(number),
        )),
        (Value::Struct { block: owner }, Value::Bytes { block, offset }) => {
            Ok((owner, Cell::Bytes { block, offset }))
        }
        _ => Err(Reason::Rule),
    }
}

/// Sets a cell. A cell that is not there, which a valid program never sets, wants memory.
pub fn set_cell<'a>(
    context: Context<'a>,
    name: &[u8],
    cell: &[u8],
    from: &Expr,
    number: u32,
    variables: &Variables<'a>,
    state: &mut State<'a>,
) -> Result<Flow, Stop>
    ensures { (calls : Calls) → Follows (begun calls (ASetCell name.now cell.now from.now) (place_in context.entry number) variables.now (memory_in state.old)) result variables.now state.old state.new }
{
    let Some(meter) = state.meter.step() else {
        return Err(Stop::Spent);
    };
    match cell_to_set(name, from, variables, &state.blocks) {
        Ok((block, to)) => {
            if !write_cell(&mut state.blocks, block, cell, to) {
                return Err(Stop::OutOfMemory);
            }
            state.meter = meter;
            Ok(Flow::Falls)
        }
        Err(reason) => {
            state.meter = meter;
            Err(stuck(context.item, number, reason))
        }
    }
}
