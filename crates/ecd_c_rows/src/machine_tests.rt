//! A machine and all of its calls, on a program that is validated.

ghost use Rattle.std.specs.Prelude.{IfOk, Some, ◌≡◌, ◌<◌, [], ◌∷◌, codes, length, slice_get};
ghost use Rattle.ecd_cast.specs.declared.tree.CellKind.TheVariants.{Number as ANumberCell, Pointer as APointerCell};
ghost use Rattle.ecd_cast.specs.Validity.{structs_of};
ghost use Rattle.ecd_cast.specs.Spelling.{IsSpelledStmt, IsSpelledBlock, IsSpelledItem, IsSpelledProgram};

use ecd_cast::tree::{
    CItem, CItemList, CellInfo, CellInfoList, CellKind, Expr, Function, Param, ParamKind,
    ParamList, Program, Stmt, StmtList, StructDecl,
};
use ecd_cast::value::Cell;
use ecd_cbuild::build::{name, one, set_cell, var};
use ecd_ceval::{Arg, Block, BlockList, Halt, Machine};
use ecd_cjudge::validate::validate;
use ecd_list::{ByteList, OutOfMemory};
use std::alloc::Global;
use std::test::Fail;

/// `dst[0ull] = (uint8_t)n;`
fn store_first(alloc: Global) -> Result<Stmt, OutOfMemory>
    ensures { IfOk result (λ s. IsSpelledStmt s) }
{
    Ok(Stmt::Store {
        name: name(alloc, b"dst")?,
        index: Expr::Number(0),
        from: var(alloc, b"n")?,
    })
}

/// `out->p = buf;`
fn point_there(alloc: Global) -> Result<Stmt, OutOfMemory>
    ensures { IfOk result (λ s. IsSpelledStmt s) }
{
    Ok(set_cell(alloc, b"out", b"p", var(alloc, b"buf")?)?)
}

/// `out->v = n;`
fn set_number(alloc: Global) -> Result<Stmt, OutOfMemory>
    ensures { IfOk result (λ s. IsSpelledStmt s) }
{
    Ok(set_cell(alloc, b"out", b"v", var(alloc, b"n")?)?)
}

/// `return n;`
fn give_number(alloc: Global) -> Result<Stmt, OutOfMemory>
    ensures { IfOk result (λ s. IsSpelledStmt s) }
{
    Ok(Stmt::Return(var(alloc, b"n")?))
}

fn body(alloc: Global) -> Result<StmtList, OutOfMemory>
    ensures { IfOk result (λ b. IsSpelledBlock b) }
{
    let mut body = one(alloc, store_first(alloc)?)?;
    body.push(set_number(alloc)?)?;
    body.push(point_there(alloc)?)?;
    body.push(give_number(alloc)?)?;
    Ok(body)
}

/// `uint64_t look(const uint8_t *buf, uint64_t n, uint8_t *dst, struct s0 *out)`
fn look(alloc: Global) -> Result<CItem, OutOfMemory>
    ensures { IfOk result (λ i. IsSpelledItem i) }
{
    let mut params = ParamList::new(alloc);
    params.push(Param {
        name: name(alloc, b"buf")?,
        kind: ParamKind::ReadPointer,
    })?;
    params.push(Param {
        name: name(alloc, b"n")?,
        kind: ParamKind::Number,
    })?;
    params.push(Param {
        name: name(alloc, b"dst")?,
        kind: ParamKind::WritePointer,
    })?;
    params.push(Param {
        name: name(alloc, b"out")?,
        kind: ParamKind::Struct(name(alloc, b"s0")?),
    })?;
    Ok(CItem::Function(Function {
        name: name(alloc, b"look")?,
        params,
        body: body(alloc)?,
    }))
}

/// `struct s0 { uint64_t v; const uint8_t *p; };`
fn declaration(alloc: Global) -> Result<StructDecl, OutOfMemory>
    ensures is { IfOk result (λ s. s ≡ record { name = codes "s0"; cells = record { name = codes "v"; kind = ANumberCell } ∷ record { name = codes "p"; kind = APointerCell } ∷ [] }) }
    ensures spelled { IfOk result (λ s. IsSpelledItem (CItem.Struct s)) }
{
    let mut cells = CellInfoList::new(alloc);
    cells.push(CellInfo {
        name: name(alloc, b"v")?,
        kind: CellKind::Number,
    })?;
    cells.push(CellInfo {
        name: name(alloc, b"p")?,
        kind: CellKind::Pointer,
    })?;
    Ok(StructDecl {
        name: name(alloc, b"s0")?,
        cells,
    })
}

fn program(alloc: Global) -> Result<Program, OutOfMemory>
    ensures spelled { IfOk result (λ p. IsSpelledProgram p) }
    ensures has_struct { IfOk result (λ p. 0 < length (structs_of p.items)) }
    ensures first { IfOk result (λ p. slice_get (structs_of p.items) 0 ≡ Some (record { name = codes "s0"; cells = record { name = codes "v"; kind = ANumberCell } ∷ record { name = codes "p"; kind = APointerCell } ∷ [] })) }
{
    let mut items = CItemList::new(alloc);
    items.push(CItem::Struct(declaration(alloc)?))?;
    items.push(look(alloc)?)?;
    Ok(Program { depth: 1, items })
}

#[test]
fn a_machine_answers_the_same_each_time(rt: HostRuntime) -> Result<(), Fail> {
    let alloc = rt.alloc();
    let valid = validate(alloc, program(alloc)?)?;
    let buffer = [2, 7, 9, 1];
    let mut blocks = BlockList::new(alloc);
    blocks.push(Block::Fixed(buffer.as_slice()))?;
    blocks.push(Block::Output(ByteList::from_slice(alloc, b"\xff\xff")?))?;
    blocks.push(Block::Cells(0))?;
    let mut machine = Machine::prepare(alloc, &valid, blocks)?;
    assert!(rt; machine.cells(2) == [Cell::Unset, Cell::Unset].as_slice());
    assert_eq!(rt; machine.program().call_depth(), 1);
    let place = Arg::Bytes {
        block: 0,
        offset: 2,
    };
    let target = Arg::Bytes {
        block: 1,
        offset: 0,
    };
    let args = [place, Arg::Number(0x102), target, Arg::Struct { block: 2 }];
    let read = [place, Arg::Number(0x102), place, Arg::Struct { block: 2 }];
    assert!(rt; !machine.fits(1, &read));
    assert!(rt; !machine.fits(0, &args));
    assert!(rt; !machine.fits(2, &args));
    'calls: for _ in 0..1000 {
        assert!(rt; machine.fits(1, &args));
        let answer = machine.call(1, &args, Some(4));
        assert!(rt; answer == Ok(0x102));
    }
    let there = Cell::Bytes {
        block: 0,
        offset: 2,
    };
    assert!(rt; machine.cells(2) == [Cell::Number(0x102), there].as_slice());
    assert!(rt; machine.output(1) == [2, 0xff].as_slice());
    Ok(())
}

#[test]
fn a_view_is_a_part_of_the_buffer_and_may_outlive_the_machine(rt: HostRuntime) -> Result<(), Fail> {
    let alloc = rt.alloc();
    let valid = validate(alloc, program(alloc)?)?;
    let buffer = [2, 7, 9, 1];
    let mut blocks = BlockList::new(alloc);
    blocks.push(Block::Fixed(buffer.as_slice()))?;
    blocks.push(Block::Cells(0))?;
    let mut machine = Machine::prepare(alloc, &valid, blocks)?;
    let there = Cell::Bytes {
        block: 0,
        offset: 1,
    };
    machine.set(1, 0, Cell::Number(9));
    machine.set(1, 1, there);
    assert!(rt; machine.cells(1) == [Cell::Number(9), there].as_slice());
    let view = machine.view(1, 1, 2);
    drop(machine);
    assert!(rt; view == [7, 9].as_slice());
    Ok(())
}

#[test]
fn halts_are_told_in_words(rt: HostRuntime) -> Result<(), Fail> {
    let stuck = Halt::Stuck {
        reason: 1,
        item: 0,
        statement: 2,
    };
    for (halt, words) in [
        (stuck, "stuck 1 item 0 statement 2"),
        (Halt::Spent { steps: 7 }, "spent 7"),
        (Halt::OutOfMemory { steps: 7 }, "out of memory"),
    ] {
        assert_eq!(rt; halt.to_string(rt.alloc())?.as_str(), words);
    }
    Ok(())
}
