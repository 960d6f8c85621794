//! The reader of one number.

ghost use Rattle.std.specs.Prelude.{◌≡◌, IfOk};
ghost use Rattle.ecd_compile.specs.Reader as spec;
ghost use Rattle.ecd_cast.specs.Spelling.{IsSpelledProgram};
ghost use Rattle.ecd_compile.specs.Reads.{ReadsByte, HasInterface};

use ecd_cast::tree::{
    CItem, CellInfo, CellKind, Expr, Function, Op, Param, ParamKind, ParamList, Stmt, StmtList,
    StructDecl,
};
use ecd_cbuild::build::{binary, give, load, name, one, set_cell, var, when};
use ecd_cbuild::builder::{Builder, Valid};
use ecd_list::{List, OutOfMemory};
use std::alloc::Global;

/// `if (len < 1ull) { return 0ull; } else { }`
fn too_short(alloc: Global) -> Result<Stmt, OutOfMemory>
    ensures { IfOk result (λ s. s ≡ spec.too_short) }
{
    let test = binary(alloc, Op::Lt, var(alloc, b"len")?, Expr::Number(1))?;
    Ok(when(alloc, test, one(alloc, give(0))?))
}

/// `if ((uint64_t)buf[0ull] != NUMBER) { return 0ull; } else { }`
fn other_byte(alloc: Global, number: u8) -> Result<Stmt, OutOfMemory>
    ensures { IfOk result (λ s. s ≡ spec.other_byte number) }
{
    let first = load(alloc, b"buf", Expr::Number(0))?;
    let test = binary(alloc, Op::Ne, first, Expr::Number(number as u64))?;
    Ok(when(alloc, test, one(alloc, give(0))?))
}

fn body(alloc: Global, number: u8) -> Result<StmtList, OutOfMemory>
    ensures { IfOk result (λ b. b ≡ spec.reader_body number) }
{
    let mut body = List::new(alloc);
    body.push(too_short(alloc)?)?;
    body.push(other_byte(alloc, number)?)?;
    body.push(set_cell(alloc, b"out", b"unit", Expr::Number(0))?)?;
    body.push(give(1))?;
    Ok(body)
}

fn params(alloc: Global) -> Result<ParamList, OutOfMemory>
    ensures { IfOk result (λ ps. ps ≡ spec.reader_params) }
{
    let mut params = List::new(alloc);
    params.push(Param {
        name: name(alloc, b"buf")?,
        kind: ParamKind::ReadPointer,
    })?;
    params.push(Param {
        name: name(alloc, b"len")?,
        kind: ParamKind::Number,
    })?;
    params.push(Param {
        name: name(alloc, b"out")?,
        kind: ParamKind::Struct(name(alloc, b"s0")?),
    })?;
    Ok(params)
}

/// `struct s0 { uint64_t unit; };`
fn unit_struct(alloc: Global) -> Result<StructDecl, OutOfMemory>
    ensures { IfOk result (λ s. s ≡ spec.unit_struct) }
{
    let cell = CellInfo {
        name: name(alloc, b"unit")?,
        kind: CellKind::Number,
    };
    Ok(StructDecl {
        name: name(alloc, b"s0")?,
        cells: one(alloc, cell)?,
    })
}

fn function(alloc: Global, number: u8) -> Result<Function, OutOfMemory>
    ensures { IfOk result (λ f. f ≡ spec.reader number) }
{
    Ok(Function {
        name: name(alloc, b"read_0")?,
        params: params(alloc)?,
        body: body(alloc, number)?,
    })
}

/// The program whose `read_0` takes the one byte of this number.
pub fn reader(alloc: Global, number: u8) -> Result<Valid, OutOfMemory>
    ensures reads { IfOk result (λ p. ReadsByte number p) }
    ensures interface { IfOk result (λ p. HasInterface p.items) }
    ensures spelled { IfOk result (λ p. IsSpelledProgram p) }
{
    let mut builder = Builder::new(alloc);
    builder.push(CItem::Struct(unit_struct(alloc)?))?;
    builder.push(CItem::Function(function(alloc, number)?))?;
    Ok(builder.finish())
}
