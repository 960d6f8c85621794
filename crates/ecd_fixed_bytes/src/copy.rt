//! The function that copies bytes.

ghost use Rattle.std.specs.Prelude.{◌≡◌, [], ◌∷◌, ◌++◌, IfOk, OnOk, codes};
ghost use Rattle.ecd_cast.specs.declared.tree.CItem.TheVariants.{Function as AFunction};
ghost use Rattle.ecd_cast.specs.Kept.{IsNew};
ghost use Rattle.ecd_cast.specs.Meaning.{calls_of};
ghost use Rattle.ecd_emit.specs.Shorthands as spec;
ghost use Rattle.ecd_emit.specs.Variables as v;
ghost use Rattle.ecd_fixed_bytes.specs.Copier as trees;
ghost use Rattle.ecd_fixed_bytes.specs.Copier.{CopiesBytes};
ghost use Rattle.ecd_emit.specs.Among.{IsAmong};

use ecd_cast::tree::{CItem, Function, Op, ParamList, Stmt, StmtList};
use ecd_cbuild::build::{load, name, one, var};
use ecd_cbuild::builder::Builder;
use ecd_emit::shorthands::{function, number, of_two, output, pointer, put};
use ecd_list::OutOfMemory;
use std::alloc::Global;

/// `out[(at + i)] = (uint8_t)(uint64_t)from[i];`
fn turn(alloc: Global) -> Result<StmtList, OutOfMemory>
    ensures { IfOk result (λ b. b ≡ trees.copy_turn) }
{
    let byte = load(alloc, b"from", var(alloc, b"i")?)?;
    let place = of_two(alloc, Op::Add, b"at", b"i")?;
    one(alloc, put(alloc, place, byte)?)
}

fn turns(alloc: Global) -> Result<Stmt, OutOfMemory>
    ensures { IfOk result (λ s. s ≡ trees.copy_turns) }
{
    Ok(Stmt::For {
        name: name(alloc, b"i")?,
        bound: name(alloc, b"count")?,
        body: turn(alloc)?,
    })
}

fn body(alloc: Global) -> Result<StmtList, OutOfMemory>
    ensures { IfOk result (λ b. b ≡ trees.copy_body) }
{
    let mut body = one(alloc, turns(alloc)?)?;
    body.push(Stmt::Return(of_two(alloc, Op::Add, b"at", b"count")?))?;
    Ok(body)
}

fn params(alloc: Global) -> Result<ParamList, OutOfMemory>
    ensures { IfOk result (λ ps. ps ≡ spec.output v.out ∷ spec.number v.at ∷ spec.pointer v.from ∷ spec.number v.count ∷ []) }
{
    let mut params = one(alloc, output(alloc, b"out")?)?;
    params.push(number(alloc, b"at")?)?;
    params.push(pointer(alloc, b"from")?)?;
    params.push(number(alloc, b"count")?)?;
    Ok(params)
}

#[tactic(auto, unfolding(crate::specs::Copier::copy_bytes))]
fn copy_bytes(alloc: Global) -> Result<Function, OutOfMemory>
    ensures { IfOk result (λ f. f ≡ trees.copy_bytes) }
{
    function(alloc, b"copy_bytes", params(alloc)?, body(alloc)?)
}

/// Puts the function `copy_bytes` behind the builder's items. The name is not taken before.
///
/// # Errors
///
/// `OutOfMemory` where memory is wanting. The builder may only be dropped then.
pub fn copier(alloc: Global, builder: &mut Builder) -> Result<(), OutOfMemory>
    requires { IsNew (codes "copy_bytes") builder.old }
    ensures items { OnOk result (builder.new ≡ builder.old ++ AFunction trees.copy_bytes ∷ []) }
    ensures there { OnOk result (IsAmong trees.copy_bytes builder.new) }
    ensures mean { OnOk result (CopiesBytes (calls_of builder.new (codes "copy_bytes"))) }
{
    builder.push(CItem::Function(copy_bytes(alloc)?))?;
    Ok(())
}
