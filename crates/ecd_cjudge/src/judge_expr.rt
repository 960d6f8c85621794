//! The rules that expressions and calls break.

ghost use Rattle.std.specs.Prelude.{◌≡◌, IfOk, OnOk};
ghost use Rattle.ecd_cast.specs.Kinds.{kind_of, broken_by, member, asked_pointer, asked_cell, kind_in, unless_known, or_unknown};
ghost use Rattle.ecd_cjudge.specs.Faults.{Finds, place_as};
ghost use Rattle.ecd_cscope.specs.Surroundings.{Surrounds, structs_before};
ghost use Rattle.ecd_cscope.specs.Variables.{kind_as};

use crate::spot::{Spot, note, unless};
use ecd_cast::tree::Expr;
use ecd_cscope::directory::Surroundings;
use ecd_cscope::kind::Kind;
use ecd_cscope::variables::Variables;
use ecd_first::First;
use ecd_list::OutOfMemory;

/// What an expression is judged by: what stands round its statement, the variables that are known there, and where it stands.
#[derive(Clone, Copy)]
pub(crate) struct Scene<'s, 'a> {
    pub(crate) around: &'s Surroundings<'a>,
    pub(crate) known: &'s Variables<'a>,
    /// The variables and bounds of the loops around.
    pub(crate) loops: &'s Variables<'a>,
    pub(crate) spot: Spot,
}

/// A variable that loads go through.
fn judge_pointer(scene: &Scene, first: &mut First<Spot>, name: &[u8])
    ensures { Finds first.old first.new (place_as scene.now.spot) (asked_pointer (kind_in scene.now.known.now name.now)) }
{
    match scene.known.kind_of(name) {
        Some(Kind::ReadPointer) | Some(Kind::WritePointer) | Some(Kind::Unknown) => {}
        Some(_) => note(first, scene.spot, 2),
        None => note(first, scene.spot, 1),
    }
}

/// A variable before `->`, and the cell behind it, whose kind is answered.
pub(crate) fn judge_cell<'a>(
    scene: &Scene<'_, 'a>,
    first: &mut First<Spot>,
    name: &[u8],
    cell: &[u8],
) -> Kind<'a>
    requires { Surrounds scene.now.around.now }
    ensures faults { Finds first.old first.new (place_as scene.now.spot) (asked_cell (structs_before scene.now.around.now) (kind_in scene.now.known.now name.now) cell.now) }
    ensures kind { kind_as result ≡ member (structs_before scene.now.around.now) (kind_in scene.now.known.now name.now) cell.now }
{
    match scene.known.kind_of(name) {
        Some(Kind::Struct(declaration)) => match scene.around.cell(declaration, cell) {
            Some(kind) => kind,
            None => {
                note(first, scene.spot, 1);
                Kind::Unknown
            }
        },
        Some(Kind::Unknown) => Kind::Unknown,
        Some(_) => {
            note(first, scene.spot, 2);
            Kind::Unknown
        }
        None => {
            note(first, scene.spot, 1);
            Kind::Unknown
        }
    }
}

/// The kind of a variable.
fn judge_variable<'a>(scene: &Scene<'_, 'a>, first: &mut First<Spot>, name: &[u8]) -> Kind<'a>
    ensures faults { Finds first.old first.new (place_as scene.now.spot) (unless_known (kind_in scene.now.known.now name.now)) }
    ensures kind { kind_as result ≡ or_unknown (kind_in scene.now.known.now name.now) }
{
    match scene.known.kind_of(name) {
        Some(kind) => kind,
        None => {
            note(first, scene.spot, 1);
            Kind::Unknown
        }
    }
}

/// Takes in the rules that an expression breaks, and answers its kind.
pub(crate) fn judge_expr<'a>(
    scene: &Scene<'_, 'a>,
    first: &mut First<Spot>,
    expr: &Expr,
    levels: u32,
) -> Result<Kind<'a>, OutOfMemory>
    requires { Surrounds scene.now.around.now }
    ensures faults { OnOk result (Finds first.old first.new (place_as scene.now.spot) (broken_by (structs_before scene.now.around.now) scene.now.known.now expr.now)) }
    ensures kind { IfOk result (λ k. kind_as k ≡ kind_of (structs_before scene.now.around.now) scene.now.known.now expr.now) }
{
    let deeper = levels.checked_sub(1).ok_or(OutOfMemory)?;
    match expr {
        Expr::Number(_) => Ok(Kind::Number),
        Expr::Var(name) => Ok(judge_variable(scene, first, name.as_slice())),
        Expr::Cell(name, cell) => Ok(judge_cell(scene, first, name.as_slice(), cell.as_slice())),
        Expr::Load(name, index) => {
            judge_pointer(scene, first, name.as_slice());
            let kind = judge_expr(scene, first, index.get(), deeper)?;
            unless(first, Kind::Number.takes(kind), scene.spot, 2);
            Ok(Kind::Number)
        }
        Expr::Binary(op, left, right) => {
            let left = judge_expr(scene, first, left.get(), deeper)?;
            let right = judge_expr(scene, first, right.get(), deeper)?;
            unless(first, Kind::fit(*op, left, right), scene.spot, 2);
            Ok(Kind::of_result(*op, left))
        }
        Expr::Not(operand) => {
            let kind = judge_expr(scene, first, operand.get(), deeper)?;
            unless(first, Kind::Truth.takes(kind), scene.spot, 2);
            Ok(Kind::Truth)
        }
    }
}
