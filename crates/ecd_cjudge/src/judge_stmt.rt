//! The rules that statements break.

ghost use Rattle.std.specs.Prelude.{◌≡◌, ◌+◌, ◌∷◌, IfOk, OnOk};
ghost use Rattle.ecd_cast.specs.declared.tree.Stmt.TheVariants.{Assign as AnAssignment};
ghost use Rattle.ecd_cast.specs.Meaning.{count_of, count_all};
ghost use Rattle.ecd_cast.specs.Kinds.{ANumber};
ghost use Rattle.ecd_cast.specs.Validity.{own_rules, stmt_faults, block_faults, known_after, assigned_kind, assignable};
ghost use Rattle.ecd_cjudge.specs.Faults.{SeesAll, Finds, place_as};
ghost use Rattle.ecd_cscope.specs.Surroundings.{Surrounds, around_as};
ghost use Rattle.ecd_cscope.specs.Variables.{kind_as, kind_if};

use crate::judge_expr::{Scene, judge_cell};
use crate::judge_source::{judge_as, judge_asked, judge_source};
use crate::spot::{Spot, note, unless};
use ecd_cast::tree::{Source, Stmt};
use ecd_cscope::directory::Surroundings;
use ecd_cscope::kind::Kind;
use ecd_cscope::variables::Variables;
use ecd_first::First;
use ecd_list::OutOfMemory;

/// What is known at a statement: variables, and the variables and bounds of the loops around.
#[derive(Drop)]
pub(crate) struct Scope<'a> {
    pub(crate) known: Variables<'a>,
    pub(crate) loops: Variables<'a>,
}

/// What an assignment to a variable of this kind takes.
fn assigned_kind<'a>(kind: Option<Kind<'a>>) -> Kind<'a>
    ensures { kind_as result ≡ assigned_kind (kind_if kind.entry) }
{
    match kind {
        Some(Kind::Number) => Kind::Number,
        Some(Kind::ReadPointer) => Kind::ReadPointer,
        _ => Kind::Unknown,
    }
}

/// Takes in what an assignment to a variable of this kind breaks.
fn judge_assignable(first: &mut First<Spot>, spot: Spot, kind: Option<Kind>)
    ensures { Finds first.old first.new (place_as spot) (assignable (kind_if kind.entry)) }
{
    match kind {
        Some(Kind::Number) | Some(Kind::ReadPointer) | Some(Kind::Unknown) => {}
        Some(_) => note(first, spot, 2),
        None => note(first, spot, 1),
    }
}

/// `name = from;`
fn judge_assign(
    scene: &Scene,
    first: &mut First<Spot>,
    name: &[u8],
    from: &Source,
) -> Result<(), OutOfMemory>
    requires { Surrounds scene.now.around.now }
    ensures { OnOk result (Finds first.old first.new (place_as scene.now.spot) (own_rules (around_as scene.now.around.now scene.now.loops.now) scene.now.known.now (AnAssignment name.now from.now))) }
{
    let kind = scene.known.kind_of(name);
    judge_assignable(first, scene.spot, kind);
    judge_source(scene, first, assigned_kind(kind), from)?;
    unless(first, !scene.loops.has(name), scene.spot, 4);
    Ok(())
}

/// Takes in the rules that a statement breaks by itself, without those inside it.
fn judge_own(scene: &Scene, first: &mut First<Spot>, stmt: &Stmt) -> Result<(), OutOfMemory>
    requires { Surrounds scene.now.around.now }
    ensures { OnOk result (Finds first.old first.new (place_as scene.now.spot) (own_rules (around_as scene.now.around.now scene.now.loops.now) scene.now.known.now stmt.now)) }
{
    match stmt {
        Stmt::Number { from, .. } => judge_source(scene, first, Kind::Number, from),
        Stmt::Pointer { from, .. } => judge_as(scene, first, Kind::ReadPointer, from),
        Stmt::Assign { name, from } => judge_assign(scene, first, name.as_slice(), from),
        Stmt::Store { name, index, from } => {
            judge_asked(scene, first, Kind::WritePointer, name.as_slice());
            judge_as(scene, first, Kind::Number, index)?;
            judge_as(scene, first, Kind::Number, from)?;
            Ok(())
        }
        Stmt::SetCell { name, cell, from } => {
            let kind = judge_cell(scene, first, name.as_slice(), cell.as_slice());
            judge_as(scene, first, kind, from)?;
            Ok(())
        }
        Stmt::If { test, .. } => judge_as(scene, first, Kind::Truth, test),
        Stmt::For { bound, .. } => {
            judge_asked(scene, first, Kind::Number, bound.as_slice());
            Ok(())
        }
        Stmt::Return(from) => judge_as(scene, first, Kind::Number, from),
    }
}

impl<'a> Scope<'a> {
    /// The variable and the bound of a loop that begins.
    fn enter(&mut self, name: &'a [u8], bound: &'a [u8]) -> Result<(), OutOfMemory>
        ensures known { OnOk result (self.new.known ≡ (name.entry.now, ANumber) ∷ self.old.known) }
        ensures loops { OnOk result (self.new.loops ≡ (name.entry.now, ANumber) ∷ (bound.entry.now, ANumber) ∷ self.old.loops) }
    {
        self.loops.declare(bound, Kind::Number)?;
        self.loops.declare(name, Kind::Number)?;
        self.known.declare(name, Kind::Number)?;
        Ok(())
    }
}

/// Takes in the rules that the statements of a block break, and answers the number behind the last one.
#[cycle(statements)]
pub(crate) fn judge_block<'a>(
    around: &Surroundings<'a>,
    scope: &mut Scope<'a>,
    first: &mut First<Spot>,
    spot: Spot,
    stmts: &'a [Stmt],
    levels: u32,
) -> Result<u32, OutOfMemory>
    requires { Surrounds around.now }
    ensures faults { OnOk result (SeesAll first.old first.new (block_faults (around_as around.now scope.old.loops) scope.old.known stmts.now (place_as spot))) }
    ensures next { IfOk result (λ n. n ≡ spot.statement + count_all stmts.now) }
    ensures known { OnOk result (scope.new.known ≡ scope.old.known) }
    ensures loops { OnOk result (scope.new.loops ≡ scope.old.loops) }
{
    let deeper = levels.checked_sub(1).ok_or(OutOfMemory)?;
    let outer = scope.known.len();
    let mut statement = spot.statement;
    for stmt in stmts {
        let here = Spot {
            item: spot.item,
            statement,
        };
        statement = judge_stmt(around, scope, first, here, stmt, deeper)?;
    }
    scope.known.leave(outer)?;
    Ok(statement)
}

#[cycle(statements)]
fn judge_stmt<'a>(
    around: &Surroundings<'a>,
    scope: &mut Scope<'a>,
    first: &mut First<Spot>,
    spot: Spot,
    stmt: &'a Stmt,
    levels: u32,
) -> Result<u32, OutOfMemory>
    requires { Surrounds around.now }
    ensures faults { OnOk result (SeesAll first.old first.new (stmt_faults (around_as around.now scope.old.loops) scope.old.known stmt.now (place_as spot))) }
    ensures next { IfOk result (λ n. n ≡ spot.statement + count_of stmt.now) }
    ensures known { OnOk result (scope.new.known ≡ known_after stmt.now scope.old.known) }
    ensures loops { OnOk result (scope.new.loops ≡ scope.old.loops) }
{
    let scene = Scene {
        around,
        known: &scope.known,
        loops: &scope.loops,
        spot,
    };
    judge_own(&scene, first, stmt)?;
    let inner = spot.statement.checked_add(1).ok_or(OutOfMemory)?;
    let inside = Spot {
        item: spot.item,
        statement: inner,
    };
    match stmt {
        Stmt::Number { name, .. } => {
            scope.known.declare(name.as_slice(), Kind::Number)?;
            Ok(inner)
        }
        Stmt::Pointer { name, .. } => {
            scope.known.declare(name.as_slice(), Kind::ReadPointer)?;
            Ok(inner)
        }
        Stmt::Assign { .. } | Stmt::Store { .. } | Stmt::SetCell { .. } | Stmt::Return(_) => {
            Ok(inner)
        }
        Stmt::If { yes, no, .. } => {
            let behind = judge_block(around, scope, first, inside, yes.as_slice(), levels)?;
            let second = Spot {
                item: spot.item,
                statement: behind,
            };
            let next = judge_block(around, scope, first, second, no.as_slice(), levels)?;
            Ok(next)
        }
        Stmt::For { name, bound, body } => {
            let known = scope.known.len();
            let loops = scope.loops.len();
            scope.enter(name.as_slice(), bound.as_slice())?;
            let next = judge_block(around, scope, first, inside, body.as_slice(), levels)?;
            scope.known.leave(known)?;
            scope.loops.leave(loops)?;
            Ok(next)
        }
    }
}
