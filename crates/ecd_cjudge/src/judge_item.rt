//! The rules that structs and functions break.

ghost use Rattle.std.specs.Prelude.{◌≡◌, ◌+◌, ◌<◌, ◌^◌, [], ◌∷◌, IfOk, OnOk, flat_map, length, take, drop};
ghost use Rattle.ecd_cast.specs.declared.tree.CItem.TheVariants.{Struct as AStructDecl, Function as AFunction};
ghost use Rattle.ecd_cast.specs.Validity.{param_broken, struct_names, params_known, item_faults, faults_from};
ghost use Rattle.ecd_cjudge.specs.Faults.{SeesAll, Finds, place_as};
ghost use Rattle.ecd_cscope.specs.Surroundings.{Directs, HasCells, Surrounds, head_rules};

use crate::judge_end::block_returns;
use crate::judge_names::{name_block, name_cells, name_params};
use crate::judge_stmt::{Scope, judge_block};
use crate::spot::{Spot, unless};
use ecd_cast::tree::{CItem, Function, Param, ParamKind, StructDecl};
use ecd_cscope::directory::{Directory, Surroundings};
use ecd_cscope::kind::Kind;
use ecd_cscope::variables::Variables;
use ecd_first::First;
use ecd_list::{MOST_LEVELS, OutOfMemory};
use std::alloc::Global;
use std::collections::BTreeSet;

/// The struct of a parameter.
fn judge_param(around: &Surroundings, first: &mut First<Spot>, spot: Spot, kind: &ParamKind)
    requires { Surrounds around.now }
    ensures { Finds first.old first.new (place_as spot) (param_broken (struct_names (take around.now.at_ around.now.items.now)) kind.now) }
{
    match kind {
        ParamKind::Struct(name) => {
            unless(first, around.knows_struct(name.as_slice()), spot, 1);
        }
        ParamKind::Number | ParamKind::ReadPointer | ParamKind::WritePointer => {}
    }
}

/// The structs of parameters.
fn judge_params(around: &Surroundings, first: &mut First<Spot>, spot: Spot, params: &[Param])
    requires { Surrounds around.now }
    ensures { Finds first.old first.new (place_as spot) (flat_map (λ q. param_broken (struct_names (take around.now.at_ around.now.items.now)) q.kind) params.now) }
{
    for param in params {
        judge_param(around, first, spot, &param.kind);
    }
}

/// What is known where a function begins. Of two parameters of one name the first counts.
fn scope_of<'a>(alloc: Global, params: &'a [Param]) -> Result<Scope<'a>, OutOfMemory>
    ensures known { IfOk result (λ s. s.known ≡ params_known params.now) }
    ensures loops { IfOk result (λ s. s.loops ≡ []) }
{
    let mut scope = Scope {
        known: Variables::new(alloc),
        loops: Variables::new(alloc),
    };
    for number in (0..params.len()).rev() {
        let param = &params[number];
        scope
            .known
            .declare(param.name.as_slice(), Kind::of_param(&param.kind))?;
    }
    Ok(scope)
}

fn judge_struct(
    around: &Surroundings,
    first: &mut First<Spot>,
    declaration: &StructDecl,
) -> Result<(), OutOfMemory>
    requires { Surrounds around.now }
    ensures { OnOk result (SeesAll first.old first.new (item_faults (take around.now.at_ around.now.items.now) (AStructDecl declaration.now) (drop around.now.at_ around.now.items.now) around.now.at_)) }
{
    let head = Spot {
        item: around.at_,
        statement: 0,
    };
    let is_known = around.knows_struct(declaration.name.as_slice());
    unless(first, !is_known, head, 6);
    let mut names = BTreeSet::new(around.alloc);
    name_cells(first, &mut names, head, declaration.cells.as_slice())?;
    Ok(())
}

/// What the head of a function breaks, but for its names.
fn judge_head(
    around: &Surroundings,
    first: &mut First<Spot>,
    head: Spot,
    function: &Function,
) -> Result<(), OutOfMemory>
    requires { Surrounds around.now }
    ensures { OnOk result (Finds first.old first.new (place_as head) (head_rules (take around.now.at_ around.now.items.now) function.now)) }
{
    judge_params(around, first, head, function.params.as_slice());
    let ends = block_returns(function.body.as_slice(), MOST_LEVELS)?;
    unless(first, ends, head, 5);
    let is_known = around.knows_function(function.name.as_slice());
    unless(first, !is_known, head, 6);
    Ok(())
}

fn judge_function(
    around: &Surroundings,
    first: &mut First<Spot>,
    function: &Function,
) -> Result<(), OutOfMemory>
    requires { Surrounds around.now }
    ensures { OnOk result (SeesAll first.old first.new (item_faults (take around.now.at_ around.now.items.now) (AFunction function.now) (drop around.now.at_ around.now.items.now) around.now.at_)) }
{
    let head = Spot {
        item: around.at_,
        statement: 0,
    };
    let begin = Spot {
        item: around.at_,
        statement: 1,
    };
    judge_head(around, first, head, function)?;
    let mut names = BTreeSet::new(around.alloc);
    name_params(first, &mut names, head, function.params.as_slice())?;
    name_block(
        first,
        &mut names,
        begin,
        function.body.as_slice(),
        MOST_LEVELS,
    )?;
    let mut scope = scope_of(around.alloc, function.params.as_slice())?;
    judge_block(
        around,
        &mut scope,
        first,
        begin,
        function.body.as_slice(),
        MOST_LEVELS,
    )?;
    Ok(())
}

/// Takes in the rules that the items break, in text order.
pub(crate) fn judge_items(
    alloc: Global,
    items: &[CItem],
    directory: &Directory,
    first: &mut First<Spot>,
) -> Result<(), OutOfMemory>
    requires directs { Directs items.now directory.now }
    requires cells { HasCells items.now directory.now.cells.items }
    requires few { length items.now < 2 ^ 32 }
    ensures { OnOk result (SeesAll first.old first.new (faults_from [] items.now 0)) }
{
    let mut at_ = 0u32;
    for item in items {
        let around = Surroundings {
            alloc,
            items,
            directory,
            at_,
        };
        match item {
            CItem::Struct(declaration) => judge_struct(&around, first, declaration)?,
            CItem::Function(function) => judge_function(&around, first, function)?,
        }
        at_ += 1;
    }
    Ok(())
}
